// The lines of a listing, printed on a page that is lent: of numbers, and of lists that are lent. Each function asks for room for
// exactly what it prints, moves the page's place past it, and changes nothing else. It uses `text` for words and numbers, and
// `plan` for an arc of a list. Internal.
#![tactic(auto)]

ghost use Rattle.std.specs.Prelude.{◌/◌, ◌≤◌, length};
ghost use Rattle.plan.specs.Limits.{arc_entries};
ghost use Rattle.text.specs.Page.{RoomFor, PrintedOn};
ghost use Rattle.lines.specs.Lines.{pair_line, size_line, refused_line, arc_line, none_line, set_line, cited_line};
ghost use Rattle.lines.specs.Rows.{marked, arc_rows, cited_rows};

use plan::Arc;
use text::Page;

// Two words, each with a number after it.
fn print_pair(page: &mut Page, first: &[u8], x: u64, second: &[u8], y: u64)
    requires { RoomFor (pair_line first.now x second.now y) page.old }
    ensures { PrintedOn (pair_line first.now x second.now y) page.old page.new }
{
    page.print_word(first);
    page.print_fields(&[x]);
    page.print_line(second, &[y]);
}

// How many nodes and arcs a plan has.
pub fn print_size(page: &mut Page, nodes: usize, arcs: usize)
    requires { RoomFor (size_line nodes arcs) page.old }
    ensures { PrintedOn (size_line nodes arcs) page.old page.new }
{
    print_pair(page, b"nodes", nodes as u64, b" arcs", arcs as u64);
}

// The number by which a file is turned down, and the index of what it is about.
pub fn print_refused(page: &mut Page, number: u32, index: usize)
    requires { RoomFor (refused_line number index) page.old }
    ensures { PrintedOn (refused_line number index) page.old page.new }
{
    print_pair(page, b"refused", number as u64, b" at", index as u64);
}

// That a plan has no flow, and by how much.
pub fn print_none(page: &mut Page, shortfall: u64)
    requires { RoomFor (none_line shortfall) page.old }
    ensures { PrintedOn (none_line shortfall) page.old page.new }
{
    page.print_line(b"none", &[shortfall]);
}

// The line of arc k, which has this count in the first flow and this narrowed range.
fn print_arc(page: &mut Page, k: usize, arc: Arc, count: u32, low: u32, high: u32)
    requires { RoomFor (arc_line k arc count low high) page.old }
    ensures { PrintedOn (arc_line k arc count low high) page.old page.new }
{
    page.print_line(
        b"arc",
        &[
            k as u64,
            arc.from as u64,
            arc.to as u64,
            arc.low as u64,
            arc.high as u64,
            count as u64,
            low as u64,
            high as u64,
        ],
    );
}

// A line for each arc.
pub fn print_arcs(page: &mut Page, arcs: &[u32], counts: &[u32], lows: &[u32], highs: &[u32])
    requires counts { length arcs.now / arc_entries ≤ length counts.now }
    requires lows { length arcs.now / arc_entries ≤ length lows.now }
    requires highs { length arcs.now / arc_entries ≤ length highs.now }
    requires page { RoomFor (arc_rows arcs.now counts.now lows.now highs.now) page.old }
    ensures { PrintedOn (arc_rows arcs.now counts.now lows.now highs.now) page.old page.new }
{
    for k in 0..arcs.len() / Arc::ENTRIES {
        print_arc(page, k, Arc::at(arcs, k), counts[k], lows[k], highs[k]);
    }
}

// The nodes that are marked 1, in one line.
pub fn print_set(page: &mut Page, marks: &[u8])
    requires { RoomFor (set_line (length marks.now) (marked marks.now)) page.old }
    ensures { PrintedOn (set_line (length marks.now) (marked marks.now)) page.old page.new }
{
    page.print_word(b"in");
    for (v, &mark) in marks.iter().enumerate() {
        if mark == 1 {
            page.print_fields(&[v as u64]);
        }
    }
    page.print_word(b"\n");
}

// The line of arc k, if its high (2) or its low (1) is cited.
fn print_cited(page: &mut Page, mark: u32, k: usize, arc: Arc)
    requires { RoomFor (cited_line mark k arc) page.old }
    ensures { PrintedOn (cited_line mark k arc) page.old page.new }
{
    match mark {
        2 => print_pair(page, b"cites", k as u64, b" high", arc.high as u64),
        1 => print_pair(page, b"cites", k as u64, b" low", arc.low as u64),
        _ => {}
    }
}

// A line for each bound that is cited, in arc order.
pub fn print_all_cited(page: &mut Page, arcs: &[u32], marks: &[u32])
    requires marks { length arcs.now / arc_entries ≤ length marks.now }
    requires page { RoomFor (cited_rows arcs.now marks.now) page.old }
    ensures { PrintedOn (cited_rows arcs.now marks.now) page.old page.new }
{
    for k in 0..arcs.len() / Arc::ENTRIES {
        print_cited(page, marks[k], k, Arc::at(arcs, k));
    }
}
