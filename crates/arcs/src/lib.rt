// A lent list of arc structs, taken apart into the flat list that the requests read. It uses `plan` for what an arc is and
// how many a plan may have, and `lists` for writing. Internal.
#![tactic(auto)]

ghost use Rattle.std.specs.Prelude.{◌≡◌, ◌*◌, length};
ghost use Rattle.plan.specs.Limits.{arc_entries};
ghost use Rattle.arcs.specs.Taken.{cut_at, taken_apart};

use lists::write_arcs;
pub use plan::Arc;
use plan::Plan;

// The numbers of one arc more than a plan may have: a longer list is cut there.
pub const ROOM: usize = (Plan::MOST_ARCS + 1) * Arc::ENTRIES;

// How many arcs of a list are taken apart: all, or one more than a plan may have.
fn cut(count: usize) -> usize
    ensures { result ≡ cut_at count }
{
    count.min(Plan::MOST_ARCS + 1)
}

// How many numbers these are in the flat list.
pub fn in_use(count: usize) -> usize
    ensures { result ≡ cut_at count * arc_entries }
{
    cut(count) * Arc::ENTRIES
}

// Takes the arcs of a list apart into a room, whatever it held. This is not inlined: that way the list stands once on the stack
// of an entry, in the array that the entry hands on.
#[inline(never)]
fn take_into(flat: &mut [u32; ROOM], arcs: &[Arc])
    ensures { flat.new ≡ taken_apart arcs.now (cut_at (length arcs.now)) }
{
    *flat = [0; ROOM];
    write_arcs(flat, 0, cut(arcs.len()), |i| arcs[i]);
}

// The flat list of the arcs, followed by zeros.
pub fn take_apart(arcs: &[Arc]) -> [u32; ROOM]
    ensures { result ≡ taken_apart arcs.now (cut_at (length arcs.now)) }
{
    let mut flat = [0; ROOM];
    take_into(&mut flat, arcs);
    flat
}
