// Asks the unit about the plans that document 01 works by hand. A line for each plan: the first flow's
// counts; or the shortfall, the stations of the shortage and the limits cited, each as arc and end; or the
// number and the place by which the plan is turned down. Under a plan that runs, the narrowed ranges and a
// line for each end of each arc: that it stands, or where it moved, by which stations and limits. Then an
// arc held at some counts. Of a counting plan: the new domains and count ranges; or the shortfall, and what
// the flow question says of its network. Of a plan file: its length, its check, how long the payloads of its
// block and of one past it are, and the counts that are read back. It uses the requests and `say`.
#![tactic(auto)]

use count::request::{count, count_network};
use flow::question::question;
use format::Block;
use format::bytes::two;
use held::Unheld;
use held::request::hold;
use narrow::request::narrow;
use plan::{Network, No, Plan, Refusal};
use reading::payload::payload;
use reading::read;
use reason::request::reason;
use std::io;
use std::io::Print;
use words::has;
use writing::write;

// The first m counts.
fn say_counts<P: Print>(to: &P, counts: &[u32], m: usize) -> io::Result<()> {
    for count in counts.iter().take(m) {
        print!(to; " {count}")?;
    }
    Ok(())
}

// The arcs that are marked, each with the end that is cited.
fn say_cited<P: Print>(to: &P, marks: &[u32]) -> io::Result<()> {
    for (k, &mark) in marks.iter().enumerate() {
        match mark {
            1 => print!(to; " {k} low")?,
            2 => print!(to; " {k} high")?,
            _ => {}
        }
    }
    Ok(())
}

// The marks of a shortage or of a reason.
fn say_marks<P: Print>(to: &P, nodes: &[u8], arcs: &[u32]) -> io::Result<()> {
    to.print(", in")?;
    say::set(to, nodes)?;
    to.print(", cites")?;
    say_cited(to, arcs)
}

// That there is no flow, and by how much.
fn say_none<P: Print>(to: &P, value: i64) -> io::Result<()> {
    to.print(" none")?;
    say::shortfall(to, value)
}

// By which number the input is turned down, and for which place.
fn say_refused<P: Print>(to: &P, refusal: Refusal) -> io::Result<()> {
    to.print(" ")?;
    say::refused(to, refusal.fault.number(), refusal.place)
}

// Why there is nothing to give.
fn say_no<P: Print>(to: &P, no: No) -> io::Result<()> {
    match no {
        No::Short(value) => say_none(to, value),
        No::Refused(refusal) => say_refused(to, refusal),
    }
}

// What the flow question says.
fn show_flow<P: Print>(to: &P, network: Network) -> io::Result<()> {
    let mut arc_buffer = [0u32; 8];
    let mut node_buffer = [0u8; 6];
    match question(network, &mut arc_buffer, &mut node_buffer) {
        Ok(()) => {
            to.print(" runs")?;
            say_counts(to, &arc_buffer, network.size().arcs)?;
        }
        Err(No::Short(value)) => {
            say_none(to, value)?;
            say_marks(to, &node_buffer, &arc_buffer)?;
        }
        Err(No::Refused(refusal)) => say_refused(to, refusal)?,
    }
    println!(to)
}

// The narrowed range of each arc, or why there is none.
fn show_ranges<P: Print>(to: &P, network: Network) -> io::Result<()> {
    let mut lows = [0u32; 4];
    let mut highs = [0u32; 4];
    match narrow(network, &mut lows, &mut highs) {
        Ok(()) => {
            to.print("  from")?;
            say_counts(to, &lows, network.size().arcs)?;
            to.print(" to")?;
            say_counts(to, &highs, network.size().arcs)?;
        }
        Err(no) => say_no(to, no)?,
    }
    println!(to)
}

// One end of one arc: 0 the low end, 1 the high end.
fn show_end<P: Print>(to: &P, network: Network, arc: u32, end: u32) -> io::Result<()> {
    let mut arc_buffer = [0u32; 4];
    let mut node_buffer = [0u8; 4];
    print!(to; "  arc {arc} end {end}")?;
    match reason(network, arc, end, &mut arc_buffer, &mut node_buffer) {
        Ok(None) => to.print(" stands")?,
        Ok(Some(value)) => {
            print!(to; " moved to {value}")?;
            say_marks(to, &node_buffer, &arc_buffer)?;
        }
        Err(no) => say_no(to, no)?,
    }
    println!(to)
}

// An arc held at a count.
fn show_held<P: Print>(to: &P, network: Network, arc: u32, count: u32) -> io::Result<()> {
    let mut arc_buffer = [0u32; 4];
    print!(to; "  arc {arc} at {count}")?;
    match hold(network, arc, count, &mut arc_buffer) {
        Ok(()) => {
            to.print(" runs")?;
            say_counts(to, &arc_buffer, network.size().arcs)?;
        }
        Err(Unheld::Short(value)) => say_none(to, value)?,
        Err(Unheld::Outside) => to.print(" outside")?,
        Err(Unheld::Refused(refusal)) => say_refused(to, refusal)?,
    }
    println!(to)
}

// A plan of m arcs that runs: its ranges, and why each end of each arc lies where it does.
fn show_ends<P: Print>(to: &P, network: Network, m: u32) -> io::Result<()> {
    show_ranges(to, network)?;
    for arc in 0..m {
        show_end(to, network, arc, 0)?;
        show_end(to, network, arc, 1)?;
    }
    Ok(())
}

// A plan under its name: what the flow question says of it.
fn show_plan<P: Print>(to: &P, name: &str, arcs: &[u32], supplies: &[i32]) -> io::Result<()> {
    to.print(name)?;
    show_flow(to, Network { arcs, supplies })
}

// The same of a plan of m arcs that runs, and then its ends.
fn show_running<P: Print>(
    to: &P,
    name: &str,
    arcs: &[u32],
    supplies: &[i32],
    m: u32,
) -> io::Result<()> {
    show_plan(to, name, arcs, supplies)?;
    show_ends(to, Network { arcs, supplies }, m)
}

// P1, and its arc 0 held at a count inside its narrowed range and at one outside.
fn show_first<P: Print>(to: &P) -> io::Result<()> {
    let arcs = [0, 1, 0, 4, 0, 2, 0, 3, 1, 2, 0, 9];
    let supplies = [5, 0, -5];
    show_running(to, "P1", &arcs, &supplies, 3)?;
    let network = Network {
        arcs: &arcs,
        supplies: &supplies,
    };
    show_held(to, network, 0, 3)?;
    show_held(to, network, 0, 1)
}

// Two plans without a flow, one whose arc is full, and one whose arc leads back to where it begins.
fn show_second<P: Print>(to: &P) -> io::Result<()> {
    show_plan(to, "P2", &[0, 1, 0, 4, 0, 2, 0, 0, 1, 2, 0, 9], &[5, 0, -5])?;
    show_plan(to, "P3", &[0, 1, 0, 255], &[256, -256])?;
    show_running(to, "P4", &[0, 1, 0, 256], &[256, -256], 1)?;
    show_running(to, "P5", &[0, 0, 3, 7], &[0], 1)
}

// Supplies that no arc carries or that do not add up to 0, a low that must be sent, and two arcs side by side.
fn show_third<P: Print>(to: &P) -> io::Result<()> {
    show_plan(to, "P6", &[], &[1, -1])?;
    show_plan(to, "P7", &[], &[1])?;
    show_plan(to, "P8", &[0, 1, 1, 2], &[0, 0])?;
    show_running(to, "P9", &[0, 1, 0, 1, 0, 1, 0, 1], &[1, -1], 2)
}

// The values of a domain.
fn say_domain<P: Print>(to: &P, word: u64) -> io::Result<()> {
    for j in 0..64 {
        if has(word, j) {
            print!(to; " {j}")?;
        }
    }
    to.print(";")
}

// The values of each domain.
fn say_domains<P: Print>(to: &P, words: &[u64]) -> io::Result<()> {
    to.print(" domains")?;
    for word in words {
        say_domain(to, *word)?;
    }
    Ok(())
}

// A counting plan of four values.
fn show_counting<P: Print>(to: &P, domains: &[u64], counts: &[u32]) -> io::Result<()> {
    let mut words = [0u64; 4];
    let mut lows = [0u32; 4];
    let mut highs = [0u32; 4];
    match count(domains, counts, &mut words, &mut lows, &mut highs) {
        Ok(()) => {
            say_domains(to, &words)?;
            to.print(" counts from")?;
            say_counts(to, &lows, 4)?;
            to.print(" to")?;
            say_counts(to, &highs, 4)?;
        }
        Err(no) => say_no(to, no)?,
    }
    println!(to)
}

// A counting plan, and its network asked the flow question; the lists are as long as the network.
fn show_network<P: Print>(
    to: &P,
    domains: &[u64],
    counts: &[u32],
    supplies: &mut [i32],
    arcs: &mut [u32],
) -> io::Result<()> {
    show_counting(to, domains, counts)?;
    if let Err(refusal) = count_network(domains, counts, supplies, arcs) {
        say_refused(to, refusal)?;
    }
    to.print("  network")?;
    show_flow(to, Network { arcs, supplies })
}

// The counting plans.
fn show_fourth<P: Print>(to: &P) -> io::Result<()> {
    to.print("P10")?;
    show_counting(to, &[10, 10, 3, 13], &[0, 1, 0, 1, 0, 1, 0, 1])?;
    to.print("P11")?;
    show_network(
        to,
        &[3, 3, 3],
        &[0, 1, 0, 1],
        &mut [0i32; 6],
        &mut [0u32; 32],
    )?;
    to.print("P12")?;
    show_network(to, &[0], &[0, 1], &mut [0i32; 3], &mut [0u32; 8])
}

// The file of one block, as it was written.
fn show_block<P: Print>(to: &P, file: &[u8; Block::SIZE]) -> io::Result<()> {
    let check = two(file, Block::CHECK_AT);
    let (first, second) = (payload(file, 0).len(), payload(file, 1).len());
    print!(to; ", check {check}, payloads {first} {second}")?;
    match read(file, &mut [0i32; 1], &mut []) {
        Ok(Plan { nodes, arcs }) => print!(to; ", read {nodes} {arcs}"),
        Err(refusal) => say_refused(to, refusal),
    }
}

// P13: one station with nothing to send, as a file.
fn show_file<P: Print>(to: &P) -> io::Result<()> {
    let mut file = [0u8; Block::SIZE];
    to.print("P13")?;
    let network = Network {
        arcs: &[],
        supplies: &[0],
    };
    match write(network, &mut file) {
        Ok(length) => {
            print!(to; " {length}")?;
            show_block(to, &file)?;
        }
        Err(refusal) => say_refused(to, refusal)?,
    }
    println!(to)
}

fn main(rt: HostRuntime) -> io::Result<()> {
    show_first(&rt)?;
    show_second(&rt)?;
    show_third(&rt)?;
    show_fourth(&rt)?;
    show_file(&rt)
}
