// The listing of document 01: reads one plan file on standard input, and prints what the unit says of its plan.
// A thin program: `reading` reads, `flow` and `narrow` answer, `say` prints. A read or a print that fails ends it.
#![tactic(auto)]

ghost use Rattle.std.specs.Prelude.{◌/◌, ◌≤◌, length, IfOk};
ghost use Rattle.plan.specs.Limits.{most_arcs, arc_entries};

use flow::question::question;
use format::Edition;
use narrow::request::narrow;
use plan::{Arc, Network, No, Plan, Refusal};
use reading::read;
use std::io;
use std::io::{Input, Print, Read};

// A line for each arc of a plan that runs: its index, ends and range, its count in the first flow and its narrowed range.
fn say_arcs<P: Print>(
    to: &P,
    network: Network,
    counts: &[u32],
    lows: &[u32],
    highs: &[u32],
) -> io::Result<()>
    requires counts { length network.arcs.now / arc_entries ≤ length counts.now }
    requires lows { length network.arcs.now / arc_entries ≤ length lows.now }
    requires highs { length network.arcs.now / arc_entries ≤ length highs.now }
{
    for k in 0..network.size().arcs {
        let arc = network.arc(k);
        print!(to; "arc {k} {} {} {} {}", arc.from, arc.to, arc.low, arc.high)?;
        println!(to; " {} {} {}", counts[k], lows[k], highs[k])?;
    }
    Ok(())
}

// The narrowed ranges of a plan that runs, beside the counts of its first flow.
fn say_flow<P: Print>(to: &P, network: Network, counts: &[u32]) -> io::Result<()>
    requires arcs { length network.arcs.now / arc_entries ≤ most_arcs }
    requires counts { length network.arcs.now / arc_entries ≤ length counts.now }
{
    let mut lows = [0u32; Plan::MOST_ARCS];
    let mut highs = [0u32; Plan::MOST_ARCS];
    let _ = narrow(network, &mut lows, &mut highs);
    say_arcs(to, network, counts, &lows, &highs)
}

// The nodes of the shortage set, in one line.
fn say_set<P: Print>(to: &P, marks: &[u8]) -> io::Result<()> {
    to.print("in")?;
    say::set(to, marks)?;
    println!(to)
}

// A line for each bound that is cited, in arc order: 1 marks the low, 2 the high.
fn say_cited<P: Print>(to: &P, network: Network, marks: &[u32]) -> io::Result<()>
    requires { length network.arcs.now / arc_entries ≤ length marks.now }
{
    for k in 0..network.size().arcs {
        match marks[k] {
            1 => println!(to; "cites {k} low {}", network.arc(k).low)?,
            2 => println!(to; "cites {k} high {}", network.arc(k).high)?,
            _ => {}
        }
    }
    Ok(())
}

// That there is no flow, and by how much.
fn say_none<P: Print>(to: &P, value: i64) -> io::Result<()> {
    to.print("none")?;
    say::shortfall(to, value)?;
    println!(to)
}

// By which number the file is turned down, and for which place.
fn say_refused<P: Print>(to: &P, refusal: Refusal) -> io::Result<()> {
    say::refused(to, refusal.fault.number(), refusal.place)?;
    println!(to)
}

// The plan of an accepted file. Such a plan is not turned down.
fn list_plan<P: Print>(to: &P, network: Network) -> io::Result<()>
    requires { length network.arcs.now / arc_entries ≤ most_arcs }
{
    let mut counts = [0u32; Plan::MOST_ARCS];
    let mut marks = [0u8; Plan::MOST_NODES];
    let Plan { nodes, arcs } = network.size();
    println!(to; "nodes {nodes} arcs {arcs}")?;
    match question(network, &mut counts, &mut marks) {
        Ok(()) => say_flow(to, network, &counts),
        Err(No::Short(value)) => {
            say_none(to, value)?;
            say_set(to, &marks)?;
            say_cited(to, network, &counts)
        }
        Err(No::Refused(refusal)) => say_refused(to, refusal),
    }
}

// The listing of a file, whatever bytes it has.
fn list<P: Print>(to: &P, file: &[u8]) -> io::Result<()> {
    let mut supplies = [0i32; Plan::MOST_NODES];
    let mut arcs = [0u32; Plan::MOST_ARCS * Arc::ENTRIES];
    match read(file, &mut supplies, &mut arcs) {
        Ok(size) => {
            let network = Network {
                arcs: &arcs[..size.arcs * Arc::ENTRIES],
                supplies: &supplies[..size.nodes],
            };
            list_plan(to, network)
        }
        Err(refusal) => say_refused(to, refusal),
    }
}

// Reads into the bytes that are lent until they are full or the input ends, and returns how many were read.
fn read_full<R: Read>(input: &mut R, bytes: &mut [u8]) -> io::Result<usize>
    ensures { IfOk result (λ n. n ≤ length bytes.new) }
{
    let mut done = 0;
    while done < bytes.len() {
        let more = input.read(&mut bytes[done..])?;
        if more == 0 {
            break;
        }
        done += more;
    }
    Ok(done)
}

// One byte more than the longest file is read, so that a longer one is told.
fn main(rt: HostRuntime) -> io::Result<()> {
    let mut file = [0u8; Edition::LONGEST + 1];
    let length = read_full(&mut rt.stdin(), &mut file)?;
    list(&rt, &file[..length])
}
