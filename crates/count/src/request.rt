// The two requests of document 01 about a counting plan, for every input: what can still occur, and the network.
ghost use Rattle.std.specs.Prelude.{◌≡◌, ◌||◌, ◌+◌, ◌*◌, ◌/◌, ◌≤◌, ◌<◌, ltb, length};
ghost use Rattle.rooms.specs.Room.{at};
ghost use Rattle.plan.specs.Limits.{most_nodes};
ghost use Rattle.plan.specs.Plan.{WellFormed};
ghost use Rattle.plan.specs.Verdict.{Accepted};
ghost use Rattle.lists.specs.Written.{Written};
ghost use Rattle.narrow.specs.Answer.{NarrowAnswers};
ghost use Rattle.counting.specs.Counting.{counting_of};
ghost use Rattle.counting.specs.Network.{network};
ghost use Rattle.count.specs.Narrowed.{DomainOf, DomainsOf};
ghost use Rattle.count.specs.Answer.{NetworkAnswers, judged, CountAnswers};

use counting::RANGE_ENTRIES;
use counting::check::check;
use drawing::{draw_arcs, draw_supplies};
use lists::write_first;
use narrow::request::narrow;
use network::too_short;
use plan::{Arc, Fault, Network, No, Plan, Refusal, Verdict};

// Narrows the network of a counting plan.
fn narrow_network(
    domains: &[u64],
    counts: &[u32],
    lows: &mut [u32],
    highs: &mut [u32],
) -> Result<(), No>
    requires plan { WellFormed (network (counting_of domains.now counts.now)) }
    requires whole { ((network (counting_of domains.now counts.now)).arcs ≤ length lows.old) × ((network (counting_of domains.now counts.now)).arcs ≤ length highs.old) }
    ensures { NarrowAnswers (network (counting_of domains.now counts.now)) lows.old highs.old lows.new highs.new result }
{
    let v = domains.len();
    let w = counts.len() / RANGE_ENTRIES;
    let mut arcs = [0u32; Plan::MOST_ARCS * Arc::ENTRIES];
    let mut supplies = [0i32; Plan::MOST_NODES];
    draw_arcs(domains, counts, w, &mut arcs);
    draw_supplies(v, w, &mut supplies);
    let drawn = Network {
        arcs: &arcs[..(v * w + w) * Arc::ENTRIES],
        supplies: &supplies[..v + w + 1],
    };
    narrow(drawn, lows, highs)
}

// The word of the values whose arcs, from index start on, can have a count above 0.
fn domain_of(highs: &[u32], start: usize, w: usize) -> u64
    requires { (start + w ≤ length highs.now) × (w < most_nodes) }
    ensures { DomainOf highs.now start w result }
{
    let mut word = 0;
    for j in (0..w).rev() {
        word = word * 2 + u64::from(0 < highs[start + j]);
    }
    word
}

// Writes the new domains of v variables.
fn write_domains(highs: &[u32], v: usize, w: usize, domains: &mut [u64])
    requires { (v * w ≤ length highs.now) × (w < most_nodes) × (v ≤ length domains.old) }
    ensures { DomainsOf highs.now w v domains.old domains.new }
{
    write_first(domains, v, |i| domain_of(highs, i * w, w));
}

// Writes one end of the count ranges of w values: the ends of their arcs, from index start on.
fn write_counts(ends: &[u32], start: usize, w: usize, counts: &mut [u32])
    requires { (start + w ≤ length ends.now) × (w ≤ length counts.old) }
    ensures { Written (λ j. at ends.now (start + j)) w counts.old counts.new }
{
    counts[..w].copy_from_slice(&ends[start..start + w]);
}

// Works a counting plan out that is accepted.
fn work_out(
    domains: &[u64],
    counts: &[u32],
    new_domains: &mut [u64],
    lows: &mut [u32],
    highs: &mut [u32],
) -> Result<(), No>
    requires { judged domains.now counts.now (record { domains = new_domains.old; lows = lows.old; highs = highs.old }) ≡ Accepted }
    ensures { CountAnswers domains.now counts.now (record { domains = new_domains.old; lows = lows.old; highs = highs.old }) (record { domains = new_domains.new; lows = lows.new; highs = highs.new }) result }
{
    let v = domains.len();
    let w = counts.len() / RANGE_ENTRIES;
    let mut arc_lows = [0u32; Plan::MOST_ARCS];
    let mut arc_highs = [0u32; Plan::MOST_ARCS];
    narrow_network(domains, counts, &mut arc_lows, &mut arc_highs)?;
    write_domains(&arc_highs, v, w, new_domains);
    write_counts(&arc_lows, v * w, w, lows);
    write_counts(&arc_highs, v * w, w, highs);
    Ok(())
}

// Whether a buffer has less than a word for each of v variables, or less than a count for each of w values.
fn buffers_short(v: usize, w: usize, domains: usize, lows: usize, highs: usize) -> bool
    ensures { result ≡ (ltb domains v || (ltb lows w || ltb highs w)) }
{
    domains < v || too_short(lows, w, highs, w)
}

// An assignment gives each variable a value of its domain and uses each value as often as its range says.
// For every variable the values that it has in an assignment, and for every value the least and the greatest
// count of its uses over all assignments. If there is no assignment or the input is turned down, all three
// buffers stay.
pub fn count(
    domains: &[u64],
    counts: &[u32],
    new_domains: &mut [u64],
    lows: &mut [u32],
    highs: &mut [u32],
) -> Result<(), No>
    ensures { CountAnswers domains.now counts.now (record { domains = new_domains.old; lows = lows.old; highs = highs.old }) (record { domains = new_domains.new; lows = lows.new; highs = highs.new }) result }
{
    check(domains, counts)?;
    let w = counts.len() / RANGE_ENTRIES;
    if buffers_short(domains.len(), w, new_domains.len(), lows.len(), highs.len()) {
        return Err(No::Refused(Refusal::whole(Fault::Buffer)));
    }
    work_out(domains, counts, new_domains, lows, highs)
}

// Hands out the network of a counting plan, so that it can be asked every other question. If the input is
// turned down, both buffers stay.
pub fn count_network(
    domains: &[u64],
    counts: &[u32],
    supplies: &mut [i32],
    arcs: &mut [u32],
) -> Verdict
    ensures { NetworkAnswers domains.now counts.now supplies.old arcs.old supplies.new arcs.new result }
{
    let v = domains.len();
    let w = counts.len() / RANGE_ENTRIES;
    check(domains, counts)?;
    if too_short(
        supplies.len(),
        v + w + 1,
        arcs.len() / Arc::ENTRIES,
        v * w + w,
    ) {
        return Err(Refusal::whole(Fault::Buffer));
    }
    draw_supplies(v, w, supplies);
    draw_arcs(domains, counts, w, arcs);
    Ok(())
}
