// The requests over a counting plan, as C calls them. Counts are two numbers for each value: low, high.
ghost use Rattle.count.specs.Answer.{CountAnswers, NetworkAnswers};
ghost use Rattle.crossing.specs.Crossing.{Crosses, flow_reading, verdict_reading};

use crossing::answer::Answer;

// What can still occur. Number 0: each variable's values that some assignment gives it, and how few and how
// many uses of each value there are over all assignments. Number 9: there is no assignment, and the value is
// the network's shortfall. Any other number: the input is turned down at index. Unless the number is 0 the
// buffers stay.
#[unsafe(no_mangle)]
pub extern "C" fn blenrop_count(
    domains: &[u64],
    counts: &[u32],
    new_domains: &mut [u64],
    new_lows: &mut [u32],
    new_highs: &mut [u32],
) -> Answer
    ensures { Crosses flow_reading (CountAnswers domains.now counts.now (record { domains = new_domains.old; lows = new_lows.old; highs = new_highs.old }) (record { domains = new_domains.new; lows = new_lows.new; highs = new_highs.new })) result }
{
    Answer::of_flow(count::request::count(domains, counts, new_domains, new_lows, new_highs))
}

// The network of a counting plan. Number 0: supplies and arcs have it. Any other number: the input is turned
// down at index, and the buffers stay.
#[unsafe(no_mangle)]
pub extern "C" fn blenrop_count_network(
    domains: &[u64],
    counts: &[u32],
    supplies: &mut [i32],
    arcs: &mut [u32],
) -> Answer
    ensures { Crosses verdict_reading (NetworkAnswers domains.now counts.now supplies.old arcs.old supplies.new arcs.new) result }
{
    Answer::of_verdict(count::request::count_network(domains, counts, supplies, arcs))
}
