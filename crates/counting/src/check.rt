// The check of a counting plan: the number and the lowest place by which document 01 turns it down.
ghost use Rattle.std.specs.Prelude.{◌≡◌, ◌/◌, ◌^◌, ◌<◌, leb, length};
ghost use Rattle.plan.specs.Limits.{most_nodes};
ghost use Rattle.plan.specs.Verdict.{verdict};
ghost use Rattle.counting.specs.Counting.{range_entries, counting_of};
ghost use Rattle.counting.specs.Rules.{count_wrong, counting_rules};

use crate::RANGE_ENTRIES;
use plan::{Arc, Fault, Plan, Refusal, Verdict, refuse};

// Whether a domain names a value at or past w.
fn beyond(word: u64, w: u32) -> bool
    requires { w < most_nodes }
    ensures { result ≡ leb (2 ^ w) word }
{
    0 < word >> w
}

// The low of value j is above its high, or its high is above the widest.
fn count_wrong(domains: &[u64], counts: &[u32], j: usize) -> bool
    requires { j < length counts.now / range_entries }
    ensures { result ≡ count_wrong (counting_of domains.now counts.now) j }
{
    let low = counts[j * RANGE_ENTRIES];
    let high = counts[j * RANGE_ENTRIES + 1];
    high < low || Arc::WIDEST_HIGH < high
}

// The verdict on a counting plan, by the numbers 15, 16, 17 and 18 in this order.
pub fn check(domains: &[u64], counts: &[u32]) -> Verdict
    ensures { result ≡ verdict (counting_rules domains.now (counting_of domains.now counts.now)) }
{
    let v = domains.len();
    let w = counts.len() / RANGE_ENTRIES;
    if Plan::MOST_NODES <= v + w {
        return Err(Refusal::whole(Fault::CountNodes));
    }
    refuse(Fault::CountDomain, v, |i| beyond(domains[i], w as u32))?;
    if Plan::MOST_ARCS < w * (v + 1) {
        return Err(Refusal::whole(Fault::CountArcs));
    }
    refuse(Fault::CountRange, w, |j| count_wrong(domains, counts, j))
}
