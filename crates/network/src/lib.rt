// The check of a network: the number and the lowest place by which document 01 turns it down. `plan` has the rules; the
// lemmas of proofs/Wrong lead from what the code sees to them.
#![tactic(auto)]

ghost use Rattle.std.specs.Prelude.{◌≡◌, ◌||◌, ℕ, ◌/◌, ◌≤◌, ◌<◌, ltb, pos, nat_abs, length, get_or};
ghost use Rattle.numbers.specs.Sums.{sumℤ};
ghost use Rattle.plan.specs.Limits.{most_nodes, most_supply, arc_entries};
ghost use Rattle.plan.specs.Plan.{Plan as Meant, meant};
ghost use Rattle.plan.specs.Verdict.{end_wrong, range_wrong, supply_wrong, verdict, count_rules, limit_rules, network_rules, asking_rules};

use plan::{Arc, Fault, Network, Plan, Refusal, Verdict, refuse};

// An end of arc k is not below the node count.
fn end_wrong(network: Network, k: usize) -> bool
    requires { k < length network.arcs.now / arc_entries }
    ensures { result ≡ end_wrong (meant network.entry) k }
{
    let nodes = network.supplies.len();
    let arc = network.arc(k);
    nodes <= arc.from as usize || nodes <= arc.to as usize
}

// The low of arc k is above its high, or its high is above the widest.
fn range_wrong(network: Network, k: usize) -> bool
    requires { k < length network.arcs.now / arc_entries }
    ensures { result ≡ range_wrong (meant network.entry) k }
{
    let arc = network.arc(k);
    arc.high < arc.low || Arc::WIDEST_HIGH < arc.high
}

// The supply of node v is beyond its limits.
fn supply_wrong(network: Network, v: usize) -> bool
    requires { v < length network.supplies.now }
    ensures { result ≡ supply_wrong (meant network.entry) v }
{
    let supply = network.supplies[v];
    Plan::MOST_SUPPLY < supply || supply < -Plan::MOST_SUPPLY
}

// The sum of supplies that are within their limits, of a plan that is not too large.
fn sum_of(supplies: &[i32]) -> i64
    requires few { length supplies.now ≤ most_nodes }
    requires small { (v : ℕ) → v < length supplies.now → nat_abs (get_or supplies.now v (pos 0)) ≤ most_supply }
    ensures { result ≡ sumℤ (length supplies.now) (λ v. get_or supplies.now v (pos 0)) }
{
    let mut sum = 0;
    for supply in supplies {
        sum += i64::from(*supply);
    }
    sum
}

// The verdict on the arcs and supplies of a network that is not too large, by the numbers 4 to 7.
pub fn check_limits(network: Network) -> Verdict
    requires { length network.supplies.now ≤ most_nodes }
    ensures { result ≡ verdict (limit_rules (meant network.entry)) }
{
    let size = network.size();
    refuse(Fault::ArcEnd, size.arcs, |k| end_wrong(network, k))?;
    refuse(Fault::ArcRange, size.arcs, |k| range_wrong(network, k))?;
    refuse(Fault::Supply, size.nodes, |v| supply_wrong(network, v))?;
    if sum_of(network.supplies) != 0 {
        return Err(Refusal::whole(Fault::SupplySum));
    }
    Ok(())
}

// The verdict by the numbers 1 and 2 on a plan of so many nodes and arcs.
pub fn check_counts(nodes: usize, arcs: usize) -> Verdict
    ensures { (p : Meant) → p.nodes ≡ nodes → p.arcs ≡ arcs → result ≡ verdict (count_rules p) }
{
    if nodes == 0 || Plan::MOST_NODES < nodes {
        return Err(Refusal::whole(Fault::Nodes));
    }
    if Plan::MOST_ARCS < arcs {
        return Err(Refusal::whole(Fault::Arcs));
    }
    Ok(())
}

// The verdict on a network, by the numbers 1 to 7 in their order; `short` says that a lent buffer is
// too short for what the request may write.
pub fn check(network: Network, short: bool) -> Verdict
    ensures { result ≡ verdict (network_rules (meant network.entry) short) }
{
    let size = network.size();
    check_counts(size.nodes, size.arcs)?;
    if short {
        return Err(Refusal::whole(Fault::Buffer));
    }
    check_limits(network)
}

// Whether one buffer has less than m entries, or another less than n.
pub fn too_short(first: usize, m: usize, second: usize, n: usize) -> bool
    ensures { result ≡ (ltb first m || ltb second n) }
{
    first < m || second < n
}

// The check of a network, and then 8 where what is asked about is missing.
pub fn check_asked(network: Network, short: bool, missing: bool) -> Verdict
    ensures { result ≡ verdict (asking_rules (meant network.entry) short missing) }
{
    check(network, short)?;
    if missing {
        return Err(Refusal::whole(Fault::Missing));
    }
    Ok(())
}
