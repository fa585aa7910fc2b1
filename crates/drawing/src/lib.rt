// The network of a counting plan of v variables and w values, drawn arc by arc and node by node. It uses `counting` for
// what is drawn, `words` for the domains and `lists` for writing it down. Internal: its functions have `requires`.
#![tactic(auto)]

ghost use Rattle.std.specs.Prelude.{◌≡◌, cond, ◌+◌, ◌*◌, ◌/◌, ◌≤◌, ◌<◌, ltb, pos, neg_ℤ, length, get_or};
ghost use Rattle.numbers.specs.Sums.{only};
ghost use Rattle.words.specs.Word.{holds};
ghost use Rattle.plan.specs.Limits.{most_nodes, arc_entries};
ghost use Rattle.lists.specs.Written.{ArcsWritten, SuppliesWritten};
ghost use Rattle.counting.specs.Counting.{Counting, range_entries, counting_of};
ghost use Rattle.counting.specs.Network.{network};

use counting::RANGE_ENTRIES;
use lists::{write_arcs, write_first};
use plan::Arc;
use words::bit;

// The arc from variable i to value j: it takes one if the domain has the value, else none.
fn pair_arc(domains: &[u64], i: usize, j: usize) -> Arc
    requires { (i < length domains.now) × (length domains.now + j < most_nodes) }
    ensures { result ≡ record { from = i; to = length domains.now + j; low = 0; high = only (holds (get_or domains.now i 0) j) 1 } }
{
    let to = (domains.len() + j) as u32;
    Arc::new(i as u32, to, 0, bit(domains[i], j) as u32)
}

// The arc from value j to the last node, where there are v variables and w values.
fn count_arc(counts: &[u32], v: usize, w: usize, j: usize) -> Arc
    requires { (j < w) × (w ≡ length counts.now / range_entries) × (v + w < most_nodes) }
    ensures { result ≡ record { from = v + j; to = v + w; low = get_or counts.now (j * range_entries) 0; high = get_or counts.now (j * range_entries + 1) 0 } }
{
    let low = counts[j * RANGE_ENTRIES];
    let high = counts[j * RANGE_ENTRIES + 1];
    Arc::new((v + j) as u32, (v + w) as u32, low, high)
}

// The supply of node u, where there are v variables and w values.
fn supply_of(v: usize, w: usize, u: usize) -> i32
    requires { v + w < most_nodes }
    ensures { result ≡ cond (ltb u v) (pos 1) (cond (ltb u (v + w)) (pos 0) (neg_ℤ (pos v))) }
{
    if u < v {
        1
    } else if u < v + w {
        0
    } else {
        -(v as i32)
    }
}

// Writes the arcs of the network: those from each variable to all w values, then those from the values to the last node.
pub fn draw_arcs(domains: &[u64], counts: &[u32], w: usize, arcs: &mut [u32])
    requires size { (w ≡ length counts.now / range_entries) × (length domains.now + w < most_nodes) }
    requires whole { (length domains.now * w + w) * arc_entries ≤ length arcs.old }
    ensures { ArcsWritten (network (counting_of domains.now counts.now)) (length domains.now * w + w) arcs.old arcs.new }
{
    let v = domains.len();
    for i in 0..v {
        write_arcs(arcs, i * w, w, |j| pair_arc(domains, i, j));
    }
    write_arcs(arcs, v * w, w, |j| count_arc(counts, v, w, j));
}

// Writes the supplies of the network of v variables and w values.
pub fn draw_supplies(v: usize, w: usize, supplies: &mut [i32])
    requires { (v + w < most_nodes) × (v + w < length supplies.old) }
    ensures { (c : Counting) → c.variables ≡ v → c.values ≡ w → SuppliesWritten (network c) (v + w + 1) supplies.old supplies.new }
{
    write_first(supplies, v + w + 1, |u| supply_of(v, w, u));
}
