// A plan written down as two lists: its arcs, four numbers each, and its supplies; and what writes entries or arcs of a lent
// list by a rule. specs/ says that the first entries, arcs or supplies of a lent list are these and the rest is as it was.
// proofs/ goes from none of them to one more, from what holds of them to what they are, and shows that there is one such
// content and that the entries written are the plan. It uses `plan`. Internal.
#![tactic(auto)]

ghost use Rattle.std.specs.Prelude.{ℕ, ◌+◌, ◌*◌, ◌≤◌, ◌<◌, length};
ghost use Rattle.plan.specs.Limits.{arc_entries};
ghost use Rattle.lists.specs.Written.{EntriesHold, ArcWritten, ArcsHold};

use plan::Arc;

// Writes arc k of a flat list.
pub fn write_arc(arcs: &mut [u32], k: usize, arc: Arc)
    requires { k * arc_entries + 3 < length arcs.old }
    ensures { ArcWritten k arc.from arc.to arc.low arc.high arcs.old arcs.new }
{
    let first = k * Arc::ENTRIES;
    arcs[first] = arc.from;
    arcs[first + 1] = arc.to;
    arcs[first + 2] = arc.low;
    arcs[first + 3] = arc.high;
}

// Writes the first n entries of a list, entry i by a rule.
pub fn write_first<T: Copy, F: Fn(usize) -> T>(list: &mut [T], n: usize, entry: F)
    requires whole { n ≤ length list.old }
    requires callable { (i : ℕ) → i < n → F.pre entry i }
    ensures { (other : T) → EntriesHold other (λ i x. F.post entry i x) n list.old list.new }
{
    for i in 0..n {
        list[i] = entry(i);
    }
}

// Writes so many arcs of a flat list from arc `first` on, arc j of them by a rule.
pub fn write_arcs<F: Fn(usize) -> Arc>(arcs: &mut [u32], first: usize, count: usize, arc: F)
    requires whole { (first + count) * arc_entries ≤ length arcs.old }
    requires callable { (j : ℕ) → j < count → F.pre arc j }
    ensures { ArcsHold (λ j a. F.post arc j a) first count arcs.old arcs.new }
{
    for j in 0..count {
        write_arc(arcs, first + j, arc(j));
    }
}
