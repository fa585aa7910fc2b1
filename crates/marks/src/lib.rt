// The marks of a "no" or a reason, written to lent buffers. It uses `plan` for what is cited, `words` for the set and
// `lists` for writing. Internal: most of its functions have `requires`.
#![tactic(auto)]

ghost use Rattle.std.specs.Prelude.{◌≡◌, not, ◌&&◌, cond, ◌≤◌, ◌<◌, ◌/◌, eqb, length};
ghost use Rattle.numbers.specs.Sums.{only};
ghost use Rattle.words.specs.Word.{word_bits, holds};
ghost use Rattle.plan.specs.Limits.{widest_low, widest_high, arc_entries};
ghost use Rattle.plan.specs.Plan.{WellFormed, meant};
ghost use Rattle.plan.specs.Reason.{no_marks, end_marks};
ghost use Rattle.lists.specs.Written.{Written};

use lists::write_first;
use plan::{Arc, Network};
use words::{bit, has};

// The mark of an arc: 2 if a sum uses its high, else 1 if it uses its low, else 0. An end of the widest range itself is
// not cited.
fn cite(arc: Arc, high_used: bool, low_used: bool) -> u32
    ensures { result ≡ cond (high_used && not (eqb arc.high widest_high)) 2 (cond (low_used && not (eqb arc.low widest_low)) 1 0) }
{
    if high_used && arc.high != Arc::WIDEST_HIGH {
        return 2;
    }
    if low_used && arc.low != Arc::WIDEST_LOW {
        return 1;
    }
    0
}

// Whether an arc runs from inside a set to outside.
fn leaves(arc: Arc, set: u64) -> bool
    requires { (arc.from < word_bits) × (arc.to < word_bits) }
    ensures { result ≡ (holds set arc.from && not (holds set arc.to)) }
{
    has(set, arc.from as usize) && !has(set, arc.to as usize)
}

// Whether an arc runs from outside a set to inside.
fn enters(arc: Arc, set: u64) -> bool
    requires { (arc.from < word_bits) × (arc.to < word_bits) }
    ensures { result ≡ (not (holds set arc.from) && holds set arc.to) }
{
    !has(set, arc.from as usize) && has(set, arc.to as usize)
}

// The mark of arc j for the reason of an end of arc k: of its high end if `upper`, else of its low end. The arcs that
// leave the set count at the one end, those that enter it at the other; k itself is left out.
fn end_mark(network: Network, set: u64, k: usize, upper: bool, j: usize) -> u32
    requires plan { WellFormed (meant network) }
    requires arc { j < length network.arcs.now / arc_entries }
    ensures { result ≡ end_marks (meant network.entry) k upper (holds set) j }
{
    let arc = network.arc(j);
    let other_leaves = leaves(arc, set) && j != k;
    let enters = enters(arc, set);
    if upper {
        return cite(arc, enters, other_leaves);
    }
    cite(arc, other_leaves, enters)
}

// Writes the marks of the first n nodes: 1 inside the set, 0 not.
pub fn mark_nodes(set: u64, n: usize, buffer: &mut [u8])
    requires { (n ≤ word_bits) × (n ≤ length buffer.old) }
    ensures { Written (λ v. only (holds set v) 1) n buffer.old buffer.new }
{
    write_first(buffer, n, |v| bit(set, v) as u8);
}

// Writes the mark of each arc for the reason of an end of arc k: of its high end if `upper`, else of its low end. Where k is no
// arc, none is left out.
pub fn mark_arcs_for(network: Network, set: u64, k: usize, upper: bool, buffer: &mut [u32])
    requires plan { WellFormed (meant network) }
    requires whole { length network.arcs.now / arc_entries ≤ length buffer.old }
    ensures { Written (end_marks (meant network.entry) k upper (holds set)) (length network.entry.arcs.now / arc_entries) buffer.old buffer.new }
{
    write_first(buffer, network.size().arcs, |j| {
        end_mark(network, set, k, upper, j)
    });
}

// Writes the mark of each arc for a "no" by a set: 0 not cited, 1 its low, 2 its high.
pub fn mark_arcs(network: Network, set: u64, buffer: &mut [u32])
    requires plan { WellFormed (meant network) }
    requires whole { length network.arcs.now / arc_entries ≤ length buffer.old }
    ensures { Written (no_marks (meant network.entry) (holds set)) (length network.entry.arcs.now / arc_entries) buffer.old buffer.new }
{
    let no_arc = network.size().arcs;
    mark_arcs_for(network, set, no_arc, false, buffer);
}
