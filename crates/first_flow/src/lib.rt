// The first flow, arc by arc: each arc gets its smallest count once the arcs before it are held at
// theirs, and is held there. One arc may be held at a count from the start. It uses `stand` for the plan in
// the rooms and `one_arc` for each arc. Internal: its functions have `requires`.
#![tactic(auto)]

ghost use Rattle.std.specs.Prelude.{◌≡◌, false, ℕ, ◌≤◌, ◌<◌, length};
ghost use Rattle.numbers.specs.Sums.{put};
ghost use Rattle.rooms.specs.Room.{at, seen};
ghost use Rattle.ways.specs.Ways.{Desk};
ghost use Rattle.ways.specs.Lent.{SameLent};
ghost use Rattle.plan.specs.Plan.{Plan, WellFormed, meant};
ghost use Rattle.plan.specs.Flow.{FirstFlow, Smallest, held as holding, fixed};
ghost use Rattle.stand.specs.State.{Ready};
ghost use Rattle.first_flow.specs.Fixing.{held_arc, held_count, ListedWith, FixingWith};

use one_arc::counts::{end_of, hold_at};
use plan::{Arc, Network};

// Arc i of a network; the range of an arc that is held is its count alone.
fn arc_held_at(network: Network, held: Option<(usize, u32)>, i: usize) -> Arc
    requires { i < (meant network).arcs }
    ensures { let p = meant network.entry in let k = held_arc network.entry.arcs.now held in result ≡ record { from = p.from i; to = p.to i; low = put p.low k (held_count held) i; high = put p.high k (held_count held) i } }
{
    let arc = network.arc(i);
    match held {
        Some((k, count)) if k == i => Arc::new(arc.from, arc.to, count, count),
        _ => arc,
    }
}

// The smallest count of arc i, where the arcs before it are held; arc i is held there too.
fn fix(network: Network, held: Option<(usize, u32)>, i: usize, desk: &mut ways::Desk) -> u32
    requires desk { Desk (meant network).nodes desk.old.rooms.now desk.old.ways.now }
    requires arc { i < (meant network).arcs }
    requires ready { (p : Plan) × ((f : ℕ → ℕ) × FixingWith network held i p f (seen desk.old.rooms.now false)) }
    ensures desk { Desk (meant network.entry).nodes desk.new.rooms.now desk.new.ways.now }
    ensures fixed { (p : Plan) (f : ℕ → ℕ) → FixingWith network.entry held i p f (seen desk.old.rooms.now false) → Smallest (fixed p f i) i result × Ready (holding (fixed p f i) i result) (seen desk.new.rooms.now false) }
    ensures lent { SameLent desk.old desk.new }
{
    let n = network.supplies.len();
    let arc = arc_held_at(network, held, i);
    let least = end_of(desk, false, n, arc);
    hold_at(desk, n, arc, least);
    least
}

// Writes the first flow of a plan that has a flow, with an arc held at a count, or none; entries at or past the arc
// count stay.
pub fn first_flow(
    network: Network,
    held: Option<(usize, u32)>,
    counts: &mut [u32],
    desk: &mut ways::Desk,
)
    requires desk { Desk (meant network).nodes desk.old.rooms.now desk.old.ways.now }
    requires whole { (meant network).arcs ≤ length counts.old }
    requires ready { (p : Plan) × (ListedWith network held p × WellFormed p × Ready p (seen desk.old.rooms.now false)) }
    ensures first { (p : Plan) → ListedWith network.entry held p → WellFormed p → Ready p (seen desk.old.rooms.now false) → FirstFlow p (at counts.new) }
    ensures past { (j : ℕ) → (meant network.entry).arcs ≤ j → at counts.new j ≡ at counts.old j }
    ensures lent { SameLent desk.old desk.new }
{
    for i in 0..network.size().arcs {
        counts[i] = fix(network, held, i, desk);
    }
}
