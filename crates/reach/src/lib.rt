// The search over words: level by level from a set of starts, with one direct step shut, and left as soon as a level meets
// the goal; and the path back through the levels. It uses `ways` for where room leads, and `words` for sets of nodes.
// Internal: its functions have `requires`.
#![tactic(auto)]

ghost use Rattle.std.specs.Prelude.{◌≡◌, true, not, ℕ, ◌+◌, ◌≤◌, ◌<◌, length, IfErr};
ghost use Rattle.words.specs.Word.{holds};
ghost use Rattle.rooms.specs.Room.{side, at};
ghost use Rattle.ways.specs.Ways.{leads};
ghost use Rattle.reach.specs.Search.{Open, Widened, Layers, Sought, LastLevel, Path};

use rooms::Rooms;
use ways::word_at;
use words::{Members, both, but, either, one, take_first};

// The last level of a search that met some of the goal, and what of it.
#[derive(Clone, Copy)]
pub struct Found {
    pub depth: usize,
    pub met: u64,
}

impl Found {
    // Levels are apart, so that there are at most as many as nodes, and the starts; and one may be put after them.
    pub const LEVELS: usize = Rooms::SIDE + 2;

    // A path through the levels, and the step from its end.
    pub const PATH: usize = Found::LEVELS;
}

// The last level of a search that met nothing of the goal, and all that it reached.
#[derive(Clone, Copy)]
pub struct Spread {
    pub depth: usize,
    pub reached: u64,
}

impl From<Spread> for u64 {
    ghost from_gives = { λ spread set. set ≡ spread.reached };

    fn from(spread: Spread) -> u64 {
        spread.reached
    }
}

// Where steps lead from x, without the direct step from u to v.
#[tactic(auto, using(crate::proofs::Layering::held_is_node))]
fn steps(ways: &[u64], back: bool, u: usize, v: usize, x: usize) -> u64
    requires { (side + side ≤ length ways.now) × (x < side) × (u < side → v < side) }
    ensures open { (y : ℕ) → holds result y ≡ true → Open (leads ways.now back) u v x y }
    ensures all { (y : ℕ) → Open (leads ways.now back) u v x y → holds result y ≡ true }
{
    let here = ways[word_at(back, x)];
    if x == u { but(here, one(v)) } else { here }
}

// Where steps lead from the nodes of a set.
fn widen(ways: &[u64], back: bool, u: usize, v: usize, front: u64) -> u64
    requires { (side + side ≤ length ways.now) × (u < side → v < side) }
    ensures { Widened (leads ways.now back) u v front result }
{
    let mut next = 0;
    for x in Members(front) {
        next = either(next, steps(ways, back, u, v, x));
    }
    next
}

// Searches from the starts for the goal, without the direct step from u to v; with u at 64 or beyond, none is shut. If none of
// the goal is met, the error says how far the search went and all that was reached.
pub fn search(
    ways: &[u64],
    back: bool,
    u: usize,
    v: usize,
    start: u64,
    goal: u64,
    levels: &mut [u64],
) -> Result<Found, Spread>
    requires { (side + side ≤ length ways.now) × (u < side → v < side) × (side < length levels.old) }
    ensures sought { Sought (leads ways.now back) u v start goal (at levels.new) result }
    ensures last { IfErr result (λ spread. LastLevel (at levels.new) spread.depth spread.reached) }
{
    levels[0] = start;
    let mut depth = 0;
    let mut front = start;
    let mut reached = start;
    let met = loop {
        let met = both(front, goal);
        if 0 < met {
            break met;
        }
        front = but(widen(ways, back, u, v, front), reached);
        if front == 0 {
            return Err(Spread { depth, reached });
        }
        depth += 1;
        levels[depth] = front;
        reached = either(reached, front);
    };
    Ok(Found { depth, met })
}

// Writes down a path through the levels to a node of the last one; it is walked from its end back.
pub fn trail(
    ways: &[u64],
    back: bool,
    u: usize,
    v: usize,
    levels: &[u64],
    depth: usize,
    met: u64,
    path: &mut [u8],
)
    requires whole { (side + side ≤ length ways.now) × (u < side → v < side) × (v < side → u < side) × (side < length levels.now) × (side < length path.old) × (depth ≤ side) }
    requires turned { (x y : ℕ) → x < side → y < side → leads ways.now (not back) y x ≡ leads ways.now back x y }
    requires layers { (start : ℕ) × Layers (leads ways.now back) u v start (at levels.now) depth }
    requires met { (0 < met) × ((y : ℕ) → holds met y ≡ true → holds (at levels.now depth) y ≡ true) }
    ensures { (start : ℕ) → Layers (leads ways.now back) u v start (at levels.now) depth → Path (leads ways.now back) u v start met (at levels.now) (at path.new) depth }
{
    let mut y = take_first(met).first;
    path[depth] = y as u8;
    for i in (0..depth).rev() {
        let from = both(levels[i], steps(ways, !back, v, u, y));
        y = take_first(from).first;
        path[i] = y as u8;
    }
}
