// Settling: what is over is delivered along paths to where it lacks, until none of it gets there.
ghost use Rattle.std.specs.Prelude.{◌≡◌, not, ℕ, ◌+◌, ◌≤◌, ◌<◌, length, IfOk, IfErr};
ghost use Rattle.words.specs.Word.{holds};
ghost use Rattle.rooms.specs.Room.{side, at, seen};
ghost use Rattle.rooms.specs.Move.{Less};
ghost use Rattle.ways.specs.Ways.{leads, Desk};
ghost use Rattle.ways.specs.Lent.{SameLent};
ghost use Rattle.engine.specs.Settle.{Shows, Settled, Errand, NoErrand, Delivery, Delivered};

use crate::path::{least, move_along};
use reach::{Found, search, trail};
use rooms::{Rooms, take};
use words::{but, either, one};

// Where some is over and where it lacks.
#[derive(Clone, Copy)]
struct Ends {
    spare: u64,
    lack: u64,
}

// The set of the nodes that have some.
fn word_of(numbers: &[u32], n: usize) -> u64
    requires { (n ≤ side) × (n ≤ length numbers.now) }
    ensures { Shows n (at numbers.now) result }
{
    let mut word = 0;
    for x in 0..n {
        if 0 < numbers[x] {
            word = either(word, one(x));
        }
    }
    word
}

// Takes d off the number at x, and x out of the set where none is left.
fn spend(numbers: &mut [u32], word: u64, x: usize, d: u32) -> u64
    requires { (x < side) × (x < length numbers.old) × (d ≤ at numbers.old x) }
    ensures less { Less (at numbers.old) (at numbers.new) x d }
    ensures shows { (n : ℕ) → Shows n (at numbers.old) word → x < n → Shows n (at numbers.new) result }
{
    take(numbers, x, d);
    if numbers[x] == 0 {
        but(word, one(x))
    } else {
        word
    }
}

// Looks for a path from where some is over to where it lacks, and says how long it is; the error is all that was reached.
fn errand(
    desk: &ways::Desk,
    back: bool,
    ends: Ends,
    levels: &mut [u64],
    path: &mut [u8],
) -> Result<usize, u64>
    requires whole { (side + side ≤ length desk.now.ways.now) × (side < length levels.old) × (side < length path.old) }
    requires turned { (x y : ℕ) → x < side → y < side → leads desk.now.ways.now (not back) y x ≡ leads desk.now.ways.now back x y }
    ensures found { IfOk result (Errand (leads desk.now.ways.now back) ends.spare ends.lack (at path.new)) }
    ensures none { IfErr result (NoErrand (leads desk.now.ways.now back) ends.spare ends.lack) }
{
    // No direct step is shut.
    const FREE: usize = Rooms::SIDE;
    let found = search(desk.ways, back, FREE, FREE, ends.spare, ends.lack, levels)?;
    trail(
        desk.ways,
        back,
        FREE,
        FREE,
        levels,
        found.depth,
        found.met,
        path,
    );
    Ok(found.depth)
}

// Delivers as much as can be along a path.
fn deliver(
    desk: &mut ways::Desk,
    back: bool,
    n: usize,
    over: &mut [u32],
    under: &mut [u32],
    path: &[u8],
    depth: usize,
    ends: Ends,
) -> Ends
    requires desk { Desk n desk.old.rooms.now desk.old.ways.now }
    requires lists { (n ≤ length over.old) × (n ≤ length under.old) × (depth < length path.now) }
    requires path { Delivery n (seen desk.old.rooms.now back) (at over.old) (at under.old) (at path.now) depth }
    requires shown { Shows n (at over.old) ends.spare × Shows n (at under.old) ends.lack }
    ensures desk { Desk n desk.new.rooms.now desk.new.ways.now }
    ensures delivered { Delivered n (seen desk.old.rooms.now back) (at over.old) (at under.old) (seen desk.new.rooms.now back) (at over.new) (at under.new) }
    ensures shown { Shows n (at over.new) result.spare × Shows n (at under.new) result.lack }
    ensures lent { SameLent desk.old desk.new }
{
    let s = path[0] as usize;
    let t = path[depth] as usize;
    let rooms = &mut *desk.rooms;
    let d = least(rooms, back, path, depth, over[s].min(under[t]));
    move_along(desk, back, path, depth, d);
    Ends {
        spare: spend(over, ends.spare, s, d),
        lack: spend(under, ends.lack, t, d),
    }
}

// Moves what is over to where it lacks, until none of it gets there; with `back` all is looked at backwards. Returns
// what it still reaches.
pub fn settle(
    desk: &mut ways::Desk,
    back: bool,
    n: usize,
    over: &mut [u32],
    under: &mut [u32],
) -> u64
    requires desk { Desk n desk.old.rooms.now desk.old.ways.now }
    requires lists { (n ≤ length over.old) × (n ≤ length under.old) }
    ensures desk { Desk n desk.new.rooms.now desk.new.ways.now }
    ensures settled { Settled n (seen desk.old.rooms.now back) (at over.old) (at under.old) (seen desk.new.rooms.now back) (at over.new) (at under.new) (holds result) }
    ensures lent { SameLent desk.old desk.new }
{
    let mut levels = [0u64; Found::LEVELS];
    let mut path = [0u8; Found::PATH];
    let mut ends = Ends {
        spare: word_of(over, n),
        lack: word_of(under, n),
    };
    loop {
        match errand(desk, back, ends, &mut levels, &mut path) {
            Ok(depth) => ends = deliver(desk, back, n, over, under, &path, depth, ends),
            Err(reached) => return reached,
        }
    }
}
