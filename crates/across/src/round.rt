// Going round: a way from a to b besides the direct step, and straight back. Each round makes the room from a to b wider, at the
// cost of the room back, and no set has more or less room leading out of it. After a few rounds for one pair, floods take their
// place.
ghost use Rattle.std.specs.Prelude.{◌≡◌, false, not, ℕ, ◌+◌, ◌≤◌, ◌<◌, length, IfOk, IfErr};
ghost use Rattle.words.specs.Word.{holds};
ghost use Rattle.rooms.specs.Room.{side, at, seen};
ghost use Rattle.ways.specs.Ways.{leads, Desk};
ghost use Rattle.ways.specs.Lent.{SameLent};
ghost use Rattle.across.specs.Round.{TwoNodes, WayRound, NoWay, Round, Turned, WentRound, Measured, Bounded, turned, in_the_way};

use crate::flood::flood;
use engine::path::{least, move_along};
use reach::{Found, search, trail};
use ways::word_at;
use words::{but, one};

// After so many rounds for one pair, floods take their place.
const FEW_ROUNDS: u32 = 12;

// How much of a width is free, and the set that is in the way where that is not all of it.
#[derive(Clone, Copy)]
pub struct Passage {
    pub free: u32,
    pub set: u64,
}

impl Passage {
    // All of the width is free; the set is empty.
    pub fn whole(width: u32) -> Passage
        ensures { result ≡ record { free = width; set = 0 } }
    {
        Passage {
            free: width,
            set: 0,
        }
    }
}

// Looks for a way round from a to b, and says how long it is, or which set is in the way. The goal is where the last step to b
// can start; a itself is left out, since the direct step is shut.
fn way_round(
    desk: &ways::Desk,
    back: bool,
    a: usize,
    b: usize,
    levels: &mut [u64],
    path: &mut [u8],
) -> Result<usize, u64>
    requires whole { (side + side ≤ length desk.now.ways.now) × (side < length levels.old) × (side + 1 < length path.old) }
    requires nodes { TwoNodes side a b }
    requires turned { (x y : ℕ) → x < side → y < side → leads desk.now.ways.now (not back) y x ≡ leads desk.now.ways.now back x y }
    ensures found { IfOk result (λ depth. WayRound (leads desk.now.ways.now back) a b (at path.new) depth × (depth ≤ side + 1)) }
    ensures none { IfErr result (λ set. NoWay (leads desk.now.ways.now back) a b set) }
{
    let start = one(a);
    let goal = but(desk.ways[word_at(!back, b)], start);
    let found = search(desk.ways, back, a, b, start, goal, levels)?;
    trail(desk.ways, back, a, b, levels, found.depth, found.met, path);
    let last = found.depth + 1;
    path[last] = b as u8;
    Ok(last)
}

// Brings some round along a way from a to b, and straight back.
fn turn(
    desk: &mut ways::Desk,
    back: bool,
    n: usize,
    a: usize,
    b: usize,
    path: &[u8],
    depth: usize,
    most: u32,
)
    requires desk { Desk n desk.old.rooms.now desk.old.ways.now }
    requires nodes { TwoNodes n a b }
    requires path { (depth < length path.now) × Round n (seen desk.old.rooms.now back) a b (at path.now) depth }
    requires most { (0 < most) × (most ≤ seen desk.old.rooms.now back b a) }
    ensures desk { Desk n desk.new.rooms.now desk.new.ways.now }
    ensures turned { Turned n (seen desk.old.rooms.now back) (seen desk.new.rooms.now back) a b most }
    ensures lent { SameLent desk.old desk.new }
{
    let rooms = &mut *desk.rooms;
    let d = least(rooms, back, path, depth, most);
    move_along(desk, back, path, depth, d);
    desk.push(back, b, a, d);
}

// Goes round once: brings some of `most` from a to b besides the direct step, and straight back; with `far` by a flood of the
// levels of the search. Where nothing can be brought, it says which set is in the way.
fn go_round(
    desk: &mut ways::Desk,
    back: bool,
    n: usize,
    a: usize,
    b: usize,
    most: u32,
    far: bool,
) -> Result<(), u64>
    requires desk { Desk n desk.old.rooms.now desk.old.ways.now }
    requires nodes { TwoNodes n a b }
    requires most { (0 < most) × (most ≤ seen desk.old.rooms.now back b a) }
    ensures desk { Desk n desk.new.rooms.now desk.new.ways.now }
    ensures round { WentRound n far (seen desk.old.rooms.now back) (seen desk.new.rooms.now back) a b (turned result) (in_the_way result) }
    ensures most { far ≡ false → seen desk.new.rooms.now back a b ≤ seen desk.old.rooms.now back a b + most }
    ensures lent { SameLent desk.old desk.new }
{
    let mut levels = [0u64; Found::LEVELS];
    let mut path = [0u8; Found::PATH];
    let depth = way_round(desk, back, a, b, &mut levels, &mut path)?;
    if far {
        levels[depth] = one(b);
        flood(desk, back, n, a, b, most, &levels, depth);
    } else {
        turn(desk, back, n, a, b, &path, depth, most);
    }
    Ok(())
}

// Goes round until the direct room from a to b is as wide as asked for, or a set is in the way. Says how much of the width
// is free.
pub fn widen(desk: &mut ways::Desk, back: bool, n: usize, a: usize, b: usize, width: u32) -> Passage
    requires desk { Desk n desk.old.rooms.now desk.old.ways.now }
    requires nodes { TwoNodes n a b }
    requires wide { width ≤ seen desk.old.rooms.now back a b + seen desk.old.rooms.now back b a }
    ensures desk { Desk n desk.new.rooms.now desk.new.ways.now }
    ensures measured { Measured n (seen desk.old.rooms.now back) (seen desk.new.rooms.now back) a b width result.free (holds result.set) }
    ensures bound { Bounded (seen desk.old.rooms.now back a b) (seen desk.new.rooms.now back a b) width }
    ensures lent { SameLent desk.old desk.new }
{
    loop {
        let there = desk.room(back, a, b);
        if width <= there {
            return Passage::whole(width);
        }
        if let Err(set) = go_round(desk, back, n, a, b, width - there, false) {
            return Passage { free: there, set };
        }
    }
}

// Goes round by a flood. Where the direct room is no wider then, which is not proved away, plain rounds make it wider, or show
// that nothing can be brought round.
fn go_far(
    desk: &mut ways::Desk,
    back: bool,
    n: usize,
    a: usize,
    b: usize,
    most: u32,
) -> Result<(), u64>
    requires desk { Desk n desk.old.rooms.now desk.old.ways.now }
    requires nodes { TwoNodes n a b }
    requires most { (0 < most) × (most ≤ seen desk.old.rooms.now back b a) }
    ensures desk { Desk n desk.new.rooms.now desk.new.ways.now }
    ensures round { WentRound n false (seen desk.old.rooms.now back) (seen desk.new.rooms.now back) a b (turned result) (in_the_way result) }
    ensures lent { SameLent desk.old desk.new }
{
    let there = desk.room(back, a, b);
    go_round(desk, back, n, a, b, most, true)?;
    let passage = widen(desk, back, n, a, b, there + 1);
    if there < passage.free {
        Ok(())
    } else {
        Err(passage.set)
    }
}

// Goes round once more for a pair after so many rounds: brings some of `most` from a to b besides the direct step, and straight
// back.
fn go_on(
    desk: &mut ways::Desk,
    back: bool,
    n: usize,
    a: usize,
    b: usize,
    most: u32,
    rounds: u32,
) -> Result<(), u64>
    requires desk { Desk n desk.old.rooms.now desk.old.ways.now }
    requires nodes { TwoNodes n a b }
    requires most { (0 < most) × (most ≤ seen desk.old.rooms.now back b a) }
    ensures desk { Desk n desk.new.rooms.now desk.new.ways.now }
    ensures round { WentRound n false (seen desk.old.rooms.now back) (seen desk.new.rooms.now back) a b (turned result) (in_the_way result) }
    ensures lent { SameLent desk.old desk.new }
{
    if rounds < FEW_ROUNDS {
        go_round(desk, back, n, a, b, most, false)
    } else {
        go_far(desk, back, n, a, b, most)
    }
}

// Goes round once more, as `go_on` does, for a loop over lanes: most ends stand at once, and the loop is laid out for those.
#[cold]
pub fn advance(
    desk: &mut ways::Desk,
    back: bool,
    n: usize,
    a: usize,
    b: usize,
    most: u32,
    rounds: u32,
) -> Result<(), u64>
    requires desk { Desk n desk.old.rooms.now desk.old.ways.now }
    requires nodes { TwoNodes n a b }
    requires most { (0 < most) × (most ≤ seen desk.old.rooms.now back b a) }
    ensures desk { Desk n desk.new.rooms.now desk.new.ways.now }
    ensures round { WentRound n false (seen desk.old.rooms.now back) (seen desk.new.rooms.now back) a b (turned result) (in_the_way result) }
    ensures lent { SameLent desk.old desk.new }
{
    go_on(desk, back, n, a, b, most, rounds)
}

// How much of a width is free from a to b: goes round, by floods after a few rounds, until the direct room is as wide, or a set
// is in the way.
pub fn measure(
    desk: &mut ways::Desk,
    back: bool,
    n: usize,
    a: usize,
    b: usize,
    width: u32,
) -> Passage
    requires desk { Desk n desk.old.rooms.now desk.old.ways.now }
    requires nodes { TwoNodes n a b }
    requires wide { width ≤ seen desk.old.rooms.now back a b + seen desk.old.rooms.now back b a }
    ensures desk { Desk n desk.new.rooms.now desk.new.ways.now }
    ensures measured { Measured n (seen desk.old.rooms.now back) (seen desk.new.rooms.now back) a b width result.free (holds result.set) }
    ensures lent { SameLent desk.old desk.new }
{
    let mut rounds: u32 = 0;
    loop {
        let there = desk.room(back, a, b);
        if width <= there {
            return Passage::whole(width);
        }
        if let Err(set) = go_on(desk, back, n, a, b, width - there, rounds) {
            return Passage { free: there, set };
        }
        rounds = rounds.saturating_add(1);
    }
}
