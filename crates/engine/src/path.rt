// A path through the rooms: how much can move along it, and moving so much.
ghost use Rattle.std.specs.Prelude.{◌≡◌, ℕ, ◌+◌, ◌*◌, ◌^◌, ◌≤◌, ◌<◌, length};
ghost use Rattle.rooms.specs.Room.{side, at, seen};
ghost use Rattle.ways.specs.Ways.{Ways};
ghost use Rattle.ways.specs.Lent.{SameLent};
ghost use Rattle.engine.specs.Path.{Track, LeastOf, Moved};

use rooms::room_of;
use ways::{Desk, push};

// The least room along a path, at most a number.
pub fn least(rooms: &[u32], back: bool, path: &[u8], depth: usize, most: u32) -> u32
    requires whole { (side * side ≤ length rooms.now) × (depth < length path.now) }
    requires nodes { (i : ℕ) → i ≤ depth → at path.now i < side }
    ensures { LeastOf (seen rooms.now back) (at path.now) depth most result }
{
    let mut r = most;
    for i in 0..depth {
        let x = path[i] as usize;
        let y = path[i + 1] as usize;
        r = r.min(room_of(rooms, back, x, y));
    }
    r
}

// Moves d along a path.
pub fn move_along(desk: &mut Desk, back: bool, path: &[u8], depth: usize, d: u32)
    requires ways { Ways desk.old.rooms.now desk.old.ways.now }
    requires path { (depth < length path.now) × ((n : ℕ) × ((n ≤ side) × Track n (at path.now) depth)) }
    requires fits { (i : ℕ) → i < depth → d ≤ seen desk.old.rooms.now back (at path.now i) (at path.now (i + 1)) }
    requires small { (x y : ℕ) → x < side → y < side → (x ≡ y → ⊥) → seen desk.old.rooms.now back x y + seen desk.old.rooms.now back y x < 2 ^ 32 }
    ensures moved { (n : ℕ) → n ≤ side → Track n (at path.now) depth → Moved n (seen desk.old.rooms.now back) (seen desk.new.rooms.now back) (at path.now) depth d }
    ensures ways { Ways desk.new.rooms.now desk.new.ways.now }
    ensures lent { SameLent desk.old desk.new }
{
    let rooms = &mut *desk.rooms;
    let ways = &mut *desk.ways;
    for i in 0..depth {
        let x = path[i] as usize;
        let y = path[i + 1] as usize;
        push(rooms, ways, back, x, y, d);
    }
}
