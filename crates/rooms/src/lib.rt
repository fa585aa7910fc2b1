// The rooms between nodes, in rows: how much can still move from one node to another (specs/Room); and a number at a
// node that is made less or more. It uses `numbers`. Internal: most of its functions have `requires`.
#![tactic(auto)]

ghost use Rattle.std.specs.Prelude.{◌≡◌, ◌+◌, ◌*◌, ◌^◌, ◌≤◌, ◌<◌, length};
ghost use Rattle.rooms.specs.Room.{side, cell, at, seen};
ghost use Rattle.rooms.specs.Move.{Less};

#[derive(Clone, Copy)]
pub struct Rooms {
    pub nodes: usize,
}

impl Rooms {
    pub const SIDE: usize = 64;

    pub const CELLS: usize = Rooms::SIDE * Rooms::SIDE;
}

// The place of the room from x to y; looked at backwards, of the room from y to x.
pub fn place(back: bool, x: usize, y: usize) -> usize
    requires { (x < side) × (y < side) }
    ensures { (result ≡ cell back x y) × (result < side * side) }
{
    if back {
        y * Rooms::SIDE + x
    } else {
        x * Rooms::SIDE + y
    }
}

// The room from x to y; looked at backwards, the room from y to x.
pub fn room_of(rooms: &[u32], back: bool, x: usize, y: usize) -> u32
    requires { (side * side ≤ length rooms.now) × (x < side) × (y < side) }
    ensures { result ≡ seen rooms.now back x y }
{
    rooms[place(back, x, y)]
}

// Takes d off the number at a place.
pub fn take(numbers: &mut [u32], y: usize, d: u32)
    requires { (y < length numbers.old) × (d ≤ at numbers.old y) }
    ensures { Less (at numbers.old) (at numbers.new) y d }
{
    numbers[y] -= d;
}

// Adds d to the number at a place: taking it off again gives what was there.
pub fn add(numbers: &mut [u32], y: usize, d: u32)
    requires { (y < length numbers.old) × (at numbers.old y + d < 2 ^ 32) }
    ensures { Less (at numbers.new) (at numbers.old) y d }
{
    numbers[y] += d;
}
