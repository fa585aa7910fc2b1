// The rooms with words beside them of where they lead, kept up by every change of a room (specs/Ways). Only `put` writes;
// what is moved, taken out or added goes through it. It uses `rooms` and `words`. Internal: its functions have `requires`.
#![tactic(auto)]

ghost use Rattle.std.specs.Prelude.{◌≡◌, false, ◌+◌, ◌*◌, ◌^◌, ◌≤◌, ◌<◌, length};
ghost use Rattle.rooms.specs.Room.{side, seen};
ghost use Rattle.rooms.specs.Move.{Put, Pushed, Taken};
ghost use Rattle.ways.specs.Ways.{row, Ways, Marked};
ghost use Rattle.ways.specs.Lent.{SameLent};

use rooms::{Rooms, place, room_of};
use words::{but, either, one};

#[derive(Clone, Copy)]
pub struct Words {
    pub nodes: usize,
}

impl Words {
    // A word of where room leads from each node, and one of where it comes from.
    pub const COUNT: usize = Rooms::SIDE + Rooms::SIDE;
}

// The place of the word of where room leads from x; looked at backwards, of where room comes to x from.
pub fn word_at(back: bool, x: usize) -> usize
    requires { x < side }
    ensures { (result ≡ row back x) × (result < side + side) }
{
    if back { Rooms::SIDE + x } else { x }
}

// Puts node y into the word at a place, or out of it.
fn mark(ways: &mut [u64], place: usize, y: usize, on: bool)
    requires { (place < length ways.old) × (y < side) }
    ensures { Marked ways.old ways.new place y on }
{
    let bit = one(y);
    let shown = if on { bit } else { 0 };
    ways[place] = either(but(ways[place], bit), shown);
}

// Puts the room from x to y, and shows in the words whether there is some.
fn put(rooms: &mut [u32], ways: &mut [u64], back: bool, x: usize, y: usize, room: u32)
    requires ways { Ways rooms.old ways.old }
    requires nodes { (x < side) × (y < side) }
    ensures put { Put (seen rooms.old back) (seen rooms.new back) x y room }
    ensures ways { Ways rooms.new ways.new }
{
    let cell = place(back, x, y);
    rooms[cell] = room;
    let on = 0 < room;
    let out = word_at(back, x);
    let home = word_at(!back, y);
    mark(ways, out, y, on);
    mark(ways, home, x, on);
}

// Moves d from x to y: so much room from x to y becomes room from y to x. Over the two lists, since the loop along a path is
// slower over a desk.
pub fn push(rooms: &mut [u32], ways: &mut [u64], back: bool, x: usize, y: usize, d: u32)
    requires ways { Ways rooms.old ways.old }
    requires nodes { (x < side) × (y < side) × (x ≡ y → ⊥) }
    requires fits { (d ≤ seen rooms.old back x y) × (seen rooms.old back y x + d < 2 ^ 32) }
    ensures pushed { Pushed (seen rooms.old back) (seen rooms.new back) x y d }
    ensures ways { Ways rooms.new ways.new }
{
    let there = room_of(rooms, back, x, y) - d;
    let home = room_of(rooms, back, y, x) + d;
    put(rooms, ways, back, x, y, there);
    put(rooms, ways, back, y, x, home);
}

// The rooms with their words, as they are lent.
#[derive(Drop)]
pub struct Desk<'a> {
    pub rooms: &'a mut [u32],
    pub ways: &'a mut [u64],
}

impl Desk<'_> {
    // The room from x to y; looked at backwards, the room from y to x.
    pub fn room(&self, back: bool, x: usize, y: usize) -> u32
        requires { (side * side ≤ length self.now.rooms.now) × (x < side) × (y < side) }
        ensures { result ≡ seen self.now.rooms.now back x y }
    {
        room_of(self.rooms, back, x, y)
    }

    // Moves d from x to y, as `push` does over the two lists.
    pub fn push(&mut self, back: bool, x: usize, y: usize, d: u32)
        requires ways { Ways self.old.rooms.now self.old.ways.now }
        requires nodes { (x < side) × (y < side) × (x ≡ y → ⊥) }
        requires fits { (d ≤ seen self.old.rooms.now back x y) × (seen self.old.rooms.now back y x + d < 2 ^ 32) }
        ensures pushed { Pushed (seen self.old.rooms.now back) (seen self.new.rooms.now back) x y d }
        ensures ways { Ways self.new.rooms.now self.new.ways.now }
        ensures lent { SameLent self.old self.new }
    {
        push(self.rooms, self.ways, back, x, y, d);
    }

    // Takes d off the room from x to y.
    pub fn take_room(&mut self, x: usize, y: usize, d: u32)
        requires ways { Ways self.old.rooms.now self.old.ways.now }
        requires nodes { (x < side) × (y < side) }
        requires fits { d ≤ seen self.old.rooms.now false x y }
        ensures taken { Taken (seen self.old.rooms.now false) (seen self.new.rooms.now false) x y d }
        ensures ways { Ways self.new.rooms.now self.new.ways.now }
        ensures lent { SameLent self.old self.new }
    {
        let there = self.room(false, x, y) - d;
        put(self.rooms, self.ways, false, x, y, there);
    }

    // Adds d to the room from x to y: taking it off again gives what was there.
    pub fn add_room(&mut self, x: usize, y: usize, d: u32)
        requires ways { Ways self.old.rooms.now self.old.ways.now }
        requires nodes { (x < side) × (y < side) }
        requires fits { seen self.old.rooms.now false x y + d < 2 ^ 32 }
        ensures taken { Taken (seen self.new.rooms.now false) (seen self.old.rooms.now false) x y d }
        ensures ways { Ways self.new.rooms.now self.new.ways.now }
        ensures lent { SameLent self.old self.new }
    {
        let there = self.room(false, x, y) + d;
        put(self.rooms, self.ways, false, x, y, there);
    }
}
