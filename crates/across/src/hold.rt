// Holding: an arc's share is taken out of the rooms of its pair, once the rooms have been made wide enough for it.
ghost use Rattle.std.specs.Prelude.{false};
ghost use Rattle.rooms.specs.Room.{seen};
ghost use Rattle.ways.specs.Ways.{Desk};
ghost use Rattle.ways.specs.Lent.{SameLent};
ghost use Rattle.across.specs.Round.{TwoNodes};
ghost use Rattle.across.specs.Hold.{CanGive, MadeRoom, HeldOut};

use crate::round::widen;

// Makes the room from a to b at least `out` and the room back at least `home`: where one lacks some, rounds bring it over
// from the other.
fn make_room(desk: &mut ways::Desk, n: usize, a: usize, b: usize, out: u32, home: u32)
    requires desk { Desk n desk.old.rooms.now desk.old.ways.now }
    requires nodes { TwoNodes n a b }
    requires gives { CanGive n (seen desk.old.rooms.now false) a b out home }
    ensures desk { Desk n desk.new.rooms.now desk.new.ways.now }
    ensures made { MadeRoom n (seen desk.old.rooms.now false) (seen desk.new.rooms.now false) a b out home }
    ensures lent { SameLent desk.old desk.new }
{
    if desk.room(false, a, b) < out {
        widen(desk, false, n, a, b, out);
    } else {
        widen(desk, false, n, b, a, home);
    }
}

// Takes an arc's share out of the rooms of its pair: `out` of the room from a to b, `home` of the room back.
pub fn hold(desk: &mut ways::Desk, n: usize, a: usize, b: usize, out: u32, home: u32)
    requires desk { Desk n desk.old.rooms.now desk.old.ways.now }
    requires nodes { TwoNodes n a b }
    requires gives { CanGive n (seen desk.old.rooms.now false) a b out home }
    ensures desk { Desk n desk.new.rooms.now desk.new.ways.now }
    ensures held { HeldOut n (seen desk.old.rooms.now false) (seen desk.new.rooms.now false) a b out home }
    ensures lent { SameLent desk.old desk.new }
{
    make_room(desk, n, a, b, out, home);
    desk.take_room(a, b, out);
    desk.take_room(b, a, home);
}
