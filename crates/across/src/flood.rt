// A flood: where a path would bring a unit at a time, all the levels of a search are moved through at once. Going back over them,
// each node tries how much it can pass on to the end; going forward, at most so much comes to it; and going back again, what came
// to the end is drawn from level to level. Each move is legal by its own least number, and settling brings all into balance
// again.
ghost use Rattle.std.specs.Prelude.{◌+◌, ◌*◌, ◌^◌, ◌≤◌, ◌<◌, length};
ghost use Rattle.rooms.specs.Room.{side, at, seen, Still};
ghost use Rattle.ways.specs.Ways.{Desk};
ghost use Rattle.ways.specs.Lent.{SameLent};
ghost use Rattle.across.specs.Flood.{Stays, Goes};

use engine::settle::settle;
use rooms::{Rooms, add, take};
use ways::word_at;
use words::{Members, both};

// A flood under way: how much each node can pass on to the end, how much has come to it, and how much lacks there.
#[derive(Drop)]
struct Flooding {
    n: usize,
    can: [u32; Rooms::SIDE],
    come: [u32; Rooms::SIDE],
    lack: [u32; Rooms::SIDE],
}

// Where steps lead from x to the nodes of a level.
fn steps_to(desk: &ways::Desk, back: bool, x: usize, level: u64) -> u64
    requires { (side + side ≤ length desk.now.ways.now) × (x < side) }
{
    both(desk.ways[word_at(back, x)], level)
}

// With `back` all is looked at backwards. That is lent to each step, since read from the flood it would be read anew in each turn.
impl Flooding {
    // How much of a number x can pass on to the nodes of the next level.
    fn can_pass(&self, desk: &ways::Desk, back: bool, x: usize, next: u64, most: u32) -> u32
        requires desk { Desk self.now.n desk.now.rooms.now desk.now.ways.now }
        requires node { x < side }
    {
        let mut stays = most;
        for y in Members(steps_to(desk, back, x, next)) {
            if stays == 0 {
                break;
            }
            stays -= stays.min(desk.room(back, x, y)).min(self.can[y]);
        }
        most - stays
    }

    // How much of what lacks at y can be moved on to x, by what x can hold and by the room from x to y; at most a number.
    fn due(&self, desk: &ways::Desk, back: bool, x: usize, y: usize, most: u32) -> u32
        requires desk { Desk self.now.n desk.now.rooms.now desk.now.ways.now }
        requires nodes { (x < side) × (y < side) }
        ensures lack { (result ≤ at self.now.lack y) × (at self.now.lack x + result < 2 ^ 32) }
        ensures room { result ≤ seen desk.now.rooms.now back x y }
    {
        most.min(self.lack[y])
            .min(u32::MAX - self.lack[x])
            .min(desk.room(back, x, y))
    }

    // Moves what lacks at y, at most a number, on to x: as much is pushed from x to y.
    fn draw(&mut self, desk: &mut ways::Desk, back: bool, x: usize, y: usize, most: u32)
        requires desk { Desk self.old.n desk.old.rooms.now desk.old.ways.now }
        requires nodes { (x < side) × (y < side) }
        ensures desk { Desk self.new.n desk.new.rooms.now desk.new.ways.now }
        ensures goes { Goes back self.old self.new desk.old.rooms.now desk.new.rooms.now }
        ensures lent { SameLent desk.old desk.new }
    {
        // Where nothing lacks at y, nothing else is looked at.
        if self.lack[y] == 0 {
            return;
        }
        let d = self.due(desk, back, x, y, most);
        if d == 0 || x == y {
            return;
        }
        desk.push(back, x, y, d);
        take(&mut self.lack, y, d);
        add(&mut self.lack, x, d);
    }

    // Passes some of what stays at x on to y, and as much of what lacks at y is moved on to x. Says how much was passed on.
    fn pass(&mut self, desk: &mut ways::Desk, back: bool, x: usize, y: usize, stays: u32) -> u32
        requires desk { Desk self.old.n desk.old.rooms.now desk.old.ways.now }
        requires nodes { (x < side) × (y < side) }
        ensures fits { result ≤ stays }
        ensures desk { Desk self.new.n desk.new.rooms.now desk.new.ways.now }
        ensures goes { Goes back self.old self.new desk.old.rooms.now desk.new.rooms.now }
        ensures lent { SameLent desk.old desk.new }
    {
        let open = self.can[y].saturating_sub(self.come[y]);
        let passed = stays.min(desk.room(back, x, y)).min(open);
        self.come[y] += passed;
        self.draw(desk, back, x, y, passed);
        passed
    }

    // Passes what has come to x on to the nodes of the next level.
    fn pass_on(&mut self, desk: &mut ways::Desk, back: bool, x: usize, next: u64)
        requires desk { Desk self.old.n desk.old.rooms.now desk.old.ways.now }
        requires node { x < side }
        ensures desk { Desk self.new.n desk.new.rooms.now desk.new.ways.now }
        ensures goes { Goes back self.old self.new desk.old.rooms.now desk.new.rooms.now }
        ensures lent { SameLent desk.old desk.new }
    {
        let mut stays = self.come[x];
        for y in Members(steps_to(desk, back, x, next)) {
            if stays == 0 {
                break;
            }
            stays -= self.pass(desk, back, x, y, stays);
        }
    }

    // Nothing has come to the nodes of a level.
    fn clear(&mut self, level: u64)
        ensures { Stays self.old self.new }
    {
        for y in Members(level) {
            self.come[y] = 0;
        }
    }

    // Writes down how much of a number the nodes of a level can pass on to those of the next.
    fn try_level(&mut self, desk: &ways::Desk, back: bool, here: u64, next: u64, most: u32)
        requires { Desk self.old.n desk.now.rooms.now desk.now.ways.now }
        ensures { Stays self.old self.new }
    {
        for x in Members(here) {
            self.can[x] = self.can_pass(desk, back, x, next, most);
        }
    }

    // Passes what has come to the nodes of a level on to those of the next.
    fn pass_level(&mut self, desk: &mut ways::Desk, back: bool, here: u64, next: u64)
        requires { Desk self.old.n desk.old.rooms.now desk.old.ways.now }
        ensures desk { Desk self.new.n desk.new.rooms.now desk.new.ways.now }
        ensures goes { Goes back self.old self.new desk.old.rooms.now desk.new.rooms.now }
        ensures lent { SameLent desk.old desk.new }
    {
        // Taken off the desk and put side by side anew, the two lists stay where the loops find them at once.
        let mut near = ways::Desk {
            rooms: &mut *desk.rooms,
            ways: &mut *desk.ways,
        };
        for x in Members(here) {
            self.pass_on(&mut near, back, x, next);
        }
    }

    // Going back, writes down how much of a number the nodes of each level can pass on to the end.
    fn try_back(&mut self, desk: &ways::Desk, back: bool, levels: &[u64], last: usize, most: u32)
        requires desk { Desk self.old.n desk.now.rooms.now desk.now.ways.now }
        requires last { last < length levels.now }
        ensures { Stays self.old self.new }
    {
        for i in (0..last).rev() {
            self.try_level(desk, back, levels[i], levels[i + 1], most);
        }
    }

    // Going forward, passes on what has come.
    fn pass_forward(&mut self, desk: &mut ways::Desk, back: bool, levels: &[u64], last: usize)
        requires desk { Desk self.old.n desk.old.rooms.now desk.old.ways.now }
        requires last { last < length levels.now }
        ensures desk { Desk self.new.n desk.new.rooms.now desk.new.ways.now }
        ensures goes { Goes back self.old self.new desk.old.rooms.now desk.new.rooms.now }
        ensures lent { SameLent desk.old desk.new }
    {
        for i in 0..last {
            self.pass_level(desk, back, levels[i], levels[i + 1]);
        }
    }

    // Going back, draws what came to the end from level to level; what comes to a level is counted anew.
    fn pass_back(&mut self, desk: &mut ways::Desk, back: bool, levels: &[u64], last: usize)
        requires desk { Desk self.old.n desk.old.rooms.now desk.old.ways.now }
        requires last { last < length levels.now }
        ensures desk { Desk self.new.n desk.new.rooms.now desk.new.ways.now }
        ensures goes { Goes back self.old self.new desk.old.rooms.now desk.new.rooms.now }
        ensures lent { SameLent desk.old desk.new }
    {
        for i in (0..last).rev() {
            self.clear(levels[i + 1]);
            self.pass_level(desk, back, levels[i], levels[i + 1]);
        }
    }

    // Brings of what lacks at a as much straight to b as came from a to b, and draws it through the levels back to a.
    fn pour(
        &mut self,
        desk: &mut ways::Desk,
        back: bool,
        a: usize,
        b: usize,
        most: u32,
        levels: &[u64],
        last: usize,
    )
        requires desk { Desk self.old.n desk.old.rooms.now desk.old.ways.now }
        requires nodes { (a < side) × (b < side) }
        requires last { last < length levels.now }
        ensures desk { Desk self.new.n desk.new.rooms.now desk.new.ways.now }
        ensures goes { Goes back self.old self.new desk.old.rooms.now desk.new.rooms.now }
        ensures lent { SameLent desk.old desk.new }
    {
        self.can[b] = most;
        self.try_back(desk, back, levels, last, most);
        self.come[a] = self.can[a];
        self.pass_forward(desk, back, levels, last);
        self.draw(desk, back, b, a, self.come[b]);
        self.pass_back(desk, back, levels, last);
    }
}

// Floods the levels of a search from a, with b alone in the last: some of what can come through them, at most a number, is
// brought to b and straight back. As much is over at a as lacks there, and that is settled in the end.
pub fn flood(
    desk: &mut ways::Desk,
    back: bool,
    n: usize,
    a: usize,
    b: usize,
    most: u32,
    levels: &[u64],
    last: usize,
)
    requires desk { Desk n desk.old.rooms.now desk.old.ways.now }
    requires nodes { (a < n) × (b < n) }
    requires lists { last < length levels.now }
    ensures desk { Desk n desk.new.rooms.now desk.new.ways.now }
    ensures still { Still n (seen desk.old.rooms.now back) (seen desk.new.rooms.now back) }
    ensures lent { SameLent desk.old desk.new }
{
    let mut over = [0u32; Rooms::SIDE];
    over[a] = most;
    let mut flooding = Flooding {
        n,
        can: [0u32; Rooms::SIDE],
        come: [0u32; Rooms::SIDE],
        lack: over,
    };
    flooding.pour(desk, back, a, b, most, levels, last);
    settle(desk, back, n, &mut over, &mut flooding.lack);
}
