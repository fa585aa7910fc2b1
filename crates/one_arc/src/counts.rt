// An end of an arc's narrowed range, and an arc held at a count, told by the arc's own numbers. A plan that has a
// flow stands in the rooms, in balance, before and after. Internal.
ghost use Rattle.std.specs.Prelude.{◌≡◌, cond, false, ℕ, ◌+◌, ◌-◌, ◌≤◌};
ghost use Rattle.rooms.specs.Room.{seen};
ghost use Rattle.ways.specs.Ways.{Desk};
ghost use Rattle.ways.specs.Lent.{SameLent};
ghost use Rattle.plan.specs.Plan.{Plan};
ghost use Rattle.plan.specs.Flow.{held};
ghost use Rattle.plan.specs.Reason.{NarrowedEnd};
ghost use Rattle.stand.specs.State.{Ready};
ghost use Rattle.one_arc.specs.Standing.{Standing, Possible};

use across::hold::hold;
use across::round::measure;
use plan::Arc;

// The one of two numbers, or with `upper` the other.
pub fn either(upper: bool, low: u32, high: u32) -> u32
    ensures { result ≡ cond upper high low }
{
    if upper {
        return high;
    }
    low
}

// The end of a range of which so much is free: as far below the high, or with `upper` above the low.
pub fn end_at(upper: bool, low: u32, high: u32, free: u32) -> u32
    requires { (low ≤ high) × (free ≤ high - low) }
    ensures { result ≡ cond upper (low + free) (high - free) }
{
    either(upper, high - free, low + free)
}

// The smallest count of an arc over all flows, or with `upper` the largest.
pub fn end_of(desk: &mut ways::Desk, upper: bool, n: usize, arc: Arc) -> u32
    requires desk { Desk n desk.old.rooms.now desk.old.ways.now }
    requires stands { (p : Plan) × ((k : ℕ) × Standing p k n arc.from arc.to arc.low arc.high (seen desk.old.rooms.now false)) }
    ensures desk { Desk n desk.new.rooms.now desk.new.ways.now }
    ensures end { (p : Plan) (k : ℕ) → Standing p k n arc.from arc.to arc.low arc.high (seen desk.old.rooms.now false) → NarrowedEnd p k upper result × Ready p (seen desk.new.rooms.now false) }
    ensures lent { SameLent desk.old desk.new }
{
    let a = arc.from as usize;
    let b = arc.to as usize;
    if a == b {
        return either(upper, arc.low, arc.high);
    }
    let passage = measure(desk, upper, n, a, b, arc.high - arc.low);
    end_at(upper, arc.low, arc.high, passage.free)
}

// Holds an arc at a count that some flow has on it.
pub fn hold_at(desk: &mut ways::Desk, n: usize, arc: Arc, count: u32)
    requires desk { Desk n desk.old.rooms.now desk.old.ways.now }
    requires stands { (p : Plan) × ((k : ℕ) × (Standing p k n arc.from arc.to arc.low arc.high (seen desk.old.rooms.now false) × Possible p k count)) }
    ensures desk { Desk n desk.new.rooms.now desk.new.ways.now }
    ensures held { (p : Plan) (k : ℕ) → Standing p k n arc.from arc.to arc.low arc.high (seen desk.old.rooms.now false) → Possible p k count → Ready (held p k count) (seen desk.new.rooms.now false) }
    ensures lent { SameLent desk.old desk.new }
{
    let a = arc.from as usize;
    let b = arc.to as usize;
    if a == b {
        return;
    }
    hold(desk, n, a, b, arc.high - count, count - arc.low);
}
