// A plan in the engine's numbers: every arc at its low, the rest of its width as room. Internal.
ghost use Rattle.std.specs.Prelude.{◌≡◌, false, ◌+◌, ◌-◌, ◌*◌, ◌^◌, ◌≤◌, ◌<◌, pos, length, get_or};
ghost use Rattle.numbers.specs.Parts.{plus, minus};
ghost use Rattle.rooms.specs.Room.{side, at, seen};
ghost use Rattle.rooms.specs.Move.{Taken, Less};
ghost use Rattle.ways.specs.Ways.{Ways, Desk};
ghost use Rattle.ways.specs.Lent.{SameLent};
ghost use Rattle.plan.specs.Plan.{meant};
ghost use Rattle.stand.specs.State.{Represents};
ghost use Rattle.stand.specs.Desk.{EmptyDesk};
ghost use Rattle.lists.specs.Written.{Written};

use plan::{Arc, Network};
use rooms::add;

// Enters the supplies of all nodes: what a node has is over there, what it lacks is under.
fn enter_supplies(supplies: &[i32], over: &mut [u32], under: &mut [u32])
    requires { (length supplies.now ≤ length over.old) × (length supplies.now ≤ length under.old) }
    ensures over { Written (λ v. plus (get_or supplies.now v (pos 0))) (length supplies.now) over.old over.new }
    ensures under { Written (λ v. minus (get_or supplies.now v (pos 0))) (length supplies.now) under.old under.new }
{
    for (v, &supply) in supplies.iter().enumerate() {
        over[v] = supply.max(0).unsigned_abs();
        under[v] = supply.min(0).unsigned_abs();
    }
}

// Enters an arc at its low, which is under at the node that it leaves and over at the one that it enters;
// the rest of its width is room between them.
fn enter_arc(arc: Arc, desk: &mut ways::Desk, over: &mut [u32], under: &mut [u32])
    requires ways { Ways desk.old.rooms.now desk.old.ways.now }
    requires ends { (arc.from < side) × (arc.to < side) × (arc.from < length under.old) × (arc.to < length over.old) }
    requires range { arc.low ≤ arc.high }
    requires fits { (seen desk.old.rooms.now false arc.from arc.to + (arc.high - arc.low) < 2 ^ 32) × (at under.old arc.from + arc.low < 2 ^ 32) × (at over.old arc.to + arc.low < 2 ^ 32) }
    ensures ways { Ways desk.new.rooms.now desk.new.ways.now }
    ensures room { Taken (seen desk.new.rooms.now false) (seen desk.old.rooms.now false) arc.from arc.to (arc.high - arc.low) }
    ensures over { Less (at over.new) (at over.old) arc.to arc.low }
    ensures under { Less (at under.new) (at under.old) arc.from arc.low }
    ensures lent { SameLent desk.old desk.new }
{
    let from = arc.from as usize;
    let to = arc.to as usize;
    desk.add_room(from, to, arc.high - arc.low);
    add(under, from, arc.low);
    add(over, to, arc.low);
}

// Enters a well-formed plan into rooms with their words, which hold only zeros, and into over and under.
pub fn build(network: Network, desk: &mut ways::Desk, over: &mut [u32], under: &mut [u32])
    requires desk { EmptyDesk network.arcs.now network.supplies.now desk.old.rooms.now desk.old.ways.now }
    requires lists { (length network.supplies.now ≤ length over.old) × (length network.supplies.now ≤ length under.old) }
    ensures desk { Desk (length network.entry.supplies.now) desk.new.rooms.now desk.new.ways.now }
    ensures entered { Represents (meant network.entry) (seen desk.new.rooms.now false) (at over.new) (at under.new) }
    ensures lent { SameLent desk.old desk.new }
{
    enter_supplies(network.supplies, over, under);
    for k in 0..network.size().arcs {
        enter_arc(network.arc(k), desk, over, under);
    }
}
