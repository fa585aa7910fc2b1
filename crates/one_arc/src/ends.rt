// An end of the narrowed range of an arc of a network: at once, or one step after the other. The plan stands ready before
// and after. Internal.
ghost use Rattle.std.specs.Prelude.{◌≡◌, ℕ, ◌<◌, ◌/◌, List, ℤ, length};
ghost use Rattle.ways.specs.Lent.{SameLent};
ghost use Rattle.plan.specs.Limits.{arc_entries};
ghost use Rattle.plan.specs.Plan.{plan_of, meant};
ghost use Rattle.plan.specs.Reason.{NarrowedEnd, own_end};
ghost use Rattle.stand.specs.Desk.{ReadyDesk};
ghost use Rattle.one_arc.specs.Standing.{lacking};

use crate::counts::{either, end_at, end_of};
use across::round::advance;
use plan::{Arc, Network};
use ways::Desk;

// The smallest count of arc k over all flows, or with `upper` the largest.
pub fn end_for(network: Network, k: usize, upper: bool, desk: &mut Desk) -> u32
    requires ready { ReadyDesk network.arcs.now network.supplies.now desk.old.rooms.now desk.old.ways.now }
    requires arc { k < (meant network).arcs }
    ensures end { NarrowedEnd (meant network.entry) k upper result }
    ensures ready { ReadyDesk network.entry.arcs.now network.entry.supplies.now desk.new.rooms.now desk.new.ways.now }
    ensures lent { SameLent desk.old desk.new }
{
    let n = network.supplies.len();
    let arc = network.arc(k);
    end_of(desk, upper, n, arc)
}

// The end that arc k was given: its low, or with `upper` its high.
pub fn own_end(arcs: &[u32], k: usize, upper: bool) -> u32
    requires { k < length arcs.now / arc_entries }
    ensures { (supplies : List ℤ) → result ≡ own_end (plan_of arcs.now supplies) k upper }
{
    let arc = Arc::at(arcs, k);
    either(upper, arc.low, arc.high)
}

// What one step shows of an end: it stands, or it has moved and lies there, or nothing yet, but the arc's room is wider.
#[derive(Clone, Copy)]
pub enum Step {
    Stands,
    Moved(u32),
    Wider,
}

// One step to the end of arc k, the low one or with `upper` the high one. It is known to stand where the arc's room is as
// wide as the arc; else going round once more, after so many rounds for this end, makes the room wider, or shows that the end
// lies where the room ends.
pub fn step_for(network: Network, k: usize, upper: bool, desk: &mut Desk, rounds: u32) -> Step
    requires ready { ReadyDesk network.arcs.now network.supplies.now desk.old.rooms.now desk.old.ways.now }
    requires arc { k < (meant network).arcs }
    ensures stands { result ≡ Step.Stands → NarrowedEnd (meant network.entry) k upper (own_end (meant network.entry) k upper) }
    ensures moved { (end : ℕ) → result ≡ Step.Moved end → NarrowedEnd (meant network.entry) k upper end }
    ensures less { result ≡ Step.Wider → lacking (meant network.entry) k upper desk.new.rooms.now < lacking (meant network.entry) k upper desk.old.rooms.now }
    ensures ready { ReadyDesk network.entry.arcs.now network.entry.supplies.now desk.new.rooms.now desk.new.ways.now }
    ensures lent { SameLent desk.old desk.new }
{
    let arc = network.arc(k);
    let from = arc.from as usize;
    let to = arc.to as usize;
    let width = arc.high - arc.low;
    if from == to {
        return Step::Stands;
    }
    let there = desk.room(upper, from, to);
    if width <= there {
        return Step::Stands;
    }
    let n = network.supplies.len();
    match advance(desk, upper, n, from, to, width - there, rounds) {
        Ok(()) => Step::Wider,
        Err(_) => Step::Moved(end_at(upper, arc.low, arc.high, there)),
    }
}
