// The request of document 01 for an arc held at a count, for every input.
ghost use Rattle.std.specs.Prelude.{◌≡◌, true, false, ◌≤◌, ◌<◌, ◌/◌, length};
ghost use Rattle.plan.specs.Limits.{arc_entries};
ghost use Rattle.plan.specs.Plan.{WellFormed, meant};
ghost use Rattle.plan.specs.Flow.{OutsideRange};
ghost use Rattle.stand.specs.Desk.{ReadyDesk};
ghost use Rattle.one_arc.specs.Standing.{Possible};
ghost use Rattle.held.specs.Answer.{Flowing, Told, HeldAnswers};

use crate::Unheld;
use first_flow::first_flow;
use network::check_asked;
use one_arc::counts::hold_at;
use one_arc::ends::end_for;
use plan::Network;
use rooms::Rooms;
use stand::ask::ask;
use ways::{Desk, Words};

// Whether the count lies outside the narrowed range of arc k, in a plan that stands ready.
fn out_of_range(network: Network, k: usize, count: u32, desk: &mut Desk) -> bool
    requires ready { ReadyDesk network.arcs.now network.supplies.now desk.old.rooms.now desk.old.ways.now }
    requires arc { k < length network.arcs.now / arc_entries }
    ensures outside { result ≡ true → OutsideRange (meant network.entry) k count }
    ensures possible { result ≡ false → Possible (meant network.entry) k count }
    ensures ready { ReadyDesk network.entry.arcs.now network.entry.supplies.now desk.new.rooms.now desk.new.ways.now }
{
    let low = end_for(network, k, false, desk);
    let high = end_for(network, k, true, desk);
    count < low || high < count
}

// Writes the first flow with a count on arc k that some flow has, in a plan that stands ready: it is the first
// once the arc is held there.
fn write_held(network: Network, k: usize, count: u32, arc_buffer: &mut [u32], desk: &mut Desk)
    requires ready { ReadyDesk network.arcs.now network.supplies.now desk.old.rooms.now desk.old.ways.now }
    requires arc { k < length network.arcs.now / arc_entries }
    requires whole { length network.arcs.now / arc_entries ≤ length arc_buffer.old }
    requires possible { Possible (meant network) k count }
    ensures { Flowing (meant network.entry) k count arc_buffer.old arc_buffer.new }
{
    hold_at(desk, network.supplies.len(), network.arc(k), count);
    first_flow(network, Some((k, count)), arc_buffer, desk);
}

// Works a held arc of a well-formed plan out: the first flow with the count on arc k, unless none has it.
fn work_out(network: Network, k: usize, count: u32, arc_buffer: &mut [u32]) -> Result<(), Unheld>
    requires plan { WellFormed (meant network) }
    requires arc { k < length network.arcs.now / arc_entries }
    requires whole { length network.arcs.now / arc_entries ≤ length arc_buffer.old }
    ensures { Told (meant network.entry) k count arc_buffer.old arc_buffer.new result }
{
    let mut rooms = [0u32; Rooms::CELLS];
    let mut ways = [0u64; Words::COUNT];
    let mut desk = Desk {
        rooms: &mut rooms,
        ways: &mut ways,
    };
    ask(network, &mut desk)?;
    if out_of_range(network, k, count, &mut desk) {
        return Err(Unheld::Outside);
    }
    write_held(network, k, count, arc_buffer, &mut desk);
    Ok(())
}

// The first of the flows f with f arc = count: low ≤ f ≤ high on every arc and, at every node, what goes
// out minus what comes in equal to the supply. If there is no flow at all, or none has that count, or the
// input is turned down, the buffer stays.
pub fn hold(network: Network, arc: u32, count: u32, arc_buffer: &mut [u32]) -> Result<(), Unheld>
    ensures { HeldAnswers (meant network.entry) arc count arc_buffer.old arc_buffer.new result }
{
    let size = network.size();
    let k = arc as usize;
    check_asked(network, arc_buffer.len() < size.arcs, size.arcs <= k)?;
    work_out(network, k, count, arc_buffer)
}
