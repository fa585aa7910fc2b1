// The request of document 01 for the reason of one end of one arc, for every input.
ghost use Rattle.std.specs.Prelude.{◌≤◌, ◌<◌, ◌/◌, length};
ghost use Rattle.words.specs.Word.{holds};
ghost use Rattle.plan.specs.Limits.{arc_entries};
ghost use Rattle.plan.specs.Plan.{WellFormed, meant};
ghost use Rattle.stand.specs.Desk.{ReadyDesk};
ghost use Rattle.reason.specs.Answer.{Told, ReasonAnswers};
ghost use Rattle.reason.specs.Freed.{Freed};

use across::round::{Passage, measure};
use marks::{mark_arcs_for, mark_nodes};
use network::{check_asked, too_short};
use one_arc::counts::end_at;
use plan::{Network, No};
use rooms::Rooms;
use stand::Shortage;
use stand::ask::ask;
use ways::{Desk, Words};

// How much of the width of arc k is free for its low end, or with `upper` for its high end, and the set that is
// in the way where that is not all of it. The direct step between its ends is shut: a step back along the arc
// does not let its end stand.
fn free_of(network: Network, k: usize, upper: bool, desk: &mut Desk) -> Passage
    requires ready { ReadyDesk network.arcs.now network.supplies.now desk.old.rooms.now desk.old.ways.now }
    requires arc { k < length network.arcs.now / arc_entries }
    ensures { Freed (meant network.entry) k upper result.free (holds result.set) }
{
    let arc = network.arc(k);
    let from = arc.from as usize;
    let to = arc.to as usize;
    let width = arc.high - arc.low;
    if from == to {
        return Passage::whole(width);
    }
    measure(desk, upper, network.supplies.len(), from, to, width)
}

// Whether the end of arc k moved, and where to, in a plan that stands ready; if it did, marks the reason.
fn explain(
    network: Network,
    k: usize,
    upper: bool,
    arc_buffer: &mut [u32],
    node_buffer: &mut [u8],
    desk: &mut Desk,
) -> Option<u32>
    requires ready { ReadyDesk network.arcs.now network.supplies.now desk.old.rooms.now desk.old.ways.now }
    requires arc { k < length network.arcs.now / arc_entries }
    requires whole { (length network.arcs.now / arc_entries ≤ length arc_buffer.old) × (length network.supplies.now ≤ length node_buffer.old) }
    ensures { Told (meant network.entry) k upper arc_buffer.old node_buffer.old arc_buffer.new node_buffer.new (Ok result) }
{
    let passage = free_of(network, k, upper, desk);
    let arc = network.arc(k);
    if passage.free == arc.high - arc.low {
        return None;
    }
    mark_nodes(passage.set, network.supplies.len(), node_buffer);
    mark_arcs_for(network, passage.set, k, upper, arc_buffer);
    Some(end_at(upper, arc.low, arc.high, passage.free))
}

// Works out an end of a well-formed plan.
fn work_out(
    network: Network,
    k: usize,
    upper: bool,
    arc_buffer: &mut [u32],
    node_buffer: &mut [u8],
) -> Result<Option<u32>, Shortage>
    requires plan { WellFormed (meant network) }
    requires arc { k < length network.arcs.now / arc_entries }
    requires whole { (length network.arcs.now / arc_entries ≤ length arc_buffer.old) × (length network.supplies.now ≤ length node_buffer.old) }
    ensures { Told (meant network.entry) k upper arc_buffer.old node_buffer.old arc_buffer.new node_buffer.new result }
{
    let mut rooms = [0u32; Rooms::CELLS];
    let mut ways = [0u64; Words::COUNT];
    let mut desk = Desk {
        rooms: &mut rooms,
        ways: &mut ways,
    };
    let asked = ask(network, &mut desk);
    let Ok(()) = asked else {
        return asked.map(|()| None);
    };
    Ok(explain(network, k, upper, arc_buffer, node_buffer, &mut desk))
}

// Why the low end (0) or the high end (1) of an arc lies where it does. Take the sets S that the arc leaves.
// Each forces at least Σ supplies(S) - Σ highs of the other arcs leaving S + Σ lows entering S on it, and
// allows at most Σ supplies(S) + Σ highs entering S - Σ lows of the other arcs leaving S. An end that moved
// is the greatest number forced or the least allowed: the least set that gives it is marked in the node
// buffer, and the bounds in its sum in the arc buffer. No flow passes that number, since every flow keeps
// to these bounds. If the end stands, or there is no flow, or the input is turned down, both buffers stay.
pub fn reason(
    network: Network,
    arc: u32,
    end: u32,
    arc_buffer: &mut [u32],
    node_buffer: &mut [u8],
) -> Result<Option<u32>, No>
    ensures { ReasonAnswers (meant network.entry) arc end arc_buffer.old node_buffer.old arc_buffer.new node_buffer.new result }
{
    let size = network.size();
    let k = arc as usize;
    let short = too_short(arc_buffer.len(), size.arcs, node_buffer.len(), size.nodes);
    let missing = size.arcs <= k || 1 < end;
    check_asked(network, short, missing)?;
    Ok(work_out(network, k, end == 1, arc_buffer, node_buffer)?)
}
