// The flow question of document 01, for every input.
ghost use Rattle.std.specs.Prelude.{◌≤◌, ◌/◌, length};
ghost use Rattle.plan.specs.Limits.{arc_entries};
ghost use Rattle.plan.specs.Plan.{WellFormed, meant};
ghost use Rattle.flow.specs.Answer.{Told, FlowAnswers};

use first_flow::first_flow;
use marks::{mark_arcs, mark_nodes};
use network::{check, too_short};
use plan::{Network, No};
use rooms::Rooms;
use stand::Shortage;
use stand::ask::ask;
use ways::{Desk, Words};

// Works a well-formed plan out: the first flow, or the marks of the shortage set and of what it cites.
fn work_out(
    network: Network,
    arc_buffer: &mut [u32],
    node_buffer: &mut [u8],
) -> Result<(), Shortage>
    requires plan { WellFormed (meant network) }
    requires whole { (length network.arcs.now / arc_entries ≤ length arc_buffer.old) × (length network.supplies.now ≤ length node_buffer.old) }
    ensures { Told (meant network.entry) arc_buffer.old node_buffer.old arc_buffer.new node_buffer.new result }
{
    let mut rooms = [0u32; Rooms::CELLS];
    let mut ways = [0u64; Words::COUNT];
    let mut desk = Desk {
        rooms: &mut rooms,
        ways: &mut ways,
    };
    if let Err(shortage) = ask(network, &mut desk) {
        mark_nodes(shortage.set, network.supplies.len(), node_buffer);
        mark_arcs(network, shortage.set, arc_buffer);
        return Err(shortage);
    }
    first_flow(network, None, arc_buffer, &mut desk);
    Ok(())
}

// Whether a whole-number flow f exists with low ≤ f ≤ high on every arc and, at every node, what goes out
// minus what comes in equal to the supply. If so the arc buffer gets the first one and the node buffer
// stays. If not, the set S of greatest Σ supplies(S) - Σ highs leaving S + Σ lows entering S, the least of
// these, is marked in the node buffer, and the bounds in its sum in the arc buffer: no flow exists, since
// every flow keeps that sum at or below 0. If the input is turned down, both buffers stay.
pub fn question(network: Network, arc_buffer: &mut [u32], node_buffer: &mut [u8]) -> Result<(), No>
    ensures { FlowAnswers (meant network.entry) arc_buffer.old node_buffer.old arc_buffer.new node_buffer.new result }
{
    let size = network.size();
    let short = too_short(arc_buffer.len(), size.arcs, node_buffer.len(), size.nodes);
    check(network, short)?;
    Ok(work_out(network, arc_buffer, node_buffer)?)
}
