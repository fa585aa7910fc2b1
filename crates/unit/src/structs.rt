// The requests over a lent list of arc structs, as C calls them: each takes the list apart and asks the
// request over the flat list. The answers and the promises are the same.
ghost use Rattle.plan.specs.Plan.{plan_of};
ghost use Rattle.flow.specs.Answer.{FlowAnswers};
ghost use Rattle.narrow.specs.Answer.{NarrowAnswers};
ghost use Rattle.arcs.specs.Taken.{flattened, OfArcs};
ghost use Rattle.crossing.specs.Crossing.{Crosses, flow_reading};

use crate::requests::{blenrop_flow, blenrop_narrow};
use arcs::{Arc, ROOM, in_use, take_apart};
use crossing::answer::Answer;

// The flow question about the first numbers of a list that was taken apart from `count` arcs.
fn flow_over(
    flat: [u32; ROOM],
    count: usize,
    supplies: &[i32],
    arc_buffer: &mut [u32],
    node_buffer: &mut [u8],
) -> Answer
    ensures { OfArcs flat count (λ list. Crosses flow_reading (FlowAnswers (plan_of list supplies.now) arc_buffer.old node_buffer.old arc_buffer.new node_buffer.new) result) }
{
    let used = in_use(count);
    let list: &[u32] = &flat;
    blenrop_flow(&list[..used], supplies, arc_buffer, node_buffer)
}

// Narrowing over the first numbers of a list that was taken apart from `count` arcs.
fn narrow_over(
    flat: [u32; ROOM],
    count: usize,
    supplies: &[i32],
    lows: &mut [u32],
    highs: &mut [u32],
) -> Answer
    ensures { OfArcs flat count (λ list. Crosses flow_reading (NarrowAnswers (plan_of list supplies.now) lows.old highs.old lows.new highs.new) result) }
{
    let used = in_use(count);
    let list: &[u32] = &flat;
    blenrop_narrow(&list[..used], supplies, lows, highs)
}

// `blenrop_flow` over a list of arc structs.
#[unsafe(no_mangle)]
pub extern "C" fn blenrop_flow_arcs(
    arcs: &[Arc],
    supplies: &[i32],
    arc_buffer: &mut [u32],
    node_buffer: &mut [u8],
) -> Answer
    ensures { Crosses flow_reading (FlowAnswers (plan_of (flattened arcs.now) supplies.now) arc_buffer.old node_buffer.old arc_buffer.new node_buffer.new) result }
{
    flow_over(
        take_apart(arcs),
        arcs.len(),
        supplies,
        arc_buffer,
        node_buffer,
    )
}

// `blenrop_narrow` over a list of arc structs.
#[unsafe(no_mangle)]
pub extern "C" fn blenrop_narrow_arcs(
    arcs: &[Arc],
    supplies: &[i32],
    lows: &mut [u32],
    highs: &mut [u32],
) -> Answer
    ensures { Crosses flow_reading (NarrowAnswers (plan_of (flattened arcs.now) supplies.now) lows.old highs.old lows.new highs.new) result }
{
    narrow_over(take_apart(arcs), arcs.len(), supplies, lows, highs)
}
