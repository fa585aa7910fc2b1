// The requests over a flat list of arcs, as C calls them. Each answers every input; what it leaves in the
// lent buffers is what the request itself leaves.
ghost use Rattle.plan.specs.Plan.{plan_of};
ghost use Rattle.flow.specs.Answer.{FlowAnswers};
ghost use Rattle.narrow.specs.Answer.{NarrowAnswers};
ghost use Rattle.reason.specs.Answer.{ReasonAnswers};
ghost use Rattle.held.specs.Answer.{HeldAnswers};
ghost use Rattle.crossing.specs.Crossing.{Crosses, flow_reading, reason_reading, held_reading};

use crossing::answer::Answer;
use flow::question::question;
use held::request::hold;
use narrow::request::narrow;
use plan::Network;
use reason::request::reason;

// The flow question. Number 0: the arc buffer has the first flow. Number 9: the value is the shortfall, and the buffers
// have the marks. Any other number: the input is turned down at index, and the buffers stay.
#[unsafe(no_mangle)]
pub extern "C" fn blenrop_flow(
    arcs: &[u32],
    supplies: &[i32],
    arc_buffer: &mut [u32],
    node_buffer: &mut [u8],
) -> Answer
    ensures { Crosses flow_reading (FlowAnswers (plan_of arcs.now supplies.now) arc_buffer.old node_buffer.old arc_buffer.new node_buffer.new) result }
{
    Answer::of_flow(question(Network { arcs, supplies }, arc_buffer, node_buffer))
}

// Narrowing. Number 0: lows and highs have each arc's smallest and largest count. Number 9: the value is the shortfall,
// and the buffers stay. Any other number: the input is turned down at index, and the buffers stay.
#[unsafe(no_mangle)]
pub extern "C" fn blenrop_narrow(
    arcs: &[u32],
    supplies: &[i32],
    lows: &mut [u32],
    highs: &mut [u32],
) -> Answer
    ensures { Crosses flow_reading (NarrowAnswers (plan_of arcs.now supplies.now) lows.old highs.old lows.new highs.new) result }
{
    Answer::of_flow(narrow(Network { arcs, supplies }, lows, highs))
}

// The reason for the low end (0) or the high end (1) of an arc. Number 0 and index 0: it stands. Number 0
// and index 1: it moved to value, and the buffers have the marks. Otherwise the buffers stay.
#[unsafe(no_mangle)]
pub extern "C" fn blenrop_reason(
    arcs: &[u32],
    supplies: &[i32],
    arc: u32,
    end: u32,
    arc_buffer: &mut [u32],
    node_buffer: &mut [u8],
) -> Answer
    ensures { Crosses reason_reading (ReasonAnswers (plan_of arcs.now supplies.now) arc end arc_buffer.old node_buffer.old arc_buffer.new node_buffer.new) result }
{
    let network = Network { arcs, supplies };
    Answer::of_reason(reason(network, arc, end, arc_buffer, node_buffer))
}

// An arc held at a count. Number 0: the arc buffer has the first flow with it. Number 9: the value is the shortfall.
// Number 10: no flow has that count. Unless the number is 0 the buffer stays.
#[unsafe(no_mangle)]
pub extern "C" fn blenrop_held(
    arcs: &[u32],
    supplies: &[i32],
    arc: u32,
    count: u32,
    arc_buffer: &mut [u32],
) -> Answer
    ensures { Crosses held_reading (HeldAnswers (plan_of arcs.now supplies.now) arc count arc_buffer.old arc_buffer.new) result }
{
    Answer::of_held(hold(Network { arcs, supplies }, arc, count, arc_buffer))
}
