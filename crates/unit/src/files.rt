// The requests over a plan file, as C calls them.
ghost use Rattle.plan.specs.Plan.{plan_of};
ghost use Rattle.format.specs.Format.{first_edition};
ghost use Rattle.file.specs.Answer.{ReadAnswers, WriteAnswers};
ghost use Rattle.crossing.specs.Payload.{PayloadAnswers};
ghost use Rattle.crossing.specs.Crossing.{Crosses, read_reading, written_reading, payload_reading};

use crossing::answer::Answer;
use plan::Network;
use reading::payload::payload_number;

// Reads a file. Number 0: supplies and arcs have the plan, the index is the node count and the value the arc
// count. Any other number: the file is turned down at index, and the buffers stay.
#[unsafe(no_mangle)]
pub extern "C" fn blenrop_file_read(file: &[u8], supplies: &mut [i32], arcs: &mut [u32]) -> Answer
    ensures { Crosses read_reading (ReadAnswers first_edition file.now supplies.old supplies.new arcs.old arcs.new) result }
{
    Answer::of_read(reading::read(file, supplies, arcs))
}

// Writes the file of a network. Number 0: the buffer has it in its first bytes, as many as the value says. Any
// other number: the network is turned down at index, and the buffer stays.
#[unsafe(no_mangle)]
pub extern "C" fn blenrop_file_write(arcs: &[u32], supplies: &[i32], file: &mut [u8]) -> Answer
    ensures { Crosses written_reading (WriteAnswers first_edition (plan_of arcs.now supplies.now) file.old file.new) result }
{
    Answer::of_written(writing::write(Network { arcs, supplies }, file))
}

// Where the payload of a block stands in a file. Number 0: it starts at index and is value bytes long. Any
// other number: there is none, and index and value are 0.
#[unsafe(no_mangle)]
pub extern "C" fn blenrop_file_payload(file: &[u8], block: u32) -> Answer
    ensures { Crosses payload_reading (PayloadAnswers first_edition file.now block) result }
{
    let number = block as usize;
    Answer::of_payload(payload_number(file, number), number)
}
