// An answer as C reads it, and how each request's answer crosses. Internal: what crosses must fit.
ghost use Rattle.std.specs.Prelude.{◌≡◌, ◌≤◌, ◌<◌, pos};
ghost use Rattle.plan.specs.Limits.{most_arcs};
ghost use Rattle.plan.specs.Verdict.{number_of};
ghost use Rattle.format.specs.Format.{first_edition};
ghost use Rattle.file.specs.Answer.{arcs_read, written_length};
ghost use Rattle.crossing.specs.Payload.{part_of};
ghost use Rattle.crossing.specs.Crossing.{crossing, flow_reading, reason_reading, held_reading, verdict_reading, read_reading, written_reading, payload_reading};

use format::Block;
use held::Unheld;
use plan::{No, Plan, Refusal, Verdict};

// The paper's number, then the place and the value that go with it, or zeros.
#[repr(C)]
#[derive(Clone, Copy)]
pub struct Answer {
    pub number: u32,
    pub index: u32,
    pub value: i64,
}

impl Answer {
    // Number 0, with nothing beside it.
    fn done() -> Answer
        ensures { result ≡ record { number = 0; index = 0; value = pos 0 } }
    {
        Answer {
            number: 0,
            index: 0,
            value: 0,
        }
    }

    // An end that moved: 1 in the index, and where it moved to.
    fn moved(value: u32) -> Answer
        ensures { result ≡ record { number = 0; index = 1; value = pos value } }
    {
        Answer {
            number: 0,
            index: 1,
            value: value as i64,
        }
    }

    // Number 9, with the shortfall.
    fn short(value: i64) -> Answer
        ensures { result ≡ record { number = 9; index = 0; value = value } }
    {
        Answer {
            number: 9,
            index: 0,
            value,
        }
    }

    // The number and the lowest place by which the input is turned down.
    fn refused(refusal: Refusal) -> Answer
        requires { refusal.place < most_arcs }
        ensures { result ≡ record { number = number_of refusal.fault; index = refusal.place; value = pos 0 } }
    {
        Answer {
            number: refusal.fault.number(),
            index: refusal.place as u32,
            value: 0,
        }
    }

    // Number 10: flows are there, but none with the count.
    fn outside() -> Answer
        ensures { result ≡ record { number = 10; index = 0; value = pos 0 } }
    {
        Answer {
            number: 10,
            index: 0,
            value: 0,
        }
    }

    // Number 0, with two numbers about a file: its counts, its length, or where something stands in it.
    fn told(index: usize, value: usize) -> Answer
        requires { (index ≤ first_edition.longest) × (value ≤ first_edition.longest) }
        ensures { result ≡ record { number = 0; index = index; value = pos value } }
    {
        Answer {
            number: 0,
            index: index as u32,
            value: value as i64,
        }
    }

    // The flow question's answer, narrowing's, and the counting request's.
    pub fn of_flow(answer: Result<(), No>) -> Answer
        requires { flow_reading.place answer < most_arcs }
        ensures { result ≡ crossing flow_reading answer }
    {
        match answer {
            Ok(()) => Answer::done(),
            Err(No::Short(value)) => Answer::short(value),
            Err(No::Refused(refusal)) => Answer::refused(refusal),
        }
    }

    // The answer about an end of an arc: it stands, or has moved.
    pub fn of_reason(answer: Result<Option<u32>, No>) -> Answer
        requires { reason_reading.place answer < most_arcs }
        ensures { result ≡ crossing reason_reading answer }
    {
        match answer {
            Ok(None) => Answer::done(),
            Ok(Some(value)) => Answer::moved(value),
            Err(No::Short(value)) => Answer::short(value),
            Err(No::Refused(refusal)) => Answer::refused(refusal),
        }
    }

    // The answer about an arc held at a count.
    pub fn of_held(answer: Result<(), Unheld>) -> Answer
        requires { held_reading.place answer < most_arcs }
        ensures { result ≡ crossing held_reading answer }
    {
        match answer {
            Ok(()) => Answer::done(),
            Err(Unheld::Short(value)) => Answer::short(value),
            Err(Unheld::Outside) => Answer::outside(),
            Err(Unheld::Refused(refusal)) => Answer::refused(refusal),
        }
    }

    // A verdict: number 0 if nothing was turned down.
    pub fn of_verdict(verdict: Verdict) -> Answer
        requires { verdict_reading.place verdict < most_arcs }
        ensures { result ≡ crossing verdict_reading verdict }
    {
        let Err(refusal) = verdict else {
            return Answer::done();
        };
        Answer::refused(refusal)
    }

    // What reading a file gave: the size of its plan.
    pub fn of_read(answer: Result<Plan, Refusal>) -> Answer
        requires place { read_reading.place answer < most_arcs }
        requires value { arcs_read answer ≤ most_arcs }
        ensures { result ≡ crossing read_reading answer }
    {
        match answer {
            Ok(size) => Answer::told(size.nodes, size.arcs),
            Err(refusal) => Answer::refused(refusal),
        }
    }

    // What writing a file gave: its length.
    pub fn of_written(written: Result<usize, Refusal>) -> Answer
        requires place { written_reading.place written < most_arcs }
        requires value { written_length written ≤ first_edition.longest }
        ensures { result ≡ crossing written_reading written }
    {
        match written {
            Ok(length) => Answer::told(0, length),
            Err(refusal) => Answer::refused(refusal),
        }
    }

    // Where the payload of a block stands that the verdict is about.
    pub fn of_payload(verdict: Verdict, block: usize) -> Answer
        requires { (part_of block verdict).start ≤ first_edition.longest }
        ensures { result ≡ crossing payload_reading (part_of block verdict) }
    {
        match verdict {
            Ok(()) => Answer::told(
                block * Block::SIZE + Block::PAYLOAD_AT,
                Block::CHECK_AT - Block::PAYLOAD_AT,
            ),
            Err(refusal) => Answer::refused(Refusal::whole(refusal.fault)),
        }
    }
}
