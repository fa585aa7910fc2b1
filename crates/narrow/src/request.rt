// The narrowing request of document 01, for every input.
ghost use Rattle.std.specs.Prelude.{◌≡◌, ℕ, ◌≤◌, ◌<◌, ◌/◌, length};
ghost use Rattle.rooms.specs.Room.{at};
ghost use Rattle.plan.specs.Limits.{arc_entries};
ghost use Rattle.plan.specs.Plan.{WellFormed, meant};
ghost use Rattle.plan.specs.Reason.{NarrowedEnd};
ghost use Rattle.stand.specs.Desk.{ReadyDesk};
ghost use Rattle.narrow.specs.Answer.{Told, NarrowAnswers};

use network::{check, too_short};
use one_arc::ends::{Step, own_end, step_for};
use plan::{Network, No};
use rooms::Rooms;
use stand::Shortage;
use stand::ask::ask;
use ways::{Desk, Words};

// Writes the smallest count of each arc, or with `upper` the largest. The flow that was found is carried
// on from arc to arc, one step after the other; an arc is left as soon as its end is known to stand.
fn write_ends(network: Network, upper: bool, ends: &mut [u32], desk: &mut Desk)
    requires ready { ReadyDesk network.arcs.now network.supplies.now desk.old.rooms.now desk.old.ways.now }
    requires whole { length network.arcs.now / arc_entries ≤ length ends.old }
    ensures ends { (k : ℕ) → k < length network.entry.arcs.now / arc_entries → NarrowedEnd (meant network.entry) k upper (at ends.new k) }
    ensures past { (i : ℕ) → length network.entry.arcs.now / arc_entries ≤ i → at ends.new i ≡ at ends.old i }
    ensures ready { ReadyDesk network.entry.arcs.now network.entry.supplies.now desk.new.rooms.now desk.new.ways.now }
{
    let count = network.size().arcs;
    'lanes: for k in 0..count {
        ends[k] = own_end(network.arcs, k, upper);
        let mut rounds: u32 = 0;
        ends[k] = 'steps: loop {
            match step_for(network, k, upper, desk, rounds) {
                Step::Stands => continue 'lanes,
                Step::Moved(end) => break 'steps end,
                Step::Wider => rounds = rounds.saturating_add(1),
            }
        };
    }
}

// Works a well-formed plan out: both ends of every arc, or nothing written and what lacks.
fn work_out(network: Network, lows: &mut [u32], highs: &mut [u32]) -> Result<(), Shortage>
    requires plan { WellFormed (meant network) }
    requires whole { (length network.arcs.now / arc_entries ≤ length lows.old) × (length network.arcs.now / arc_entries ≤ length highs.old) }
    ensures { Told (meant network.entry) lows.old highs.old lows.new highs.new result }
{
    let mut rooms = [0u32; Rooms::CELLS];
    let mut ways = [0u64; Words::COUNT];
    let mut desk = Desk {
        rooms: &mut rooms,
        ways: &mut ways,
    };
    let asked = ask(network, &mut desk);
    let Ok(()) = asked else {
        return asked;
    };
    write_ends(network, false, lows, &mut desk);
    write_ends(network, true, highs, &mut desk);
    Ok(())
}

// For every arc k the least and the greatest f k over all flows f: low ≤ f ≤ high on every arc and, at
// every node, what goes out minus what comes in equal to the supply. Every count between the two occurs in
// a flow. If there is no flow or the input is turned down, both buffers stay.
pub fn narrow(network: Network, lows: &mut [u32], highs: &mut [u32]) -> Result<(), No>
    ensures { NarrowAnswers (meant network.entry) lows.old highs.old lows.new highs.new result }
{
    let size = network.size();
    let short = too_short(lows.len(), size.arcs, highs.len(), size.arcs);
    check(network, short)?;
    Ok(work_out(network, lows, highs)?)
}
