// Asks a well-formed plan whether it can run: enters it, and moves what is over to what lacks. Internal.
ghost use Rattle.std.specs.Prelude.{◌≡◌, ◌≤◌, pos, length, sum};
ghost use Rattle.ways.specs.Lent.{SameLent};
ghost use Rattle.plan.specs.Limits.{most_nodes};
ghost use Rattle.stand.specs.Desk.{EmptyDesk};
ghost use Rattle.stand.specs.Ask.{AskedOf};

use crate::Shortage;
use crate::build::build;
use engine::settle::settle;
use plan::{Network, Plan};
use ways::Desk;

// The sum of the numbers of all nodes.
fn total_of(numbers: &[u32]) -> i64
    requires { length numbers.now ≤ most_nodes }
    ensures { result ≡ pos (sum numbers.now) }
{
    numbers.iter().map(|x| *x as u64).sum::<u64>() as i64
}

// Asks the plan. The rooms and words on the desk hold zeros; afterwards they are the plan's, in balance, or so much lacks
// and the set that is returned is the shortage set.
pub fn ask(network: Network, desk: &mut Desk) -> Result<(), Shortage>
    requires { EmptyDesk network.arcs.now network.supplies.now desk.old.rooms.now desk.old.ways.now }
    ensures asked { AskedOf network.entry.arcs.now network.entry.supplies.now desk.new.rooms.now desk.new.ways.now result }
    ensures lent { SameLent desk.old desk.new }
{
    let mut over = [0u32; Plan::MOST_NODES];
    let mut under = [0u32; Plan::MOST_NODES];
    let n = network.supplies.len();
    build(network, desk, &mut over, &mut under);
    let set = settle(desk, false, n, &mut over, &mut under);
    let value = total_of(&over[..n]);
    if value == 0 {
        return Ok(());
    }
    Err(Shortage { value, set })
}
