// A plan in the engine's rooms: how it stands there, and whether it balances. Internal: its functions have `requires`,
// which the requests above meet. It uses `plan` for what is meant and `engine` for moving.
#![tactic(auto)]

pub mod ask;
pub mod build;

ghost use Rattle.std.specs.Prelude.{◌≡◌};
ghost use Rattle.plan.specs.declared.No.TheVariants.{Short};

use plan::No;

// So much lacks, and the set is the shortage set.
#[derive(Clone, Copy)]
pub struct Shortage {
    pub value: i64,
    pub set: u64,
}

impl From<Shortage> for No {
    ghost from_gives = { λ shortage no. no ≡ Short shortage.value };

    fn from(shortage: Shortage) -> No {
        No::Short(shortage.value)
    }
}
