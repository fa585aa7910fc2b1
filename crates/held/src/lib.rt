// One lane held at a count: the first flow among those with that count. It uses `plan` for what is meant
// and `stand`, `one_arc` and `first_flow` for working it out.
#![tactic(auto)]

pub mod request;

ghost use Rattle.std.specs.Prelude.{◌≡◌};
ghost use Rattle.held.specs.declared.Unheld.TheVariants.{Short, Refused};

use plan::Refusal;
use stand::Shortage;

// Why there is no such flow: there is none at all, and the greatest shortfall is so much; or the count is
// outside the lane's narrowed range; or the input is turned down.
#[derive(Clone, Copy, PartialEq, Eq)]
pub enum Unheld {
    Short(i64),
    Outside,
    Refused(Refusal),
}

impl From<Refusal> for Unheld {
    ghost from_gives = { λ refusal no. no ≡ Refused refusal };

    fn from(refusal: Refusal) -> Unheld {
        Unheld::Refused(refusal)
    }
}

impl From<Shortage> for Unheld {
    ghost from_gives = { λ shortage no. no ≡ Short shortage.value };

    fn from(shortage: Shortage) -> Unheld {
        Unheld::Short(shortage.value)
    }
}
