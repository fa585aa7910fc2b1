// One arc of a plan that stands in the engine's rooms: an end of its narrowed range, and the arc held at a count. It uses
// `stand` for how the plan stands there and `across` for going round the arc. Internal: its functions have `requires`.
#![tactic(auto)]

pub mod counts;
pub mod ends;
