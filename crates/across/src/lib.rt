// Across a pair of nodes: how much can be brought from one to the other besides the direct step, and which set is in the way; and
// an arc's share taken out of the rooms. Everything is in balance before and after. It uses `reach` to find a way round and
// `engine` to move along it and to settle. Internal: most of its functions have `requires`.
#![tactic(auto)]

pub mod flood;
pub mod hold;
pub mod round;
