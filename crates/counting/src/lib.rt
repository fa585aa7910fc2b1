// Counting plans: variables with domains, values with count ranges, and the network that they are drawn as (specs/). The
// theorems between assignments and flows stand in proofs/; `check` says what turns a counting plan down. It uses `plan`, and
// `words` for the domains.
#![tactic(auto)]

pub mod check;

// A count range is so many numbers of a list: low, high.
pub const RANGE_ENTRIES: usize = 2;
