// Narrowing: each lane's smallest and largest count over all flows. It uses `plan` for what is meant and
// `stand` and `one_arc` for working it out; its answers are the flow question's.
#![tactic(auto)]

pub mod request;
