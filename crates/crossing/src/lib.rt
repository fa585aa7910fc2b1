// How the requests' answers cross to C: as one struct of number, index and value. specs/ says which struct an
// answer crosses as. It uses the crates whose answers cross, for their types. Internal.
#![tactic(auto)]

pub mod answer;
