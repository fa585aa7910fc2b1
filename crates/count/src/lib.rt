// The requests of a counting plan: its domains and count ranges narrowed, and its network handed out. It uses `counting`
// for what is meant, `drawing` for the network and `narrow` for working it out.
#![tactic(auto)]

pub mod request;
