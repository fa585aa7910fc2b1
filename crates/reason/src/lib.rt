// The reason for one end of one lane's narrowed range: it stands, or a set of stations and the limits in
// its sum moved it. It uses `plan` for what is meant, `stand` and `across` for working it out and `marks` for
// the limits that it cites.
#![tactic(auto)]

pub mod request;
