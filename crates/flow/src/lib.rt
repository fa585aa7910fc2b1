// The flow question: can the shift run, and how; or what is short, where, and by which limits. It uses
// `plan` for what is meant, `stand` and `first_flow` for working it out and `marks` for the limits that it
// cites. `question` is the request.
#![tactic(auto)]

pub mod question;
