// The engine: moves along paths through the rooms, and settles: what is over at some nodes goes to where it lacks at others, until
// nothing more can move. It knows nothing of plans. It uses `ways` for the moves and `reach` for the search. Internal: its functions
// have `requires`, which the requests above it meet.
#![tactic(auto)]

pub mod path;
pub mod settle;
