// The boundary to C: every request under its C name, over lent slices, with the answer in a struct.
// `requests` has the exported functions over a flat list of arcs, `structs` those over a list of arc structs,
// `countings` and `files` those over a counting plan and a plan file; `crossing` takes their answers across.
// C passes a slice as a pointer and a length; include/blenrop.h declares what is exported.
#![tactic(auto)]

pub mod countings;
pub mod files;
pub mod requests;
pub mod structs;
