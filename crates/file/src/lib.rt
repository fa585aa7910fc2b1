// The plan file: what reading and writing answer, and what they promise (specs/). proofs/ has the theorems that a network
// has one file, that an accepted file is the file of its network, and that reading and writing go back and forth. It uses
// `format`, `blocks` and `plan`.
#![tactic(auto)]
