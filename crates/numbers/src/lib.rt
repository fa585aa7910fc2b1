// Whole numbers for proofs, and no code: sums by index (specs/), their laws, and the two parts of a
// signed number by which one `omega` line proves a linear fact over ℤ (proofs/). It uses nothing.
#![tactic(auto)]
