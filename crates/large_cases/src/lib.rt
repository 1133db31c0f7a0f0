// A case on a table of 256 places, worked out.
// It has no function.
#![tactic(auto)]
