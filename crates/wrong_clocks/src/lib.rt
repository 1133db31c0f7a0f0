// Boxes that turn a clock back, or keep what was undone.
// It has no function.
#![tactic(auto)]
