// A box that invents a usage count.
// It has no function.
#![tactic(auto)]
