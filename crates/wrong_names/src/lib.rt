// A box that answers a Locate with another key.
// It has no function.
#![tactic(auto)]
