// Boxes that grant units for a key whose place was taken.
// It has no function.
#![tactic(auto)]
