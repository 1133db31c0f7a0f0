// Boxes that do what 00, 01 and 02 warn of, as definitions, and what their refutations share.
// It has no function.
#![tactic(auto)]
