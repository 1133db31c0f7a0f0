// Boxes that grant units of a destroyed key, or replace it.
// It has no function.
#![tactic(auto)]
