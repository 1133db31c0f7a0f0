// Boxes that touch the table of a call that they refuse, or a record that nothing named.
// It has no function.
#![tactic(auto)]
