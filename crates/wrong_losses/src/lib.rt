// Boxes that lose a name, or say what nobody asked for.
// It has no function.
#![tactic(auto)]
