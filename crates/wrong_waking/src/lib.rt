// Boxes that wake a destroyed key, hand it out, or hand out the bytes of another key.
// It has no function.
#![tactic(auto)]
