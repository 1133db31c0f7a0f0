// What is worked out over the definitions for option 3: a batch that is undone, one that is not, and
// the second buffer. It has no function.
#![tactic(auto)]
