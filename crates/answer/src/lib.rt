// Answers as bytes. It touches no table.
// Assumes nothing.
#![tactic(auto)]
