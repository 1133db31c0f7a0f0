// The hope of dates that stand firm, and that names stay apart: of every box that meets the demands, and so of ours.
// It has no function.
#![tactic(auto)]
