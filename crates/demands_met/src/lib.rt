// That our box meets the demands, and what follows from them for any box: theorems over the definitions and the contracts.
// It has no function.
#![tactic(auto)]
