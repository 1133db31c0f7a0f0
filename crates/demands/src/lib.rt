// What the box has to do, always and never: the demands as predicates on any box.
// It has no function, and knows nothing of the code that meets them.
#![tactic(auto)]
