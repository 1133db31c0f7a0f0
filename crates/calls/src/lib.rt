// What a call leaves, and the sizes that it keeps to: definitions alone, so that a demand can speak of an outcome without what the engine is proved to do.
// It has no function.
#![tactic(auto)]
