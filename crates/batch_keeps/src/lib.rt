// That a batch on a sound table leaves a sound table, whatever its option, and that its answers are
// those of a response. Theorems alone: no function stands here.
#![tactic(auto)]
