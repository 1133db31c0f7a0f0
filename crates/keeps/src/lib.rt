// That every change to a sound table leaves it sound. Theorems alone: no function stands here.
// It knows nothing of TTLV.
#![tactic(auto)]
