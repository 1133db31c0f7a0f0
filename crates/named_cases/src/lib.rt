// What is worked out over the definitions for names, Locate, Get and limits: keys under names, a name that is
// taken, found and moved, keys handed out, and limits taken and refused. It has no function.
#![tactic(auto)]
