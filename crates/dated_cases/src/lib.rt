// What is worked out over the definitions for keys with dates: clocks, what is due by them, and
// replacements. It has no function.
#![tactic(auto)]
