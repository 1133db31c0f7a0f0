// What is worked out over the definitions: the cases that 01 marks P, and tables that are sound or
// break one rule. It has no function.
#![tactic(auto)]
