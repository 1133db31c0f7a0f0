// Boxes that answer wrongly, leave a wrong table or a wrong second buffer, or go by a wrong place
// count: the demand that each breaks, and those it meets. It has no function.
#![tactic(auto)]
