// What it means that a contract leaves one outcome. A definition alone: no function stands here.
// It knows no contract; each crate states its uniqueness theorems with it.
#![tactic(auto)]
