// Theorems about the rules, in specs/: no code.
#![tactic(auto)]
