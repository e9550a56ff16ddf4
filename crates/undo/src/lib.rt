// That removing is undone by recomputing: definitions and theorems only.
#![tactic(auto)]
