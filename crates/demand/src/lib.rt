// That removing is undone by recomputing, of the stores that fusing leaves: definitions and theorems only.
#![tactic(auto)]
