// The published tree constraints with set operators, clause by clause: definitions and laws alone.
#![tactic(auto)]
