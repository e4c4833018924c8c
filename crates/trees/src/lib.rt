// Radial trees, the boards placed in them, and when a tree fits a description: definitions and laws alone.
#![tactic(auto)]
