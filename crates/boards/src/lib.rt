// The boards of an arrangement by what is at or above what: laws alone.
#![tactic(auto)]
