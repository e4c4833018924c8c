// Why the symbols of a line are those that it spells. It holds no code.
#![tactic(auto)]
