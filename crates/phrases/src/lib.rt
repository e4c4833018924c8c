// Why what is scanned of a line is what its symbols write. It holds no code.
#![tactic(auto)]
