// Why what a typed sheet makes is what the grammar says that it writes. It holds no code.
#![tactic(auto)]
