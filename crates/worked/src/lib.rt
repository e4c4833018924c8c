// Sites that take longer to compute, shown of the definitions. It holds no code.
#![tactic(auto)]
