// Why the writer's parentheses are just those that are needed. It holds no code.
#![tactic(auto)]
