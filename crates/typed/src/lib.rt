// Typed sheets: the definitions and their laws. It holds no code.
#![tactic(auto)]
