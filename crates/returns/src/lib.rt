// Why a good description that is written and read back is the same, and what is read of the words that are made. It holds no code.
#![tactic(auto)]
