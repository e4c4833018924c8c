// The three demands, sentence by sentence: definitions and laws alone, about what the calls promise.
#![tactic(auto)]
