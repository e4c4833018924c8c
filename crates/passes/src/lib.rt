// What strikes make of a table: definitions and laws alone, over any list of rules.
#![tactic(auto)]
