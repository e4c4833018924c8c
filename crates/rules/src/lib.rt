// What the product promises, as definitions (specs/) and laws shown of them (proofs/). There is no code here.
#![tactic(auto)]
