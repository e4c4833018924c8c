// What a contract asks for and what it determines: definitions alone, over the kit's own record of a contract.
#![tactic(auto)]
