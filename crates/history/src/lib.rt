// Demand 3 has no code of its own: specs/ reckons from the calls and what they were told, and proofs/ holds that against the ledger and the table.

#![tactic(auto)]
