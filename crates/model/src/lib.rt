#![tactic(auto)]

// Document 01 as definitions and theorems: see specs/ and proofs/. There is no code here.
