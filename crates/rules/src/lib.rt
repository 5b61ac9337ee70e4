// Document 01 as definitions, in specs/; laws about them, in proofs/. There is no code here.
#![tactic(auto)]
