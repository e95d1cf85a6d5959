// Request F-6's words for the kinds of contact, in exact points. There is no code here:
// specs/Words.antt has the definitions, proofs/Theorem.antt the theorems. The kind is defined in crate
// geometry and its code is in crate contact_test.

#![tactic(auto)]
