// The last shift and demand 3 of the sheet in the answer: how far the shift rounds, and that where it
// rounds nothing the shifted sheet has no false joint either. Definitions are in specs/Shift.antt and
// specs/InAnswer.antt, the theorem in proofs/Answered.antt; there is no code here.

#![tactic(auto)]
