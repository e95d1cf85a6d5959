// The bundle page of an answer, from document 02's F-4: its bytes, and that each printed number reads
// back to the drawn one. Definitions are in specs/Parts.antt, specs/AnswerPage.antt and
// specs/PageReads.antt, the theorems in proofs/PartsLaws.antt and proofs/Exact.antt; there is no code here.

#![tactic(auto)]
