// The text of the bundle page, from document 02's F-4: which bytes a line is and how a printed field is
// read. Definitions are in specs/Listing.antt and specs/Reading.antt, the theorems in proofs/Laws.antt,
// proofs/Places.antt and proofs/Back.antt; there is no code here.

#![tactic(auto)]
