// The bundle page of a job with bit 2 set, document 02's F-4: no number of it is negative or too large
// for its columns, and what stands in the page's buffer reads back as the sheet in the answer.
// Definitions are in specs/PageReadsBack.antt, the theorems in the other files; there is no code here.

#![tactic(auto)]
