// F-2, sheets on the drafting grid: what holds of a job with bit 2 set, from its bytes to its answer's.
// Definitions and theorems only; the contract of stage cites them.

#![tactic(auto)]
