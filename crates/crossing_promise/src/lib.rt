// F-7's promise about the list of strict crossings, as one statement about a job's bytes and the bytes
// that stand in the buffers for them. There is no code here: specs/Demand7.antt has the statement,
// proofs/Theorem.antt its proof; the contract of stage_sheet cites it.

#![tactic(auto)]
