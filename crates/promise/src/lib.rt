// What the stage promises: which bytes are written for a job (Stage), which refusal is due (Due), and
// demand 3 (Demand3) with its proof (Demand). Refuted and RefutedPlaces have sheets that break demand 3,
// sentence by sentence, Smallest has document 01's smallest job. Definitions and theorems; there is no
// code here.

#![tactic(auto)]
