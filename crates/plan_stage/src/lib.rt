// F-5, plan first and draw later: what the two operations write, that the stage is the two in turn, and
// what is promised of every plan's sheet. Definitions and theorems only; the entries' contracts cite them.

#![tactic(auto)]
