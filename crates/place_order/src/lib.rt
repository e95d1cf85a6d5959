// What places are ordered by: y, then x. There is no code here: specs/Order.antt has the
// definitions, specs/Laws.antt what holds of them. Crate place_sort sorts by them.

#![tactic(auto)]
