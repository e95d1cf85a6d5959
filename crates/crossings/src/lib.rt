// F-7's list of the strict crossings of a sheet. There is no code here: specs/List.antt has the list,
// specs/Words.antt the request's words about it; the other files prove that the list keeps them.

#![tactic(auto)]
