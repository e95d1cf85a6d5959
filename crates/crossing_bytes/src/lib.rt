// F-7's list as bytes. There is no code here: specs/Bytes.antt has the bytes, proofs/Link.antt that the
// rows which the walk keeps are the list. Crate crossing_list writes them.

#![tactic(auto)]
