// The bytes of a plan (F-5): definitions and theorems, no code.

#![tactic(auto)]
