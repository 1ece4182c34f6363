//! How many leaves a tree has, and what each kind of swap makes of the number.
#![tactic(auto)]
