// The four side values of a pair of legs, tested: what a class is made of, with no geometry in it. They are any floats.
//
// `inner`, which is all of it, is for the crates of the string layer, not for users.
#![tactic(auto)]

pub mod inner;
