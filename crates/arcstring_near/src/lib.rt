// Nearness of points, by their squared distance, for any floats.
//
// `inner`, which is all of it, is for the crates of the string layer, not for users.
#![tactic(auto)]

pub mod inner;
