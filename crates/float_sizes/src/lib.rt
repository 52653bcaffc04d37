// Sizes of floats, for the vector layer: of any floats, infinities and NaN among them.
//
// `inner`, which is all of it, is for the crates of this repository, not for users.
#![tactic(auto)]

pub mod inner;
