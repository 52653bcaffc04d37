// A string cut once. Above the promises of arcstring_build and arcstring_split_leg, of the same layer: one of the pieces that stand in
// local lists made two. arcstring_cut walks over pieces, legs and points with it.
//
// `inner` is for the crates of the layer, not for users.
#![tactic(auto)]

pub mod inner;
