// Pairs of legs counted: what is counted up and written for one pair. arcstring_visit has the walk over many. Above the promises of
// arcstring_pair, of the same layer.
//
//     counts    the four counts
//
// `inner` is for the crates of the layer, not for users.
#![tactic(auto)]

pub mod counts;
pub mod inner;
