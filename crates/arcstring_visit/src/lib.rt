// The one walk over the pairs of two strings, of a leg and a string, and of a string with itself, under the calls of
// arcstring_listing. Above the promises of arcstring_tally and arcstring_crossing, of the same layer.
//
// All of it is `inner`: for the crates of the layer, not for users.
#![tactic(auto)]

pub mod inner;
