// Two strings held against each other, as the comparisons of docs/TERMS.md have it, over the promises of arcstring_along. What all six of
// them share stands here: arcstring_relation and arcstring_equals have the calls.
//
// `inner`, which is all of it, is for the crates of the layer, not for users.
#![tactic(auto)]

pub mod inner;
