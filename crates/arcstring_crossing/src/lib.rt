// The pair call, and the planes of legs by which many pairs are tested. Above the promises of arcstring_pair, of the same layer:
// `arcs_crossing` takes any two legs, and says by its contract what it answers. Above this crate arcstring_listing has the crossings
// and counts of whole strings.
//
//     crossing  the class of a pair of legs
//
// `inner` is for the crates of the layer, not for users.
#![tactic(auto)]

pub mod crossing;
pub mod inner;
