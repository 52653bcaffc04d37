// Strings cut in place. Above the promises of arcstring_piece, of the same layer, which makes one cut: what arcstring_split does to its
// local lists, so that a refusal that is found on the way leaves every buffer as it came.
//
// `inner` is for the crates of the layer, not for users.
#![tactic(auto)]

pub mod inner;
