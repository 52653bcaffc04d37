// A point and a string, as docs/TERMS.md has them. Above the promises of arcstring, of the same layer: the call takes any lists and
// flags, and says by its contract what it answers.
//
//     on_string whether a point is along a string
//
// `inner` is for the crates of the layer, not for users.
#![tactic(auto)]

pub mod inner;
pub mod on_string;
