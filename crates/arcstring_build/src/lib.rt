// Strings built from points, as docs/TERMS.md has it. Above the promises of arcstring, of the same layer: each call takes any lists and
// flags, and says by its contract what it answers and what it leaves in each buffer that it was lent.
//
//     build     a string from a list of points
//
// `inner` is for the crates of the layer, not for users.
#![tactic(auto)]

pub mod build;
pub mod inner;
