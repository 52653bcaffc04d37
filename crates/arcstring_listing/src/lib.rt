// The crossings and counts of whole strings, as docs/TERMS.md has them. Above the promises of arcstring_visit, of the same layer:
// each call takes any lists and flags, and says by its contract what it answers and what it leaves in each buffer that it was lent.
//
//     listing   the crossings and counts of two strings, of a leg and a string
//
// `inner` is for the crates of the layer, not for users.
#![tactic(auto)]

pub mod inner;
pub mod listing;
