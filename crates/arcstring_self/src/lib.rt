// The crossings of a string with itself, as docs/TERMS.md has them. Above the promises of arcstring_listing, of the same layer: each
// call takes any lists and flags, and says by its contract what it answers and what it leaves in each buffer that it was lent.
//
//     with_self   the crossings and counts of a string with itself, and whether it has any
#![tactic(auto)]

pub mod with_self;
