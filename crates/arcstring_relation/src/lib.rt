// Two strings compared, as docs/TERMS.md has them. Above the promises of arcstring_against and arcstring_listing, of the same layer: each
// call takes any lists and flags, and says by its contract what it answers. arcstring_equals has the two comparisons that simplify
// copies.
//
//     relation    `==`, within, contains, crosses
#![tactic(auto)]

pub mod relation;
