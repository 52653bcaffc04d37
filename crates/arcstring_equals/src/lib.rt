// The two comparisons of strings that simplify copies of them. Above the promises of arcstring_against and of simplifying, of the same
// layer: each call takes any lists and flags, and says by its contract what it answers.
//
//     simplified  equals, overlaps
#![tactic(auto)]

pub mod simplified;
