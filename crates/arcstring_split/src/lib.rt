// Strings cut at points. Above the promises of arcstring_cut, of the same layer: the call takes any lists and flags, and says by its
// contract what it answers and what it leaves in each buffer that it was lent. The work is done in local lists, so that a refusal that
// is found on the way leaves every buffer as it came.
//
//     split      a string cut at points
#![tactic(auto)]

pub mod split;
