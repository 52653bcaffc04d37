// Strings cut at marks that lie on their legs. Above the promises of arcstring_mark, of the same layer: the call takes any lists and
// flags, and says by its contract what it answers and what it leaves in each buffer that it was lent. The work is done in local
// lists, so that a refusal that is found on the way leaves every buffer as it came.
//
//     cut       a string cut at marks
//
// pieces holds what is done to the local lists.
#![tactic(auto)]

pub mod cut;
pub(crate) mod pieces;
