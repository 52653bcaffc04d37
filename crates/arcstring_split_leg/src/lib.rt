// Legs cut at points. Above the promises of arcstring_along and arcstring_insert, of the same layer: the call takes any leg and lists,
// and says by its contract what it answers and what it leaves in the buffer that it was lent. The work is done in a local list, so
// that a refusal that is found on the way leaves the buffer as it came.
//
//     split      a leg cut at points: how many pieces were written, none where nothing is cut
//
// cut_leg holds what is done to the local list.
#![tactic(auto)]

pub(crate) mod cut_leg;
pub mod split;
