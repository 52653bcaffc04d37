// Strings simplified. Above the promises of arcstring_rounds, of the same layer, which has the rounds: the call takes any lists and
// flags, and says by its contract what it answers and what it leaves in each buffer that it was lent. The work is done in local lists,
// so that a refusal that is found on the way leaves every buffer as it came.
//
//     simplify   unnecessary vertices of a string removed
#![tactic(auto)]

pub mod simplify;
