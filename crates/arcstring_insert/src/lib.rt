// Strings with vertices inserted. Above the promises of arcstring_along, of the same layer: the call takes any lists and
// flags, and says by its contract what it answers and what it leaves in each buffer that it was lent. The work is done in
// local lists, so that a refusal that is found on the way leaves every buffer as it came.
//
//     insert     points put in as vertices
//
// `inner` is for the crates of the layer, not for users.
#![tactic(auto)]

pub mod inner;
pub mod insert;
