// Marks on legs and on strings, with the roles set right: a mark is sought between a leg's start and its end. Above the promises of
// arcstring_along, of the same layer, whose test is the source's; the calls take any leg, point, list and flag, and say by their
// contracts what they answer.
//
//     mark       whether a mark lies on a leg, and on a string
//
// `inner` is for the crates of the layer, not for users.
#![tactic(auto)]

pub mod inner;
pub mod mark;
