// What the calls for C find put into the places that they are lent, as arcstring_put does it for simpler answers: a pair of legs, counts,
// a listing, the pieces of a cut. Each `put` returns 0 or the number of the refusal, and a refusal leaves every place as it came.
//
// `inner`, which is all of it, is for arcstring_c and not for users.
#![tactic(auto)]

pub mod inner;
