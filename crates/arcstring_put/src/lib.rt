// What the calls for C share: the lists and flags that they are lent, read as the string layer takes them, and the layer's answers put
// into the places that they are lent. Each `put` returns 0 or the number of the refusal, and a refusal leaves every place as it came.
//
// `inner`, which is all of it, is for arcstring_c and not for users.
#![tactic(auto)]

pub mod inner;
