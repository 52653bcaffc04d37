// The rounds of simplifying, under the call of arcstring_simplify and the comparisons of arcstring_equals that simplify copies. Above
// the promises of arcstring, of the same layer: the rounds move positions of the lent vertices, in lists that are lent or local.
//
// `inner` is for the crates of the layer, not for users.
#![tactic(auto)]

pub mod inner;
