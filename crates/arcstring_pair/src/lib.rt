// A pair of legs: its class, as docs/TERMS.md has it over the source's `arcs_crossing`, and what is claimed of it. Above this crate
// arcstring_crossing has the pair call and the planes by which many pairs are tested.
//
//     pair      a pair of legs: its class and its point
//
// `inner` is for the crates of the layer, not for users.
#![tactic(auto)]

pub mod inner;
pub mod pair;
