// Pieces of strings that stand one after another in local lists.
//
//     piece      the two pieces that a cut makes
//     pieces     all pieces of a string, and one of them cut
//     replace    a piece replaced by these two
pub(crate) mod piece;
pub mod pieces;
pub mod replace;
