// Pieces of strings that stand one after another in local lists.
//
//     cut_place  pieces cut in place, at each of the points
pub mod cut_place;
