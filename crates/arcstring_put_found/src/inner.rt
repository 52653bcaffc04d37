// The conversions themselves.
//
//     found   counts, a listing's numbers, how many pieces
//     pair    a pair's class, its mark and its point
pub mod found;
pub mod pair;
