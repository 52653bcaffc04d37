// The conversions themselves.
//
//     lent    a flag and a leg as C lends them
//     put     a verdict, a point, a count, a built string's numbers
pub mod lent;
pub mod put;
