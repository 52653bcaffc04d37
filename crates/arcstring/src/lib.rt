// Lists of points as docs/TERMS.md has them: vertices and legs, above the checks of arcstring_check. A list of points is flat, three floats a
// point. `inner`, which is all of it, is for the crates of the layer, not for users.
//
// The calls are in the crates above, which take any lists, flags and positions and say by their contracts what they answer and what they
// leave in each buffer that they were lent: arcstring_build and arcstring_walk have strings built and walked, arcstring_crossing a pair of
// legs, arcstring_listing the counts and listings of whole strings, arcstring_self those of a string with itself, arcstring_along a point on
// a string, arcstring_measure turns and midpoints, arcstring_relation and arcstring_equals comparisons, arcstring_simplify,
// arcstring_insert, arcstring_split_leg and arcstring_split what is changed; arcstring_point, beside this crate, single points.
#![tactic(auto)]

pub mod inner;
