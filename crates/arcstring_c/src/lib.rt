// The calls of the string layer for C programs, and whatever links C. Each returns 0 or the number of the refusal, and
// then changes nothing that it was lent. Lists are flat, three floats a point, each with its length in floats; a flag
// is 0 for open and anything else for closed. include/arcstring.h documents each call. What is lent is read, and what is
// answered is put into its places, by the crates arcstring_put and arcstring_put_found. The calls are those of arcstring_calls, and here only
// exported, since a static library can be no library for other crates. A module for each crate below whose calls it exports:
//
//     point       points: equal, in a plane, of coordinates (arcstring_point)
//     build       a string of points
//     walk        a string walked back or from another vertex, a run of its vertices
//     crossing    a pair of legs
//     listing     counts and crossings, and which side of a string points lie on
//     with_self   the crossings of a string with itself (arcstring_self)
//     along       a point on a string
//     measure     turn orientations and midpoints
//     relation    two strings compared
//     simplified  two strings compared by simplified copies (arcstring_equals)
//     simplify    a string simplified
//     insert      vertices inserted
//     split_leg   a leg split
//     split       a string split
//     mark        marks on legs and strings, and a string cut at marks (arcstring_mark, arcstring_mark_cut)
//     version     which version of the header belongs to the library
#![tactic(auto)]

pub mod along;
pub mod build;
pub mod crossing;
pub mod insert;
pub mod listing;
pub mod mark;
pub mod measure;
pub mod point;
pub mod relation;
pub mod simplified;
pub mod simplify;
pub mod split;
pub mod split_leg;
pub mod version;
pub mod walk;
pub mod with_self;
