// The calls of the string layer in the words of C: each returns 0 or the number of the refusal, and then changes nothing that it was
// lent. arcstring_c exports them, under the same names and with the same clauses; the programs of this repository call them here. A module
// for each crate below whose calls it has, as in arcstring_c. Calls of one shape stay apart, and lists come with flags and numbers beside
// them: C has each by its name and hands each over so.
#![tactic(auto)]

pub mod along;
pub mod build;
pub mod crossing;
pub mod insert;
pub mod listing;
pub mod mark;
pub mod measure;
pub mod point;
pub mod relation;
pub mod simplified;
pub mod simplify;
pub mod split;
pub mod split_leg;
pub mod version;
pub mod walk;
pub mod with_self;
