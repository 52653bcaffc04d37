// What the season report answers: the text form of a limit and of up to 1,000 tracks read, each track counted with the limit when the next
// one begins or the input ends, and the report or a refusal printed.
//
//     inner           for the programs of this repository
//     inner::column   the first column of a row
//     inner::track    a track that has ended: counted, and its line
//     inner::reading  where the reading stands
//     inner::read     the machine over the bytes
//     inner::report   what is printed when the input has ended
#![tactic(auto)]

pub mod inner;
