// What the season report has in its lines: counts and their permille, of each track and of all.
//
//     inner            for the programs of this repository
//     inner::permille  the nearest whole number to a quotient
//     inner::lines     the heading, a track's line, the line of all
#![tactic(auto)]

pub mod inner;
