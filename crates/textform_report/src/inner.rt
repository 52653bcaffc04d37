// What the programs of this repository use: its functions ask for room in the lists that are lent to them, and for counts that are not too many.
pub mod lines;
pub mod permille;
