// What the programs of this repository use: its functions ask for lists of certain lengths, which the programs lend.
pub mod column;
pub mod read;
pub mod reading;
pub mod report;
pub mod track;
