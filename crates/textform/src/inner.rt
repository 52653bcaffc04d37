// What the programs of this repository use: its functions ask for lists of certain lengths, which the programs lend.
pub mod pieces;
pub mod print;
pub mod read;
pub mod reader;
pub mod say;
