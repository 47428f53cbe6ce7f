// Lines of text: numbers in decimal, read byte by byte and printed into a lent buffer.
#![tactic(auto)]

pub mod print;
pub mod read;
