// What the program replay is made of that knows nothing of PINE: the words of a line, the bits of a
// double, and rows that are lent.
#![tactic(auto)]

pub mod field;
pub mod patterns;
pub mod row;
pub mod words;
