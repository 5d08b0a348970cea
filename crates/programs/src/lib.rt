// What the programs have in common: the options that an input asks for, an answer's number, the lines that are printed, standard input
// and output, and the way of a stream through a filter, which `filter` and `sums` are.
#![tactic(auto)]

pub mod asked;
pub mod lines;
pub mod pipe;
pub mod stream;
