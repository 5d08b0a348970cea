// Narrowing: a table, a payload or a packet with what is not wanted left out. The three public functions answer every input; what
// they rest on stands in the modules, leaves first.
#![tactic(auto)]

pub mod counting;
pub mod mpt;
pub mod narrow;
pub mod pa;
pub mod plt;
pub mod table;
