// Messages, tables and their entries. A reader takes a slice and an offset, answers the offset past what it read, and has an
// answer for every offset.
#![tactic(auto)]

pub mod assets;
pub mod fields;
pub mod locations;
pub mod messages;
pub mod pa;
pub mod packages;
