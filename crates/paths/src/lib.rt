// Deciding paths of the formulas of a table, by the marks of their nodes on a shelf.
#![tactic(auto)]

pub mod marked;
pub mod question;
mod reading;

pub use marked::MarkedOperator;
pub use question::PathQuestion;
