// Marking: writes on the sheets of a shelf the states at which the nodes of a formula hold.
#![tactic(auto)]

pub mod counting;
pub mod formula_marks;
pub mod marked_part;
mod marks;
mod node;
pub mod path_formula;
mod search;
mod steps;

pub use counting::count;
pub use formula_marks::mark;
pub use marked_part::MarkedPart;
pub use path_formula::PathFormula;
