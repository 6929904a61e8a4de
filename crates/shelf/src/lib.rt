// Shelves: what holds the marks of states, sheet by sheet.
#![tactic(auto)]

pub mod bit_shelf;
pub mod column_shelf;
mod memory;
pub mod shelf;

pub use bit_shelf::BitShelf;
pub use column_shelf::ColumnShelf;
pub use shelf::{SHEETS, Shelf};
