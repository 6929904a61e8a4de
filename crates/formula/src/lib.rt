// Formulas: from the text to a table of nodes.
#![tactic(auto)]

mod actions;
pub mod agree;
mod built;
mod cursor;
mod draft;
pub mod entering;
pub mod lexer;
mod names;
pub mod node;
pub mod nodes;
mod reader;
pub mod symbol;
pub mod token;

pub use agree::{agreement, longest_runs, one_reading, tau_is_silent};
pub use entering::{MOST_BYTES, enter};
pub use lexer::Lexer;
pub use node::{Node, Part};
pub use nodes::{MOST_FORMULAS, MOST_NODES, Nodes, Span};
pub use symbol::{Connective, Link, Operator, Quantifier, Sign, Symbol};
pub use token::Token;
