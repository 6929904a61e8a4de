// What every other crate speaks of: refusals, names, label lists and sets of actions.
#![tactic(auto)]

pub mod action_set;
pub mod bounded_vec;
pub mod labels;
pub mod name;
pub mod refusal;
pub mod spelling;

pub use action_set::{ACTIONS, ActionSet};
pub use bounded_vec::{BoundedVec, Filler};
pub use labels::{Labels, MOST_NAMES};
pub use name::{LONGEST_NAME, Name};
pub use refusal::Refusal;
pub use spelling::{is_letter, is_name, is_name_byte};
