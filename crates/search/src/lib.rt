// The lightest deciding path of an operator from a state, over any model and by any weight.
#![tactic(auto)]

pub mod airtime;
mod decisive;
pub mod entry;
pub mod finding;
pub mod found;
mod heap;
pub mod laws;
pub mod lists;
mod looping;
pub mod operator;
pub mod peak;
mod role;
pub mod search;
pub mod step;
pub mod tail;
pub mod weight;
mod writing;

pub use airtime::Airtime;
pub use entry::Entry;
pub use finding::refusal;
pub use found::Found;
pub use laws::{deciding_where_shown, nothing_where_not_shown, peak_first_fails};
pub use lists::Lists;
pub use operator::{Operator, StepKind};
pub use peak::Peak;
pub use search::Search;
pub use step::Step;
pub use tail::{Counts, StepList, Tail, tail_from};
pub use weight::Weight;
