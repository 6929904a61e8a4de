// The listing: what the program prints for an input, in one call.
#![tactic(auto)]

mod answering;
mod law;
mod lines;
mod streams;
mod texts;

pub use answering::{MOST_INPUT, MOST_STATES, SLOTS, listing};
pub use law::one_listing;
pub use streams::run;
