// A study: formulas entered, judged over a model into a shelf, asked of, and decided by paths.
#![tactic(auto)]

mod asking;
pub mod carry_out_error;
pub mod carrying;
mod entering;
mod finding;
mod judging;
pub mod order;
pub mod record;
pub mod study;
pub mod verdict;

pub use carry_out_error::CarryOutError;
pub use carrying::carry_out;
pub use order::{Answer, DecidingPath, Order};
pub use record::Record;
pub use study::Study;
pub use verdict::Verdict;
