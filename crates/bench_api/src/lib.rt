// What the benchmark in bench/ calls. Each function does a job of the library some times over, and
// says what came out of the last time.
#![tactic(auto)]

pub mod asking;
pub mod marks;
pub mod reading;
pub mod studying;

pub use marks::{neqoylla_mark_bits, neqoylla_mark_columns};
pub use reading::{Outcome, neqoylla_read};
