// AUT text: the reader and the writer.
#![tactic(auto)]

pub mod agree;
mod counts;
mod field;
pub mod front;
mod grid_shape;
pub mod header;
mod laying;
mod lines;
mod pen;
mod plan;
mod putting;
pub mod reader;
mod scan;
mod survey;
mod tally;
mod transition;
mod walk;
pub mod writer;

pub use agree::{agreement, one_reading, reads_back};
pub use front::{front_length, read_front};
pub use header::Header;
pub use reader::{MOST_BYTES, MOST_STATES, read, read_within};
pub use writer::write;
