use crate::verdict::Verdict;
use base::{Labels, Refusal};
use search::Step;

/// An order to a study: one of its calls, with what it is handed.
#[derive(Clone, Copy, PartialEq, Eq, Debug)]
pub enum Order<'a> {
    Enter {
        text: &'a [u8],
        labels: &'a Labels,
    },
    Judge {
        formula: usize,
    },
    Ask {
        formula: usize,
        state: usize,
    },
    Path {
        formula: usize,
        state: usize,
        tariffs: &'a [u16; 64],
    },
}

/// A deciding path: one that ends, or one that closes a cycle.
#[derive(Drop, PartialEq, Eq, Debug)]
pub enum DecidingPath {
    Ended { stem: Vec<Step> },
    Looping { stem: Vec<Step>, cycle: Vec<Step> },
}

/// What an order was answered, as the call of that name answers it; for a path, with its steps.
#[derive(Drop, PartialEq, Eq, Debug)]
pub enum Answer {
    Entered(Result<usize, Refusal>),
    Judged(Result<Verdict, Refusal>),
    Asked(Result<bool, Refusal>),
    Path(Result<Option<DecidingPath>, Refusal>),
}
