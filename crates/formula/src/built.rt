ghost use Rattle.std.specs.Prelude.{◌≡◌};

use crate::symbol::Connective;
use crate::token::Token;

// What was read, and the tokens after it.
#[derive(Clone, Copy)]
pub(crate) struct Found<'a, T> {
    pub(crate) value: T,
    pub(crate) rest: &'a [Token],
}

// How much is read: a chain that a word joins, or what binds closer than both words.
#[derive(Clone, Copy)]
pub(crate) enum Level {
    Chain(Connective),
    Tight,
}

impl Connective {
    ghost use Rattle.formula.specs.Levels.{operand};

    // How much is read for an operand.
    pub(crate) fn operand(self) -> Level
        ensures { result ≡ operand self }
    {
        match self {
            Connective::Or => Level::Chain(Connective::And),
            Connective::And => Level::Tight,
        }
    }
}
