ghost use Rattle.std.specs.Prelude.{◌≡◌, Some};
ghost use Rattle.base.specs.Refusals.{number_of, word_of};

use std::error::Error;
use std::fmt;

/// Why a call is refused. A refused call alters nothing that it was handed.
#[derive(Clone, Copy, PartialEq, Eq, Debug)]
pub enum Refusal {
    /// a list is too short for what it is to hold
    Short = 1,
    /// a text is not of its form
    Garbled = 2,
    /// a number is outside its limits
    Range = 3,
    /// more transitions at a state than slots, or more labels than fit
    Crowded = 4,
    /// a formula is not of the grammar
    Grammar = 5,
    /// a name is in no label list, or an action has no name
    Nameless = 6,
    /// no room for another formula or node
    Full = 7,
    /// there is no such formula, or it is not judged yet
    Unheard = 8,
    /// the silent action in a handshake set
    Silent = 9,
    /// a joined model, or a text to write, is over its limit
    TooBig = 10,
}

impl Refusal {
    /// The number by which it is told.
    // Beside `From`, as the plainer word at its many callers.
    pub fn number(self) -> u8
        ensures { result ≡ number_of self }
    {
        self.into()
    }

    /// The word for it.
    pub fn word(self) -> &'static str
        ensures { result.now ≡ word_of self }
    {
        match self {
            Refusal::Short => "short",
            Refusal::Garbled => "garbled",
            Refusal::Range => "range",
            Refusal::Crowded => "crowded",
            Refusal::Grammar => "grammar",
            Refusal::Nameless => "nameless",
            Refusal::Full => "full",
            Refusal::Unheard => "unheard",
            Refusal::Silent => "silent",
            Refusal::TooBig => "too big",
        }
    }
}

impl From<Refusal> for u8 {
    ghost from_gives = { λ e n. n ≡ number_of e };

    fn from(refusal: Refusal) -> u8 {
        refusal as u8
    }
}

impl fmt::Display for Refusal {
    ghost output = { λ e. Some (word_of e) };

    fn fmt<W: fmt::Write>(&self, f: &mut fmt::Formatter<W>) -> fmt::Result {
        f.write_str(self.word())
    }
}

impl Error for Refusal {}
