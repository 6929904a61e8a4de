ghost use Rattle.std.specs.Prelude.{◌≡◌, Some};
ghost use Rattle.study.specs.Errors.{words_of};
ghost use Rattle.study.specs.declared.carry_out_error.CarryOutError.TheVariants.{Refused, NoMemory};

use base::Refusal;
use std::alloc::AllocError;
use std::error::Error;
use std::fmt;

/// Why orders have no log: the study could not be opened, or there is no memory for the log.
#[derive(Clone, Copy, PartialEq, Eq, Debug)]
pub enum CarryOutError {
    Refused(Refusal),
    NoMemory,
}

impl From<Refusal> for CarryOutError {
    ghost from_gives = { λ e s. s ≡ Refused e };

    fn from(refusal: Refusal) -> CarryOutError {
        CarryOutError::Refused(refusal)
    }
}

impl From<AllocError> for CarryOutError {
    ghost from_gives = { λ _ s. s ≡ NoMemory };

    fn from(_error: AllocError) -> CarryOutError {
        CarryOutError::NoMemory
    }
}

impl fmt::Display for CarryOutError {
    ghost output = { λ e. Some (words_of e) };

    fn fmt<W: fmt::Write>(&self, f: &mut fmt::Formatter<W>) -> fmt::Result {
        let words = match self {
            CarryOutError::Refused(why) => why.word(),
            CarryOutError::NoMemory => "no memory",
        };
        f.write_str(words)
    }
}

impl Error for CarryOutError {}
