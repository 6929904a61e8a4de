ghost use Rattle.formula.specs.Agreement.{Agreement, OneReading, TauIsSilent};
ghost use Rattle.formula.specs.Lexes.{LongestRuns};

/// The reader's way through the tokens and the grammar agree: it finds a tree exactly where the
/// tokens are that formula.
pub fn agreement()
    ensures { Agreement }
{}

/// A text is a formula in one way only.
pub fn one_reading()
    ensures { OneReading }
{}

/// The name tau and the word TAU are the same action.
pub fn tau_is_silent()
    ensures { TauIsSilent }
{}

/// The tokens that the lexer finds are those that a text has by longest runs.
pub fn longest_runs()
    ensures { LongestRuns }
{}
