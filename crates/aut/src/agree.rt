ghost use Rattle.aut.specs.Back.{ReadsBack};
ghost use Rattle.aut.specs.Agreement.{Agreement, OneReading};

/// The reader's way through a text and the form agree: it finds a header and lines exactly where
/// the text has the form with these.
pub fn agreement()
    ensures { Agreement }
{}

/// A text has the form in one way only.
pub fn one_reading()
    ensures { OneReading }
{}

/// The text of a model, read with the same label list, gives the same transitions in the same
/// order.
pub fn reads_back()
    ensures { ReadsBack }
{}
