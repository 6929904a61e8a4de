ghost use Rattle.std.specs.Prelude.{◌≡◌};
ghost use Rattle.aut.specs.Scanning.{effect_of};

use base::{is_letter, is_name_byte};

// The part of a line that is being read: of line one, `des (I,M,N)`, and of the others,
// `(s,"label",t)`. A gap is where one space may stand.
#[derive(Clone, Copy, PartialEq, Eq)]
pub(crate) enum Field {
    D,
    E,
    S,
    Blank,
    HeadOpen,
    Start,
    CountGap,
    Count,
    StatesGap,
    States,
    HeadEnd,
    Open,
    From,
    LabelGap,
    Quote,
    Initial,
    Label,
    Comma,
    ToGap,
    To,
    LineEnd,
}

// What a number is for.
#[derive(Clone, Copy)]
pub(crate) enum NumberRole {
    StartState,
    LineCount,
    StateCount,
    Source,
    Target,
}

// What a byte does: leads to another field, adds a digit or a letter, or ends a number.
#[derive(Clone, Copy)]
pub(crate) enum Effect {
    Next(Field),
    Digit(Field),
    Letter,
    Store(NumberRole, Field),
}

// What a byte means depends on the field being read and on the byte. None is a byte that may not
// stand there.
pub(crate) fn byte_means(field: Field, byte: u8) -> Option<Effect>
    ensures { result ≡ effect_of field byte }
{
    let turn = match (field, byte) {
        (Field::D, b'd') => Effect::Next(Field::E),
        (Field::E, b'e') => Effect::Next(Field::S),
        (Field::S, b's') => Effect::Next(Field::Blank),
        (Field::Blank, b' ') => Effect::Next(Field::HeadOpen),
        (Field::HeadOpen, b'(') => Effect::Next(Field::Start),
        (Field::Start, b'0'..=b'9') => Effect::Digit(Field::Start),
        (Field::Start, b',') => Effect::Store(NumberRole::StartState, Field::CountGap),
        (Field::CountGap, b' ') => Effect::Next(Field::Count),
        (Field::CountGap | Field::Count, b'0'..=b'9') => Effect::Digit(Field::Count),
        (Field::CountGap | Field::Count, b',') => Effect::Store(
            NumberRole::LineCount,
            Field::StatesGap,
        ),
        (Field::StatesGap, b' ') => Effect::Next(Field::States),
        (Field::StatesGap | Field::States, b'0'..=b'9') => Effect::Digit(Field::States),
        (Field::StatesGap | Field::States, b')') => Effect::Store(
            NumberRole::StateCount,
            Field::HeadEnd,
        ),
        (Field::HeadEnd | Field::LineEnd, b'\n') => Effect::Next(Field::Open),
        (Field::Open, b'(') => Effect::Next(Field::From),
        (Field::From, b'0'..=b'9') => Effect::Digit(Field::From),
        (Field::From, b',') => Effect::Store(NumberRole::Source, Field::LabelGap),
        (Field::LabelGap, b' ') => Effect::Next(Field::Quote),
        (Field::LabelGap | Field::Quote, b'"') => Effect::Next(Field::Initial),
        (Field::Initial, byte) if is_letter(byte) => Effect::Letter,
        (Field::Label, byte) if is_name_byte(byte) => Effect::Letter,
        (Field::Label, b'"') => Effect::Next(Field::Comma),
        (Field::Comma, b',') => Effect::Next(Field::ToGap),
        (Field::ToGap, b' ') => Effect::Next(Field::To),
        (Field::ToGap | Field::To, b'0'..=b'9') => Effect::Digit(Field::To),
        (Field::ToGap | Field::To, b')') => Effect::Store(NumberRole::Target, Field::LineEnd),
        _ => return None,
    };
    Some(turn)
}
