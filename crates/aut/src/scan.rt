ghost use Rattle.std.specs.Prelude.{◌≡◌};
ghost use Rattle.std.specs.Option.{option_map};
ghost use Rattle.aut.specs.Scanning.{begin, digit_in, letter_in, store_in, next, scan_on, first_line, next_line};
ghost use Rattle.aut.specs.Views.{line_of, view};

use crate::field::{Effect, Field, NumberRole, byte_means};
use crate::header::Header;
use crate::transition::{Edge, Line};
use base::{BoundedVec, LONGEST_NAME, Name};

// The reader within a line: the field, the number being read if a digit of it was, and what was
// read before. Letters of a label are no name yet.
// One reader for both kinds of line, of which callers see the half that is real; one for each would
// say its steps twice.
#[derive(Clone, Copy)]
struct Scan {
    field: Field,
    number: Option<usize>,
    header: Header,
    line: Edge<BoundedVec<u8, LONGEST_NAME>>,
}

impl Scan {
    // At the beginning of a field, with nothing read yet.
    fn at(field: Field) -> Scan
        ensures { view result ≡ begin field }
    {
        let header = Header {
            start: 0,
            transitions: 0,
            states: 0,
        };
        let line = Edge {
            from: 0,
            label: BoundedVec::new(),
            to: 0,
        };
        Scan {
            field,
            number: None,
            header,
            line,
        }
    }

    // One digit more: at most 5, and none after a leading zero.
    fn digit(&mut self, field: Field, value: u8) -> Option<()>
        ensures { option_map (λ _. view self.new) result ≡ digit_in field value (view self.old) }
    {
        let value = usize::from(value);
        let number = match self.number {
            None => value,
            Some(number) if 0 < number && number < 10_000 => number * 10 + value,
            Some(_) => return None,
        };
        self.number = Some(number);
        self.field = field;
        Some(())
    }

    // One letter more: at most 16.
    fn letter(&mut self, byte: u8) -> Option<()>
        ensures { option_map (λ _. view self.new) result ≡ letter_in byte (view self.old) }
    {
        self.line.label.push(byte)?;
        self.field = Field::Label;
        Some(())
    }

    // The number ends, if it has a digit, and is kept.
    fn store(&mut self, part: NumberRole, field: Field) -> Option<()>
        ensures { option_map (λ _. view self.new) result ≡ store_in part field (view self.old) }
    {
        let number = self.number.take()?;
        self.field = field;
        match part {
            NumberRole::StartState => self.header.start = number,
            NumberRole::LineCount => self.header.transitions = number,
            NumberRole::StateCount => self.header.states = number,
            NumberRole::Source => self.line.from = number,
            NumberRole::Target => self.line.to = number,
        }
        Some(())
    }

    // One byte on, if it may stand here.
    fn step(&mut self, byte: u8) -> Option<()>
        ensures { option_map (λ _. view self.new) result ≡ next (view self.old) byte }
    {
        match byte_means(self.field, byte)? {
            Effect::Next(field) => {
                self.field = field;
                Some(())
            }
            Effect::Digit(field) => self.digit(field, byte - b'0'),
            Effect::Letter => self.letter(byte),
            Effect::Store(part, field) => self.store(part, field),
        }
    }
}

// The line that a text begins with, from a field on: what the reader then has, and the text after
// it.
fn scan_line(text: &[u8], field: Field) -> Option<(Scan, &[u8])>
    ensures { option_map (λ p. (view p.0, p.1.now)) result ≡ scan_on (begin field) text.now }
{
    let mut scan = Scan::at(field);
    let mut rest = text;
    while let Some((byte, after)) = rest.split_first() {
        scan.step(*byte)?;
        if scan.field == Field::Open {
            return Some((scan, after));
        }
        rest = after;
    }
    None
}

// Line one of a text, and the text after it.
pub(crate) fn first_line(text: &[u8]) -> Option<(Header, &[u8])>
    ensures { option_map (λ p. (p.0, p.1.now)) result ≡ first_line text.now }
{
    let Some((scan, rest)) = scan_line(text, Field::D) else {
        return None;
    };
    Some((scan.header, rest))
}

// The further line that a text begins with, and the text after it.
pub(crate) fn next_line(text: &[u8]) -> Option<(Line, &[u8])>
    ensures { option_map (λ p. (line_of p.0, p.1.now)) result ≡ next_line text.now }
{
    let Some((scan, rest)) = scan_line(text, Field::Open) else {
        return None;
    };
    let Edge { from, label, to } = scan.line;
    let label = Name::from_bytes(label)?;
    Some((Edge { from, label, to }, rest))
}
