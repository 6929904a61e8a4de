ghost use Rattle.std.specs.Prelude.{◌≡◌, ◌≤◌, IfSome, length, decimal};
ghost use Rattle.aut.specs.Writing.{line_length, move_text, head_of, most_digits, longest_line, longest_head};

use crate::header::Header;
use crate::pen::Pen;
use crate::transition::Move;
use base::Labels;
use itoa::Buffer;

// How many bytes of a line are neither of a number nor of the name.
const LINE_MARKS: usize = b"(,\"\",)\n".len();

// How many bytes of line one are not of a number.
const HEAD_MARKS: usize = b"des (,,)\n".len();

// How many digits a number has.
fn number_length(number: usize) -> usize
    ensures long { result ≡ length (decimal number) }
    ensures few { result ≤ most_digits }
{
    number
        .checked_ilog10()
        .map_or(1, |power| power as usize + 1)
}

// How long the line of a transition is, if its action has a name.
pub(crate) fn line_length(labels: &Labels, line: Move) -> Option<usize>
    ensures long { result ≡ line_length labels.now line }
    ensures few { IfSome result (λ n. n ≤ longest_line) }
{
    let name = labels.name_of(line.label)?;
    Some(number_length(line.from) + name.len() + number_length(line.to) + LINE_MARKS)
}

// How long line one is.
pub(crate) fn head_length(header: Header) -> usize
    ensures long { result ≡ length (head_of header) }
    ensures few { result ≤ longest_head }
{
    number_length(header.start)
        + number_length(header.transitions)
        + number_length(header.states)
        + HEAD_MARKS
}

impl Pen<'_> {
    ghost use Rattle.aut.specs.Pens.{room, Wrote};

    // Line one.
    pub(crate) fn put_head(&mut self, header: Header)
        requires { length (head_of header) ≤ length (room self.old) }
        ensures { Wrote self.old (head_of header) self.new }
    {
        let mut start = Buffer::new();
        let mut transitions = Buffer::new();
        let mut states = Buffer::new();
        self.put_all(&[
            b"des (",
            start.format(header.start).as_bytes(),
            b",",
            transitions.format(header.transitions).as_bytes(),
            b",",
            states.format(header.states).as_bytes(),
            b")\n",
        ]);
    }

    // The line of a transition. An action without a name has no bytes there.
    pub(crate) fn put_line(&mut self, labels: &Labels, line: Move)
        requires { length (move_text labels.now line) ≤ length (room self.old) }
        ensures { Wrote self.old (move_text labels.now line) self.new }
    {
        let mut from = Buffer::new();
        let mut to = Buffer::new();
        self.put_all(&[
            b"(",
            from.format(line.from).as_bytes(),
            b",\"",
            labels.name_of(line.label).unwrap_or(&[]),
            b"\",",
            to.format(line.to).as_bytes(),
            b")\n",
        ]);
    }
}
