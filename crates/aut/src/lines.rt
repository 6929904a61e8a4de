ghost use Rattle.std.specs.Prelude.{◌≡◌, ◌+◌, length};
ghost use Rattle.std.specs.Iterator.{at_most};
ghost use Rattle.aut.specs.Scanning.{lines_of};
ghost use Rattle.aut.specs.Lines.{lines_left, TakesLine};

use crate::header::Header;
use crate::scan::next_line;
use crate::transition::Line;
use base::Refusal;

// The lines after line one, as many as it announces. A line that is not of the form is refused, and
// so is text after the last.
#[derive(Drop)]
pub(crate) struct Lines<'a> {
    text: &'a [u8],
    left: usize,
}

impl<'a> Lines<'a> {
    // The lines of a text after its line one.
    pub(crate) fn new(header: &Header, body: &'a [u8]) -> Lines<'a>
        ensures { lines_left result ≡ lines_of header.now.transitions body.now }
    {
        Lines {
            text: body,
            left: header.transitions,
        }
    }
}

impl<'a> Iterator for Lines<'a> {
    type Item = Result<Line, Refusal>;

    ghost next_gives = { TakesLine };

    ghost remaining = { λ s. at_most (s.left + length s.text.now) };

    fn next(&mut self) -> Option<Result<Line, Refusal>> {
        if self.left == 0 && self.text.is_empty() {
            return None;
        }
        if self.left > 0
            && let Some((line, rest)) = next_line(self.text)
        {
            self.text = rest;
            self.left -= 1;
            return Some(Ok(line));
        }
        *self = Lines { text: &[], left: 0 };
        Some(Err(Refusal::Garbled))
    }
}
