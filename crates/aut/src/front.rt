ghost use Rattle.std.specs.Prelude.{◌≡◌, ℕ, suc, ◌-◌, ◌≤◌, length, Some, None, MatchOption};
ghost use Rattle.aut.specs.Front.{lines_length, FirstLine, ModelFront, FrontEnds, FrontRead};

use crate::header::Header;
use crate::reader::{read_within, right_size};
use crate::scan::first_line;
use base::{Labels, Refusal};
use model::Cell;

// The text after its first line, if that has an end.
fn skip_line(text: &[u8]) -> Option<&[u8]>
    ensures { MatchOption result ((k : ℕ) → lines_length (suc k) text.now ≡ None)
        (λ rest. FirstLine text.now rest.now) }
{
    let end = text.iter().position(|byte| *byte == b'\n')?;
    Some(&text[end + 1..])
}

// The text after some lines, if it has so many.
fn skip_lines(text: &[u8], lines: usize) -> Option<&[u8]>
    ensures { MatchOption result (lines_length lines text.now ≡ None)
        (λ rest. (lines_length lines text.now ≡ Some (length text.now - length rest.now))
        × (length rest.now ≤ length text.now)) }
{
    let mut rest = text;
    for _ in 0..lines {
        rest = skip_line(rest)?;
    }
    Some(rest)
}

/// How long the model at the front of an input is: line one, and as many lines more as it
/// announces, whatever they hold. Nothing where line one has not the form or there are fewer lines.
pub fn front_length(input: &[u8]) -> Option<usize>
    ensures { MatchOption result ((n : ℕ) → ¬ ModelFront input.now n) (FrontEnds input.now) }
{
    let (header, body) = first_line(input)?;
    let rest = skip_lines(body, header.transitions)?;
    Some(input.len() - rest.len())
}

/// Reads the model at the front of an input of at most `longest` bytes as `read_within` reads a
/// text, and answers how long it is too.
///
/// Refuses with 3 a longer input and slots that are not from 1 to 64; then with 2 an input at whose
/// front no model stands; then as `read_within` refuses the front. A refusal alters nothing.
pub fn read_front(
    input: &[u8],
    longest: usize,
    labels: &mut Labels,
    cells: &mut [Cell],
    slots: usize,
    most: usize,
) -> Result<(Header, usize), Refusal>
    ensures { FrontRead input.now longest most slots labels.old labels.new cells.old cells.new
        result }
{
    if !right_size(input, longest, slots) {
        return Err(Refusal::Range);
    }
    let length = front_length(input).ok_or(Refusal::Garbled)?;
    let header = read_within(&input[..length], labels, cells, slots, most)?;
    Ok((header, length))
}
