ghost use Rattle.std.specs.Prelude.{◌≡◌, ◌<◌, length, min, MatchResult, MatchOption};
ghost use Rattle.bench_api.specs.Reading.{lines, put_over, FreshRead, FreshRefused, ReadAnswer};

use aut::{Header, one_reading, read};
use base::{Labels, Refusal};
use model::Cell;

/// What reading came to: the number of the refusal, or 0; what line one says; and how many names
/// the label list has. A number for the refusal, since C has no Result.
#[repr(C)]
#[derive(Clone, Copy, PartialEq, Eq, Debug)]
pub struct Outcome {
    pub refusal: u8,
    pub start: usize,
    pub transitions: usize,
    pub states: usize,
    pub names: usize,
}

// What a text says, and the label list with its names.
#[derive(Clone, Copy)]
struct Reading {
    header: Header,
    labels: Labels,
}

// Puts bytes over the beginning of a text, as far as it goes; how many.
fn put(bytes: &[u8], text: &mut [u8]) -> usize
    ensures count { result ≡ min (length bytes.now) (length text.old) }
    ensures text { text.new ≡ put_over bytes.now text.old }
{
    let count = bytes.len().min(text.len());
    text[..count].copy_from_slice(&bytes[..count]);
    count
}

// Puts the names over the beginning of a text, each with a byte 10 after it, as far as the text
// goes.
fn put_names(labels: &Labels, text: &mut [u8])
    ensures { text.new ≡ put_over (lines labels.now) text.old }
{
    let mut at = 0;
    for name in labels.names() {
        at += put(name.as_bytes(), &mut text[at..]);
        at += put(b"\n", &mut text[at..]);
    }
}

// Reads a text into the cells `rounds` times, each time with a fresh label list, and says what came
// of the last; nothing where there are no rounds. It is refused in the first round or not at all,
// and then nothing is altered.
fn read_rounds(
    text: &[u8],
    slots: usize,
    rounds: usize,
    cells: &mut [Cell],
) -> Result<Option<Reading>, Refusal>
    ensures { MatchResult result
        (λ r. MatchOption r ((rounds ≡ 0) × (cells.new ≡ cells.old))
        (λ x. (0 < rounds) × FreshRead text.now slots cells.old cells.new x.header x.labels))
        (λ e. (0 < rounds) × FreshRefused text.now slots cells.old cells.new e) }
{
    // a text has the form in one way only, so that each round comes to the same
    one_reading();
    let mut last = None;
    for _ in 0..rounds {
        let mut labels = Labels::new();
        let header = read(text, &mut labels, cells, slots)?;
        last = Some(Reading { header, labels });
    }
    Ok(last)
}

/// Reads a text into the cells `rounds` times, for a caller outside, each time with a fresh label
/// list, and says what came of the last.
///
/// When it is read, the outcome has refusal 0, what line one says and the number of names, and
/// `names` begins with the names as lines, as far as they fit. When it is refused, the outcome has
/// the number of the refusal, and all else is as before. With no rounds nothing is read, and all is
/// as before.
#[unsafe(no_mangle)]
pub extern "C" fn neqoylla_read(
    text: &[u8],
    slots: usize,
    rounds: usize,
    cells: &mut [Cell],
    names: &mut [u8],
    outcome: &mut Outcome,
)
    ensures { ReadAnswer text.now slots cells.old cells.new names.old names.new
        outcome.old outcome.new rounds outcome.new.refusal }
{
    match read_rounds(text, slots, rounds, cells) {
        Ok(None) => {}
        Ok(Some(Reading { header, labels })) => {
            *outcome = Outcome {
                refusal: 0,
                start: header.start,
                transitions: header.transitions,
                states: header.states,
                names: labels.len(),
            };
            put_names(&labels, names);
        }
        Err(why) => outcome.refusal = why.number(),
    }
}
