// Runs the reader on a table of texts, one a line of standard input, and prints what it answers and
// leaves. A line is S, the number of cells, and the text, in which \n stands for byte 10 and \\ for
// a backslash.
#![tactic(auto)]

use aut::{Header, read, read_front};
use base::Labels;
use model::Cell;
use std::alloc::{AllocError, Global};
use std::{fmt, io};

// No text of the table is read into more cells.
const MOST_CELLS: usize = 4_096;

// A mark that no reading leaves, to show which cells were written.
const UNTOUCHED: Cell = Cell {
    filled: false,
    action: 9,
    target: 9,
};

// The bytes that a text of the table stands for.
fn decode(heap: Global, line: &str) -> Result<Vec<u8>, AllocError> {
    let mut text = Vec::new(heap);
    let mut bytes = line.bytes();
    while let Some(byte) = bytes.next() {
        match byte {
            b'\\' => match bytes.next() {
                Some(b'n') => text.push(b'\n')?,
                Some(escaped) => text.push(escaped)?,
                None => {}
            },
            _ => text.push(byte)?,
        }
    }
    Ok(text)
}

// The names of a label list besides tau, as they are printed.
#[derive(Clone, Copy)]
struct Names<'a>(&'a Labels);

impl fmt::Display for Names<'_> {
    fn fmt<W: fmt::Write>(&self, f: &mut fmt::Formatter<W>) -> fmt::Result {
        for name in self.0.names().iter().skip(1) {
            write!(f, " {}", str::from_utf8(name.as_bytes()).unwrap_or("?"))?;
        }
        Ok(())
    }
}

// The filled cells and those that stayed, as they are printed.
#[derive(Clone, Copy)]
struct Cells<'a>(&'a [Cell]);

impl fmt::Display for Cells<'_> {
    fn fmt<W: fmt::Write>(&self, f: &mut fmt::Formatter<W>) -> fmt::Result {
        for (i, cell) in self.0.iter().enumerate() {
            match cell.step() {
                Some((action, target)) => write!(f, " {i}:{action}>{target}")?,
                None if *cell == UNTOUCHED => write!(f, " {i}:stays")?,
                None => {}
            }
        }
        Ok(())
    }
}

// Prints what was read.
fn print_read(rt: &HostRuntime, header: Header, labels: &Labels, cells: &[Cell]) -> io::Result<()> {
    let Header {
        start,
        transitions,
        states,
    } = header;
    print!(rt; "start {start}, {transitions} transitions, {states} states; ")?;
    println!(rt; "labels{}; cells{}", Names(labels), Cells(cells))
}

// Whether no cell was written.
fn untouched(cells: &[Cell]) -> bool {
    cells.iter().all(|cell| *cell == UNTOUCHED)
}

// Reads a text into so many cells, and prints what came of it. A refusal must leave the labels and
// the cells as they were.
fn run(rt: &HostRuntime, slots: usize, count: usize, text: &[u8]) -> io::Result<()> {
    let mut labels = Labels::new();
    let mut room = [UNTOUCHED; MOST_CELLS];
    let cells = &mut room[0..count.min(MOST_CELLS)];
    match read(text, &mut labels, cells, slots) {
        Ok(header) => print_read(rt, header, &labels, cells),
        Err(why) => {
            let same = untouched(cells) && labels.len() == 1;
            println!(rt; "refused {}, unaltered: {same}", why.number())
        }
    }
}

// Runs each line of the table.
fn main(rt: HostRuntime) -> anyhow::Result<()> {
    for line in rt.lines(rt.alloc()) {
        let line = line?;
        let Some((slots, rest)) = line.as_str().split_once(' ') else {
            continue;
        };
        let Some((count, text)) = rest.split_once(' ') else {
            continue;
        };
        let text = decode(rt.alloc(), text)?;
        run(
            &rt,
            slots.parse::<usize>()?,
            count.parse::<usize>()?,
            text.as_slice(),
        )?;
    }
    Ok(())
}

#[cfg(test)]
mod tests {
    use super::*;
    use std::test::Fail;

    // What one slot a state makes of a text, or the number of its refusal.
    fn answer(text: &[u8]) -> Result<Header, u8> {
        let mut labels = Labels::new();
        let mut cells = [UNTOUCHED; 1];
        read(text, &mut labels, &mut cells, 1).map_err(|why| why.number())
    }

    // A text of the most bytes is read, and is not of the form; one byte more is refused as too
    // large.
    #[test]
    fn longest_text(rt: HostRuntime) -> Result<(), Fail> {
        let mut text = vec![in rt.alloc(); b'x'; 2_500_000]?;
        assert_eq!(rt; answer(text.as_slice()), Err(2));
        text.push(b'x')?;
        assert_eq!(rt; answer(text.as_slice()), Err(3));
        Ok(())
    }

    // What so many slots a state make of the front of an input of at most 20 bytes, for a model of
    // at most two states, or the number of its refusal.
    fn front(input: &[u8], slots: usize) -> Result<(Header, usize), u8> {
        let mut labels = Labels::new();
        let mut cells = [UNTOUCHED; 1];
        read_front(input, 20, &mut labels, &mut cells, slots, 2).map_err(|why| why.number())
    }

    // How long the input is and S come first, then whether a model stands at the front, and then
    // what is wrong with its text.
    #[test]
    fn front_order(rt: HostRuntime) -> Result<(), Fail> {
        assert_eq!(rt; front(b"x", 65), Err(3));
        assert_eq!(rt; front(b"x", 0), Err(3));
        assert_eq!(rt; front(b"not a model, but too long", 1), Err(3));
        assert_eq!(rt; front(b"x", 64), Err(2));
        assert_eq!(rt; front(b"des (0,1,3)\n", 1), Err(2));
        assert_eq!(rt; front(b"des (0,0,3)\n", 1), Err(3));
        assert_eq!(rt; front(b"des (0,0,2)\n", 1), Err(1));
        let header = Header {
            start: 0,
            transitions: 0,
            states: 1,
        };
        assert_eq!(rt; front(b"des (0,0,1)\nEX tau", 1), Ok((header, 12)));
        Ok(())
    }

    // A text with so many lines after its line one, all the same.
    fn loops(heap: Global, head: &str, lines: usize) -> Result<Vec<u8>, AllocError> {
        let mut text = head.as_bytes().to_vec(heap)?;
        for _ in 0..lines {
            text.extend_from_slice(b"(0,\"a\",0)\n")?;
        }
        Ok(text)
    }

    // The most transitions that a text may have find too few slots here; with one more it is
    // refused as too large.
    #[test]
    fn most_transitions(rt: HostRuntime) -> Result<(), Fail> {
        let most = loops(rt.alloc(), "des (0,65536,1)\n", 65_536)?;
        assert_eq!(rt; answer(most.as_slice()), Err(4));
        let more = loops(rt.alloc(), "des (0,65537,1)\n", 65_537)?;
        assert_eq!(rt; answer(more.as_slice()), Err(3));
        Ok(())
    }
}
