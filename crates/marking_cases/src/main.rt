// Marks a table of formulas, one a line of standard input, on six models with both shelves, and
// prints at which states of each model a formula holds. The last model is a grid with the
// transitions of the joined one before it.
#![tactic(auto)]

use aut::{Header, read, write};
use base::{ActionSet, Labels, Name, Refusal};
use formula::{Nodes, enter};
use marking::{count, mark};
use model::{Cell, Grid, Joined, RetryCounter, Size, TransitionSystem, join};
use shelf::{BitShelf, ColumnShelf, Shelf};
use std::{array, io};

// No model here has more states.
const MOST_STATES: usize = 16;

// Room for the joined model as text.
const ROOM: usize = 4_096;

// Room for the cells of a model.
const CELLS: usize = 256;

// A row of two bytes for each sheet of a shelf of bits.
const BYTES: usize = 128;

// A measurement is sent, added, and acknowledged or lost.
const UPLOAD: &[u8] =
    b"des (0,5,4)\n(0,\"meas\",1)\n(1,\"send\",2)\n(2,\"add\",3)\n(3,\"ack\",0)\n(3,\"lost\",1)\n";

// Two states, of which the second has no step.
const LINE: &[u8] = b"des (0,1,2)\n(0,\"send\",1)\n";

// One state, which has no step.
const STUCK: &[u8] = b"des (0,0,1)\n";

// Which states are marked, and how many.
#[derive(Clone, Copy, PartialEq)]
struct Marks {
    on: [bool; MOST_STATES],
    count: usize,
}

// Marks the formula, and answers the marks of its last node.
fn mark_all<M: TransitionSystem, S: Shelf>(
    model: &M,
    shelf: &mut S,
    nodes: &Nodes,
) -> Result<Marks, Refusal> {
    mark(model, shelf, nodes, 0)?;
    let last = nodes.len().saturating_sub(1);
    Ok(Marks {
        on: array::from_fn(|state| shelf.look(last, state)),
        count: count(shelf, last),
    })
}

// The marks on a shelf of bits and on a shelf of columns, both opened over memory that is not
// blank.
fn on_both<M: TransitionSystem>(model: &M, nodes: &Nodes) -> Result<(Marks, Marks), Refusal> {
    let mut bytes = [255; BYTES];
    let mut columns = [u64::MAX; MOST_STATES];
    let mut bits = BitShelf::open(&mut bytes, model.states());
    let by_bits = mark_all(model, &mut bits, nodes)?;
    let mut column_shelf = ColumnShelf::open(&mut columns, model.states());
    let by_columns = mark_all(model, &mut column_shelf, nodes)?;
    Ok((by_bits, by_columns))
}

// Prints the marks of the last node on a model, and where the shelves differ.
fn show<M: TransitionSystem>(
    rt: &HostRuntime,
    name: &str,
    model: &M,
    nodes: &Nodes,
) -> io::Result<()> {
    let (bits, columns) = match on_both(model, nodes) {
        Ok(both) => both,
        Err(why) => return println!(rt; "  {name}: refused {}", why.number()),
    };
    print!(rt; "  {name} ")?;
    let states = model.states();
    for on in bits.on.iter().take(states) {
        rt.print(if *on { '1' } else { '0' })?;
    }
    print!(rt; " {} of {states}", bits.count)?;
    rt.println(if bits == columns {
        ""
    } else {
        ", but not on columns"
    })
}

// The models of the table.
#[derive(Drop)]
struct Models {
    labels: Labels,
    counter: RetryCounter,
    pair: Joined<RetryCounter, RetryCounter>,
}

// The names of the actions.
fn actions() -> Result<Labels, Refusal> {
    let mut labels = Labels::new();
    for name in &["meas", "send", "add", "ack", "lost", "quit", "poll", "drop"] {
        labels.add(Name::new(name.as_bytes()).ok_or(Refusal::Garbled)?)?;
    }
    Ok(labels)
}

// The counter, the joined model of two others, and the names of their actions.
fn make_models() -> Result<Models, Refusal> {
    let labels = actions()?;
    let counter = RetryCounter::new(7, 2, 4, 6)?;
    let sender = RetryCounter::new(2, 2, 4, 6)?;
    let poller = RetryCounter::new(2, 7, 4, 8)?;
    Ok(Models {
        labels,
        counter,
        pair: join(sender, poller, ActionSet::from_action(4)).map_err(|error| error.why)?,
    })
}

// A model that was read from text: its cells, and what line one says of it.
#[derive(Clone, Copy)]
struct Held {
    cells: [Cell; CELLS],
    size: Size,
    start: usize,
}

impl Held {
    // The model that line one says, over its cells.
    fn by(header: Header, cells: [Cell; CELLS], slots: usize) -> Held {
        Held {
            cells,
            size: header.size(slots),
            start: header.start,
        }
    }

    // Out of a text.
    fn read(text: &[u8], labels: &mut Labels) -> Result<Held, Refusal> {
        let mut cells = [Cell::EMPTY; CELLS];
        let header = read(text, labels, &mut cells, 2)?;
        Ok(Held::by(header, cells, 2))
    }

    // Out of the text of a model.
    fn copy<M: TransitionSystem>(model: &M, labels: &mut Labels) -> Result<Held, Refusal> {
        let mut room = [0; ROOM];
        let mut cells = [Cell::EMPTY; CELLS];
        let slots = model.slots();
        let length = write(model, labels, &mut room)?;
        let text = room.get(..length).unwrap_or(&[]);
        let header = read(text, labels, &mut cells, slots)?;
        Ok(Held::by(header, cells, slots))
    }

    // Prints the marks of the last node on the grid over the cells.
    fn show(&self, rt: &HostRuntime, name: &str, nodes: &Nodes) -> io::Result<()> {
        match Grid::new(&self.cells, self.size, self.start) {
            Ok(grid) => show(rt, name, &grid, nodes),
            Err(why) => println!(rt; "  {name}: refused {}", why.number()),
        }
    }
}

// The grids of the table.
#[derive(Drop)]
struct Texts {
    upload: Held,
    line: Held,
    stuck: Held,
    pair: Held,
}

// The texts above, and the joined model as a text.
fn read_texts(models: &mut Models) -> Result<Texts, Refusal> {
    Ok(Texts {
        upload: Held::read(UPLOAD, &mut models.labels)?,
        line: Held::read(LINE, &mut models.labels)?,
        stuck: Held::read(STUCK, &mut models.labels)?,
        pair: Held::copy(&models.pair, &mut models.labels)?,
    })
}

// Prints what the nodes of a formula are on each model.
fn run(rt: &HostRuntime, models: &Models, nodes: &Nodes, texts: &Texts) -> io::Result<()> {
    texts.upload.show(rt, "upload", nodes)?;
    texts.line.show(rt, "line", nodes)?;
    texts.stuck.show(rt, "stuck", nodes)?;
    show(rt, "counter", &models.counter, nodes)?;
    show(rt, "pair", &models.pair, nodes)?;
    texts.pair.show(rt, "pair as a grid", nodes)
}

// Enters each line as a formula, and prints where it holds.
fn main(rt: HostRuntime) -> anyhow::Result<()> {
    let mut models = make_models()?;
    let texts = read_texts(&mut models)?;
    for line in rt.lines(rt.alloc()) {
        let line = line?;
        println!(rt; "{line}")?;
        let mut nodes = Nodes::new();
        match enter(&mut nodes, line.as_bytes(), &models.labels) {
            Ok(_) => run(&rt, &models, &nodes, &texts)?,
            Err(why) => println!(rt; "  refused {}", why.number())?,
        }
    }
    Ok(())
}
