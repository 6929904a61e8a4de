// Prints a deciding path of each formula, one a line of standard input, from every state of some
// small models, by several weights and tariffs. Models and tariffs are printed first, so that the
// output has all that a check of it needs (check.py).
#![tactic(auto)]

use aut::read;
use base::{Labels, Name, Refusal};
use formula::{Nodes, enter};
use marking::mark;
use model::{Cell, Grid, Size};
use paths::PathQuestion;
use search::{Airtime, Entry, Found, Lists, Peak, Step, Weight};
use shelf::BitShelf;
use std::io;

// No model here has more states.
const MOST_STATES: usize = 5;

// Nor more slots.
const SLOTS: usize = 2;

// Room for the cells of a model.
const CELLS: usize = MOST_STATES * SLOTS;

// A row of one byte for each sheet.
const BYTES: usize = 64;

// A step that no path has.
const BLANK: Step = Step {
    action: 63,
    state: 99,
};

// A measurement is sent, added, and acknowledged or lost.
const UPLOAD: &str =
    "des (0,5,4)\n(0,\"meas\",1)\n(1,\"send\",2)\n(2,\"add\",3)\n(3,\"ack\",0)\n(3,\"lost\",1)\n";

// The small ones, whose actions are a, b, c and d.
const SINGLE: &str = "des (0,1,2)\n(0,\"a\",1)\n";

const LINE: &str = "des (0,2,3)\n(0,\"a\",1)\n(1,\"b\",2)\n";

const FORK: &str = "des (0,2,3)\n(0,\"a\",1)\n(0,\"b\",2)\n";

const WAIT: &str = "des (0,2,2)\n(0,\"a\",0)\n(0,\"b\",1)\n";

const STRAY: &str = "des (0,2,2)\n(0,\"a\",1)\n(0,\"c\",1)\n";

// Two ways to a step by d, of which the longer one has the lower peak.
const WAYS: &str =
    "des (0,6,5)\n(0,\"a\",1)\n(1,\"b\",3)\n(0,\"c\",2)\n(2,\"c\",4)\n(4,\"c\",3)\n(3,\"d\",0)\n";

// A model as text, with its name.
#[derive(Clone, Copy)]
struct Text {
    name: &'static str,
    text: &'static str,
}

// The models.
const TEXTS: [Text; 7] = [
    Text {
        name: "upload",
        text: UPLOAD,
    },
    Text {
        name: "single",
        text: SINGLE,
    },
    Text {
        name: "line",
        text: LINE,
    },
    Text {
        name: "fork",
        text: FORK,
    },
    Text {
        name: "wait",
        text: WAIT,
    },
    Text {
        name: "stray",
        text: STRAY,
    },
    Text {
        name: "ways",
        text: WAYS,
    },
];

// A model that was read: its cells, and its own label list.
#[derive(Clone, Copy)]
struct Held {
    cells: [Cell; CELLS],
    size: Size,
    start: usize,
    labels: Labels,
}

impl Held {
    // Out of a text, by a label list that may have some of its names already.
    fn read(text: &str, names: Labels) -> Result<Held, Refusal> {
        let mut labels = names;
        let mut cells = [Cell::EMPTY; CELLS];
        let header = read(text.as_bytes(), &mut labels, &mut cells, SLOTS)?;
        Ok(Held {
            cells,
            size: header.size(SLOTS),
            start: header.start,
            labels,
        })
    }
}

// The names of the small models, so that each knows them all.
fn letters() -> Result<Labels, Refusal> {
    let mut labels = Labels::new();
    for name in &["a", "b", "c", "d"] {
        labels.add(Name::new(name.as_bytes()).ok_or(Refusal::Garbled)?)?;
    }
    Ok(labels)
}

// The models of the texts, in their order. The names of the upload model are those of its text.
fn read_all() -> Result<[Held; 7], Refusal> {
    let letters = letters()?;
    Ok([
        Held::read(UPLOAD, Labels::new())?,
        Held::read(SINGLE, letters)?,
        Held::read(LINE, letters)?,
        Held::read(FORK, letters)?,
        Held::read(WAIT, letters)?,
        Held::read(STRAY, letters)?,
        Held::read(WAYS, letters)?,
    ])
}

// Tariffs of 64 actions, with a name.
#[derive(Clone, Copy)]
struct Tariffs {
    name: &'static str,
    each: [u16; 64],
}

impl Tariffs {
    // All actions past the first six have the last of them.
    fn new(name: &'static str, first: [u16; 6]) -> Tariffs {
        let mut each = [first[5]; 64];
        each[..6].copy_from_slice(&first);
        Tariffs { name, each }
    }
}

// Whether paths are weighed by their airtime or by their peak.
#[derive(Clone, Copy)]
enum By {
    Airtime,
    Peak,
}

// What is found of a formula at a state, and the two lists.
#[derive(Clone, Copy, PartialEq)]
struct Answer {
    found: Found,
    stem: [Step; MOST_STATES],
    cycle: [Step; MOST_STATES],
}

// Asks a question by some weight.
fn ask<W: Weight>(
    question: &PathQuestion<'_, Grid<'_>, BitShelf<'_>>,
    work: &mut [Entry<W>],
) -> Result<Answer, Refusal> {
    let mut stem = [BLANK; MOST_STATES];
    let mut cycle = [BLANK; MOST_STATES];
    let mut lists = Lists {
        work,
        stem: &mut stem,
        cycle: &mut cycle,
    };
    let found = question.find(&mut lists)?;
    Ok(Answer { found, stem, cycle })
}

// Prints steps, each with the name of its action and the state that it reaches.
fn print_steps(rt: &HostRuntime, labels: &Labels, steps: &[Step]) -> io::Result<()> {
    for step in steps {
        let name = labels.name_of(step.action).unwrap_or(b"?");
        let name = str::from_utf8(name).unwrap_or("?");
        let state = step.state;
        print!(rt; " {name} {state}")?;
    }
    Ok(())
}

// Prints what was found.
fn print_answer(rt: &HostRuntime, labels: &Labels, answer: &Answer) -> io::Result<()> {
    match answer.found {
        Found::None => rt.print(" none")?,
        Found::Ended { stem } => {
            rt.print(" ended")?;
            print_steps(rt, labels, answer.stem.get(..stem).unwrap_or(&[]))?;
        }
        Found::Looping { stem, cycle } => {
            rt.print(" looping")?;
            print_steps(rt, labels, answer.stem.get(..stem).unwrap_or(&[]))?;
            rt.print(" cycle")?;
            print_steps(rt, labels, answer.cycle.get(..cycle).unwrap_or(&[]))?;
        }
    }
    rt.println("")
}

// A way to weigh, with its name.
#[derive(Clone, Copy)]
struct Scale {
    by: By,
    name: &'static str,
    tariffs: Tariffs,
}

// The ways to weigh: all steps alike, and by tariffs under which the longer way is lighter, or has
// the lower peak, or is much heavier.
fn scales() -> [Scale; 4] {
    let even = Tariffs::new("even", [1, 1, 1, 1, 1, 1]);
    let mixed = Tariffs::new("mixed", [0, 7, 1, 3, 0, 2]);
    let heavy = Tariffs::new("heavy", [0, 65_535, 65_535, 43_000, 1, 9]);
    [
        Scale {
            by: By::Airtime,
            name: "airtime",
            tariffs: even,
        },
        Scale {
            by: By::Airtime,
            name: "airtime",
            tariffs: mixed,
        },
        Scale {
            by: By::Peak,
            name: "peak",
            tariffs: mixed,
        },
        Scale {
            by: By::Airtime,
            name: "airtime",
            tariffs: heavy,
        },
    ]
}

impl Scale {
    // What is found of formula 0 of a table at a state of a model.
    fn ask(
        &self,
        grid: &Grid<'_>,
        shelf: &BitShelf<'_>,
        nodes: &Nodes,
        start: usize,
    ) -> Result<Answer, Refusal> {
        let question = PathQuestion {
            model: grid,
            shelf,
            nodes,
            formula: 0,
            start,
            tariffs: &self.tariffs.each,
        };
        match self.by {
            By::Airtime => ask(&question, &mut [Entry::<Airtime>::blank(); MOST_STATES]),
            By::Peak => ask(&question, &mut [Entry::<Peak>::blank(); MOST_STATES]),
        }
    }
}

impl Held {
    // Prints what is found at a state: one line for all ways to weigh where all come to the same,
    // else one for each.
    fn show(
        &self,
        rt: &HostRuntime,
        name: &str,
        state: usize,
        answers: &[Answer; 4],
    ) -> io::Result<()> {
        let [first, ..] = answers;
        if answers.iter().all(|answer| answer == first) {
            print!(rt; "  {name} {state} all:")?;
            return print_answer(rt, &self.labels, first);
        }
        for (answer, scale) in answers.iter().zip(&scales()) {
            let by = scale.name;
            let tariffs = scale.tariffs.name;
            print!(rt; "  {name} {state} {by} {tariffs}:")?;
            print_answer(rt, &self.labels, answer)?;
        }
        Ok(())
    }
}

// What is found of a formula, entered and marked, at every state of a model; it prints the paths.
fn run(rt: &HostRuntime, name: &str, held: &Held, formula: &[u8]) -> anyhow::Result<()> {
    let mut nodes = Nodes::new();
    if let Err(why) = enter(&mut nodes, formula, &held.labels) {
        println!(rt; "  {name} refused {}", why.number())?;
        return Ok(());
    }
    let states = held.size.states;
    let grid = Grid::new(&held.cells, held.size, held.start)?;
    let mut bytes = [255; BYTES];
    let mut shelf = BitShelf::open(&mut bytes, states);
    mark(&grid, &mut shelf, &nodes, 0)?;
    let [even, mixed, peak, heavy] = scales();
    for state in 0..states {
        let answers = [
            even.ask(&grid, &shelf, &nodes, state)?,
            mixed.ask(&grid, &shelf, &nodes, state)?,
            peak.ask(&grid, &shelf, &nodes, state)?,
            heavy.ask(&grid, &shelf, &nodes, state)?,
        ];
        held.show(rt, name, state, &answers)?;
    }
    Ok(())
}

// Prints the models as text, and the tariffs of each way to weigh: of tau and the five actions
// after it, in the order of a model's names.
fn print_front(rt: &HostRuntime) -> io::Result<()> {
    for model in &TEXTS {
        let name = model.name;
        let text = model.text;
        print!(rt; "model {name}\n{text}")?;
    }
    for scale in &scales() {
        let by = scale.name;
        let name = scale.tariffs.name;
        print!(rt; "tariffs {by} {name}")?;
        for tariff in scale.tariffs.each.iter().take(6) {
            print!(rt; " {tariff}")?;
        }
        rt.println("")?;
    }
    Ok(())
}

// Each line is a formula of its own.
fn main(rt: HostRuntime) -> anyhow::Result<()> {
    let models = read_all()?;
    print_front(&rt)?;
    for line in rt.lines(rt.alloc()) {
        let line = line?;
        println!(rt; "{line}")?;
        for (text, held) in TEXTS.iter().zip(&models) {
            run(&rt, text.name, held, line.as_bytes())?;
        }
    }
    Ok(())
}
