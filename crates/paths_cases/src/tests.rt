use base::{Labels, Name, Refusal};
use formula::{Nodes, enter};
use marking::mark;
use model::{Cell, Grid, Size};
use paths::PathQuestion;
use search::{Airtime, Entry, Found, Lists, Step};
use shelf::BitShelf;
use std::test::Fail;

// How many states the model has.
const STATES: usize = 4;

// A row of bytes for each sheet.
const BYTES: usize = 64;

// A step that no test finds.
const BLANK: Step = Step {
    action: 63,
    state: 99,
};

// What is found, and the two lists.
#[derive(Clone, Copy)]
struct Answer {
    found: Found,
    stem: [Step; STATES],
    cycle: [Step; STATES],
}

// A cell with a step.
fn step(action: u8, target: u16) -> Cell {
    Cell {
        filled: true,
        action,
        target,
    }
}

// A measurement is sent, added, and acknowledged or lost:
//   0 --meas--> 1 --send--> 2 --add--> 3 --ack--> 0,  3 --lost--> 1
fn upload() -> [Cell; 8] {
    [
        step(1, 1),
        Cell::EMPTY,
        step(2, 2),
        Cell::EMPTY,
        step(3, 3),
        Cell::EMPTY,
        step(4, 0),
        step(5, 1),
    ]
}

// A deciding path of a formula from a state of the upload model.
fn ask(text: &str, start: usize) -> Result<Answer, Refusal> {
    let mut labels = Labels::new();
    for name in &["meas", "send", "add", "ack", "lost"] {
        labels.add(Name::new(name.as_bytes()).ok_or(Refusal::Garbled)?)?;
    }
    let mut nodes = Nodes::new();
    enter(&mut nodes, text.as_bytes(), &labels)?;
    let cells = upload();
    let size = Size {
        states: STATES,
        slots: 2,
    };
    let model = Grid::new(&cells, size, 0)?;
    let mut bytes = [255; BYTES];
    let mut shelf = BitShelf::open(&mut bytes, STATES);
    mark(&model, &mut shelf, &nodes, 0)?;
    let question = PathQuestion {
        model: &model,
        shelf: &shelf,
        nodes: &nodes,
        formula: 0,
        start,
        tariffs: &[1; 64],
    };
    let mut work = [Entry::<Airtime>::blank(); STATES];
    let mut stem = [BLANK; STATES];
    let mut cycle = [BLANK; STATES];
    let mut lists = Lists {
        work: &mut work,
        stem: &mut stem,
        cycle: &mut cycle,
    };
    let found = question.find(&mut lists)?;
    Ok(Answer { found, stem, cycle })
}

// Some upload is never acknowledged: it is lost again and again.
#[test]
fn lost_for_ever(rt: HostRuntime) -> Result<(), Fail> {
    let answer = ask("AF {ack}", 0)?;
    assert_eq!(rt; answer.found, Found::Looping { stem: 1, cycle: 3 });
    assert_eq!(rt;
        answer.stem[0],
        Step {
            action: 1,
            state: 1
        }
    );
    assert_eq!(rt; answer.stem[1], BLANK);
    assert_eq!(rt;
        answer.cycle[0],
        Step {
            action: 2,
            state: 2
        }
    );
    assert_eq!(rt;
        answer.cycle[1],
        Step {
            action: 3,
            state: 3
        }
    );
    assert_eq!(rt;
        answer.cycle[2],
        Step {
            action: 5,
            state: 1
        }
    );
    Ok(())
}

// Leading NOTs are set aside.
#[test]
fn lost_once(rt: HostRuntime) -> Result<(), Fail> {
    let answer = ask("NOT NOT EF {lost}", 0)?;
    assert_eq!(rt; answer.found, Found::Ended { stem: 4 });
    assert_eq!(rt;
        answer.stem[3],
        Step {
            action: 5,
            state: 1
        }
    );
    Ok(())
}

// AX {meas} holds at 0 alone.
#[test]
fn next_step(rt: HostRuntime) -> Result<(), Fail> {
    assert_eq!(rt; ask("AX {meas}", 0)?.found, Found::None);
    let answer = ask("AX {meas}", 1)?;
    assert_eq!(rt; answer.found, Found::Ended { stem: 1 });
    assert_eq!(rt;
        answer.stem[0],
        Step {
            action: 2,
            state: 2
        }
    );
    assert_eq!(rt; ask("TRUE", 0)?.found, Found::None);
    assert_eq!(rt; ask("AX {meas}", 4).err(), Some(Refusal::Range));
    Ok(())
}
