use crate::calls::{BLANK, labels};
use base::{Labels, Refusal};
use model::{Cell, Grid, Size};
use search::{Airtime, Entry, Lists, Step};
use shelf::{BitShelf, ColumnShelf};
use std::test::Fail;
use study::{Answer, CarryOutError, DecidingPath, Order, carry_out};

// How many states the model has.
const STATES: usize = 4;

// A cell with a step.
fn step(action: u8, target: u16) -> Cell {
    Cell {
        filled: true,
        action,
        target,
    }
}

// A measurement is sent, added, and acknowledged or lost:
//   0 --meas--> 1 --send--> 2 --add--> 3 --ack--> 0,  3 --lost--> 1
fn upload() -> [Cell; 8] {
    [
        step(1, 1),
        Cell::EMPTY,
        step(2, 2),
        Cell::EMPTY,
        step(3, 3),
        Cell::EMPTY,
        step(4, 0),
        step(5, 1),
    ]
}

// Whether steps have these actions.
fn actions_are(steps: &[Step], actions: &[u8]) -> bool {
    steps
        .iter()
        .map(|step| step.action)
        .eq(actions.iter().copied())
}

// An order to enter a text.
fn enter<'a>(text: &'a [u8], labels: &'a Labels) -> Order<'a> {
    Order::Enter { text, labels }
}

// An order to judge a formula.
fn judge<'a>(formula: usize) -> Order<'a> {
    Order::Judge { formula }
}

// An order to ask of a formula at a state.
fn ask<'a>(formula: usize, state: usize) -> Order<'a> {
    Order::Ask { formula, state }
}

// An order for a path of a formula from the start.
fn path<'a>(formula: usize, tariffs: &'a [u16; 64]) -> Order<'a> {
    Order::Path {
        formula,
        state: 0,
        tariffs,
    }
}

// The worked list of calls.
fn worked_list<'a>(labels: &'a Labels, tariffs: &'a [u16; 64]) -> [Order<'a>; 15] {
    [
        enter(b"NOT EF {add} E[{NOT meas} U {add}]", labels),
        ask(0, 0),
        judge(0),
        path(0, tariffs),
        enter(b"AX {meal}", labels),
        enter(b"AF {ack}", labels),
        judge(1),
        path(1, tariffs),
        enter(b"AX {meas}", labels),
        judge(2),
        ask(2, 0),
        ask(2, 4),
        ask(0, 3),
        path(2, tariffs),
        judge(3),
    ]
}

// What it is answered.
#[test]
fn worked(rt: HostRuntime) -> Result<(), Fail> {
    let labels = labels(&["meas", "send", "add", "ack", "lost"])?;
    let tariffs = [1; 64];
    let cells = upload();
    let size = Size {
        states: STATES,
        slots: 2,
    };
    let model = Grid::new(&cells, size, 0)?;
    let orders = worked_list(&labels, &tariffs);
    let mut work = [Entry::<Airtime>::blank(); STATES];
    let mut stem = [BLANK; STATES];
    let mut cycle = [BLANK; STATES];
    let mut lists = Lists {
        work: &mut work,
        stem: &mut stem,
        cycle: &mut cycle,
    };
    let mut columns = [7; STATES];
    let mut shelf = ColumnShelf::open(&mut columns, STATES);
    let log = carry_out(rt.alloc(), &model, &mut shelf, &mut lists, &orders)?;
    assert_eq!(rt; log.len(), orders.len());
    assert_eq!(rt; log[0], Answer::Entered(Ok(0)));
    assert_eq!(rt; log[1], Answer::Asked(Err(Refusal::Unheard)));
    assert!(rt; matches!(log[2], Answer::Judged(Ok(v)) if !v.holds && v.count == 0));
    assert!(rt;
        matches!(&log[3], Answer::Path(Ok(Some(DecidingPath::Ended { stem })))
            if actions_are(stem, &[1, 2, 3]))
    );
    assert_eq!(rt; log[4], Answer::Entered(Err(Refusal::Nameless)));
    assert_eq!(rt; log[5], Answer::Entered(Ok(1)));
    assert!(rt; matches!(log[6], Answer::Judged(Ok(v)) if !v.holds && v.count == 0));
    assert!(rt;
        matches!(&log[7], Answer::Path(Ok(Some(DecidingPath::Looping { stem, cycle })))
            if actions_are(stem, &[1]) && actions_are(cycle, &[2, 3, 5]))
    );
    assert_eq!(rt; log[8], Answer::Entered(Ok(2)));
    assert!(rt; matches!(log[9], Answer::Judged(Ok(v)) if v.holds && v.share == 250));
    assert_eq!(rt; log[10], Answer::Asked(Ok(true)));
    assert_eq!(rt; log[11], Answer::Asked(Err(Refusal::Range)));
    assert_eq!(rt; log[12], Answer::Asked(Ok(false)));
    assert_eq!(rt; log[13], Answer::Path(Ok(None)));
    assert_eq!(rt; log[14], Answer::Judged(Err(Refusal::Unheard)));
    Ok(())
}

// A shelf of another number of states.
#[test]
fn not_opened(rt: HostRuntime) -> Result<(), Fail> {
    let cells = upload();
    let size = Size {
        states: STATES,
        slots: 2,
    };
    let model = Grid::new(&cells, size, 0)?;
    let mut work = [Entry::<Airtime>::blank(); STATES];
    let mut stem = [BLANK; STATES];
    let mut cycle = [BLANK; STATES];
    let mut lists = Lists {
        work: &mut work,
        stem: &mut stem,
        cycle: &mut cycle,
    };
    let mut bytes = [0; 64];
    let mut shelf = BitShelf::open(&mut bytes, 3);
    let log = carry_out(rt.alloc(), &model, &mut shelf, &mut lists, &[]);
    assert_eq!(rt; log.err(), Some(CarryOutError::Refused(Refusal::Short)));
    Ok(())
}
