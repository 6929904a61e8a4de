use crate::calls::{BLANK, Early, Late, ROOM, Seen, Walk, labels, one_list};
use base::{ActionSet, Labels, Refusal};
use model::{Cell, Grid, RetryCounter, Size, TransitionSystem, join};
use search::{Found, Step};
use shelf::{BitShelf, ColumnShelf};
use std::test::Fail;
use study::{Study, Verdict};

// A row of bytes for each sheet.
const BYTES: usize = 64;

// What each list is refused before its formula 0 is judged.
const EARLY: Early = Early {
    judged: Some(Refusal::Unheard),
    no_formula: Some(Refusal::Grammar),
    nameless: Some(Refusal::Nameless),
    asked: Some(Refusal::Unheard),
    shown: Some(Refusal::Unheard),
};

// And after that.
const LATE: Late = Late {
    asked_outside: Some(Refusal::Range),
    shown_outside: Some(Refusal::Range),
    too_short: Some(Refusal::Short),
};

// A cell with a step.
fn step(action: u8, target: u16) -> Cell {
    Cell {
        filled: true,
        action,
        target,
    }
}

// Two ways from 0 to 3: by a heavy step and a light one, or by three middling ones.
//   0 --a--> 1 --b--> 3,  0 --c--> 2 --c--> 4 --c--> 3,  3 --d--> 0
fn ways() -> [Cell; 10] {
    [
        step(1, 1),
        step(3, 2),
        step(2, 3),
        Cell::EMPTY,
        step(3, 4),
        Cell::EMPTY,
        step(4, 0),
        Cell::EMPTY,
        step(3, 3),
        Cell::EMPTY,
    ]
}

// The list of calls on both shelves, with marks on them before.
fn on_both<M: TransitionSystem>(
    model: &M,
    labels: &Labels,
    texts: [&str; 2],
    tariffs: &[u16; 64],
) -> Result<[Seen; 2], Refusal> {
    let mut bytes = [255; BYTES];
    let mut columns = [u64::MAX; ROOM];
    let mut bits = BitShelf::open(&mut bytes, model.states());
    let by_bits = one_list(model, &mut bits, labels, texts, tariffs)?;
    let mut column_shelf = ColumnShelf::open(&mut columns, model.states());
    let by_columns = one_list(model, &mut column_shelf, labels, texts, tariffs)?;
    Ok([by_bits, by_columns])
}

// The steps of a list, and blanks after them.
fn steps(these: &[(u8, usize)]) -> [Step; ROOM] {
    let mut all = [BLANK; ROOM];
    for (place, (action, state)) in all.iter_mut().zip(these) {
        *place = Step {
            action: *action,
            state: *state,
        };
    }
    all
}

// A path that ends.
fn ended(stem: &[(u8, usize)]) -> Walk {
    Walk {
        found: Found::Ended { stem: stem.len() },
        stem: steps(stem),
        cycle: [BLANK; ROOM],
    }
}

// A grid: by airtime the way with the heavy step, by peak the other.
#[test]
fn grid(rt: HostRuntime) -> Result<(), Fail> {
    let labels = labels(&["a", "b", "c", "d"])?;
    let cells = ways();
    let size = Size {
        states: 5,
        slots: 2,
    };
    let model = Grid::new(&cells, size, 0)?;
    let mut tariffs = [1; 64];
    tariffs[1] = 5;
    tariffs[3] = 3;
    let [seen, again] = on_both(&model, &labels, ["EF {d}", "NOT AF {b}"], &tariffs)?;
    assert_eq!(rt; seen, again);
    assert_eq!(rt; (seen.early, seen.late), (EARLY, LATE));
    let all = Verdict {
        holds: true,
        count: 5,
        total: 5,
        share: 1000,
    };
    assert_eq!(rt; seen.first, all);
    assert_eq!(rt; seen.again, all);
    assert_eq!(rt; seen.airtime, ended(&[(1, 1), (2, 3), (4, 0)]));
    assert_eq!(rt; seen.peak, ended(&[(3, 2), (3, 4), (3, 3), (4, 0)]));
    // b need never come: at 1 alone it does
    assert_eq!(rt;
        seen.second,
        Verdict {
            holds: true,
            count: 4,
            total: 5,
            share: 800
        }
    );
    assert_eq!(rt;
        seen.second_on,
        [
            Some(true),
            Some(false),
            Some(true),
            Some(true),
            Some(true),
            None
        ]
    );
    assert_eq!(rt;
        seen.lasting,
        Walk {
            found: Found::Looping { stem: 0, cycle: 4 },
            stem: [BLANK; ROOM],
            cycle: steps(&[(3, 2), (3, 4), (3, 3), (4, 0)]),
        }
    );
    Ok(())
}

// A retry counter of limit 3: it gives up after three sends, and may be answered before.
#[test]
fn retry_counter(rt: HostRuntime) -> Result<(), Fail> {
    let labels = labels(&["send", "ack", "quit"])?;
    let model = RetryCounter::new(3, 1, 2, 3)?;
    let [seen, again] = on_both(&model, &labels, ["EF {quit}", "AX {send}"], &[2; 64])?;
    assert_eq!(rt; seen, again);
    assert_eq!(rt; (seen.early, seen.late), (EARLY, LATE));
    assert_eq!(rt;
        (seen.first.holds, seen.first.count, seen.first.share),
        (true, 4, 1000)
    );
    let sends = ended(&[(1, 1), (1, 2), (1, 3), (3, 0)]);
    assert_eq!(rt; (seen.airtime, seen.peak), (sends, sends));
    assert_eq!(rt;
        (seen.second.holds, seen.second.count, seen.second.share),
        (true, 1, 250)
    );
    assert_eq!(rt;
        seen.second_on,
        [
            Some(true),
            Some(false),
            Some(false),
            Some(false),
            None,
            None
        ]
    );
    assert_eq!(rt; seen.lasting.found, Found::None);
    Ok(())
}

// Two counters that are answered together.
#[test]
fn joined(rt: HostRuntime) -> Result<(), Fail> {
    let labels = labels(&["send", "ack", "quit", "poll", "drop"])?;
    let left = RetryCounter::new(1, 1, 2, 3)?;
    let right = RetryCounter::new(1, 4, 2, 5)?;
    let model = join(left, right, ActionSet::from_action(2)).map_err(|error| error.why)?;
    let texts = ["EF {ack}", "AG {NOT ack}"];
    let [seen, again] = on_both(&model, &labels, texts, &[1; 64])?;
    assert_eq!(rt; seen, again);
    assert_eq!(rt; (seen.early, seen.late), (EARLY, LATE));
    assert_eq!(rt;
        (seen.first.holds, seen.first.count, seen.first.total),
        (true, 4, 4)
    );
    // both have sent before they are answered together
    assert_eq!(rt; seen.airtime.found, Found::Ended { stem: 3 });
    assert_eq!(rt;
        seen.airtime.stem[2],
        Step {
            action: 2,
            state: 0
        }
    );
    assert_eq!(rt; seen.second.count, 0);
    assert_eq!(rt; seen.lasting.found, Found::Ended { stem: 3 });
    Ok(())
}

// A model or a shelf of another number of states is refused, and leads nowhere.
#[test]
fn other_sizes(rt: HostRuntime) -> Result<(), Fail> {
    let labels = labels(&["send", "ack", "quit"])?;
    let model = RetryCounter::new(3, 1, 2, 3)?;
    let other = RetryCounter::new(2, 1, 2, 3)?;
    let mut bytes = [0; BYTES];
    let mut columns = [0; ROOM];
    let mut shelf = BitShelf::open(&mut bytes, 4);
    let mut small = ColumnShelf::open(&mut columns, 3);
    assert_eq!(rt; Study::open(&other, &shelf).err(), Some(Refusal::Short));
    let mut study = Study::open(&model, &shelf)?;
    study.enter(b"AX {send}", &labels)?;
    assert_eq!(rt;
        study.judge(&other, &mut shelf, 0).err(),
        Some(Refusal::Short)
    );
    assert_eq!(rt;
        study.judge(&model, &mut small, 0).err(),
        Some(Refusal::Short)
    );
    study.judge(&model, &mut shelf, 0)?;
    assert_eq!(rt; study.ask(&other, &shelf, 0, 0).err(), Some(Refusal::Short));
    assert_eq!(rt; study.ask(&model, &small, 0, 0).err(), Some(Refusal::Short));
    assert_eq!(rt; study.ask(&model, &shelf, 0, 0), Ok(true));
    Ok(())
}

// Eight formulas and no more, nodes as far as there is room.
#[test]
fn full(rt: HostRuntime) -> Result<(), Fail> {
    let labels = Labels::new();
    let model = RetryCounter::new(3, 1, 2, 3)?;
    let mut bytes = [0; BYTES];
    let mut shelf = BitShelf::open(&mut bytes, 4);
    let mut study = Study::open(&model, &shelf)?;
    for number in 0..8 {
        assert_eq!(rt; study.enter(b"TRUE", &labels), Ok(number));
    }
    assert_eq!(rt; study.enter(b"TRUE", &labels), Err(Refusal::Full));
    assert_eq!(rt;
        study.judge(&model, &mut shelf, 8).err(),
        Some(Refusal::Unheard)
    );
    assert_eq!(rt; study.judge(&model, &mut shelf, 7)?.count, 4);
    Ok(())
}
