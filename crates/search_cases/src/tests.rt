use crate::by_actions::{ByActions, Kind};
use crate::by_steps::BySteps;
use base::{ActionSet, Refusal};
use model::{Cell, Grid, Size};
use search::{
    Airtime, Counts, Entry, Found, Lists, Peak, Search, Step, StepList, Weight, tail_from,
};
use std::test::Fail;

// Room for each list.
const ROOM: usize = 6;

// A step that no test finds.
const BLANK: Step = Step {
    action: 63,
    state: 99,
};

// Two ways from 0 to 3: by a heavy step and a light one, or by three middling ones. State 3 goes
// back to 0.
//   0 --1--> 1 --2--> 3,  0 --3--> 2 --3--> 4 --3--> 3,  3 --4--> 0
fn ways() -> [Cell; 10] {
    [
        step(1, 1),
        step(3, 2),
        step(2, 3),
        Cell::EMPTY,
        step(3, 4),
        Cell::EMPTY,
        step(4, 0),
        Cell::EMPTY,
        step(3, 3),
        Cell::EMPTY,
    ]
}

// One may go round at 0 by action 1, or take action 2 to the deadlocked state 1.
fn wait() -> [Cell; 4] {
    [step(1, 0), step(2, 1), Cell::EMPTY, Cell::EMPTY]
}

// A cell with a step.
fn step(action: u8, target: u16) -> Cell {
    Cell {
        filled: true,
        action,
        target,
    }
}

// The tariffs of actions 1 to 4, and 0 for the others.
fn tariffs(first: u16, second: u16, third: u16, fourth: u16) -> [u16; 64] {
    let mut tariffs = [0; 64];
    tariffs[1] = first;
    tariffs[2] = second;
    tariffs[3] = third;
    tariffs[4] = fourth;
    tariffs
}

// What is found of a path from 0 to a step by action 4, and its steps.
fn to_four<W: Weight>(
    tariffs: &[u16; 64],
    work: &mut [Entry<W>],
) -> Result<(Found, [Step; ROOM]), Refusal> {
    let size = Size {
        states: 5,
        slots: 2,
    };
    let cells = ways();
    let grid = Grid::new(&cells, size, 0)?;
    let operator = ByActions {
        kind: Kind::ExistsUntil,
        first: ActionSet::all(),
        second: ActionSet::from_action(4),
        shown: &[true; 5],
    };
    let search = Search {
        model: &grid,
        operator: &operator,
        tariffs,
        start: 0,
    };
    let mut stem = [BLANK; ROOM];
    let mut cycle = [BLANK; ROOM];
    let mut lists = Lists {
        work,
        stem: &mut stem,
        cycle: &mut cycle,
    };
    let found = search.find(&mut lists)?;
    Ok((found, stem))
}

// The last step reaches state 0, which the path has left; entries past the count stay.
#[test]
fn lightest_by_airtime(rt: HostRuntime) -> Result<(), Fail> {
    let (found, stem) = to_four(&tariffs(9, 1, 3, 0), &mut [Entry::<Airtime>::blank(); ROOM])?;
    assert_eq!(rt; found, Found::Ended { stem: 4 });
    assert_eq!(rt;
        stem[0],
        Step {
            action: 3,
            state: 2
        }
    );
    assert_eq!(rt;
        stem[1],
        Step {
            action: 3,
            state: 4
        }
    );
    assert_eq!(rt;
        stem[2],
        Step {
            action: 3,
            state: 3
        }
    );
    assert_eq!(rt;
        stem[3],
        Step {
            action: 4,
            state: 0
        }
    );
    assert_eq!(rt; stem[4], BLANK);
    let (found, stem) = to_four(&tariffs(7, 1, 3, 0), &mut [Entry::<Airtime>::blank(); ROOM])?;
    assert_eq!(rt; found, Found::Ended { stem: 3 });
    assert_eq!(rt;
        stem[0],
        Step {
            action: 1,
            state: 1
        }
    );
    Ok(())
}

// A peak is lowest along the longer way.
#[test]
fn lightest_by_peak(rt: HostRuntime) -> Result<(), Fail> {
    let (found, _stem) = to_four(&tariffs(7, 1, 3, 0), &mut [Entry::<Peak>::blank(); ROOM])?;
    assert_eq!(rt; found, Found::Ended { stem: 4 });
    let (found, _stem) = to_four(&tariffs(2, 1, 3, 0), &mut [Entry::<Peak>::blank(); ROOM])?;
    assert_eq!(rt; found, Found::Ended { stem: 3 });
    Ok(())
}

// Of two ways with one airtime, the one with fewer steps.
#[test]
fn lightest_by_steps(rt: HostRuntime) -> Result<(), Fail> {
    let (found, _stem) = to_four(&tariffs(8, 1, 3, 0), &mut [Entry::<BySteps>::blank(); ROOM])?;
    assert_eq!(rt; found, Found::Ended { stem: 3 });
    let (found, _stem) = to_four(&tariffs(9, 1, 3, 0), &mut [Entry::<BySteps>::blank(); ROOM])?;
    assert_eq!(rt; found, Found::Ended { stem: 4 });
    Ok(())
}

// What is found of an operator at state 0 of the second, with its own two marks, and the first step
// of each list.
fn at_wait(
    kind: Kind,
    first: u8,
    second: u8,
    shown: &[bool; 2],
) -> Result<(Found, Step, Step), Refusal> {
    let size = Size {
        states: 2,
        slots: 2,
    };
    let cells = wait();
    let grid = Grid::new(&cells, size, 0)?;
    let operator = ByActions {
        kind,
        first: ActionSet::from_action(first),
        second: ActionSet::from_action(second),
        shown,
    };
    let search = Search {
        model: &grid,
        operator: &operator,
        tariffs: &[1; 64],
        start: 0,
    };
    let mut work = [Entry::<Airtime>::blank(); 2];
    let mut stem = [BLANK; 2];
    let mut cycle = [BLANK; 2];
    let mut lists = Lists {
        work: &mut work,
        stem: &mut stem,
        cycle: &mut cycle,
    };
    let found = search.find(&mut lists)?;
    Ok((found, stem[0], cycle[0]))
}

// A[{1} U {2}] fails by the cycle; E[{2} W {3}] holds by the end; E[{1} W {2}] holds by a decisive
// path, although it could last; A[{1} W {2}] holds, and has none.
#[test]
fn lasting(rt: HostRuntime) -> Result<(), Fail> {
    let (found, stem, cycle) = at_wait(Kind::AllUntil, 1, 2, &[true, true])?;
    assert_eq!(rt; found, Found::Looping { stem: 0, cycle: 1 });
    assert_eq!(rt; stem, BLANK);
    assert_eq!(rt;
        cycle,
        Step {
            action: 1,
            state: 0
        }
    );
    let (found, stem, cycle) = at_wait(Kind::ExistsUnless, 2, 3, &[true, true])?;
    assert_eq!(rt; found, Found::Ended { stem: 1 });
    assert_eq!(rt;
        stem,
        Step {
            action: 2,
            state: 1
        }
    );
    assert_eq!(rt; cycle, BLANK);
    let (found, stem, _cycle) = at_wait(Kind::ExistsUnless, 1, 2, &[true, true])?;
    assert_eq!(rt; found, Found::Ended { stem: 1 });
    assert_eq!(rt;
        stem,
        Step {
            action: 2,
            state: 1
        }
    );
    let (found, _stem, _cycle) = at_wait(Kind::AllUnless, 1, 2, &[false, false])?;
    assert_eq!(rt; found, Found::None);
    Ok(())
}

// The start is asked for first, then the room.
#[test]
fn refused(rt: HostRuntime) -> Result<(), Fail> {
    let size = Size {
        states: 2,
        slots: 2,
    };
    let cells = wait();
    let grid = Grid::new(&cells, size, 0)?;
    let operator = ByActions {
        kind: Kind::ExistsUntil,
        first: ActionSet::all(),
        second: ActionSet::from_action(2),
        shown: &[true, false],
    };
    let mut work = [Entry::<Peak>::blank(); 1];
    let mut stem = [BLANK; 2];
    let mut cycle = [BLANK; 2];
    let mut lists = Lists {
        work: &mut work,
        stem: &mut stem,
        cycle: &mut cycle,
    };
    let outside = Search {
        model: &grid,
        operator: &operator,
        tariffs: &[0; 64],
        start: 2,
    };
    assert_eq!(rt; outside.find(&mut lists).err(), Some(Refusal::Range));
    let inside = Search {
        model: &grid,
        operator: &operator,
        tariffs: &[0; 64],
        start: 1,
    };
    assert_eq!(rt; inside.find(&mut lists).err(), Some(Refusal::Short));
    Ok(())
}

// Steps of a path with one step before a cycle of two.
#[test]
fn tails(rt: HostRuntime) -> Result<(), Fail> {
    let stem = [
        Step {
            action: 1,
            state: 1,
        },
        BLANK,
    ];
    let cycle = [
        Step {
            action: 2,
            state: 2,
        },
        Step {
            action: 3,
            state: 1,
        },
        BLANK,
    ];
    let counts = Counts { stem: 1, cycle: 2 };
    let first = tail_from(&stem, &cycle, counts, 0)?;
    assert_eq!(rt; first.place, 0);
    assert_eq!(rt; first.list, StepList::Stem);
    assert_eq!(rt; first.steps.len(), 1);
    let fifth = tail_from(&stem, &cycle, counts, 4)?;
    assert_eq!(rt; fifth.place, 1);
    assert_eq!(rt; fifth.list, StepList::Cycle);
    assert_eq!(rt; fifth.steps.len(), 1);
    let ended = tail_from(&stem, &cycle, Counts { stem: 1, cycle: 0 }, 7)?;
    assert_eq!(rt; ended.place, 1);
    assert_eq!(rt; ended.steps.len(), 0);
    let past = tail_from(&stem, &cycle, Counts { stem: 3, cycle: 0 }, 0);
    assert_eq!(rt; past.err(), Some(Refusal::Short));
    Ok(())
}
