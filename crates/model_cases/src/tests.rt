use base::{ActionSet, Refusal};
use model::{Cell, Grid, RetryCounter, Size, TransitionSystem, deadlocks, join, join_refusal};
use std::test::Fail;

// The action that is shared.
const ACK: u8 = 2;

// Two states with one slot each: an acknowledgement leads from the first to the second, and action
// 9 back.
const TWO_STATES: [Cell; 2] = [
    Cell {
        filled: true,
        action: ACK,
        target: 1,
    },
    Cell {
        filled: true,
        action: 9,
        target: 0,
    },
];

// Two counters that are answered together, state by state.
#[test]
fn two_counters(rt: HostRuntime) -> Result<(), Fail> {
    let left = RetryCounter::new(1, 1, ACK, 3)?;
    let right = RetryCounter::new(1, 4, ACK, 5)?;
    let pair = join(left, right, ActionSet::from_action(ACK))?;
    assert_eq!(rt; pair.slots(), 15);
    assert_eq!(rt; pair.slot(0, 0), Some((1, 2)));
    assert_eq!(rt; pair.slot(1, 5), Some((5, 0)));
    assert_eq!(rt; pair.slot(2, 1), None);
    assert_eq!(rt; pair.slot(2, 3), Some((4, 3)));
    assert_eq!(rt; pair.slot(3, 10), Some((ACK, 0)));
    Ok(())
}

// Three counters that are answered together: a joined model is joined again.
#[test]
fn three_counters(rt: HostRuntime) -> Result<(), Fail> {
    let ack = ActionSet::from_action(ACK);
    let first = RetryCounter::new(1, 1, ACK, 3)?;
    let second = RetryCounter::new(1, 4, ACK, 5)?;
    let third = RetryCounter::new(1, 6, ACK, 7)?;
    let pair = join(first, second, ack)?;
    let all = join(pair, third, ack)?;
    assert_eq!(rt; all.states(), 8);
    assert_eq!(rt; all.slots(), 63);
    assert_eq!(rt; all.slot(7, 49), Some((ACK, 0)));
    assert_eq!(rt; all.slot(0, 15), Some((6, 1)));
    assert_eq!(rt; deadlocks(&all), 0);
    Ok(())
}

// A grid that is lent, joined with a counter.
#[test]
fn lent_grid(rt: HostRuntime) -> Result<(), Fail> {
    let counter = RetryCounter::new(2, 1, ACK, 3)?;
    let size = Size {
        states: 2,
        slots: 1,
    };
    let grid = Grid::new(&TWO_STATES, size, 0)?;
    // no `?`, which gets no proof on a value that holds a reference beside a set of actions
    let Ok(both) = join(&grid, counter, ActionSet::from_action(ACK)) else {
        return Err(Fail::from(Refusal::TooBig));
    };
    assert_eq!(rt; both.states(), 6);
    assert_eq!(rt; both.slots(), 7);
    assert_eq!(rt; both.slot(0, 0), None);
    assert_eq!(rt; both.slot(1, 5), Some((ACK, 3)));
    Ok(())
}

// The silent action is never shared, and the limits hold.
#[test]
fn refused(rt: HostRuntime) -> Result<(), Fail> {
    let counter = RetryCounter::new(255, 1, ACK, 3)?;
    let pair = join(counter, counter, ActionSet::empty())?;
    assert_eq!(rt;
        join_refusal(&pair, &counter, ActionSet::empty()),
        Some(Refusal::TooBig)
    );
    assert_eq!(rt;
        join(counter, counter, ActionSet::all())
            .err()
            .map(|error| error.why),
        Some(Refusal::Silent)
    );
    let one = Size {
        states: 1,
        slots: 1,
    };
    let lone = Grid::new(&[Cell::EMPTY], one, 0)?;
    assert_eq!(rt; deadlocks(&lone), lone.states());
    Ok(())
}
