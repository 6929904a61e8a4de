ghost use Rattle.std.specs.Prelude.{◌≡◌, ◌≤◌, length};
ghost use Rattle.search.specs.Finding.{held};
ghost use Rattle.search.specs.Scales.{by_airtime, by_peak};
ghost use Rattle.shelf.specs.Columns.{columns_cover};
ghost use Rattle.paths.specs.Asking.{asked};
ghost use Rattle.bench_api.specs.Asking.{told, FoundLast, PathAnswer, PathTold};

use crate::marks::nodes_of;
use base::Refusal;
use marking::mark;
use model::{Cell, Grid, Size, TransitionSystem};
use paths::PathQuestion;
use search::{Airtime, Entry, Found, Lists, Peak, Step, Weight, refusal};
use shelf::{ColumnShelf, Shelf};

// No model has more states.
pub(crate) const MOST_STATES: usize = 65_536;

/// What was found: 0 for a refusal, 1 for nothing, 2 for a path that ends, 3 for one with a cycle;
/// and how many steps stand in the two lists. A number for what it is, since C has no such enum.
#[repr(C)]
#[derive(Clone, Copy)]
pub struct PathOutcome {
    pub kind: u8,
    pub stem: usize,
    pub cycle: usize,
}

// What is told of what was found.
pub(crate) fn outcome_of(found: Option<Found>) -> PathOutcome
    ensures { result ≡ told found }
{
    let (kind, stem, cycle) = match found {
        None => (0, 0, 0),
        Some(Found::None) => (1, 0, 0),
        Some(Found::Ended { stem }) => (2, stem, 0),
        Some(Found::Looping { stem, cycle }) => (3, stem, cycle),
    };
    PathOutcome { kind, stem, cycle }
}

// Asks a question `rounds` times, and at least once; what came of the last.
fn find_rounds<M: TransitionSystem, S: Shelf, W: Weight>(
    question: &PathQuestion<'_, M, S>,
    rounds: usize,
    lists: &mut Lists<'_, W>,
) -> Result<Found, Refusal>
    ensures { FoundLast (asked W.scale M.meaning S.sheets question.now)
        (held lists.old) (held lists.new) result }
{
    let mut found = match question.find(lists) {
        Ok(found) => found,
        Err(why) => return Err(why),
    };
    for _ in 1..rounds {
        if let Ok(again) = question.find(lists) {
            found = again;
        }
    }
    Ok(found)
}

// Marks a formula on a grid over the cells, on a shelf of columns, and asks `rounds` times, and at
// least once, for a deciding path from state 0.
fn find_path<W: Weight>(
    text: &[u8],
    cells: &[Cell],
    size: Size,
    tariffs: &[u16; 64],
    rounds: usize,
    columns: &mut [u64],
    lists: &mut Lists<'_, W>,
) -> Option<Found>
    requires { 65536 ≤ length lists.old.work.now }
    ensures stem_owner { lists.new.stem.ghost_name ≡ lists.old.stem.ghost_name }
    ensures cycle_owner { lists.new.cycle.ghost_name ≡ lists.old.cycle.ghost_name }
    ensures answer { PathAnswer text.now cells.now size.states size.slots
        (columns_cover (length columns.old) size.states) W.scale tariffs.now
        (held lists.old).stem (held lists.old).cycle (held lists.new).stem (held lists.new).cycle
        result }
{
    let Ok(grid) = Grid::new(cells, size, 0) else {
        return None;
    };
    let Ok(nodes) = nodes_of(text) else {
        return None;
    };
    let mut shelf = ColumnShelf::open(columns, size.states);
    let Ok(()) = mark(&grid, &mut shelf, &nodes, 0) else {
        return None;
    };
    let question = PathQuestion {
        model: &grid,
        shelf: &shelf,
        nodes: &nodes,
        formula: 0,
        start: 0,
        tariffs,
    };
    let Ok(found) = find_rounds(&question, rounds, lists) else {
        return None;
    };
    Some(found)
}

/// Asks `rounds` times, and at least once, for a deciding path of a formula from state 0 of a grid
/// over the cells, for a caller outside, by airtime. The text may use the names tau, a, b and c;
/// there is a tariff for each action; the columns are for a shelf of the grid's states, and what
/// they hold afterwards is not said. What was found stands in the two lists and in the outcome.
///
/// It is refused, and the lists are as before, where no grid of this size with start 0 can stand
/// over the cells, the text is no formula or has other names or more than 48 nodes, there are fewer
/// columns than states, or a list has fewer entries than there are states.
#[unsafe(no_mangle)]
pub extern "C" fn neqoylla_path_airtime(
    text: &[u8],
    cells: &[Cell],
    states: usize,
    slots: usize,
    tariffs: &[u16; 64],
    rounds: usize,
    columns: &mut [u64],
    stem: &mut [Step],
    cycle: &mut [Step],
    outcome: &mut PathOutcome,
)
    ensures { PathTold text.now cells.now states slots
        (columns_cover (length columns.old) states) by_airtime tariffs.now
        stem.old cycle.old stem.new cycle.new outcome.new }
{
    let mut work = [Entry::<Airtime>::blank(); MOST_STATES];
    let mut lists = Lists {
        work: &mut work,
        stem,
        cycle,
    };
    let size = Size { states, slots };
    *outcome = outcome_of(find_path(text, cells, size, tariffs, rounds, columns, &mut lists));
}

/// The same by peak.
/// Two exports of one shape, since C has no type parameters.
#[unsafe(no_mangle)]
pub extern "C" fn neqoylla_path_peak(
    text: &[u8],
    cells: &[Cell],
    states: usize,
    slots: usize,
    tariffs: &[u16; 64],
    rounds: usize,
    columns: &mut [u64],
    stem: &mut [Step],
    cycle: &mut [Step],
    outcome: &mut PathOutcome,
)
    ensures { PathTold text.now cells.now states slots
        (columns_cover (length columns.old) states) by_peak tariffs.now
        stem.old cycle.old stem.new cycle.new outcome.new }
{
    let mut work = [Entry::<Peak>::blank(); MOST_STATES];
    let mut lists = Lists {
        work: &mut work,
        stem,
        cycle,
    };
    let size = Size { states, slots };
    *outcome = outcome_of(find_path(text, cells, size, tariffs, rounds, columns, &mut lists));
}
