ghost use Rattle.std.specs.Prelude.{◌≡◌, ◌≤◌, length};
ghost use Rattle.search.specs.Finding.{held};
ghost use Rattle.search.specs.Scales.{by_airtime};
ghost use Rattle.shelf.specs.Columns.{columns_cover};
ghost use Rattle.bench_api.specs.Marks.{letters};
ghost use Rattle.bench_api.specs.Studying.{told_of_study, Studies, StudyAnswer, StudyTold};

use crate::asking::{MOST_STATES, PathOutcome, outcome_of};
use crate::marks::actions;
use base::{Labels, Refusal};
use model::{Cell, Grid, Size, TransitionSystem};
use search::{Airtime, Entry, Found, Lists, Step, Weight};
use shelf::{ColumnShelf, Shelf};
use study::{Study, Verdict};

/// What came of a study: the number of the refusal, or 0; whether the formula holds at the start,
/// at how many states, and the share in thousandths; and what was found. A number for the refusal,
/// since C has no Result.
#[repr(C)]
#[derive(Clone, Copy)]
pub struct StudyOutcome {
    pub refusal: u8,
    pub holds: bool,
    pub count: usize,
    pub share: usize,
    pub found: PathOutcome,
}

/// What a study says of a formula: the verdict on it, and what was found from state 0.
#[derive(Clone, Copy)]
pub struct Said {
    pub verdict: Verdict,
    pub found: Found,
}

// What is told of it.
fn told(said: Result<Said, Refusal>) -> StudyOutcome
    ensures { result ≡ told_of_study said }
{
    match said {
        Ok(Said { verdict, found }) => StudyOutcome {
            refusal: 0,
            holds: verdict.holds,
            count: verdict.count,
            share: verdict.share,
            found: outcome_of(Some(found)),
        },
        Err(why) => StudyOutcome {
            refusal: why.number(),
            holds: false,
            count: 0,
            share: 0,
            found: outcome_of(None),
        },
    }
}

// Opens a study, enters a formula, judges it, and asks for a deciding path from state 0.
fn study_once<M: TransitionSystem, S: Shelf, W: Weight>(
    model: &M,
    shelf: &mut S,
    text: &[u8],
    labels: &Labels,
    tariffs: &[u16; 64],
    lists: &mut Lists<'_, W>,
) -> Result<Said, Refusal>
    ensures { Studies W.scale tariffs.now (M.meaning model.now) text.now labels.now
        (S.sheets shelf.old).covers (held lists.old) (held lists.new) result }
{
    let mut study = match Study::open(model, shelf) {
        Ok(study) => study,
        Err(why) => return Err(why),
    };
    let number = match study.enter(text, labels) {
        Ok(number) => number,
        Err(why) => return Err(why),
    };
    let verdict = match study.judge(model, shelf, number) {
        Ok(verdict) => verdict,
        Err(why) => return Err(why),
    };
    match study.path(model, shelf, number, 0, tariffs, lists) {
        Ok(found) => Ok(Said { verdict, found }),
        Err(why) => Err(why),
    }
}

// The same `rounds` times, each with a study of its own, and at least once; what came of the last.
fn study_rounds<M: TransitionSystem, S: Shelf, W: Weight>(
    model: &M,
    shelf: &mut S,
    text: &[u8],
    labels: &Labels,
    tariffs: &[u16; 64],
    rounds: usize,
    lists: &mut Lists<'_, W>,
) -> Result<Said, Refusal>
    ensures { Studies W.scale tariffs.now (M.meaning model.now) text.now labels.now
        (S.sheets shelf.old).covers (held lists.old) (held lists.new) result }
{
    let mut said = match study_once(model, shelf, text, labels, tariffs, lists) {
        Ok(said) => said,
        Err(why) => return Err(why),
    };
    for _ in 1..rounds {
        if let Ok(again) = study_once(model, shelf, text, labels, tariffs, lists) {
            said = again;
        }
    }
    Ok(said)
}

// The same over a grid over the cells, on a shelf of columns.
fn study_grid<W: Weight>(
    text: &[u8],
    cells: &[Cell],
    size: Size,
    tariffs: &[u16; 64],
    rounds: usize,
    columns: &mut [u64],
    lists: &mut Lists<'_, W>,
) -> Result<Said, Refusal>
    requires { 65536 ≤ length lists.old.work.now }
    ensures stem_owner { lists.new.stem.ghost_name ≡ lists.old.stem.ghost_name }
    ensures cycle_owner { lists.new.cycle.ghost_name ≡ lists.old.cycle.ghost_name }
    ensures answer { StudyAnswer text.now cells.now size.states size.slots
        (columns_cover (length columns.old) size.states) W.scale tariffs.now
        (held lists.old).stem (held lists.old).cycle (held lists.new).stem (held lists.new).cycle
        result }
{
    let grid = match Grid::new(cells, size, 0) {
        Ok(grid) => grid,
        Err(why) => return Err(why),
    };
    let labels = match actions() {
        Ok(labels) => labels,
        Err(why) => return Err(why),
    };
    let mut shelf = ColumnShelf::open(columns, size.states);
    study_rounds(&grid, &mut shelf, text, &labels, tariffs, rounds, lists)
}

/// Studies a formula `rounds` times, and at least once, over a grid over the cells with start 0,
/// for a caller outside: each round opens a study, enters the formula, judges it, and asks for a
/// deciding path from state 0 by airtime. The text may use the names tau, a, b and c; there is a
/// tariff for each action; the columns are for a shelf of the grid's states, and what they hold
/// afterwards is not said. The verdict and what was found stand in the outcome, and the path in the
/// two lists.
///
/// It is refused, the outcome has the number of the refusal, and the lists are as before, where no
/// grid of this size can stand over the cells, there are fewer columns than states, the formula
/// cannot be entered, or a list has fewer entries than there are states.
#[unsafe(no_mangle)]
pub extern "C" fn neqoylla_study(
    text: &[u8],
    cells: &[Cell],
    states: usize,
    slots: usize,
    tariffs: &[u16; 64],
    rounds: usize,
    columns: &mut [u64],
    stem: &mut [Step],
    cycle: &mut [Step],
    outcome: &mut StudyOutcome,
)
    ensures { StudyTold text.now cells.now states slots
        (columns_cover (length columns.old) states) by_airtime tariffs.now
        stem.old cycle.old stem.new cycle.new outcome.new }
{
    let mut work = [Entry::<Airtime>::blank(); MOST_STATES];
    let mut lists = Lists {
        work: &mut work,
        stem,
        cycle,
    };
    let size = Size { states, slots };
    *outcome = told(study_grid(text, cells, size, tariffs, rounds, columns, &mut lists));
}
