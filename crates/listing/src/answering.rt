ghost use Rattle.std.specs.Prelude.{◌≡◌, ◌≤◌, List, None, OnOk, IfOk, ℕ};
ghost use Rattle.model.specs.Cells.{grid_refusal};
ghost use Rattle.meaning.specs.Lts.{Lts};
ghost use Rattle.meaning.specs.Formula.{Formula};
ghost use Rattle.study.specs.Runs.{Call, Run, FormulaOf, JudgedIn};
ghost use Rattle.listing.specs.Listing.{Listing};
ghost use Rattle.listing.specs.Steps.{Stands, Traced, Reported, LineDone, LinesDone, GridListed};

use crate::lines::next_line;
use crate::texts::{push_path, push_refusal, push_verdict};
use aut::{Header, read_front};
use base::{Labels, Refusal};
use model::{Cell, Grid, TransitionSystem};
use search::{Airtime, Entry, Lists, Step};
use shelf::{ColumnShelf, Shelf};
use std::alloc::{AllocError, Global};
use study::Study;

/// The most bytes of an input.
pub const MOST_INPUT: usize = 32_768;

/// The most states of a model.
pub const MOST_STATES: usize = 512;

/// How many slots each state has.
pub const SLOTS: usize = 8;

// Room for the largest model.
const CELLS: usize = MOST_STATES * SLOTS;

// Each of the 64 actions has tariff 1.
const TARIFFS: [u16; 64] = [1; 64];

// What stands in a list of steps before a path is written there.
const NO_STEP: Step = Step {
    action: 0,
    state: 0,
};

// Writes a deciding path of a judged formula from the start, if there is one.
fn trace<M: TransitionSystem, S: Shelf>(
    study: &Study,
    model: &M,
    shelf: &S,
    labels: &Labels,
    number: usize,
    out: &mut Vec<u8>,
) -> Result<(), AllocError>
    requires { (M.meaning model.now).states ≤ 512 }
    ensures { OnOk result ((calls : List Call)
        → Run (M.meaning model.now) calls study.now (S.sheets shelf.now) → JudgedIn calls number
        → Traced (M.meaning model.now) labels.now calls number study.now (S.sheets shelf.now)
        out.old.items out.new.items) }
{
    let mut work = [Entry::<Airtime>::blank(); MOST_STATES];
    let mut stem = [NO_STEP; MOST_STATES];
    let mut cycle = [NO_STEP; MOST_STATES];
    let mut lists = Lists {
        work: &mut work,
        stem: &mut stem,
        cycle: &mut cycle,
    };
    match study.path(model, shelf, number, model.start(), &TARIFFS, &mut lists) {
        Ok(found) => push_path(out, labels, found, &lists),
        Err(why) => push_refusal(out, why),
    }
}

// Judges a formula, and writes its verdict and its path.
fn report<M: TransitionSystem, S: Shelf>(
    study: &mut Study,
    model: &M,
    shelf: &mut S,
    labels: &Labels,
    number: usize,
    out: &mut Vec<u8>,
) -> Result<(), AllocError>
    requires { (M.meaning model.now).states ≤ 512 }
    ensures { OnOk result ((calls : List Call)
        → Run (M.meaning model.now) calls study.old (S.sheets shelf.old)
        → (f : Formula) → FormulaOf calls number f
        → Reported (M.meaning model.now) labels.now calls number study.new (S.sheets shelf.new)
        out.old.items out.new.items) }
{
    match study.judge(model, shelf, number) {
        Ok(verdict) => {
            push_verdict(out, number, verdict)?;
            trace(study, model, shelf, labels, number, out)
        }
        Err(why) => push_refusal(out, why),
    }
}

// Enters a line as a formula, judges it, and writes what is said of it.
fn answer<M: TransitionSystem, S: Shelf>(
    study: &mut Study,
    model: &M,
    shelf: &mut S,
    labels: &Labels,
    line: &[u8],
    out: &mut Vec<u8>,
) -> Result<(), AllocError>
    requires { (M.meaning model.now).states ≤ 512 }
    ensures { OnOk result ((formulas nodes : ℕ)
        → Stands (M.meaning model.now) study.old (S.sheets shelf.old) formulas nodes
        → LineDone (M.meaning model.now) labels.now formulas nodes line.now study.new
        (S.sheets shelf.new) out.old.items out.new.items) }
{
    match study.enter(line, labels) {
        Ok(number) => report(study, model, shelf, labels, number, out),
        Err(why) => push_refusal(out, why),
    }
}

// Answers the lines of a text, one after another.
fn answer_all<M: TransitionSystem, S: Shelf>(
    study: &mut Study,
    model: &M,
    shelf: &mut S,
    labels: &Labels,
    text: &[u8],
    out: &mut Vec<u8>,
) -> Result<(), AllocError>
    requires { (M.meaning model.now).states ≤ 512 }
    ensures { OnOk result ((formulas nodes : ℕ)
        → Stands (M.meaning model.now) study.old (S.sheets shelf.old) formulas nodes
        → LinesDone (M.meaning model.now) labels.now formulas nodes text.now
        out.old.items out.new.items) }
{
    let mut rest = text;
    while let Some((line, more)) = next_line(rest) {
        answer(study, model, shelf, labels, line, out)?;
        rest = more;
    }
    Ok(())
}

// Answers the lines of a text by a model that was read.
fn list_formulas<M: TransitionSystem>(
    model: &M,
    labels: &Labels,
    text: &[u8],
    out: &mut Vec<u8>,
) -> Result<(), AllocError>
    requires { (M.meaning model.now).states ≤ 512 }
    ensures { OnOk result (LinesDone (M.meaning model.now) labels.now 0 0 text.now
        out.old.items out.new.items) }
{
    let mut columns = [0; MOST_STATES];
    let mut shelf = ColumnShelf::open(&mut columns, model.states());
    match Study::open(model, &shelf) {
        Ok(mut study) => answer_all(&mut study, model, &mut shelf, labels, text, out),
        Err(why) => push_refusal(out, why),
    }
}

// Answers the lines of a text by the grid over the cells that were read.
fn list_model(
    cells: &[Cell],
    header: Header,
    labels: &Labels,
    text: &[u8],
    out: &mut Vec<u8>,
) -> Result<(), AllocError>
    requires states { header.states ≤ 512 }
    requires stands { grid_refusal cells.now header.states 8 header.start ≡ None }
    ensures { OnOk result (GridListed cells.now header labels.now text.now
        out.old.items out.new.items) }
{
    match Grid::new(cells, header.size(SLOTS), header.start) {
        Ok(grid) => list_formulas(&grid, labels, text, out),
        Err(why) => push_refusal(out, why),
    }
}

/// The listing of an input: the model at its front is read, and the lines after it are entered as
/// formulas, judged and shown by a path from the start, one after another. A refused model ends the
/// listing; a refused line takes no number. It fails for want of memory alone.
pub fn listing(alloc: Global, input: &[u8]) -> Result<Vec<u8>, AllocError>
    ensures { IfOk result (λ out. Listing input.now out.items) }
{
    let mut out = Vec::new(alloc);
    let mut labels = Labels::new();
    let mut cells = [Cell::EMPTY; CELLS];
    match read_front(
        input,
        MOST_INPUT,
        &mut labels,
        &mut cells,
        SLOTS,
        MOST_STATES,
    ) {
        Ok((header, length)) => list_model(&cells, header, &labels, &input[length..], &mut out)?,
        Err(why) => push_refusal(&mut out, why)?,
    }
    Ok(out)
}
