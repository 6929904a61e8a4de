ghost use Rattle.std.specs.Prelude.{◌≡◌, ◌≢◌, length, IsFalse, IsOkAnd, MatchResult};
ghost use Rattle.base.specs.Names.{is_name};
ghost use Rattle.formula.specs.Nodes.{shapes, roots};
ghost use Rattle.shelf.specs.Rows.{rows_cover};
ghost use Rattle.shelf.specs.Columns.{columns_cover};
ghost use Rattle.bench_api.specs.Marks.{letters, NotEntered, TableOf, MarkAnswer};

use base::{Labels, Name, Refusal};
use formula::{Nodes, enter};
use marking::mark;
use model::{Cell, Grid, Size, TransitionSystem};
use shelf::{BitShelf, ColumnShelf, Shelf};

// The name that a text is.
fn name(text: &[u8]) -> Result<Name, Refusal>
    ensures { MatchResult result (λ n. n ≡ text.now) (λ e. IsFalse (is_name text.now)) }
{
    Name::new(text).ok_or(Refusal::Garbled)
}

// The names of the actions: a, b and c are 1, 2 and 3.
pub(crate) fn actions() -> Result<Labels, Refusal>
    ensures { IsOkAnd result (λ l. l ≡ letters) }
{
    Labels::from_names(&[name(b"a")?, name(b"b")?, name(b"c")?])
}

// The nodes of a formula over these actions, in a table of its own.
pub(crate) fn nodes_of(text: &[u8]) -> Result<Nodes, Refusal>
    ensures { MatchResult result (TableOf text.now) (λ e. NotEntered text.now) }
{
    let labels = actions()?;
    let mut nodes = Nodes::new();
    enter(&mut nodes, text, &labels)?;
    Ok(nodes)
}

// Marks formula 0 of a table on a model `rounds` times; how many nodes the table has. It is
// refused, and nothing altered, where the shelf does not cover the model's states.
fn mark_rounds<M: TransitionSystem, S: Shelf>(
    model: &M,
    nodes: &Nodes,
    rounds: usize,
    shelf: &mut S,
) -> Result<usize, Refusal>
    requires { length (roots nodes.now) ≡ 1 }
    ensures { MatchResult result
        (λ n. ((S.sheets shelf.old).covers ≡ (M.meaning model.now).states)
        × (n ≡ length (shapes nodes.now)))
        (λ e. ((S.sheets shelf.old).covers ≢ (M.meaning model.now).states)
        × (shelf.new ≡ shelf.old)) }
{
    if shelf.covers() != model.states() {
        return Err(Refusal::Short);
    }
    for _ in 0..rounds {
        mark(model, shelf, nodes, 0)?;
    }
    Ok(nodes.len())
}

/// Marks a formula `rounds` times on a grid over the cells, for a caller outside, on a shelf of
/// bits over its bytes; how many nodes the formula has. The text may use the names tau, a, b and c.
///
/// 0 stands for a refusal, which alters nothing: no grid of this size with start 0 can stand over
/// the cells, the text is no formula or has other names or more than 48 nodes, or the bytes are too
/// few for a shelf of the states.
///
/// The contract does not say what the bytes hold after marking, since `mark`, which works on every
/// shelf, promises marks and not memory. The benchmark compares them.
/// A number for the refusal, since C has no Result.
#[unsafe(no_mangle)]
pub extern "C" fn neqoylla_mark_bits(
    text: &[u8],
    cells: &[Cell],
    states: usize,
    slots: usize,
    rounds: usize,
    bytes: &mut [u8],
) -> usize
    ensures { MarkAnswer text.now cells.now states slots (rows_cover (length bytes.old) states)
        bytes.old bytes.new result }
{
    let Ok(grid) = Grid::new(cells, Size { states, slots }, 0) else {
        return 0;
    };
    let Ok(nodes) = nodes_of(text) else {
        return 0;
    };
    let mut shelf = BitShelf::open(bytes, states);
    mark_rounds(&grid, &nodes, rounds, &mut shelf).unwrap_or(0)
}

/// The same on a shelf of columns.
/// Two exports of one shape, since C has no type parameters.
#[unsafe(no_mangle)]
pub extern "C" fn neqoylla_mark_columns(
    text: &[u8],
    cells: &[Cell],
    states: usize,
    slots: usize,
    rounds: usize,
    columns: &mut [u64],
) -> usize
    ensures { MarkAnswer text.now cells.now states slots (columns_cover (length columns.old) states)
        columns.old columns.new result }
{
    let Ok(grid) = Grid::new(cells, Size { states, slots }, 0) else {
        return 0;
    };
    let Ok(nodes) = nodes_of(text) else {
        return 0;
    };
    let mut shelf = ColumnShelf::open(columns, states);
    mark_rounds(&grid, &nodes, rounds, &mut shelf).unwrap_or(0)
}
