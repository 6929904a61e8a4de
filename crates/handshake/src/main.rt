// Joins two retry counters that are answered together, writes the product as AUT text, reads that
// text back, and says whether the transitions agree.
#![tactic(auto)]

use aut::{read, write};
use base::{ActionSet, Labels, Name, Refusal};
use model::{Cell, Grid, RetryCounter, TransitionSystem, join};

// Room for the text of 9 states with 15 slots each.
const ROOM: usize = 4_096;

// As many cells as these have slots.
const CELLS: usize = 9 * 15;

// The actions of a thermostat and a server that each count what they sent, and are answered
// together.
fn actions() -> Result<Labels, Refusal> {
    let mut labels = Labels::new();
    for name in &["send", "ack", "quit", "poll", "drop"] {
        labels.add(Name::new(name.as_bytes()).ok_or(Refusal::Garbled)?)?;
    }
    Ok(labels)
}

// What became of a model that was written, read back and written again: its text, how many states
// were read, and whether both texts are the same.
struct Trip<'t> {
    text: &'t [u8],
    states: usize,
    same: bool,
}

// Writes a model, reads its text into a grid, and writes the grid again.
fn round_trip<'t, M: TransitionSystem>(
    model: &M,
    labels: &mut Labels,
    text: &'t mut [u8; ROOM],
) -> Result<Trip<'t>, Refusal> {
    let mut cells = [Cell::EMPTY; CELLS];
    let slots = model.slots();
    let length = write(model, labels, text)?;
    let written = text.get(..length).unwrap_or(&[]);
    let header = read(written, labels, &mut cells, slots)?;
    let grid = Grid::new(&cells, header.size(slots), header.start)?;
    let mut again = [0; ROOM];
    write(&grid, labels, &mut again)?;
    Ok(Trip {
        text: written,
        states: grid.states(),
        same: *text == again,
    })
}

// Joins the two counters, and prints the product and what became of it.
fn main(rt: HostRuntime) -> anyhow::Result<()> {
    let mut labels = actions()?;
    let thermostat = RetryCounter::new(2, 1, 2, 3)?;
    let server = RetryCounter::new(2, 4, 2, 5)?;
    let pair = join(thermostat, server, ActionSet::from_action(2))?;
    println!(rt; "joined: {} states, {} slots", pair.states(), pair.slots())?;
    let mut text = [0; ROOM];
    let Trip { text, states, same } = round_trip(&pair, &mut labels, &mut text)?;
    rt.print(str::from_utf8(text)?)?;
    let agree = if same { "agree" } else { "differ" };
    println!(rt; "read back: {states} states, the transitions {agree}")?;
    Ok(())
}
