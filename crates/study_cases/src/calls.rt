use base::{Labels, Name, Refusal};
use model::TransitionSystem;
use search::{Airtime, Entry, Found, Lists, Peak, Step, Weight};
use shelf::Shelf;
use study::{Study, Verdict};

// Room for the states of each model.
pub(crate) const ROOM: usize = 6;

// A step that no test finds.
pub(crate) const BLANK: Step = Step {
    action: 63,
    state: 99,
};

// A path that was asked for: what was found, and the two lists.
#[derive(Clone, Copy, PartialEq, Eq, Debug)]
pub(crate) struct Walk {
    pub(crate) found: Found,
    pub(crate) stem: [Step; ROOM],
    pub(crate) cycle: [Step; ROOM],
}

// What the calls of one list answered.
#[derive(Clone, Copy, PartialEq, Eq, Debug)]
pub(crate) struct Seen {
    pub(crate) early: Early,
    pub(crate) late: Late,
    pub(crate) first: Verdict,
    pub(crate) second: Verdict,
    pub(crate) again: Verdict,
    pub(crate) first_on: [Option<bool>; ROOM],
    pub(crate) second_on: [Option<bool>; ROOM],
    pub(crate) airtime: Walk,
    pub(crate) peak: Walk,
    pub(crate) lasting: Walk,
}

// The label list of tau and some names.
pub(crate) fn labels(names: &[&str]) -> Result<Labels, Refusal> {
    let mut labels = Labels::new();
    for name in names {
        labels.add(Name::new(name.as_bytes()).ok_or(Refusal::Garbled)?)?;
    }
    Ok(labels)
}

// A path of a formula from a state, with a work list of so many entries.
fn find_walk<M: TransitionSystem, S: Shelf, W: Weight>(
    study: &Study,
    model: &M,
    shelf: &S,
    formula: usize,
    state: usize,
    tariffs: &[u16; 64],
    work: &mut [Entry<W>],
) -> Result<Walk, Refusal> {
    let mut stem = [BLANK; ROOM];
    let mut cycle = [BLANK; ROOM];
    let mut lists = Lists {
        work,
        stem: &mut stem,
        cycle: &mut cycle,
    };
    let found = study.path(model, shelf, formula, state, tariffs, &mut lists)?;
    Ok(Walk { found, stem, cycle })
}

// What is answered of a formula at each state, as far as there are states.
fn ask_all<M: TransitionSystem, S: Shelf>(
    study: &Study,
    model: &M,
    shelf: &S,
    formula: usize,
) -> [Option<bool>; ROOM] {
    let mut on = [None; ROOM];
    for (state, answer) in on.iter_mut().enumerate() {
        *answer = study.ask(model, shelf, formula, state).ok();
    }
    on
}

// What is refused before a formula 0 is judged.
#[derive(Clone, Copy, PartialEq, Eq, Debug)]
pub(crate) struct Early {
    pub(crate) judged: Option<Refusal>,
    pub(crate) no_formula: Option<Refusal>,
    pub(crate) nameless: Option<Refusal>,
    pub(crate) asked: Option<Refusal>,
    pub(crate) shown: Option<Refusal>,
}

// And after that.
#[derive(Clone, Copy, PartialEq, Eq, Debug)]
pub(crate) struct Late {
    pub(crate) asked_outside: Option<Refusal>,
    pub(crate) shown_outside: Option<Refusal>,
    pub(crate) too_short: Option<Refusal>,
}

// Enters a formula 0, with refusals before and after.
fn begin<M: TransitionSystem, S: Shelf>(
    study: &mut Study,
    model: &M,
    shelf: &mut S,
    labels: &Labels,
    text: &str,
) -> Result<Early, Refusal> {
    let mut work = [Entry::<Peak>::blank(); ROOM];
    let judged = study.judge(model, shelf, 0).err();
    let no_formula = study.enter(b"EX {", labels).err();
    study.enter(text.as_bytes(), labels)?;
    Ok(Early {
        judged,
        no_formula,
        nameless: study.enter(b"EX {nobody}", labels).err(),
        asked: study.ask(model, shelf, 0, 0).err(),
        shown: find_walk(study, model, shelf, 0, 0, &[1; 64], &mut work).err(),
    })
}

// What is refused of a formula 0 that is judged.
fn refuse<M: TransitionSystem, S: Shelf>(study: &Study, model: &M, shelf: &S) -> Late {
    let mut work = [Entry::<Peak>::blank(); ROOM];
    let outside = model.states();
    Late {
        asked_outside: study.ask(model, shelf, 0, outside).err(),
        shown_outside: find_walk(study, model, shelf, 0, outside, &[1; 64], &mut work).err(),
        too_short: find_walk(study, model, shelf, 0, 0, &[1; 64], &mut work[..1]).err(),
    }
}

// One list of calls: two formulas are entered, judged, judged again, asked at every state, and
// shown by paths from state 0; with refusals in between.
pub(crate) fn one_list<M: TransitionSystem, S: Shelf>(
    model: &M,
    shelf: &mut S,
    labels: &Labels,
    texts: [&str; 2],
    tariffs: &[u16; 64],
) -> Result<Seen, Refusal> {
    let mut by_airtime = [Entry::<Airtime>::blank(); ROOM];
    let mut by_peak = [Entry::<Peak>::blank(); ROOM];
    let mut study = Study::open(model, shelf)?;
    let early = begin(&mut study, model, shelf, labels, texts[0])?;
    let first = study.judge(model, shelf, 0)?;
    let number = study.enter(texts[1].as_bytes(), labels)?;
    let second = study.judge(model, shelf, number)?;
    let again = study.judge(model, shelf, 0)?;
    Ok(Seen {
        early,
        late: refuse(&study, model, shelf),
        first,
        second,
        again,
        first_on: ask_all(&study, model, shelf, 0),
        second_on: ask_all(&study, model, shelf, number),
        airtime: find_walk(&study, model, shelf, 0, 0, tariffs, &mut by_airtime)?,
        peak: find_walk(&study, model, shelf, 0, 0, tariffs, &mut by_peak)?,
        lasting: find_walk(&study, model, shelf, number, 0, tariffs, &mut by_airtime)?,
    })
}
