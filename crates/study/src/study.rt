ghost use Rattle.std.specs.Prelude.{◌≡◌, length};

use crate::record::Record;
use crate::verdict::Verdict;
use base::{Labels, Refusal};
use formula::{MOST_FORMULAS, Nodes};
use model::TransitionSystem;
use search::{Found, Lists, Weight};
use shelf::Shelf;

/// The formulas that were entered, a record for each, and the number of states that they are judged
/// over. It holds at most 8 formulas and 48 nodes in all; the marks of its formulas stand on sheets
/// 0 to 47 of the shelf that it is handed, and it writes no other sheets.
#[derive(Drop)]
pub struct Study {
    pub(crate) states: usize,
    pub(crate) nodes: Nodes,
    pub(crate) records: [Record; MOST_FORMULAS],
    ghost rows: { length records ≡ 8 },
}

impl Study {
    ghost use Rattle.std.specs.Prelude.{◌↔◌, List, [], ◌∷◌, IsTrue, IfOk};
    ghost use Rattle.meaning.specs.Lts.{Lts};
    ghost use Rattle.shelf.specs.Sheets.{Sheets};
    ghost use Rattle.search.specs.Finding.{held};
    ghost use Rattle.study.specs.Study.{Fits, Opens, Enters, Judges, Asks, FindsPath, path_call};
    ghost use Rattle.study.specs.Runs.{Call, Run, enter, judge, ask, path};
    ghost use Rattle.study.specs.Laws.{Alike, EnterLaw, JudgeLaw, AskLaw, PathLaw};
    ghost use Rattle.study.specs.Laws.{path_answer, room};

    /// Opens a study over a model and a shelf, whatever marks it has. It is refused with 1 if the
    /// shelf covers another number of states than the model has.
    pub fn open<M: TransitionSystem, S: Shelf>(model: &M, shelf: &S) -> Result<Study, Refusal>
        ensures link { Opens (M.meaning model.now) (S.sheets shelf.now) result }
        ensures run { IfOk result (λ study. Run (M.meaning model.now) [] study
            (S.sheets shelf.now)) }
    {
        let states = model.states();
        if shelf.covers() != states {
            return Err(Refusal::Short);
        }
        Ok(Study {
            states,
            nodes: Nodes::new(),
            records: [Record { judged: false }; MOST_FORMULAS],
        })
    }

    // Whether a model and a shelf have as many states as those that the study was opened over.
    pub(crate) fn fits<M: TransitionSystem, S: Shelf>(&self, model: &M, shelf: &S) -> bool
        ensures { IsTrue result ↔ Fits (M.meaning model.now) (S.sheets shelf.now) self.now }
    {
        model.states() == self.states && shelf.covers() == self.states
    }

    /// Enters a formula, which is what the text is by the label list, and answers its number: 0 for
    /// the first enter that is not refused, then 1 and so on. It is refused with 5 if the text is
    /// no formula, then with 6 if a name is not in the list, then with 7 if it would be the ninth
    /// formula or need the 49th node. A refusal alters nothing.
    pub fn enter(&mut self, text: &[u8], labels: &Labels) -> Result<usize, Refusal>
        ensures link { Enters text.now labels.now self.old self.new result }
        ensures law { (M : Lts) (calls : List Call) (sheets : Sheets) → Run M calls self.old sheets
            → EnterLaw calls text.now labels.now result }
        ensures run { (M : Lts) (calls : List Call) (sheets : Sheets) → Run M calls self.old sheets
            → Run M (enter text.now labels.now result ∷ calls) self.new sheets }
    {
        self.add(text, labels)
    }

    /// Judges a formula: marks its nodes on the shelf, and answers whether it holds at the start,
    /// at how many states, of how many, and that share in thousandths. From then on it is judged,
    /// and so it stays. It is refused with 1 if the model or the shelf has another number of states
    /// than the study was opened over, then with 8 if there is no such formula. A refusal alters
    /// neither study nor shelf.
    pub fn judge<M: TransitionSystem, S: Shelf>(
        &mut self,
        model: &M,
        shelf: &mut S,
        number: usize,
    ) -> Result<Verdict, Refusal>
        ensures link { Judges S.sheets (M.meaning model.now) number self.old self.new
            shelf.old shelf.new result }
        ensures law { (M₀ : Lts) (calls : List Call) → Alike (M.meaning model.now) M₀
            → Run M₀ calls self.old (S.sheets shelf.old)
            → JudgeLaw M₀ (M.meaning model.now).states calls number result }
        ensures run { (calls : List Call)
            → Run (M.meaning model.now) calls self.old (S.sheets shelf.old)
            → Run (M.meaning model.now) (judge number result ∷ calls)
            self.new (S.sheets shelf.new) }
    {
        self.mark(model, shelf, number)
    }

    /// Whether a formula holds at a state, whatever calls came before. It is refused with 1 if the
    /// model or the shelf has another number of states than the study was opened over, then with 8
    /// if there is no such formula or it is not judged, then with 3 if there is no such state.
    pub fn ask<M: TransitionSystem, S: Shelf>(
        &self,
        model: &M,
        shelf: &S,
        number: usize,
        state: usize,
    ) -> Result<bool, Refusal>
        ensures link { Asks (M.meaning model.now) (S.sheets shelf.now) self.now number state
            result }
        ensures law { (M₀ : Lts) (calls : List Call) → Run M₀ calls self.now (S.sheets shelf.now)
            → AskLaw M₀ (M.meaning model.now).states calls number state result }
        ensures run { (calls : List Call)
            → Run (M.meaning model.now) calls self.now (S.sheets shelf.now)
            → Run (M.meaning model.now) (ask number state result ∷ calls)
            self.now (S.sheets shelf.now) }
    {
        self.look(model, shelf, number, state)
    }

    /// Finds a deciding path of a formula from a state, leading NOTs set aside, whatever calls came
    /// before, and writes it to the lists: a lightest decisive path if there is a decisive one,
    /// else a lasting path that ends, else one with a cycle; nothing where there is no deciding
    /// path. It is refused with 1 if the model or the shelf has another number of states than the
    /// study was opened over, then with 8 if there is no such formula or it is not judged, then
    /// with 3 if there is no such state, then with 1 if a list has fewer entries than the model has
    /// states. A refusal alters nothing. Entries past the counts of what is found stay.
    pub fn path<M: TransitionSystem, S: Shelf, W: Weight>(
        &self,
        model: &M,
        shelf: &S,
        number: usize,
        state: usize,
        tariffs: &[u16; 64],
        lists: &mut Lists<'_, W>,
    ) -> Result<Found, Refusal>
        ensures link { FindsPath (path_call W.scale tariffs.now number state) (M.meaning model.now)
            (S.sheets shelf.now) self.now (held lists.old) (held lists.new) result }
        ensures law { (M₀ : Lts) (calls : List Call) → Alike (M.meaning model.now) M₀
            → Run M₀ calls self.now (S.sheets shelf.now)
            → PathLaw (path_call W.scale tariffs.now number state) M₀
            (M.meaning model.now).states calls (room (held lists.old))
            (path_answer (held lists.new) result) }
        ensures run { (calls : List Call)
            → Run (M.meaning model.now) calls self.now (S.sheets shelf.now)
            → Run (M.meaning model.now)
            (path number state tariffs.now (path_answer (held lists.new) result) ∷ calls)
            self.now (S.sheets shelf.now) }
    {
        self.find(model, shelf, number, state, tariffs, lists)
    }
}
