use crate::marked::MarkedOperator;
use crate::reading::{core_of, operator_of};
use base::Refusal;
use formula::Nodes;
use model::TransitionSystem;
use search::{Found, Lists, Search, Weight, refusal};
use shelf::Shelf;

/// A question for a deciding path of a formula of a table from a state: the formula's number, and a
/// shelf with the marks of its nodes, as marking leaves them, each on the sheet of its number.
#[derive(Drop)]
pub struct PathQuestion<'a, M, S> {
    pub model: &'a M,
    pub shelf: &'a S,
    pub nodes: &'a Nodes,
    pub formula: usize,
    pub start: usize,
    pub tariffs: &'a [u16; 64],
}

impl<M: TransitionSystem, S: Shelf> PathQuestion<'_, M, S> {
    ghost use Rattle.search.specs.Finding.{held};
    ghost use Rattle.paths.specs.Asking.{PathAnswer};

    /// Finds a deciding path and writes it to the lists: a lightest decisive path if there is a
    /// decisive one, else a lasting path that ends, else one with a cycle; nothing where the
    /// formula, leading NOTs set aside, is no E formula that holds at the state and no A formula
    /// that fails there. It is refused with 1 if the shelf covers another number of states than the
    /// model has, then with 8 if the table has no formula of that number, then with 3 if the model
    /// has no such state, then with 1 if a list has fewer entries than the model has states. A
    /// refusal alters nothing. Entries past the counts of what is found stay, and so do entries of
    /// the work list past the number of states.
    pub fn find<W: Weight>(&self, lists: &mut Lists<'_, W>) -> Result<Found, Refusal>
        ensures { PathAnswer W.scale M.meaning S.sheets self.now
            (held lists.old) (held lists.new) result }
    {
        if self.shelf.covers() != self.model.states() {
            return Err(Refusal::Short);
        }
        let Some(span) = self.nodes.span(self.formula) else {
            return Err(Refusal::Unheard);
        };
        if let Some(why) = refusal(self.model, self.start, lists) {
            return Err(why);
        }
        let nodes = self.nodes.as_slice();
        let sheet = core_of(nodes, span);
        let Some(path) = operator_of(nodes[sheet]) else {
            return Ok(Found::None);
        };
        let operator = MarkedOperator {
            shelf: self.shelf,
            path,
            sheet,
        };
        let search = Search {
            model: self.model,
            operator: &operator,
            tariffs: self.tariffs,
            start: self.start,
        };
        search.find(lists)
    }
}
