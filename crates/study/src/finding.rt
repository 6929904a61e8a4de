ghost use Rattle.search.specs.Finding.{held};
ghost use Rattle.study.specs.Study.{FindsPath, path_call};

use crate::study::Study;
use base::Refusal;
use model::TransitionSystem;
use paths::PathQuestion;
use search::{Found, Lists, Weight};
use shelf::Shelf;

impl Study {
    // Finds a deciding path of a formula, by the record and the sheets.
    pub(crate) fn find<M: TransitionSystem, S: Shelf, W: Weight>(
        &self,
        model: &M,
        shelf: &S,
        number: usize,
        state: usize,
        tariffs: &[u16; 64],
        lists: &mut Lists<'_, W>,
    ) -> Result<Found, Refusal>
        ensures { FindsPath (path_call W.scale tariffs.now number state) (M.meaning model.now)
            (S.sheets shelf.now) self.now (held lists.old) (held lists.new) result }
    {
        if !self.fits(model, shelf) {
            return Err(Refusal::Short);
        }
        if self.judged(number).is_none() {
            return Err(Refusal::Unheard);
        }
        let question = PathQuestion {
            model,
            shelf,
            nodes: &self.nodes,
            formula: number,
            start: state,
            tariffs,
        };
        question.find(lists)
    }
}
