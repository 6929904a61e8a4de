ghost use Rattle.study.specs.Study.{MarksFormula, Judges};

use crate::study::Study;
use crate::verdict::{Verdict, read_verdict};
use base::Refusal;
use formula::Span;
use model::TransitionSystem;
use shelf::Shelf;

impl Study {
    // Marks the nodes of a formula, and answers where they stand.
    fn mark_nodes<M: TransitionSystem, S: Shelf>(
        &self,
        model: &M,
        shelf: &mut S,
        number: usize,
    ) -> Result<Span, Refusal>
        ensures { MarksFormula S.sheets (M.meaning model.now) number self.now shelf.old shelf.new
            result }
    {
        if !self.fits(model, shelf) {
            return Err(Refusal::Short);
        }
        let Some(span) = self.nodes.span(number) else {
            return Err(Refusal::Unheard);
        };
        marking::mark(model, shelf, &self.nodes, number)?;
        Ok(span)
    }

    // Marks the nodes of a formula, whose record says from now on that it is judged, and answers
    // what the marks of its root say.
    pub(crate) fn mark<M: TransitionSystem, S: Shelf>(
        &mut self,
        model: &M,
        shelf: &mut S,
        number: usize,
    ) -> Result<Verdict, Refusal>
        ensures { Judges S.sheets (M.meaning model.now) number self.old self.new shelf.old shelf.new
            result }
    {
        let span = self.mark_nodes(model, shelf, number)?;
        self.records[number].judged = true;
        Ok(read_verdict(model, shelf, span.root))
    }
}
