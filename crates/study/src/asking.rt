ghost use Rattle.std.specs.Prelude.{◌≡◌, ◌↔◌, IsSome, IfSome};
ghost use Rattle.formula.specs.Nodes.{root};
ghost use Rattle.study.specs.Study.{nodes, IsJudged, Asks};

use crate::study::Study;
use base::Refusal;
use formula::Span;
use model::TransitionSystem;
use shelf::Shelf;

impl Study {
    // Where the nodes of a formula stand, if there is one of that number that is judged.
    pub(crate) fn judged(&self, number: usize) -> Option<Span>
        ensures judged { IsSome result ↔ IsJudged self.now number }
        ensures span { IfSome result (λ s. s.root ≡ root (nodes self.now) number) }
    {
        let span = self.nodes.span(number)?;
        if !self.records[number].judged {
            return None;
        }
        Some(span)
    }

    // What the record and the sheets show of a formula at a state.
    pub(crate) fn look<M: TransitionSystem, S: Shelf>(
        &self,
        model: &M,
        shelf: &S,
        number: usize,
        state: usize,
    ) -> Result<bool, Refusal>
        ensures { Asks (M.meaning model.now) (S.sheets shelf.now) self.now number state result }
    {
        if !self.fits(model, shelf) {
            return Err(Refusal::Short);
        }
        let span = self.judged(number).ok_or(Refusal::Unheard)?;
        if state >= self.states {
            return Err(Refusal::Range);
        }
        Ok(shelf.look(span.root, state))
    }
}
