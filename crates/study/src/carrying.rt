ghost use Rattle.std.specs.Prelude.{◌≡◌, [], ◌∷◌, IfOk};
ghost use Rattle.std.specs.Option.{option_map};
ghost use Rattle.search.specs.Finding.{held, path_in, Counted};
ghost use Rattle.study.specs.Laws.{room, shortest};
ghost use Rattle.study.specs.Orders.{path_of, GoesOn, CarriedOut, Spared};

use crate::carry_out_error::CarryOutError;
use crate::order::{Answer, DecidingPath, Order};
use crate::study::Study;
use model::TransitionSystem;
use search::{Entry, Found, Lists, Step, Weight};
use shelf::Shelf;
use std::alloc::{AllocError, Global};

// A copy of the path that was found.
fn copied<W: Weight>(
    alloc: Global,
    found: Found,
    lists: &Lists<'_, W>,
) -> Result<Option<DecidingPath>, AllocError>
    requires { Counted lists.now.stem.now lists.now.cycle.now found }
    ensures { IfOk result (λ p. option_map path_of p
        ≡ path_in lists.now.stem.now lists.now.cycle.now found) }
{
    match found {
        Found::None => Ok(None),
        Found::Ended { stem } => Ok(Some(DecidingPath::Ended {
            stem: lists.stem[..stem].to_vec(alloc)?,
        })),
        Found::Looping { stem, cycle } => Ok(Some(DecidingPath::Looping {
            stem: lists.stem[..stem].to_vec(alloc)?,
            cycle: lists.cycle[..cycle].to_vec(alloc)?,
        })),
    }
}

impl Study {
    ghost use Rattle.std.specs.Prelude.{length};

    // Carries out one order.
    fn carry_out_one<M: TransitionSystem, S: Shelf, W: Weight>(
        &mut self,
        alloc: Global,
        model: &M,
        shelf: &mut S,
        work: &mut [Entry<W>],
        stem: &mut [Step],
        cycle: &mut [Step],
        order: Order<'_>,
    ) -> Result<Answer, AllocError>
        ensures goes { IfOk result (λ answer. GoesOn W.scale
            (shortest (length work.old) (length stem.old) (length cycle.old))
            (M.meaning model.now) self.old (S.sheets shelf.old) (order.entry ∷ []) (answer ∷ [])
            self.new (S.sheets shelf.new)) }
        ensures spared { Spared (S.sheets shelf.old) (S.sheets shelf.new) }
    {
        match order {
            Order::Enter { text, labels } => Ok(Answer::Entered(self.enter(text, labels))),
            Order::Judge { formula } => Ok(Answer::Judged(self.judge(model, shelf, formula))),
            Order::Ask { formula, state } => {
                Ok(Answer::Asked(self.ask(model, shelf, formula, state)))
            }
            Order::Path {
                formula,
                state,
                tariffs,
            } => {
                let mut lists = Lists { work, stem, cycle };
                match self.path(model, shelf, formula, state, tariffs, &mut lists) {
                    Ok(found) => {
                        let path = copied(alloc, found, &lists)?;
                        Ok(Answer::Path(Ok(path)))
                    }
                    Err(refusal) => Ok(Answer::Path(Err(refusal))),
                }
            }
        }
    }

    // Carries out orders, one after another.
    fn carry_out_all<M: TransitionSystem, S: Shelf, W: Weight>(
        &mut self,
        alloc: Global,
        model: &M,
        shelf: &mut S,
        work: &mut [Entry<W>],
        stem: &mut [Step],
        cycle: &mut [Step],
        orders: &[Order<'_>],
    ) -> Result<Vec<Answer>, AllocError>
        ensures goes { IfOk result (λ answers. GoesOn W.scale
            (shortest (length work.old) (length stem.old) (length cycle.old))
            (M.meaning model.now) self.old (S.sheets shelf.old) orders.now answers.items
            self.new (S.sheets shelf.new)) }
        ensures spared { Spared (S.sheets shelf.old) (S.sheets shelf.new) }
    {
        let mut answers = Vec::new(alloc);
        for order in orders {
            let answer = self.carry_out_one(alloc, model, shelf, work, stem, cycle, *order)?;
            answers.push(answer)?;
        }
        Ok(answers)
    }
}

/// Opens a study over a model and a shelf, whatever marks it has, carries out orders on it, and
/// hands out an answer to each, which is right after the calls before it. Paths are found by one
/// weight, each by its own tariffs, and their steps are in the answers; the lists are room for the
/// searches. It is refused with 1 if the shelf covers another number of states than the model has,
/// and else fails only for want of memory for the answers. Sheets from 48 on stay.
pub fn carry_out<M: TransitionSystem, S: Shelf, W: Weight>(
    alloc: Global,
    model: &M,
    shelf: &mut S,
    lists: &mut Lists<'_, W>,
    orders: &[Order<'_>],
) -> Result<Vec<Answer>, CarryOutError>
    ensures answered { CarriedOut W.scale (room (held lists.old)) (M.meaning model.now)
        (S.sheets shelf.old).covers orders.now result }
    ensures spared { Spared (S.sheets shelf.old) (S.sheets shelf.new) }
{
    let mut study = Study::open(model, shelf)?;
    let answers = study.carry_out_all(
        alloc,
        model,
        shelf,
        lists.work,
        lists.stem,
        lists.cycle,
        orders,
    )?;
    Ok(answers)
}
