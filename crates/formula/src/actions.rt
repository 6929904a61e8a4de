ghost use Rattle.std.specs.Prelude.{◌≡◌, ◌≤◌, length, ℕ, Some};
ghost use Rattle.base.specs.Sets.{holds};
ghost use Rattle.formula.specs.Choosing.{IsSet, ChoosesBy, Chooses};
ghost use Rattle.formula.specs.Levels.{operand, stage, combined};
ghost use Rattle.formula.specs.Places.{unread, ahead, moved};
ghost use Rattle.formula.specs.Reading.{OrLevel, Tight, and_then, in_group, in_braces};
ghost use Rattle.formula.specs.Trees.{named, complement};
ghost use Rattle.formula.specs.Vocabulary.{vocabulary};

use crate::built::{Found, Level};
use crate::cursor::Cursor;
use crate::symbol::{Connective, Sign, Symbol};
use crate::token::Token;
use base::{ActionSet, Name};

impl Connective {
    // The actions that two sets have together, or those that both have.
    fn set(self, left: ActionSet, right: ActionSet) -> ActionSet
        ensures { (a : ℕ) → holds result a ≡ combined self (holds left a) (holds right a) }
    {
        match self {
            Connective::Or => left.union(right),
            Connective::And => left.intersection(right),
        }
    }
}

impl<'a> Cursor<'a> {
    // The action of a name. A name that is not listed has none; such texts are refused elsewhere.
    fn named(&self, name: Name) -> ActionSet
        ensures { IsSet (vocabulary self.now.names) (named name) result }
    {
        self.names
            .labels
            .lookup(name.as_bytes())
            .map_or(ActionSet::empty(), ActionSet::from_action)
    }

    // The actions that an action formula stands for, as far as a level reaches. This, TRUE, FALSE,
    // NOT and parentheses are in reader.rt too; one reader over a trait gets no proof, as they lead
    // back to it.
    #[cycle(braces)]
    fn actions(&self, level: Level) -> Option<Found<'a, ActionSet>>
        ensures { Chooses self.now (stage level) result }
    {
        let Level::Chain(connective) = level else {
            return self.tight_actions();
        };
        self.chain(
            connective,
            &mut (),
            |rest: &[Token], _: &mut ()| -> Option<Found<ActionSet>>
                requires { length (unread rest) ≤ length (ahead self.now) }
                ensures { Chooses (moved self.entry.now rest.entry) (stage (operand connective))
                    result }
            { self.moved_to(rest).actions(connective.operand()) },
            |left: ActionSet, right: ActionSet, _: &mut ()| connective.set(left, right),
        )
    }

    // A word, a name, NOT or parentheses.
    #[cycle(braces)]
    fn tight_actions(&self) -> Option<Found<'a, ActionSet>>
        ensures { Chooses self.now Tight result }
    {
        let Some(Found { value: token, rest }) = self.next() else {
            return None;
        };
        let onward = self.moved_to(rest);
        match token {
            Token::Name(name) => Some(Found {
                value: self.named(name),
                rest,
            }),
            Token::Symbol(symbol) => match symbol {
                Symbol::True => Some(Found {
                    value: ActionSet::all(),
                    rest,
                }),
                Symbol::False => Some(Found {
                    value: ActionSet::empty(),
                    rest,
                }),
                Symbol::Tau => Some(Found {
                    value: ActionSet::from_action(0),
                    rest,
                }),
                Symbol::Not => onward.other_actions(),
                Symbol::Sign(sign) => onward.grouped_actions(sign),
                Symbol::Short(_) | Symbol::Path(_) | Symbol::Between(_) | Symbol::Connective(_) =>
                    None,
            },
        }
    }

    // What follows NOT.
    #[cycle(braces)]
    fn other_actions(&self) -> Option<Found<'a, ActionSet>>
        ensures { ChoosesBy self.now (λ r ts. and_then (r Tight ts)
            (λ c rest. Some (complement c, rest))) result }
    {
        let Some(inner) = self.actions(Level::Tight) else {
            return None;
        };
        Some(Found {
            value: inner.value.complement(),
            rest: inner.rest,
        })
    }

    // What follows a sign that opens parentheses.
    #[cycle(braces)]
    fn grouped_actions(&self, sign: Sign) -> Option<Found<'a, ActionSet>>
        ensures { ChoosesBy self.now (λ r ts. in_group sign (r OrLevel ts)) result }
    {
        if sign != Sign::Open {
            return None;
        }
        let Some(inner) = self.actions(Level::Chain(Connective::Or)) else {
            return None;
        };
        self.closed(&inner, Sign::Close)
    }

    // The action formula in braces, after the first of them.
    pub(crate) fn braced(&self) -> Option<Found<'a, ActionSet>>
        ensures { ChoosesBy self.now (λ r ts. in_braces ts) result }
    {
        let Some(inner) = self.actions(Level::Chain(Connective::Or)) else {
            return None;
        };
        self.closed(&inner, Sign::BraceClose)
    }
}
