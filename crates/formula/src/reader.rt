ghost use Rattle.std.specs.Prelude.{◌≡◌, ◌≤◌, length, Some, None};
ghost use Rattle.formula.specs.Building.{BuildsBy, Builds, BuildsPart};
ghost use Rattle.formula.specs.Choosing.{IsSet};
ghost use Rattle.formula.specs.Levels.{operand, stage, node_of};
ghost use Rattle.formula.specs.Places.{unread, ahead, moved};
ghost use Rattle.formula.specs.Reading.{OrLevel, Tight, and_then, if_there, past_sign, in_group, with_formula, after_braces, part, two_parts};
ghost use Rattle.formula.specs.Shapes.{shape};
ghost use Rattle.formula.specs.Trees.{Acts, NOT, short};
ghost use Rattle.formula.specs.Vocabulary.{vocabulary};
ghost use Rattle.formula.specs.declared.symbol.Sign.TheVariants.{BracketOpen};

use crate::built::{Found, Level};
use crate::cursor::Cursor;
use crate::draft::Draft;
use crate::node::{Node, Part};
use crate::symbol::{Connective, Operator, Quantifier, Sign, Symbol};
use crate::token::Token;
use base::ActionSet;

impl Connective {
    // A node over two others.
    fn node(self, left: usize, right: usize) -> Node
        ensures { shape result ≡ node_of self left right }
    {
        match self {
            Connective::Or => Node::Or(left, right),
            Connective::And => Node::And(left, right),
        }
    }
}

impl<'a> Cursor<'a> {
    // Writes a formula, as far as a level reaches.
    // This, TRUE, FALSE, NOT and parentheses are in actions.rt too; one reader over a trait gets no
    // proof, as they lead back to it.
    #[cycle(formulas)]
    pub(crate) fn formula(&self, level: Level, draft: &mut Draft) -> Option<Found<'a, usize>>
        ensures { Builds self.now draft.old draft.new (stage level) result }
    {
        let Level::Chain(connective) = level else {
            return self.tight(draft);
        };
        self.chain(
            connective,
            draft,
            |rest: &[Token], draft: &mut Draft| -> Option<Found<usize>>
                requires { length (unread rest) ≤ length (ahead self.now) }
                ensures { Builds (moved self.entry.now rest.entry) draft.entry.now draft.exit.now
                    (stage (operand connective)) result }
            {
                let operand = self.moved_to(rest);
                // what binds closer is called at once: through `formula` it takes one call more
                match connective.operand() {
                    Level::Tight => operand.tight(draft),
                    level => operand.formula(level, draft),
                }
            },
            |left: usize, right: usize, draft: &mut Draft| draft.put(connective.node(left, right)),
        )
    }

    // A word, NOT, parentheses or an operator. A call of its own, like those marked so below: a
    // level of parentheses then takes little of the stack.
    #[cycle(formulas)]
    #[inline(never)]
    fn tight(&self, draft: &mut Draft) -> Option<Found<'a, usize>>
        ensures { Builds self.now draft.old draft.new Tight result }
    {
        let first = self.symbol()?;
        let onward = self.moved_to(first.rest);
        match first.value {
            Symbol::True => Some(Found {
                value: draft.put(Node::True),
                rest: first.rest,
            }),
            Symbol::False => Some(Found {
                value: draft.put(Node::False),
                rest: first.rest,
            }),
            Symbol::Not => onward.negated(draft),
            Symbol::Sign(sign) => onward.grouped(sign, draft),
            Symbol::Short(operator) => onward.one_part(operator, draft),
            Symbol::Path(quantifier) => onward.two_parts(quantifier, draft),
            Symbol::Tau | Symbol::Between(_) | Symbol::Connective(_) => None,
        }
    }

    // What follows NOT.
    #[cycle(formulas)]
    #[inline(never)]
    fn negated(&self, draft: &mut Draft) -> Option<Found<'a, usize>>
        ensures { BuildsBy self.now draft.old draft.new
            (λ r ts. and_then (r Tight ts) (λ t rest. Some (NOT t, rest))) result }
    {
        let inner = self.formula(Level::Tight, draft)?;
        Some(Found {
            value: draft.put(Node::Not(inner.value)),
            rest: inner.rest,
        })
    }

    // What follows a sign that opens parentheses.
    #[cycle(formulas)]
    fn grouped(&self, sign: Sign, draft: &mut Draft) -> Option<Found<'a, usize>>
        ensures { BuildsBy self.now draft.old draft.new
            (λ r ts. in_group sign (r OrLevel ts)) result }
    {
        if sign != Sign::Open {
            return None;
        }
        let inner = self.formula(Level::Chain(Connective::Or), draft)?;
        self.closed(&inner, Sign::Close)
    }

    // What follows a two-letter operator.
    #[cycle(formulas)]
    #[inline(never)]
    fn one_part(&self, operator: Operator, draft: &mut Draft) -> Option<Found<'a, usize>>
        ensures { BuildsBy self.now draft.old draft.new
            (λ r ts. and_then (part (r Tight) ts) (λ p rest. Some (short operator p.0 p.1, rest)))
            result }
    {
        let Some(inner) = self.part(Level::Tight, draft) else {
            return None;
        };
        let node = Node::Short {
            operator,
            part: inner.value,
        };
        Some(Found {
            value: draft.put(node),
            rest: inner.rest,
        })
    }

    // What follows E or A: two parts in brackets, with U or W between them.
    #[cycle(formulas)]
    #[inline(never)]
    fn two_parts(&self, quantifier: Quantifier, draft: &mut Draft) -> Option<Found<'a, usize>>
        ensures { BuildsBy self.now draft.old draft.new
            (λ r ts. if_there (past_sign BracketOpen ts) (two_parts (r OrLevel) quantifier) None)
            result }
    {
        let inside = self.after(Sign::BracketOpen)?;
        let Some(first) = self
            .moved_to(inside)
            .part(Level::Chain(Connective::Or), draft)
        else {
            return None;
        };
        let link = self.moved_to(first.rest).link()?;
        let Some(second) = self
            .moved_to(link.rest)
            .part(Level::Chain(Connective::Or), draft)
        else {
            return None;
        };
        let Some(second) = self.closed(&second, Sign::BracketClose) else {
            return None;
        };
        let node = Node::Path {
            quantifier,
            link: link.value,
            first: first.value,
            second: second.value,
        };
        Some(Found {
            value: draft.put(node),
            rest: second.rest,
        })
    }

    // A part: braces, a formula, or both.
    #[cycle(formulas)]
    fn part(&self, level: Level, draft: &mut Draft) -> Option<Found<'a, Part>>
        ensures { BuildsPart self.now draft.old draft.new (λ r. part (r (stage level))) result }
    {
        let Some(inside) = self.after(Sign::BraceOpen) else {
            return self.with_formula(ActionSet::all(), level, draft);
        };
        let Some(braces) = self.moved_to(inside).braced() else {
            return None;
        };
        self.moved_to(braces.rest)
            .after_braces(braces.value, level, draft)
    }

    // After braces: a formula whenever one can begin, else TRUE.
    #[cycle(formulas)]
    fn after_braces(
        &self,
        actions: ActionSet,
        level: Level,
        draft: &mut Draft,
    ) -> Option<Found<'a, Part>>
        ensures { (c : Acts) → IsSet (vocabulary self.now.names) c actions →
            BuildsPart self.now draft.old draft.new (λ r. after_braces (r (stage level)) c) result }
    {
        if self.can_begin() {
            return self.with_formula(actions, level, draft);
        }
        let child = draft.put(Node::True);
        Some(Found {
            value: Part { actions, child },
            rest: self.tokens,
        })
    }

    // The formula of a part.
    #[cycle(formulas)]
    fn with_formula(
        &self,
        actions: ActionSet,
        level: Level,
        draft: &mut Draft,
    ) -> Option<Found<'a, Part>>
        ensures { (c : Acts) → IsSet (vocabulary self.now.names) c actions →
            BuildsPart self.now draft.old draft.new (λ r. with_formula (r (stage level)) c) result }
    {
        let inner = self.formula(level, draft)?;
        Some(Found {
            value: Part {
                actions,
                child: inner.value,
            },
            rest: inner.rest,
        })
    }
}
