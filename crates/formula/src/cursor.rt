ghost use Rattle.std.specs.Prelude.{◌≡◌, ◌+◌, ◌≤◌, List, [], ◌∷◌, length, MatchOption};
ghost use Rattle.std.specs.Borrow.{Bor};
ghost use Rattle.formula.specs.Chaining.{MayRead, MayJoin, OnlyOnward, Chain};
ghost use Rattle.formula.specs.Grammar.{begins};
ghost use Rattle.formula.specs.Places.{unread, ahead, moved, Past, Closed, SymbolFirst, Linked};
ghost use Rattle.formula.specs.Reading.{past_sign, past_connective, link};
ghost use Rattle.formula.specs.Tokens.{tok};
ghost use Rattle.formula.specs.declared.token.Token.{Token};

use crate::built::Found;
use crate::names::Names;
use crate::symbol::{Connective, Link, Sign, Symbol};
use crate::token::Token;

// The tokens of a text that are left to read, and the names that it may use.
#[derive(Clone, Copy)]
pub(crate) struct Cursor<'a> {
    pub(crate) tokens: &'a [Token],
    pub(crate) names: Names<'a>,
}

impl<'a> Cursor<'a> {
    // The same names, where these tokens are left.
    pub(crate) fn moved_to(&self, rest: &'a [Token]) -> Cursor<'a>
        ensures { result ≡ moved self.now rest.entry }
    {
        Cursor {
            tokens: rest,
            ..*self
        }
    }

    // The token that stands first, and what follows it.
    pub(crate) fn next(&self) -> Option<Found<'a, Token>>
        ensures { MatchOption result (ahead self.now ≡ [])
            (λ y. (ahead self.now ≡ tok y.value ∷ unread y.rest)
            × (length (ahead self.now) ≡ length (unread y.rest) + 1)) }
    {
        let (token, rest) = self.tokens.split_first()?;
        Some(Found {
            value: *token,
            rest,
        })
    }

    // The sign or word that stands first, and what follows it; none at a name.
    pub(crate) fn symbol(&self) -> Option<Found<'a, Symbol>>
        ensures { SymbolFirst (ahead self.now) result }
    {
        let Some(Found { value: token, rest }) = self.next() else {
            return None;
        };
        match token {
            Token::Symbol(value) => Some(Found { value, rest }),
            Token::Name(_) => None,
        }
    }

    // What follows a sign, if it stands first.
    pub(crate) fn after(&self, sign: Sign) -> Option<&'a [Token]>
        ensures { Past (ahead self.now) (past_sign sign (ahead self.now)) result }
    {
        let Found {
            value: symbol,
            rest,
        } = self.symbol()?;
        match symbol {
            Symbol::Sign(found) if found == sign => Some(rest),
            _ => None,
        }
    }

    // What follows AND or OR, if it stands first.
    fn after_connective(&self, connective: Connective) -> Option<&'a [Token]>
        ensures { Past (ahead self.now) (past_connective connective (ahead self.now)) result }
    {
        let Found {
            value: symbol,
            rest,
        } = self.symbol()?;
        match symbol {
            Symbol::Connective(found) if found == connective => Some(rest),
            _ => None,
        }
    }

    // What was read, as far as a sign that closes it.
    pub(crate) fn closed<T: Copy>(&self, inner: &Found<'a, T>, sign: Sign) -> Option<Found<'a, T>>
        ensures { Closed sign inner.now result }
    {
        let rest = self.moved_to(inner.rest).after(sign)?;
        Some(Found { rest, ..*inner })
    }

    // The word U or W that stands first, and what follows it.
    pub(crate) fn link(&self) -> Option<Found<'a, Link>>
        ensures { Linked (ahead self.now) (link (ahead self.now)) result }
    {
        let Found {
            value: symbol,
            rest,
        } = self.symbol()?;
        match symbol {
            Symbol::Between(value) => Some(Found { value, rest }),
            _ => None,
        }
    }

    // Whether a formula can begin with what is left.
    pub(crate) fn can_begin(&self) -> bool
        ensures { result ≡ begins (ahead self.now) }
    {
        let Some(first) = self.symbol() else {
            return false;
        };
        match first.value {
            Symbol::Sign(sign) => sign == Sign::Open,
            Symbol::True | Symbol::False | Symbol::Not | Symbol::Short(_) | Symbol::Path(_) => true,
            Symbol::Tau | Symbol::Between(_) | Symbol::Connective(_) => false,
        }
    }

    // Operands with AND or OR between them, joined from the left; reading and joining may both
    // change the state.
    pub(crate) fn chain<
        V: Copy,
        S,
        F: Fn(&'a [Token], &mut S) -> Option<Found<'a, V>>,
        J: Fn(V, V, &mut S) -> V,
    >(&self, connective: Connective, state: &mut S, operand: F, join: J) -> Option<Found<'a, V>>
        requires reads { (rest : Bor (List Token)) (s : _) →
            length (unread rest) ≤ length (ahead self.now) → F.pre operand rest s }
        requires onward { OnlyOnward F.Fn operand }
        requires joins { J.IsAlwaysCallable join }
        ensures { Chain (MayRead F.Fn operand) (MayJoin J.Fn join) connective self.now.tokens
            state.old result state.new }
    {
        let mut left = operand(self.tokens, state)?;
        while let Some(next) = self.moved_to(left.rest).after_connective(connective) {
            let right = operand(next, state)?;
            left = Found {
                value: join(left.value, right.value, state),
                rest: right.rest,
            };
        }
        Some(left)
    }
}
