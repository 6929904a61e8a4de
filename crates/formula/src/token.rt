ghost use Rattle.std.specs.Prelude.{◌≡◌};
ghost use Rattle.formula.specs.declared.symbol.Symbol.TheVariants.{True};
ghost use Rattle.formula.specs.declared.token.Token.TheVariants.{Symbol};

use crate::symbol::Symbol;
use base::Name;

/// What a text is made of, spaces apart.
#[derive(Clone, Copy, PartialEq, Eq, Debug)]
pub enum Token {
    Symbol(Symbol),
    Name(Name),
}

// What stands in the unused places of a list of tokens.
impl Default for Token {
    ghost is_default = { λ t. t ≡ Symbol True };

    fn default() -> Token {
        Token::Symbol(Symbol::True)
    }
}
