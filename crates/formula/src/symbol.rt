ghost use Rattle.std.specs.Prelude.{Some};
ghost use Rattle.formula.specs.Texts.{operator_text, quantifier_text, link_text};

use std::fmt;

/// The operators with one part: a quantifier (E some path, A every path) and X (the next step), F
/// (some step) or G (every step).
#[derive(Clone, Copy, PartialEq, Eq, Debug)]
pub enum Operator {
    Ex,
    Ef,
    Eg,
    Ax,
    Af,
    Ag,
}

impl fmt::Display for Operator {
    ghost output = { λ o. Some (operator_text o) };

    fn fmt<W: fmt::Write>(&self, f: &mut fmt::Formatter<W>) -> fmt::Result {
        match self {
            Operator::Ex => write!(f, "EX"),
            Operator::Ef => write!(f, "EF"),
            Operator::Eg => write!(f, "EG"),
            Operator::Ax => write!(f, "AX"),
            Operator::Af => write!(f, "AF"),
            Operator::Ag => write!(f, "AG"),
        }
    }
}

/// Some path (the word E) or every path (the word A).
#[derive(Clone, Copy, PartialEq, Eq, Debug)]
pub enum Quantifier {
    Exists,
    ForAll,
}

impl fmt::Display for Quantifier {
    ghost output = { λ q. Some (quantifier_text q) };

    fn fmt<W: fmt::Write>(&self, f: &mut fmt::Formatter<W>) -> fmt::Result {
        match self {
            Quantifier::Exists => write!(f, "E"),
            Quantifier::ForAll => write!(f, "A"),
        }
    }
}

/// What stands between the two parts in brackets: U or W.
#[derive(Clone, Copy, PartialEq, Eq, Debug)]
pub enum Link {
    Until,
    Unless,
}

impl fmt::Display for Link {
    ghost output = { λ l. Some (link_text l) };

    fn fmt<W: fmt::Write>(&self, f: &mut fmt::Formatter<W>) -> fmt::Result {
        match self {
            Link::Until => write!(f, "U"),
            Link::Unless => write!(f, "W"),
        }
    }
}

/// The signs: parentheses, brackets and braces.
#[derive(Clone, Copy, PartialEq, Eq, Debug)]
pub enum Sign {
    Open,
    Close,
    BracketOpen,
    BracketClose,
    BraceOpen,
    BraceClose,
}

/// The words that join what stands on both sides of them. AND binds closer than OR.
#[derive(Clone, Copy, PartialEq, Eq, Debug)]
pub enum Connective {
    And,
    Or,
}

/// The signs and the words of the language.
#[derive(Clone, Copy, PartialEq, Eq, Debug)]
pub enum Symbol {
    Sign(Sign),
    Connective(Connective),
    True,
    False,
    Tau,
    Not,
    Short(Operator),
    Path(Quantifier),
    Between(Link),
}
