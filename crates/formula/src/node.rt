use crate::symbol::{Link, Operator, Quantifier};
use base::{ActionSet, Filler};

/// A part of an operator: the actions of its steps, and the number of the formula of the states
/// that they reach.
#[derive(Clone, Copy, PartialEq, Eq, Debug)]
pub struct Part {
    pub actions: ActionSet,
    pub child: usize,
}

/// A node of a formula: TRUE, FALSE, NOT, AND, OR, or an operator with its parts. Formulas below it
/// stand as numbers of nodes.
#[derive(Clone, Copy, PartialEq, Eq, Debug)]
pub enum Node {
    True,
    False,
    Not(usize),
    And(usize, usize),
    Or(usize, usize),
    Short {
        operator: Operator,
        part: Part,
    },
    Path {
        quantifier: Quantifier,
        link: Link,
        first: Part,
        second: Part,
    },
}

// What stands in the places of a table that are free.
impl Filler for Node {
    ghost use Rattle.formula.specs.declared.node.Node.TheVariants.{True};

    ghost filler = { True };

    fn filler() -> Node {
        Node::True
    }
}
