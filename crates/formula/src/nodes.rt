ghost use Rattle.std.specs.Prelude.{◌≤◌, length, map};
ghost use Rattle.formula.specs.Shapes.{shape};
ghost use Rattle.formula.specs.Tables.{Ascending, Ends, Apart};

use crate::node::Node;
use base::BoundedVec;

/// The most nodes that a table holds.
pub const MOST_NODES: usize = 48;

/// The most formulas that a table holds.
pub const MOST_FORMULAS: usize = 8;

/// The nodes of at most 8 formulas, 48 nodes in all, and the number of each formula's last node,
/// its root. The nodes of a formula follow those of the formula before it; each stands after those
/// below it, which are nodes of the same formula.
#[derive(Clone, Copy, PartialEq, Eq, Debug)]
pub struct Nodes {
    pub(crate) nodes: BoundedVec<Node, MOST_NODES>,
    pub(crate) roots: BoundedVec<usize, MOST_FORMULAS>,
    ghost few: { length nodes ≤ 48 },
    ghost few_roots: { length roots ≤ 8 },
    ghost ascending: { Ascending roots },
    ghost ends: { Ends roots (map shape nodes) },
    ghost apart: { Apart roots (map shape nodes) },
}

/// Where the nodes of a formula stand: the number of the first, and of the last, which is the
/// formula's root.
#[derive(Clone, Copy, PartialEq, Eq, Debug)]
pub struct Span {
    pub first: usize,
    pub root: usize,
}

impl Nodes {
    ghost use Rattle.std.specs.Prelude.{◌≡◌, ◌↔◌, ◌<◌, ◌≤◌, [], ◌∷◌, ◌++◌, ◌-◌, length, IsTrue, IsSome, IfSome, OnSome};
    ghost use Rattle.std.specs.Option.{option_map};
    ghost use Rattle.std.specs.List.{slice_get};
    ghost use Rattle.formula.specs.Nodes.{shapes, roots, SpanOf};
    ghost use Rattle.formula.specs.Tables.{Extended};

    /// No node yet, and no formula.
    pub fn new() -> Nodes
        ensures nodes { shapes result ≡ [] }
        ensures formulas { roots result ≡ [] }
    {
        Nodes {
            nodes: BoundedVec::new(),
            roots: BoundedVec::new(),
        }
    }

    /// How many nodes there are.
    pub fn len(&self) -> usize
        ensures { result ≡ length (shapes self.now) }
    {
        self.as_slice().len()
    }

    /// Whether there is no node, and so no formula.
    pub fn is_empty(&self) -> bool
        ensures { IsTrue result ↔ (shapes self.now ≡ []) }
    {
        self.as_slice().is_empty()
    }

    /// How many formulas there are.
    pub fn formulas(&self) -> usize
        ensures { result ≡ length (roots self.now) }
    {
        self.roots.as_slice().len()
    }

    /// The nodes, each at its number.
    pub fn as_slice(&self) -> &[Node]
        ensures { map shape result.now ≡ shapes self.now }
    {
        self.nodes.as_slice()
    }

    /// The node of a number.
    pub fn node(&self, number: usize) -> Option<Node>
        ensures { option_map shape result ≡ slice_get (shapes self.now) number }
    {
        self.as_slice().get(number).copied()
    }

    /// Where the nodes of a formula stand, if there is a formula of that number.
    pub fn span(&self, formula: usize) -> Option<Span>
        ensures { SpanOf self.now formula result }
    {
        let roots = self.roots.as_slice();
        let root = *roots.get(formula)?;
        let first = match formula.checked_sub(1) {
            Some(before) => roots[before] + 1,
            None => 0,
        };
        Some(Span { first, root })
    }

    // With the nodes of one formula more, if there are fewer than eight.
    pub(crate) fn with(&self, nodes: BoundedVec<Node, MOST_NODES>) -> Option<Nodes>
        requires { Extended (shapes self.now) (map shape nodes) }
        ensures variant { IsSome result ↔ (length (roots self.now) < MOST_FORMULAS) }
        ensures nodes { IfSome result (λ n. shapes n ≡ map shape nodes) }
        ensures formulas { IfSome result (λ n. roots n ≡ roots self.now
            ++ (length (shapes n) - 1) ∷ []) }
    {
        let mut roots = self.roots;
        roots.push(nodes.as_slice().len() - 1)?;
        Some(Nodes { nodes, roots })
    }
}
