// Reads a table of formulas, one a line of standard input, and prints the nodes that each makes or
// why it is refused. In a line \xHH stands for the byte with that hexadecimal number. The label
// list is tau, a, b, c and abcdefghijklmnop.
#![tactic(auto)]

use base::{ACTIONS, ActionSet, Labels, Name, Refusal};
use formula::{Node, Nodes, Part, enter};
use std::alloc::{AllocError, Global};
use std::{fmt, io};

// What a digit to the base sixteen counts, in small letters; any other byte counts nothing.
fn hex(digit: u8) -> u8 {
    match digit {
        b'0'..=b'9' => digit - b'0',
        b'a'..=b'f' => digit - b'a' + 10,
        _ => 0,
    }
}

// The bytes that a line stands for. Whatever follows a backslash counts as the x; a number that the
// line cuts short is no byte.
fn decode(heap: Global, line: &str) -> Result<Vec<u8>, AllocError> {
    let mut text = Vec::new(heap);
    let mut rest = line.as_bytes();
    loop {
        let (byte, after) = match rest {
            [] => return Ok(text),
            [b'\\', _, high, low, after @ ..] => (hex(*high).wrapping_mul(16) | hex(*low), after),
            [b'\\', ..] => return Ok(text),
            [byte, after @ ..] => (*byte, after),
        };
        text.push(byte)?;
        rest = after;
    }
}

// A set of actions as it is printed: those that it holds, or after a tilde those that it lacks.
#[derive(Clone, Copy)]
struct Actions(ActionSet);

impl fmt::Display for Actions {
    fn fmt<W: fmt::Write>(&self, f: &mut fmt::Formatter<W>) -> fmt::Result {
        let Actions(set) = *self;
        let most = set.contains(ACTIONS - 1);
        write!(f, "{}", if most { "~{" } else { "{" })?;
        for action in 0..ACTIONS {
            if set.contains(action) != most {
                write!(f, " {action}")?;
            }
        }
        write!(f, " }}")
    }
}

// A part as it is printed.
#[derive(Clone, Copy)]
struct Reached(Part);

impl fmt::Display for Reached {
    fn fmt<W: fmt::Write>(&self, f: &mut fmt::Formatter<W>) -> fmt::Result {
        let Reached(part) = *self;
        write!(f, "{} {}", Actions(part.actions), part.child)
    }
}

// A node as it is printed.
#[derive(Clone, Copy)]
struct Shown(Node);

impl fmt::Display for Shown {
    fn fmt<W: fmt::Write>(&self, f: &mut fmt::Formatter<W>) -> fmt::Result {
        let Shown(node) = *self;
        match node {
            Node::True => write!(f, "TRUE"),
            Node::False => write!(f, "FALSE"),
            Node::Not(child) => write!(f, "NOT {child}"),
            Node::And(left, right) => write!(f, "AND {left} {right}"),
            Node::Or(left, right) => write!(f, "OR {left} {right}"),
            Node::Short { operator, part } => write!(f, "{operator}{}", Reached(part)),
            Node::Path {
                quantifier,
                link,
                first,
                second,
            } => {
                let first = Reached(first);
                let second = Reached(second);
                write!(f, "{quantifier}[{first} {link} {second}]")
            }
        }
    }
}

// Prints what a text makes of a table with no node.
fn run(rt: &HostRuntime, text: &[u8], labels: &Labels) -> io::Result<()> {
    let mut nodes = Nodes::new();
    match enter(&mut nodes, text, labels) {
        Ok(formula) => {
            for (number, node) in nodes.as_slice().iter().enumerate() {
                let node = Shown(*node);
                print!(rt; "{number}: {node}; ")?;
            }
            let root = nodes.span(formula).map_or(0, |span| span.root);
            println!(rt; "formula {root}")
        }
        Err(why) => {
            let number = why.number();
            let left = nodes.len();
            println!(rt; "refused {number}, {left} nodes")
        }
    }
}

// The names that all lines are read by.
fn label_list() -> Result<Labels, Refusal> {
    let mut labels = Labels::new();
    for name in &["a", "b", "c", "abcdefghijklmnop"] {
        labels.add(Name::new(name.as_bytes()).ok_or(Refusal::Garbled)?)?;
    }
    Ok(labels)
}

// Each line is a text of its own, read by the same labels.
fn main(rt: HostRuntime) -> anyhow::Result<()> {
    let labels = label_list()?;
    for line in rt.lines(rt.alloc()) {
        let line = line?;
        let text = decode(rt.alloc(), line.as_str())?;
        run(&rt, text.as_slice(), &labels)?;
    }
    Ok(())
}
