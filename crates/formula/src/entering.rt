ghost use Rattle.std.specs.Prelude.{◌≡◌, ◌≤◌, length};
ghost use Rattle.formula.specs.Checking.{is_listed, all_listed, Whole, ChecksTokens, Checks};
ghost use Rattle.formula.specs.Entering.{Entered};
ghost use Rattle.formula.specs.Laying.{drafted};
ghost use Rattle.formula.specs.Places.{ahead};
ghost use Rattle.formula.specs.Tokens.{tok};
ghost use Rattle.formula.specs.Vocabulary.{by_labels, vocabulary};

use crate::built::Level;
use crate::cursor::Cursor;
use crate::draft::Draft;
use crate::lexer::lex;
use crate::names::Names;
use crate::nodes::Nodes;
use crate::symbol::Connective;
use crate::token::Token;
use base::{Labels, Refusal};

/// The most bytes that a text may have.
pub const MOST_BYTES: usize = 1024;

// A text of at most so many bytes is short: the room for as many tokens as a longer one may have
// takes more time than reading it.
const SHORT: usize = 64;

// Whether a token is no name that is not listed.
fn is_listed(token: Token, names: Names) -> bool
    ensures { result ≡ is_listed (vocabulary names.entry) (tok token) }
{
    match token {
        Token::Symbol(_) => true,
        Token::Name(name) => names.labels.lookup(name.as_bytes()).is_some(),
    }
}

impl<'a> Cursor<'a> {
    // Whether every name among the tokens is listed.
    fn all_listed(&self) -> bool
        ensures { result ≡ all_listed (vocabulary self.now.names) (ahead self.now) }
    {
        self.tokens
            .iter()
            .all(|token| is_listed(*token, self.names))
    }

    // Writes the formula that the tokens are as a whole, if they are one.
    fn whole(&self, draft: &mut Draft) -> Option<()>
        ensures { Whole (vocabulary self.now.names) (ahead self.now) (drafted draft.old)
            (drafted draft.new) result }
    {
        let built = self.formula(Level::Chain(Connective::Or), draft)?;
        if !built.rest.is_empty() {
            return None;
        }
        Some(())
    }

    // The table with the formula that the tokens are.
    fn check_tokens(&self, nodes: &Nodes) -> Result<Nodes, Refusal>
        ensures { ChecksTokens (vocabulary self.now.names) (ahead self.now) nodes.now result }
    {
        let mut draft = Draft::from_nodes(nodes);
        self.whole(&mut draft).ok_or(Refusal::Grammar)?;
        if !self.all_listed() {
            return Err(Refusal::Nameless);
        }
        let written = draft.nodes.ok_or(Refusal::Full)?;
        nodes.with(written).ok_or(Refusal::Full)
    }
}

// The table with the formula that a text of a right length is, in a room for so many tokens. A call
// of its own, so that no text pays for more room than it gets.
#[inline(never)]
fn check_lexed<const ROOM: usize>(
    text: &[u8],
    names: Names,
    nodes: &Nodes,
) -> Result<Nodes, Refusal>
    requires some { 1 ≤ length text.now }
    requires few { length text.now ≤ 1024 }
    requires room { length text.now ≤ ROOM }
    requires bounded { ROOM ≤ 1024 }
    ensures { Checks text.now (vocabulary names.entry) nodes.now result }
{
    let mut room = [Token::default(); ROOM];
    let count = lex(text, &mut room)?;
    let start = Cursor {
        tokens: &room[..count],
        names,
    };
    start.check_tokens(nodes)
}

// The table with the formula that a text is.
fn check(text: &[u8], names: Names, nodes: &Nodes) -> Result<Nodes, Refusal>
    ensures { Checks text.now (vocabulary names.entry) nodes.now result }
{
    if text.is_empty() || text.len() > MOST_BYTES {
        return Err(Refusal::Grammar);
    }
    if text.len() <= SHORT {
        return check_lexed::<SHORT>(text, names, nodes);
    }
    check_lexed::<MOST_BYTES>(text, names, nodes)
}

/// Enters a text: writes its nodes past those before, and answers the number of its formula. It is
/// refused with 5 if it is empty, has more than 1,024 bytes or is no formula; then with 6 if it has
/// a name that the list lacks; then with 7 if it would be the ninth formula or need the 49th node.
/// A refusal alters nothing.
pub fn enter(nodes: &mut Nodes, text: &[u8], labels: &Labels) -> Result<usize, Refusal>
    ensures { Entered text.now (by_labels labels.now) nodes.old nodes.new result }
{
    let number = nodes.formulas();
    *nodes = check(text, Names { labels }, nodes)?;
    Ok(number)
}
