ghost use Rattle.std.specs.Prelude.{◌≡◌, ℕ, Bool, Some, ◌<◌, ◌≤◌, map, take, length, IfOk, IfErr, OnErr};
ghost use Rattle.std.specs.Iterator.{at_most};
ghost use Rattle.std.specs.List.{take_while};
ghost use Rattle.base.specs.declared.refusal.Refusal.TheVariants.{Grammar};
ghost use Rattle.formula.specs.Lexers.{rest_of};
ghost use Rattle.formula.specs.Tokens.{past, sign, word, word_at, name_at, token_at, front, Steps, tok, tokens_of};

use crate::symbol::{Connective, Link, Operator, Quantifier, Sign, Symbol};
use crate::token::Token;
use base::{Name, Refusal, is_name_byte};

// The sign that a character is, if it is one.
fn sign_of(character: char) -> Option<Sign>
    ensures { result ≡ sign character }
{
    match character {
        '(' => Some(Sign::Open),
        ')' => Some(Sign::Close),
        '[' => Some(Sign::BracketOpen),
        ']' => Some(Sign::BracketClose),
        '{' => Some(Sign::BraceOpen),
        '}' => Some(Sign::BraceClose),
        _ => None,
    }
}

// The word that capitals spell, if they spell one.
fn word_of(letters: &[u8]) -> Option<Symbol>
    ensures { result ≡ word letters.now }
{
    match letters {
        b"TRUE" => Some(Symbol::True),
        b"FALSE" => Some(Symbol::False),
        b"TAU" => Some(Symbol::Tau),
        b"NOT" => Some(Symbol::Not),
        b"AND" => Some(Symbol::Connective(Connective::And)),
        b"OR" => Some(Symbol::Connective(Connective::Or)),
        b"E" => Some(Symbol::Path(Quantifier::Exists)),
        b"A" => Some(Symbol::Path(Quantifier::ForAll)),
        b"U" => Some(Symbol::Between(Link::Until)),
        b"W" => Some(Symbol::Between(Link::Unless)),
        b"EX" => Some(Symbol::Short(Operator::Ex)),
        b"EF" => Some(Symbol::Short(Operator::Ef)),
        b"EG" => Some(Symbol::Short(Operator::Eg)),
        b"AX" => Some(Symbol::Short(Operator::Ax)),
        b"AF" => Some(Symbol::Short(Operator::Af)),
        b"AG" => Some(Symbol::Short(Operator::Ag)),
        _ => None,
    }
}

// The longest run of bytes that belong, at the front of a text, and the text after it.
fn run<F: Fn(u8) -> bool>(text: &[u8], belongs: F) -> (&[u8], &[u8])
    requires { F.IsAlwaysCallable belongs }
    ensures within { length result.1.now ≤ length text.now }
    ensures cut { (p : ℕ → Bool) → ((b : ℕ) (r : Bool) → F.post belongs b r → r ≡ p b) →
        (result.0.now ≡ take_while p text.now) × (result.1.now ≡ past p text.now) }
{
    text.split_at(text.iter().take_while(|byte| belongs(**byte)).count())
}

// A text from its first byte on that is no space; nothing, if there is none.
fn past_spaces(text: &[u8]) -> &[u8]
    ensures token { front text.now ≡ token_at result.now }
    ensures within { length result.now ≤ length text.now }
{
    run(text, |byte| byte == b' ').1
}

/// The tokens of a text, one after another. Bytes that are no token are refused, and nothing comes
/// after them.
#[derive(Clone, Copy, Debug)]
pub struct Lexer<'a> {
    rest: &'a [u8],
}

impl<'a> Lexer<'a> {
    /// Over the whole of a text.
    pub fn new(text: &'a [u8]) -> Lexer<'a>
        ensures { rest_of result ≡ text.now }
    {
        Lexer { rest: text }
    }

    /// The text after the tokens so far: none after the end, and none after bytes that are no
    /// token.
    pub fn rest(&self) -> &'a [u8]
        ensures { result.now ≡ rest_of self.now }
    {
        let Lexer { rest } = *self;
        rest
    }
}

// What comes next at the front of a text, each kind handed out as it is found: a token that is
// packed with what follows it is copied once more.
impl<'a> Lexer<'a> {
    // The word that a text begins with.
    fn word(&mut self, text: &'a [u8]) -> Result<Token, Refusal>
        ensures { Steps (word_at text.now) (Some result) (rest_of self.new) }
    {
        let (letters, rest) = run(text, |byte| byte.is_ascii_uppercase());
        let Some(symbol) = word_of(letters) else {
            self.rest = &[];
            return Err(Refusal::Grammar);
        };
        self.rest = rest;
        Ok(Token::Symbol(symbol))
    }

    // The name that a text begins with.
    fn name(&mut self, text: &'a [u8]) -> Result<Token, Refusal>
        ensures { Steps (name_at text.now) (Some result) (rest_of self.new) }
    {
        let (word, after) = run(text, is_name_byte);
        let Some(name) = Name::new(word) else {
            self.rest = &[];
            return Err(Refusal::Grammar);
        };
        self.rest = after;
        Ok(Token::Name(name))
    }

    // The token that a text begins with.
    fn token(&mut self, text: &'a [u8]) -> Result<Token, Refusal>
        requires { 0 < length text.now }
        ensures { Steps (token_at text.now) (Some result) (rest_of self.new) }
    {
        match sign_of(char::from(text[0])) {
            Some(sign) => {
                self.rest = &text[1..];
                Ok(Token::Symbol(Symbol::Sign(sign)))
            }
            None if text[0].is_ascii_uppercase() => self.word(text),
            None => self.name(text),
        }
    }
}

impl<'a> Iterator for Lexer<'a> {
    type Item = Result<Token, Refusal>;

    ghost next_gives = { λ s r t. Steps (front (rest_of s)) r (rest_of t) };

    ghost remaining = { λ s. at_most (length (rest_of s)) };

    fn next(&mut self) -> Option<Result<Token, Refusal>> {
        let text = past_spaces(self.rest);
        if text.is_empty() {
            self.rest = text;
            return None;
        }
        Some(self.token(text))
    }
}

// The tokens of a text, of which there are no more than bytes, into the front of a room; how many.
// The room is lent, since a list of its size would be copied when it is handed out.
pub(crate) fn lex(text: &[u8], room: &mut [Token]) -> Result<usize, Refusal>
    requires { length text.now ≤ length room.old }
    ensures tokens { IfOk result (λ count. tokens_of text.now
        ≡ Some (map tok (take count room.new))) }
    ensures count { IfOk result (λ count. count ≤ length room.new) }
    ensures none { OnErr result (tokens_of text.now ≡ None) }
    ensures refusal { IfErr result (λ e. e ≡ Grammar) }
{
    let mut count = 0;
    for token in Lexer::new(text) {
        room[count] = token?;
        count += 1;
    }
    Ok(count)
}
