//! What may come next in a JSON text, lexeme by lexeme.
ghost use Rattle.std.specs.Prelude.{◌≡◌, Some, None, cond, length, IfOk};
ghost use Rattle.std.specs.List.{prefix_len};
ghost use Rattle.std.specs.Str.{IsCharBoundary};
ghost use Rattle.json_lexemes.specs.View.{IsNamed, text_of};
ghost use Rattle.json_grammar.specs.Faults.{IsExpectedBy, begins_value, expected_for_bracket};
ghost use Rattle.json_grammar.specs.Faults.{expects_string, is_plain, plain_front};
ghost use Rattle.json_grammar.specs.Next.{after_colon, after_comma, after_value, closes_array, closes_object, is_key, expects_value};
ghost use Rattle.json_grammar.specs.Readings as spec;
ghost use Rattle.json_grammar.specs.Steps.{Stepped, brackets_of, json_reading_of};

use crate::expected::Expected;
use json::{Scratch, is_valid};
use json_lexemes::Lexeme;
use json_validity::MAX_DEPTH;
use std::alloc::{AllocError, Global};

/// What stays open until its bracket comes.
#[derive(Clone, Copy, Debug, Drop, PartialEq, Eq)]
pub(crate) enum Bracket {
    Array,
    Object,
}

/// What may follow a value: in an array, in an object, or at the top.
fn after_value(innermost: Option<Bracket>) -> Expected
    ensures { result ≡ after_value innermost }
{
    match innermost {
        Some(Bracket::Array) => Expected::CommaOrBracket,
        Some(Bracket::Object) => Expected::CommaOrBrace,
        None => Expected::End,
    }
}

/// Whether a value may come.
fn is_value(next: Expected) -> bool
    ensures { result ≡ expects_value next }
{
    matches!(next, Expected::Value | Expected::ValueOrBracket)
}

/// Whether a key may come.
fn is_key(next: Expected) -> bool
    ensures { result ≡ is_key next }
{
    matches!(next, Expected::Key | Expected::KeyOrBrace)
}

/// Whether the bracket of an array may come.
fn closes_array(next: Expected) -> bool
    ensures { result ≡ closes_array next }
{
    matches!(next, Expected::ValueOrBracket | Expected::CommaOrBracket)
}

/// Whether the brace of an object may come.
fn closes_object(next: Expected) -> bool
    ensures { result ≡ closes_object next }
{
    matches!(next, Expected::KeyOrBrace | Expected::CommaOrBrace)
}

/// What may follow a comma. `None` where none may come.
fn after_comma(next: Expected) -> Option<Expected>
    ensures { result ≡ after_comma next }
{
    match next {
        Expected::CommaOrBracket => Some(Expected::Value),
        Expected::CommaOrBrace => Some(Expected::Key),
        _ => None,
    }
}

/// What may follow a colon. `None` where none may come.
fn after_colon(next: Expected) -> Option<Expected>
    ensures { result ≡ after_colon next }
{
    match next {
        Expected::Colon => Some(Expected::Value),
        _ => None,
    }
}

/// A bracket that is open.
#[derive(Clone, Copy, Drop)]
struct Open {
    bracket: Bracket,
    /// Where it stands in the text, in bytes.
    offset: usize,
}

impl Open {
    fn new(bracket: Bracket, offset: usize) -> Open
        ensures { result.bracket ≡ bracket }
    {
        Open { bracket, offset }
    }
}

/// Whether this is a letter, a digit, or what else numbers have.
fn is_plain(byte: u8) -> bool
    ensures { result ≡ is_plain byte }
{
    byte.is_ascii_alphanumeric() || matches!(byte, b'+' | b'-' | b'.' | b'_')
}

/// How many bytes of a word are such, from its beginning on.
fn plain_len(word: &str) -> usize
    ensures len { result ≡ prefix_len is_plain word.now }
    ensures boundary { IsCharBoundary word.now result }
{
    let mut len = 0usize;
    for byte in word.as_bytes() {
        if !is_plain(*byte) {
            break;
        }
        len = len.saturating_add(1);
    }
    len
}

/// Whether a string or a word is JSON alone.
///
/// `AllocError` where memory is refused.
fn is_leaf(text: &str, scratch: &mut Scratch<Global>) -> Result<bool, AllocError>
    ensures { IfOk result (λ leaf. leaf ≡ spec.is_leaf text.now) }
{
    is_valid(text, scratch)
}

/// The lexemes that were read so far: the brackets that they left open, and what is to come next.
#[derive(Drop)]
pub(crate) struct Reading {
    open: Vec<Open>,
    pub next: Expected,
    scratch: Scratch<Global>,
}

impl Reading {
    pub fn new(alloc: Global) -> Reading
        ensures { json_reading_of result ≡ spec.first_json_reading }
    {
        Reading {
            open: Vec::new(alloc),
            next: Expected::Value,
            scratch: Scratch::new(alloc),
        }
    }

    /// How many brackets are open.
    pub fn depth(&self) -> usize
        ensures { result ≡ length (json_reading_of self.now).open_brackets }
    {
        self.open.len()
    }

    /// The innermost bracket that is open.
    pub fn innermost(&self) -> Option<Bracket>
        ensures { result ≡ spec.innermost_bracket (brackets_of self.now.«open».items) }
    {
        match self.open.last() {
            Some(open) => Some(open.bracket),
            None => None,
        }
    }

    /// Where that stands, in bytes.
    pub fn opened(&self) -> Option<usize> {
        match self.open.last() {
            Some(open) => Some(open.offset),
            None => None,
        }
    }

    fn open(&mut self, opening: Open, next: Expected) -> Result<Option<Expected>, AllocError>
        ensures { IfOk result (λ stopped. Stepped (json_reading_of self.old) (spec.opened (json_reading_of self.old) opening.bracket next)
            (λ e. e ≡ expected_for_bracket (json_reading_of self.old)) stopped (json_reading_of self.new)) }
    {
        if !is_value(self.next) {
            return Ok(Some(self.next));
        }
        if self.open.len() >= MAX_DEPTH {
            return Ok(Some(Expected::LessNesting));
        }
        self.open.push(opening)?;
        self.next = next;
        Ok(None)
    }

    fn close(&mut self, fits: bool) -> Option<Expected>
        ensures { Stepped (json_reading_of self.old) (spec.closed_bracket (json_reading_of self.old) fits)
            (λ e. e ≡ self.old.next) result (json_reading_of self.new) }
    {
        if !fits {
            return Some(self.next);
        }
        self.open.pop();
        self.next = after_value(self.innermost());
        None
    }

    /// Takes a comma or a colon, after which `next` is to come.
    fn pass(&mut self, next: Option<Expected>) -> Option<Expected>
        ensures { Stepped (json_reading_of self.old) (spec.passed (json_reading_of self.old) next)
            (λ e. e ≡ self.old.next) result (json_reading_of self.new) }
    {
        match next {
            Some(next) => {
                self.next = next;
                None
            }
            None => Some(self.next),
        }
    }

    /// Takes a string or a word, after which `next` is to come, if JSON has it.
    fn take(&mut self, text: &str, next: Expected) -> Result<bool, AllocError>
        ensures taken { IfOk result (λ taken. taken ≡ spec.is_leaf text.now) }
        ensures reading { IfOk result (λ taken. json_reading_of self.new
            ≡ cond taken (spec.before (json_reading_of self.old).open_brackets next) (json_reading_of self.old)) }
    {
        let is_leaf = is_leaf(text, &mut self.scratch)?;
        if is_leaf {
            self.next = next;
        }
        Ok(is_leaf)
    }

    /// Takes a word, as a value.
    fn word(&mut self, text: &str) -> Result<Option<Expected>, AllocError>
        ensures { IfOk result (λ stopped. Stepped (json_reading_of self.old) (spec.valued (json_reading_of self.old) text.now)
            (λ e. e ≡ self.old.next) stopped (json_reading_of self.new)) }
    {
        let expected = self.next;
        if !is_value(expected) {
            return Ok(Some(expected));
        }
        let next = after_value(self.innermost());
        Ok(if self.take(text, next)? {
            None
        } else {
            Some(expected)
        })
    }

    /// Takes a string, as a key or a value.
    fn string(&mut self, text: &str) -> Result<Option<Expected>, AllocError>
        ensures { IfOk result (λ stopped. Stepped (json_reading_of self.old) (spec.keyed (json_reading_of self.old) text.now)
            (λ e. e ≡ self.old.next) stopped (json_reading_of self.new)) }
    {
        let expected = self.next;
        let next = if is_key(expected) {
            Expected::Colon
        } else if is_value(expected) {
            after_value(self.innermost())
        } else {
            return Ok(Some(expected));
        };
        Ok(if self.take(text, next)? {
            None
        } else {
            Some(expected)
        })
    }

    /// Whether a string may come.
    pub fn expects_string(&self) -> bool
        ensures { result ≡ expects_string self.now.next }
    {
        is_value(self.next) || is_key(self.next)
    }

    /// How long the value is that a longer word begins with, in bytes, and what may follow it. `None` where a word that JSON does
    /// not have begins with none, or where no value may come.
    ///
    /// `AllocError` where memory is refused.
    pub fn value_in(&mut self, word: &str) -> Result<Option<(usize, Expected)>, AllocError>
        ensures { IfOk result (λ found. found ≡ cond (begins_value (json_reading_of self.old) word.now)
            (Some (length (plain_front word.now), after_value (spec.innermost_bracket (json_reading_of self.old).open_brackets))) None) }
    {
        let len = plain_len(word);
        let value = word.get(..len).unwrap_or("");
        if is_value(self.next) && is_leaf(value, &mut self.scratch)? {
            Ok(Some((len, after_value(self.innermost()))))
        } else {
            Ok(None)
        }
    }

    /// Takes one lexeme, which begins at this offset. Where it may not stand here, what was expected in its place is given.
    ///
    /// `AllocError` where memory is refused.
    pub fn step(
        &mut self,
        lexeme: Lexeme<'_>,
        offset: usize,
    ) -> Result<Option<Expected>, AllocError>
        ensures { IsNamed lexeme.entry → IfOk result (λ stopped. Stepped (json_reading_of self.old)
            (spec.json_step (json_reading_of self.old) (text_of lexeme.entry))
            (IsExpectedBy (spec.json_sort_of (text_of lexeme.entry)) (json_reading_of self.old)) stopped (json_reading_of self.new)) }
    {
        match lexeme {
            Lexeme::OpenArray => self.open(
                Open::new(Bracket::Array, offset),
                Expected::ValueOrBracket,
            ),
            Lexeme::OpenObject => self.open(
                Open::new(Bracket::Object, offset),
                Expected::KeyOrBrace,
            ),
            Lexeme::CloseArray => Ok(self.close(closes_array(self.next))),
            Lexeme::CloseObject => Ok(self.close(closes_object(self.next))),
            Lexeme::Comma => Ok(self.pass(after_comma(self.next))),
            Lexeme::Colon => Ok(self.pass(after_colon(self.next))),
            Lexeme::String(text) => self.string(text),
            Lexeme::Word(text) => self.word(text),
        }
    }
}
