ghost use Rattle.std.specs.Prelude.{◌≡◌, [], ◌∷◌, option_map, IfOk, MatchOption};
ghost use Rattle.c_grammar.specs.Reading.{is_mark, is_word, after_mark, after_word, after_name};
ghost use Rattle.c_grammar.specs.Parts.{join};
ghost use Rattle.c_parser.specs.Views.{front_of, named_of, first_place, Gives};

use crate::error::ParseError;
use c_token::{Token, TokenKind};
use c_tree::{Bytes, Name, Span};
use std::alloc::{AllocError, Global};

/// What every part of the parser is given: memory, and where the last token ends.
#[derive(Clone, Copy)]
pub(crate) struct Parser {
    pub alloc: Global,
    pub end: u32,
}

impl Parser {
    /// Where the first of these tokens begins; where there is none, the end of the last token of all.
    pub fn place(self, tokens: &[Token]) -> u32
        ensures { result ≡ first_place self.end tokens.now }
    {
        match tokens.first() {
            Some(token) => token.at.start,
            None => self.end,
        }
    }

    /// Takes this mark.
    pub fn mark<'a>(self, tokens: &'a [Token], mark: &[u8]) -> Result<Front<'a>, ParseError>
        ensures { Gives front_of result (after_mark mark.now tokens.now) }
    {
        match after_mark(tokens, mark) {
            Some(front) => Ok(front),
            None => Err(ParseError::Parse(self.place(tokens))),
        }
    }

    /// Takes this word.
    pub fn word<'a>(self, tokens: &'a [Token], word: &[u8]) -> Result<Front<'a>, ParseError>
        ensures { Gives front_of result (after_word word.now tokens.now) }
    {
        match after_word(tokens, word) {
            Some(front) => Ok(front),
            None => Err(ParseError::Parse(self.place(tokens))),
        }
    }

    /// Takes a name.
    pub fn name<'a>(self, tokens: &'a [Token]) -> Result<Named<'a>, ParseError>
        ensures { Gives named_of result (after_name tokens.now) }
    {
        match after_name(tokens) {
            Some(named) => Ok(named),
            None => Err(ParseError::Parse(self.place(tokens))),
        }
    }
}

/// The token at the front, and those after it.
#[derive(Clone, Copy)]
pub(crate) struct Front<'a> {
    pub token: &'a Token,
    pub rest: &'a [Token],
}

/// A name at the front, and the tokens after it.
#[derive(Clone, Copy)]
pub(crate) struct Named<'a> {
    pub name: &'a Name,
    pub token: &'a Token,
    pub rest: &'a [Token],
}

pub(crate) fn is_mark(kind: &TokenKind, mark: &[u8]) -> bool
    ensures { result ≡ is_mark mark.now kind.now }
{
    match kind {
        TokenKind::Mark(m) => m.items.as_slice() == mark,
        _ => false,
    }
}

pub(crate) fn is_word(kind: &TokenKind, word: &[u8]) -> bool
    ensures { result ≡ is_word word.now kind.now }
{
    match kind {
        TokenKind::Word(w) => w.items.as_slice() == word,
        _ => false,
    }
}

/// The token at the front, where there is one.
pub(crate) fn first_token(tokens: &[Token]) -> Option<Front<'_>>
    ensures { MatchOption result (tokens.now ≡ []) (λ q. tokens.now ≡ q.token.now ∷ q.rest.now) }
{
    let (token, rest) = tokens.split_first()?;
    Some(Front { token, rest })
}

pub(crate) fn after_mark<'a>(tokens: &'a [Token], mark: &[u8]) -> Option<Front<'a>>
    ensures { option_map front_of result ≡ after_mark mark.now tokens.now }
{
    let (token, rest) = tokens.split_first()?;
    is_mark(&token.kind, mark).then_some(Front { token, rest })
}

pub(crate) fn after_word<'a>(tokens: &'a [Token], word: &[u8]) -> Option<Front<'a>>
    ensures { option_map front_of result ≡ after_word word.now tokens.now }
{
    let (token, rest) = tokens.split_first()?;
    is_word(&token.kind, word).then_some(Front { token, rest })
}

pub(crate) fn after_name(tokens: &[Token]) -> Option<Named<'_>>
    ensures { option_map named_of result ≡ after_name tokens.now }
{
    let (token, rest) = tokens.split_first()?;
    match &token.kind {
        TokenKind::Name(name) => Some(Named { name, token, rest }),
        _ => None,
    }
}

/// From the first token of one span to the last of the other.
pub(crate) fn join(from: Span, to: Span) -> Span
    ensures { result ≡ join from to }
{
    Span {
        end: to.end,
        ..from
    }
}

pub(crate) fn copy_name(alloc: Global, name: &Name) -> Result<Name, AllocError>
    ensures { IfOk result (λ copy. copy ≡ name.now) }
{
    let items = name.items.as_slice().to_vec(alloc)?;
    Ok(Name { items })
}

pub(crate) fn copy_bytes(alloc: Global, bytes: &Bytes) -> Result<Bytes, AllocError>
    ensures { IfOk result (λ copy. copy ≡ bytes.now) }
{
    let items = bytes.items.as_slice().to_vec(alloc)?;
    Ok(Bytes { items })
}
