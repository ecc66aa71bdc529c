//! The tokens of a text, each cut from it as it is reached.

ghost use Rattle.std.specs.Prelude.{◌≡◌, ◌≢◌, ◌↔◌, ◌+◌, ◌<◌, ◌≤◌, ◌^◌, [], ◌∷◌, true, false, length, drop, Some, option_map, IfOk, IsTrue, IsSome, All};
ghost use Rattle.smv_expr.specs.declared.kind.Kind.TheVariants as k;
ghost use Rattle.smv_expr.specs.Lexicon as spec;
ghost use Rattle.smv_expr.specs.Lexicon.{IsNumeral};
ghost use Rattle.smv_expr.specs.Language.{begins, begins_name, named, followed_by, kinds_of, find_kind, next_of, kind_of, span_of, text_of};
ghost use Rattle.smv_expr.specs.Reading.{Gives, Eats, read_leaf, read_word, read_name, read_numeral, read_one_of};
ghost use Rattle.smv_expr.specs.ExprReaders.{read_limited};

use crate::error::ReadError;
use crate::kind::Kind;
use crate::lexeme::{Lexeme, first_lexeme};
use crate::numeral::numeral_value;
use smv_ast::{NoMemory, Span, Text};
use std::alloc::Global;
use std::marker::Model;

#[tactic(auto, unfolding(crate::specs::Lexicon::same_kind))]
fn same_kind(a: Kind, b: Kind) -> bool
    ensures { result ≡ spec.same_kind a b }
{
    a == b
}

fn text_after(text: &[u8], len: usize) -> &[u8]
    requires { len ≤ length text.now }
    ensures { result.now ≡ drop len text.now }
{
    &text[len..]
}

fn find_kind<T: Copy>(table: &[(Kind, T)], kind: Kind) -> Option<T>
    ensures { result ≡ find_kind table.now kind }
{
    for (one, found) in table {
        if same_kind(kind, *one) {
            return Some(*found);
        }
    }
    None
}

/// The tokens that are left of a file. Contracts see the list of them.
#[derive(Drop)]
pub struct Cursor<'a> {
    file: u32,
    /// The text from the next token on, and its offset in the file.
    remaining: &'a [u8],
    at: usize,
    /// The next token, which stands at the start of `remaining`.
    next: Option<Lexeme>,
}

impl<'a> Model for Cursor<'a> {
    ghost use Rattle.std.specs.Prelude.{List};
    ghost use Rattle.smv_expr.specs.Lexicon.{Token};

    ghost Value = { List Token };

    ghost use Rattle.smv_expr.specs.CursorView.{tokens_left, IsReady};

    ghost view = { tokens_left };

    ghost invariant = { IsReady };
}

/// A cursor at the first token of a text that stands at this offset of the file.
fn cursor_at(file: u32, text: &[u8], offset: usize) -> Cursor<'_>
    requires { offset + length text.now < 2 ^ 32 }
    ensures { result ≡ spec.tokens_from file offset text.entry.now }
{
    let mut remaining = text;
    let mut at = offset;
    'blanks: while !remaining.is_empty() {
        let next = first_lexeme(remaining);
        if !same_kind(next.kind, Kind::Space) {
            return Cursor {
                file,
                remaining,
                at,
                next: Some(next),
            };
        }
        remaining = text_after(remaining, next.len);
        at += next.len;
    }
    Cursor {
        file,
        remaining,
        at,
        next: None,
    }
}

impl<'a> Cursor<'a> {
    /// The tokens of a file.
    pub fn new(file: u32, bytes: &'a [u8]) -> Cursor<'a>
        requires { length bytes.now < 2 ^ 32 }
        ensures { result ≡ spec.tokens file bytes.now }
    {
        cursor_at(file, bytes, 0)
    }

    pub fn is_at_end(&self) -> bool
        ensures { IsTrue result ↔ (self.now ≡ []) }
    {
        self.next.is_none()
    }

    /// Where the next token stands. At the end of the file no token does.
    pub fn span(&self) -> Option<Span>
        ensures { result ≡ option_map span_of (next_of self.now) }
    {
        match self.next {
            None => None,
            Some(_) => Some(Span {
                file: self.file,
                at: self.at as u32,
            }),
        }
    }

    /// Whether the next token is of this kind.
    pub fn sees(&self, kind: Kind) -> bool
        ensures { result ≡ begins (kind ∷ []) self.now }
    {
        match self.next {
            None => false,
            Some(next) => same_kind(next.kind, kind),
        }
    }

    /// Whether the kind of the next token stands in the table.
    pub fn sees_one_of<T: Copy>(&self, table: &[(Kind, T)]) -> bool
        ensures { result ≡ begins (kinds_of table.now) self.now }
    {
        match self.next {
            None => false,
            Some(next) => find_kind(table, next.kind).is_some(),
        }
    }

    /// Whether the token after the next one is of this kind.
    pub fn sees_second(&self, kind: Kind) -> bool
        ensures { result ≡ followed_by kind self.now }
    {
        match self.next {
            None => false,
            Some(next) => {
                let remaining = text_after(self.remaining, next.len);
                cursor_at(self.file, remaining, self.at + next.len).sees(kind)
            }
        }
    }

    /// The kind of the next token.
    pub fn kind(&self) -> Option<Kind>
        ensures { result ≡ option_map kind_of (next_of self.now) }
    {
        match self.next {
            None => None,
            Some(next) => Some(next.kind),
        }
    }

    /// The next token's span.
    fn here(&self) -> Span
        requires { IsSome (next_of self.now) }
        ensures { option_map span_of (next_of self.now) ≡ Some result }
    {
        match self.span() {
            None => unreachable!(),
            Some(at) => at,
        }
    }

    /// The next token's bytes.
    fn spelling(&self) -> &'a [u8]
        requires { IsSome (next_of self.now) }
        ensures text { option_map text_of (next_of self.now) ≡ Some result.now }
        ensures name { begins (k.Name ∷ []) self.now ≡ true → All (λ b. b < 128) result.now }
        ensures left_out { begins (k.LeftOut ∷ []) self.now ≡ true → All (λ b. b < 128) result.now }
        ensures numeral { begins (k.Numeral ∷ []) self.now ≡ true → IsNumeral result.now }
    {
        let remaining = self.remaining;
        match self.next {
            None => unreachable!(),
            Some(next) => &remaining[..next.len],
        }
    }

    /// Steps over the next token.
    pub fn advance(&mut self)
        requires { IsSome (next_of self.old) }
        ensures { self.new ≡ drop 1 self.old }
    {
        let Some(next) = self.next else {
            unreachable!()
        };
        *self = cursor_at(
            self.file,
            text_after(self.remaining, next.len),
            self.at + next.len,
        );
    }

    /// The text of the next token, which is a word or a mark that is left out.
    pub fn left_out(&self, alloc: Global) -> Result<Text, NoMemory>
        requires { begins (k.LeftOut ∷ []) self.now ≡ true }
        ensures { IfOk result (λ text. option_map text_of (next_of self.now) ≡ Some text) }
    {
        Text::from_ascii(alloc, self.spelling())
    }

    /// Takes the next token, if it is of this kind, and says where it stands.
    pub fn eat(&mut self, kind: Kind) -> Option<Span>
        ensures { Eats (kind ∷ []) (read_word kind) self.old result self.new }
    {
        if !self.sees(kind) {
            return None;
        }
        let at = self.here();
        self.advance();
        Some(at)
    }

    /// Takes the next token, if its kind stands in the table, and says what stands with it there.
    #[tactic(auto, using(crate::proofs::NextToken::table_read, crate::proofs::NextToken::table_other))]
    pub fn eat_one_of<T: Copy>(&mut self, table: &[(Kind, T)]) -> Option<T>
        ensures { Eats (kinds_of table.now) (read_one_of table.now) self.old result self.new }
    {
        let Some(kind) = self.kind() else {
            return None;
        };
        let Some(found) = find_kind(table, kind) else {
            return None;
        };
        self.advance();
        Some(found)
    }

    /// Takes the next token, whose kind has to stand in the table, and says what stands with it there.
    #[tactic(auto, using(crate::proofs::NextToken::table_stops))]
    pub fn one_of<T: Copy>(&mut self, table: &[(Kind, T)]) -> Result<T, ReadError>
        ensures { Gives (read_one_of table.now self.old) result self.new }
    {
        match self.eat_one_of(table) {
            None => Err(ReadError::Unexpected),
            Some(found) => Ok(found),
        }
    }

    /// Takes the next token, which has to be of this kind, and says where it stands.
    pub fn expect(&mut self, kind: Kind) -> Result<Span, ReadError>
        ensures { Gives (read_word kind self.old) result self.new }
    {
        if !self.sees(kind) {
            return Err(ReadError::Unexpected);
        }
        let at = self.here();
        self.advance();
        Ok(at)
    }

    /// Takes the next token, which has to be a name: its text, and where it stands.
    pub fn name(&mut self, alloc: Global) -> Result<(Text, Span), ReadError>
        ensures { Gives (read_name self.old) result self.new }
    {
        if !self.sees(Kind::Name) {
            return Err(ReadError::Unexpected);
        }
        let at = self.here();
        let text = Text::from_ascii(alloc, self.spelling())?;
        self.advance();
        Ok((text, at))
    }

    /// Whether the next token is the name of this spelling.
    fn sees_name(&self, name: &str) -> bool
        ensures { result ≡ begins_name name.now self.now }
    {
        self.sees(Kind::Name) && self.spelling() == name.as_bytes()
    }

    /// Takes the next token, which has to be the name of this spelling, and says where it stands.
    #[tactic(auto, using(crate::proofs::NextToken::named_read, crate::proofs::NextToken::named_stop, crate::proofs::NextToken::some_named))]
    pub fn this_name(&mut self, name: &str) -> Result<Span, ReadError>
        ensures { Gives (read_leaf (named name.now) self.old) result self.new }
    {
        if !self.sees_name(name) {
            return Err(ReadError::Unexpected);
        }
        let at = self.here();
        self.advance();
        Ok(at)
    }

    /// Takes the next token, which has to be a numeral: its value, and where it stands.
    pub fn numeral(&mut self) -> Result<(u32, Span), ReadError>
        ensures { Gives (read_numeral self.old) result self.new }
    {
        if !self.sees(Kind::Numeral) {
            return Err(ReadError::Unexpected);
        }
        let at = self.here();
        match numeral_value(self.spelling()) {
            None => unreachable!(),
            Some(value) => {
                self.advance();
                Ok((value, at))
            }
        }
    }

    /// Takes the next token, which has to be a numeral within the limit: its value, and where it stands.
    #[tactic(auto, using(crate::proofs::NextToken::narrow_digits, crate::proofs::NextToken::wide_stops))]
    pub fn limited(&mut self) -> Result<(u32, Span), ReadError>
        ensures { Gives (read_limited false self.old) result self.new }
    {
        if self.sees(Kind::WideNumeral) {
            return Err(ReadError::WideNumber);
        }
        self.numeral()
    }
}
