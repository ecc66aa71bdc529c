//! What stands at the start of a text.

ghost use Rattle.std.specs.Prelude.{◌≡◌, ◌<◌, ◌≤◌, length, take_while};
ghost use Rattle.smv_expr.specs.Lexicon as spec;

use crate::kind::Kind;
use crate::numeral::numeral_value;

/// A token, or a piece of the text between tokens: its kind, and how many bytes it takes.
#[derive(Clone, Copy)]
pub struct Lexeme {
    pub kind: Kind,
    pub len: usize,
}

/// The reserved words, and the words that are left out.
static WORDS: [(&[u8], Kind); 58] = [
    (b"MODULE", Kind::Module),
    (b"VAR", Kind::Var),
    (b"ASSIGN", Kind::Assign),
    (b"DEFINE", Kind::Define),
    (b"INIT", Kind::InitSection),
    (b"INVAR", Kind::InvarSection),
    (b"TRANS", Kind::TransSection),
    (b"INVARSPEC", Kind::InvarSpec),
    (b"SPEC", Kind::Spec),
    (b"CTLSPEC", Kind::CtlSpec),
    (b"LTLSPEC", Kind::LtlSpec),
    (b"FAIRNESS", Kind::Fairness),
    (b"JUSTICE", Kind::Justice),
    (b"COMPASSION", Kind::Compassion),
    (b"boolean", Kind::Boolean),
    (b"TRUE", Kind::True),
    (b"FALSE", Kind::False),
    (b"case", Kind::Case),
    (b"esac", Kind::Esac),
    (b"init", Kind::Init),
    (b"next", Kind::Next),
    (b"in", Kind::In),
    (b"mod", Kind::Mod),
    (b"xor", Kind::Xor),
    (b"xnor", Kind::Xnor),
    (b"FEATURE", Kind::Feature),
    (b"REQUIRE", Kind::Require),
    (b"INTRODUCE", Kind::Introduce),
    (b"CHANGE", Kind::Change),
    (b"IF", Kind::If),
    (b"THEN", Kind::Then),
    (b"IMPOSE", Kind::Impose),
    (b"TREAT", Kind::Treat),
    (b"END", Kind::End),
    (b"FEATUREMODEL", Kind::FeatureModel),
    (b"ROOT", Kind::Root),
    (b"MANDATORY", Kind::Mandatory),
    (b"OPTIONAL", Kind::Optional),
    (b"OR", Kind::OrGroup),
    (b"ALTERNATIVE", Kind::Alternative),
    (b"CONSTRAINT", Kind::Constraint),
    (b"process", Kind::LeftOut),
    (b"self", Kind::LeftOut),
    (b"word", Kind::LeftOut),
    (b"unsigned", Kind::LeftOut),
    (b"signed", Kind::LeftOut),
    (b"array", Kind::LeftOut),
    (b"of", Kind::LeftOut),
    (b"real", Kind::LeftOut),
    (b"integer", Kind::LeftOut),
    (b"union", Kind::LeftOut),
    (b"ISA", Kind::LeftOut),
    (b"FROZENVAR", Kind::LeftOut),
    (b"IVAR", Kind::LeftOut),
    (b"CONSTANTS", Kind::LeftOut),
    (b"COMPUTE", Kind::LeftOut),
    (b"PSLSPEC", Kind::LeftOut),
    (b"NAME", Kind::LeftOut),
];

/// The marks, the longest first, so that the first that fits is the longest that does.
static MARKS: [(&[u8], Kind); 31] = [
    (b"<->", Kind::Iff),
    (b"..", Kind::DotDot),
    (b"!=", Kind::NotEqual),
    (b"<=", Kind::LessEqual),
    (b">=", Kind::GreaterEqual),
    (b"->", Kind::Implies),
    (b":=", Kind::Becomes),
    (b"<<", Kind::LeftOut),
    (b">>", Kind::LeftOut),
    (b"::", Kind::LeftOut),
    (b";", Kind::Semicolon),
    (b":", Kind::Colon),
    (b",", Kind::Comma),
    (b".", Kind::Dot),
    (b"(", Kind::OpenParen),
    (b")", Kind::CloseParen),
    (b"{", Kind::OpenBrace),
    (b"}", Kind::CloseBrace),
    (b"=", Kind::Equal),
    (b"<", Kind::Less),
    (b">", Kind::Greater),
    (b"+", Kind::Plus),
    (b"-", Kind::Minus),
    (b"*", Kind::Star),
    (b"!", Kind::Not),
    (b"&", Kind::And),
    (b"|", Kind::Or),
    (b"/", Kind::LeftOut),
    (b"?", Kind::LeftOut),
    (b"[", Kind::LeftOut),
    (b"]", Kind::LeftOut),
];

fn is_blank(byte: u8) -> bool
    ensures { result ≡ spec.is_blank byte }
{
    byte == b' ' || byte == b'\t' || byte == b'\r' || byte == b'\n' || byte == b'\x0c'
}

fn is_letter(byte: u8) -> bool
    ensures { result ≡ spec.is_letter byte }
{
    (b'a' <= byte && byte <= b'z') || (b'A' <= byte && byte <= b'Z') || byte == b'_'
}

fn is_digit(byte: u8) -> bool
    ensures { result ≡ spec.is_digit byte }
{
    b'0' <= byte && byte <= b'9'
}

fn is_name_part(byte: u8) -> bool
    ensures { result ≡ spec.is_name_part byte }
{
    is_letter(byte) || is_digit(byte) || byte == b'$' || byte == b'#'
}

fn name_len(text: &[u8]) -> usize
    ensures { result ≡ length (take_while spec.is_name_part text.now) }
{
    text.iter().take_while(|b| is_name_part(**b)).count()
}

fn name_part(text: &[u8]) -> &[u8]
    ensures { result.now ≡ take_while spec.is_name_part text.now }
{
    &text[..name_len(text)]
}

fn digits_len(text: &[u8]) -> usize
    ensures { result ≡ length (take_while spec.is_digit text.now) }
{
    text.iter().take_while(|b| is_digit(**b)).count()
}

fn digits(text: &[u8]) -> &[u8]
    ensures { result.now ≡ take_while spec.is_digit text.now }
{
    &text[..digits_len(text)]
}

fn line_len(text: &[u8]) -> usize
    ensures { result ≡ length (take_while spec.is_in_line text.now) }
{
    text.iter().take_while(|b| **b != b'\n').count()
}

/// The kind that stands with the word in the table.
fn find_word(words: &[(&[u8], Kind)], word: &[u8]) -> Kind
    ensures { result ≡ spec.find_word (spec.spelled words.now) word.now }
{
    for (spelling, kind) in words {
        if *spelling == word {
            return *kind;
        }
    }
    Kind::Name
}

/// The first mark of the table with which the text begins.
fn find_mark(marks: &[(&[u8], Kind)], text: &[u8]) -> Lexeme
    ensures { result ≡ spec.find_mark (spec.spelled marks.now) text.now }
{
    for (spelling, kind) in marks {
        if text.starts_with(*spelling) {
            return Lexeme {
                kind: *kind,
                len: spelling.len(),
            };
        }
    }
    Lexeme {
        kind: Kind::Unknown,
        len: 1,
    }
}

/// Whether the text begins with a comment.
fn begins_comment(text: &[u8]) -> bool
    ensures { result ≡ spec.begins_comment text.now }
{
    text.starts_with(b"--")
}

#[tactic(auto, unfolding(crate::specs::Lexicon::words))]
fn word_kind(word: &[u8]) -> Kind
    ensures { result ≡ spec.find_word spec.words word.now }
{
    find_word(&WORDS, word)
}

fn word_lexeme(text: &[u8]) -> Lexeme
    ensures { result ≡ spec.word_lexeme text.now }
{
    let word = name_part(text);
    Lexeme {
        kind: word_kind(word),
        len: word.len(),
    }
}

#[tactic(auto, using(crate::proofs::Spellings::run_of_digits), unfolding(crate::specs::Lexicon::numeral_lexeme))]
fn numeral_lexeme(text: &[u8]) -> Lexeme
    ensures { result ≡ spec.numeral_lexeme text.now }
{
    let digits = digits(text);
    let kind = match numeral_value(digits) {
        Some(_) => Kind::Numeral,
        None => Kind::WideNumeral,
    };
    Lexeme {
        kind,
        len: digits.len(),
    }
}

#[tactic(auto, unfolding(crate::specs::Lexicon::mark_lexeme, crate::specs::Lexicon::marks))]
fn mark_lexeme(text: &[u8]) -> Lexeme
    ensures { result ≡ spec.mark_lexeme text.now }
{
    find_mark(&MARKS, text)
}

/// What stands at the start of the text.
#[tactic(auto, unfolding(crate::specs::Lexicon::first_lexeme))]
pub fn first_lexeme(text: &[u8]) -> Lexeme
    requires { 0 < length text.now }
    ensures { result ≡ spec.first_lexeme text.now }
{
    let [first, ..] = text else { unreachable!() };
    if is_blank(*first) {
        Lexeme {
            kind: Kind::Space,
            len: 1,
        }
    } else if begins_comment(text) {
        Lexeme {
            kind: Kind::Space,
            len: line_len(text),
        }
    } else if is_letter(*first) {
        word_lexeme(text)
    } else if is_digit(*first) {
        numeral_lexeme(text)
    } else {
        mark_lexeme(text)
    }
}
