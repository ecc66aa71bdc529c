//! What is answered of a whole text.

ghost use Rattle.std.specs.Prelude.{◌≡◌, ◌<◌, ◌^◌, length, IfOk};
ghost use Rattle.smv_expr.specs.Reading.{Outcome, Gives};
ghost use Rattle.smv_expr.specs.Answer as spec;
ghost use Rattle.smv_expr.specs.ExprAnswer.{ExprAnswer, ReadsExpr, limited_expr};
ghost use Rattle.smv_expr.specs.RoundTrip.{Printable, IsRoundTrip};
ghost use Rattle.smv_ast.specs.PrintedExpr.{printed_expr};
ghost use Rattle.smv_ast.specs.declared.syntax.Expr.{Expr};

use crate::cursor::Cursor;
use crate::error::ReadError;
use crate::expr::{Level, expr};
use crate::kind::Kind;
use crate::measured::NESTING_BOUND;
use smv_ast::{Expr, Fault, NoMemory, Span};
use std::alloc::Global;

/// Where the next token of the file stands, or the file ends.
fn next_span(tokens: &Cursor<'_>, file: u32, bytes: &[u8]) -> Span
    requires { length bytes.now < 2 ^ 32 }
    ensures { result ≡ spec.next_span file bytes.now tokens.now }
{
    match tokens.span() {
        Some(at) => at,
        None => Span {
            file,
            at: bytes.len() as u32,
        },
    }
}

/// The fault of a token up to which no text begins, or of the end of the file.
fn syntax_fault(
    alloc: Global,
    tokens: &Cursor<'_>,
    file: u32,
    bytes: &[u8],
) -> Result<Fault, NoMemory>
    requires { length bytes.now < 2 ^ 32 }
    ensures { IfOk result (λ fault. fault ≡ spec.syntax_fault file bytes.now tokens.now) }
{
    let at = Some(next_span(tokens, file, bytes));
    if !tokens.sees(Kind::LeftOut) {
        return Ok(Fault::Syntax { at });
    }
    let word = tokens.left_out(alloc)?;
    Ok(Fault::LeftOut { at, word })
}

/// The fault of a reader that stopped at the next token.
fn fault(
    alloc: Global,
    error: ReadError,
    tokens: &Cursor<'_>,
    file: u32,
    bytes: &[u8],
) -> Result<Fault, NoMemory>
    requires { length bytes.now < 2 ^ 32 }
    ensures { IfOk result (λ fault. spec.IsFaultOf file bytes.now error tokens.now fault) }
{
    let at = Some(next_span(tokens, file, bytes));
    match error {
        ReadError::NoMemory => Err(NoMemory),
        ReadError::Unexpected => syntax_fault(alloc, tokens, file, bytes),
        ReadError::WideNumber => Ok(Fault::WideNumber { at }),
        ReadError::TooNested => Ok(Fault::TooNested { at }),
    }
}

/// What is answered of a file in which a reader found this, from the first token on, and left these tokens.
///
/// A reader of whole files ends with this call: what it found is the answer where no token is left.
pub fn answer<T: Drop>(
    alloc: Global,
    found: Result<T, ReadError>,
    tokens: &Cursor<'_>,
    file: u32,
    bytes: &[u8],
) -> Result<T, Fault>
    requires { length bytes.now < 2 ^ 32 }
    ensures { (o : Outcome T) → Gives o found tokens.now → spec.IsResultOf file bytes.now o result }
{
    match found {
        Err(error) => Err(fault(alloc, error, tokens, file, bytes)?),
        Ok(value) => {
            if !tokens.is_at_end() {
                return Err(syntax_fault(alloc, tokens, file, bytes)?);
            }
            Ok(value)
        }
    }
}

/// A whole expression within the limits of nesting, from the next token on.
pub fn whole_expr(alloc: Global, tokens: &mut Cursor<'_>) -> Result<Expr, ReadError>
    ensures { Gives (limited_expr tokens.old) result tokens.new }
{
    let depth = NESTING_BOUND as usize;
    let tree = expr(alloc, tokens, depth, NESTING_BOUND, Level::Whole)?;
    Ok(tree.into_expr())
}

/// The expression that the bytes of a file are, which takes all of them. Each text within the limits is answered Ok.
///
/// The end of the file counts as a token. The errors, each at the token with which it is first met:
///
/// - `Syntax`: no expression begins with the tokens up to this one, whatever the size of its numerals. `LeftOut` where the
///   token is a word or a mark of SMV that is left out here.
/// - `WideNumber`: a numeral over 2,147,483,647 that an expression may have there.
/// - `TooNested`: before the token more than 1,000 of `(`, `{`, `case`, `!`, `->` and `-` that negate are open, or with it an
///   expression ends whose tree is higher than 1,000. An expression with numerals within the limit begins with the tokens up
///   to this one, but none within the limits of nesting does. Each beginning of the text that ends before it, and is an
///   expression, is within them.
/// - `NoMemory`: memory ran out.
///
/// Each expression that is answered is printable: its names are identifiers, and its numbers are within the limit.
pub fn read_expr(alloc: Global, file: u32, bytes: &[u8]) -> Result<Expr, Fault>
    requires { length bytes.now < 2 ^ 32 }
    ensures answer { ExprAnswer file bytes.now result }
    ensures complete { (a : Expr) → ReadsExpr file bytes.now a → spec.IsAnswered a result }
    ensures round_trip { (e : Expr) → Printable e → bytes.now ≡ printed_expr e
        → IsRoundTrip file bytes.now e result }
    ensures printable { IfOk result Printable }
{
    let mut tokens = Cursor::new(file, bytes);
    let found = whole_expr(alloc, &mut tokens);
    answer(alloc, found, &tokens, file, bytes)
}
