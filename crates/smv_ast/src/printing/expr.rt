//! The canonical text of expressions.

ghost use Rattle.std.specs.Prelude.{◌≡◌, ◌++◌, OnOk, string_bytes, map, codes};
ghost use Rattle.std.specs.Fmt.{decimal, signed_decimal};
ghost use Rattle.smv_ast.specs.PrintedExpr as spec;

use crate::syntax::{Branch, Choice, Expr, Op};
use fsmv_base::Text;
use itoa::Buffer;
use std::alloc::AllocError;

pub fn print_signed(out: &mut String, n: i64) -> Result<(), AllocError>
    ensures { OnOk result (string_bytes out.new ≡ string_bytes out.old ++ signed_decimal n) }
{
    let mut buffer = Buffer::new();
    out.push_str(buffer.format(n))
}

fn print_unsigned(out: &mut String, n: u32) -> Result<(), AllocError>
    ensures { OnOk result (string_bytes out.new ≡ string_bytes out.old ++ decimal n) }
{
    let mut buffer = Buffer::new();
    out.push_str(buffer.format(n))
}

pub fn print_text(out: &mut String, text: &Text) -> Result<(), AllocError>
    ensures { OnOk result (string_bytes out.new ≡ string_bytes out.old ++ text.now) }
{
    out.push_str(text.as_str())
}

/// `low..high`.
pub fn print_range(out: &mut String, low: i64, high: i64) -> Result<(), AllocError>
    ensures { OnOk result (string_bytes out.new
        ≡ string_bytes out.old ++ (signed_decimal low ++ codes ".." ++ signed_decimal high)) }
{
    print_signed(out, low)?;
    out.push_str("..")?;
    print_signed(out, high)
}

/// Appends the texts to `out`, with the separator between them. The only error is `AllocError`.
pub fn print_joined(out: &mut String, separator: &str, texts: &[Text]) -> Result<(), AllocError>
    ensures { OnOk result (string_bytes out.new ≡ string_bytes out.old
        ++ spec.joined separator.now texts.now) }
{
    let [first, remaining @ ..] = texts else {
        return Ok(());
    };
    print_text(out, first)?;
    for text in remaining {
        out.push_str(separator)?;
        print_text(out, text)?;
    }
    Ok(())
}

fn op_text(op: Op) -> &'static str
    ensures { result.now ≡ spec.op_text op }
{
    match op {
        Op::Add => " + ",
        Op::Sub => " - ",
        Op::Mul => " * ",
        Op::Mod => " mod ",
        Op::Eq => " = ",
        Op::Ne => " != ",
        Op::Lt => " < ",
        Op::Gt => " > ",
        Op::Le => " <= ",
        Op::Ge => " >= ",
        Op::And => " & ",
        Op::Or => " | ",
        Op::Xor => " xor ",
        Op::Xnor => " xnor ",
        Op::Iff => " <-> ",
        Op::Implies => " -> ",
    }
}

fn is_primary(e: &Expr) -> bool
    ensures { result ≡ (spec.piece_of e.now).primary }
{
    match e {
        Expr::True
        | Expr::False
        | Expr::Number(_)
        | Expr::Name(_)
        | Expr::Cases(_)
        | Expr::Next(_) => true,
        _ => false,
    }
}

#[cycle(print)]
fn print_operand(out: &mut String, e: &Expr) -> Result<(), AllocError>
    ensures { OnOk result (string_bytes out.new ≡ string_bytes out.old
        ++ spec.operand (spec.piece_of e.now)) }
{
    if is_primary(e) {
        return print_expr(out, e);
    }
    out.push_str("(")?;
    print_expr(out, e)?;
    out.push_str(")")
}

#[cycle(print)]
fn print_choice(out: &mut String, choice: &Choice) -> Result<(), AllocError>
    ensures { OnOk result (string_bytes out.new ≡ string_bytes out.old
        ++ spec.printed_choice choice.now) }
{
    match choice {
        Choice::Each(parts) => {
            out.push_str("{")?;
            print_listed(out, parts.as_slice())?;
            out.push_str("}")
        }
        Choice::Between { low, high } => print_range(out, *low, *high),
    }
}

/// The expressions with `, ` between them.
#[cycle(print)]
pub fn print_listed(out: &mut String, parts: &[Expr]) -> Result<(), AllocError>
    ensures { OnOk result (string_bytes out.new
        ≡ string_bytes out.old ++ spec.listed (spec.texts (map spec.piece_of parts.now))) }
{
    let [first, remaining @ ..] = parts else {
        return Ok(());
    };
    print_expr(out, first)?;
    for part in remaining {
        out.push_str(", ")?;
        print_expr(out, part)?;
    }
    Ok(())
}

#[cycle(print)]
fn print_branches(out: &mut String, branches: &[Branch]) -> Result<(), AllocError>
    ensures { OnOk result (string_bytes out.new
        ≡ string_bytes out.old ++ spec.concatenated (map spec.printed_branch branches.now)) }
{
    for branch in branches {
        print_expr(out, &branch.cond)?;
        out.push_str(" : ")?;
        print_expr(out, &branch.value)?;
        out.push_str("; ")?;
    }
    Ok(())
}

/// Appends the canonical text of an expression to `out`. The only error is `AllocError`.
#[cycle(print)]
pub fn print_expr(out: &mut String, e: &Expr) -> Result<(), AllocError>
    ensures { OnOk result (string_bytes out.new ≡ string_bytes out.old ++ spec.printed_expr e.now) }
{
    match e {
        Expr::True => out.push_str("TRUE"),
        Expr::False => out.push_str("FALSE"),
        Expr::Number(n) => print_unsigned(out, *n),
        Expr::Name(path) => print_joined(out, ".", path.names.as_slice()),
        Expr::Neg(a) => {
            out.push_str("-")?;
            print_operand(out, a.get())
        }
        Expr::Not(a) => {
            out.push_str("!")?;
            print_operand(out, a.get())
        }
        Expr::Binary(op, a, b) => {
            print_operand(out, a.get())?;
            out.push_str(op_text(*op))?;
            print_operand(out, b.get())
        }
        Expr::Within(a, choice) => {
            print_operand(out, a.get())?;
            out.push_str(" in ")?;
            print_choice(out, choice)
        }
        Expr::Cases(branches) => {
            out.push_str("case ")?;
            print_branches(out, branches.as_slice())?;
            out.push_str("esac")
        }
        Expr::Next(a) => {
            out.push_str("next(")?;
            print_expr(out, a.get())?;
            out.push_str(")")
        }
        Expr::Pick(choice) => print_choice(out, choice),
    }
}
