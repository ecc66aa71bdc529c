//! Spans, names, types and expressions.

use fsmv_base::Text;
use sqlite_items::{Boxed, Items as List};

/// A position in the input: the number of a file, counted from 0 in the order of the command's
/// words, and the offset in bytes from the file's start.
#[derive(Clone, Copy, Debug, PartialEq, Eq)]
pub struct Span {
    pub file: u32,
    pub at: u32,
}

/// Names joined by dots; at least one.
#[derive(Drop)]
pub struct Path {
    pub names: List<Text>,
    pub at: Span,
}

/// The values that a variable may have.
#[derive(Drop)]
pub enum SmvType {
    Boolean,
    /// The whole numbers from `low` up to `high`, both included.
    Range { low: i64, high: i64 },
    Numbers(List<i64>),
    Symbols(List<Text>),
}

/// A binary operator.
#[derive(Clone, Copy, Debug, PartialEq, Eq)]
pub enum Op {
    Add,
    Sub,
    Mul,
    Mod,
    Eq,
    Ne,
    Lt,
    Gt,
    Le,
    Ge,
    And,
    Or,
    Xor,
    Xnor,
    Iff,
    Implies,
}

/// A set of values, by its parts or by its ends.
#[cycle(syntax)]
#[derive(Drop)]
pub enum Choice {
    Each(List<Expr>),
    Between { low: i64, high: i64 },
}

/// `cond : value;` of a case.
#[cycle(syntax)]
#[derive(Drop)]
pub struct Branch {
    pub cond: Expr,
    pub value: Expr,
}

#[cycle(syntax)]
#[derive(Drop)]
pub enum Expr {
    True,
    False,
    Number(u32),
    Name(Path),
    Neg(Boxed<Expr>),
    Not(Boxed<Expr>),
    Binary(Op, Boxed<Expr>, Boxed<Expr>),
    /// `a in s`.
    Within(Boxed<Expr>, Choice),
    /// The value of the first branch whose condition is true, else that of the last.
    Cases(List<Branch>),
    /// The value after the step.
    Next(Boxed<Expr>),
    /// Any one of these values.
    Pick(Choice),
}
