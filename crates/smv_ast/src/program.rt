//! Models: modules with their sections.

use crate::syntax::{Expr, SmvType, Span};
use fsmv_base::Text;
use sqlite_items::Items as List;

/// The type of a variable, or the module and actuals of an instance.
#[derive(Drop)]
pub enum Declared {
    Plain(SmvType),
    Instance { module: Text, actuals: List<Expr> },
}

#[derive(Drop)]
pub struct Declaration {
    pub name: Text,
    pub what: Declared,
    pub at: Span,
}

/// The value that an assignment fixes: the first, the next, or that in every state.
#[derive(Clone, Copy, Debug, PartialEq, Eq)]
pub enum Left {
    Init,
    Next,
    Now,
}

/// `init(name) := right;`, `next(name) := right;` or `name := right;`.
#[derive(Drop)]
pub struct Assignment {
    pub left: Left,
    pub name: Text,
    pub right: Expr,
    pub at: Span,
}

/// `name := right;` of a DEFINE section.
#[derive(Drop)]
pub struct Definition {
    pub name: Text,
    pub right: Expr,
    pub at: Span,
}

#[derive(Drop)]
pub enum Section {
    Vars(List<Declaration>),
    Assigns(List<Assignment>),
    Defines(List<Definition>),
    Init(Expr, Span),
    Invar(Expr, Span),
    Trans(Expr, Span),
    InvarSpec(Expr, Span),
}

#[derive(Drop)]
pub struct Module {
    pub name: Text,
    pub formals: List<Text>,
    pub sections: List<Section>,
    pub at: Span,
}

/// A whole model. Its root instance is the module `main`.
#[derive(Drop)]
pub struct Program {
    pub modules: List<Module>,
}

/// A skipped section, by its first word: SPEC, CTLSPEC, LTLSPEC, FAIRNESS, JUSTICE or COMPASSION.
#[derive(Drop)]
pub struct Skipped {
    pub word: Text,
    pub at: Span,
}
