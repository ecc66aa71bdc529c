//! The text of a feature model, in which features stand by name.

use smv_ast::{Expr, GroupKind, List, Span, Text};

/// The name of a feature, and where it stands in a text.
#[derive(Drop)]
pub struct FeatureName {
    pub name: Text,
    pub at: Span,
}

/// A line of a text.
#[derive(Drop)]
pub enum TextLine {
    Group {
        kind: GroupKind,
        parent: FeatureName,
        children: List<FeatureName>,
    },
    Constraint(Expr),
}

/// The text of a feature model: its root, and its lines.
#[derive(Drop)]
pub struct ModelText {
    pub root: FeatureName,
    pub lines: List<TextLine>,
}

/// A line, or the start of the expression of a constraint that is not propositional.
#[derive(Drop)]
pub enum LineReading {
    Line(TextLine),
    Refused(Span),
}

/// Lines, up to the start of the first expression that is refused, if there is one.
#[derive(Drop)]
pub struct LinesReading {
    pub lines: List<TextLine>,
    pub refused: Option<Span>,
}

/// A text, or its beginning up to the start of the first expression that is refused.
#[derive(Drop)]
pub struct TextReading {
    pub text: ModelText,
    pub refused: Option<Span>,
}
