//! The kinds of tokens.

/// What a token is. Each reserved word and each mark is a kind of its own.
#[derive(Clone, Copy, Debug, PartialEq, Eq)]
pub enum Kind {
    // The words of models.
    Module,
    Var,
    Assign,
    Define,
    /// INIT, while `Init` is the word `init`.
    InitSection,
    /// INVAR.
    InvarSection,
    /// TRANS.
    TransSection,
    InvarSpec,
    Spec,
    CtlSpec,
    LtlSpec,
    Fairness,
    Justice,
    Compassion,
    Boolean,
    True,
    False,
    Case,
    Esac,
    Init,
    Next,
    In,
    Mod,
    Xor,
    Xnor,
    // The words of features and feature models.
    Feature,
    Require,
    Introduce,
    Change,
    If,
    Then,
    Impose,
    Treat,
    End,
    FeatureModel,
    Root,
    Mandatory,
    Optional,
    /// OR, while `Or` is the mark `|`.
    OrGroup,
    Alternative,
    Constraint,
    // The marks.
    Semicolon,
    Colon,
    Comma,
    Dot,
    DotDot,
    OpenParen,
    CloseParen,
    OpenBrace,
    CloseBrace,
    Equal,
    NotEqual,
    Less,
    Greater,
    LessEqual,
    GreaterEqual,
    Plus,
    Minus,
    Star,
    Not,
    And,
    Or,
    Implies,
    Iff,
    Becomes,
    /// A word or a mark of SMV that is left out here.
    LeftOut,
    Name,
    /// Digits, for a number within the limit.
    Numeral,
    /// Digits, for a greater number.
    WideNumeral,
    /// A byte that begins no token.
    Unknown,
    /// Blanks and comments, which are no tokens.
    Space,
}
