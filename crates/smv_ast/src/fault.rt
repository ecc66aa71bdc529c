//! The reasons for which a text or a family is refused.

use crate::model::Product;
use crate::syntax::Span;
use fsmv_base::{NoMemory, Text};
use std::alloc::{AllocError, AllocFailed};

/// The kind of a fault in the input, with its span and its values. A fault without a span is a
/// fault of the whole input.
#[derive(Drop)]
pub enum Fault {
    /// The tokens up to here are not a viable prefix of the grammar.
    Syntax {
        at: Option<Span>,
    },
    /// A syntax fault at a token of SMV that is not supported here.
    LeftOut {
        at: Option<Span>,
        word: Text,
    },
    /// A numeral, or the interval of an expression, passes 2,147,483,647.
    WideNumber {
        at: Option<Span>,
    },
    /// An expression nests deeper than 1,000.
    TooNested {
        at: Option<Span>,
    },
    /// The file is longer than 16,777,216 bytes.
    TooLong {
        at: Option<Span>,
    },
    /// A name of the input begins with `fsmv_`.
    ReservedName {
        at: Option<Span>,
        name: Text,
    },
    /// The feature model declares the feature twice.
    DuplicateFeature {
        at: Option<Span>,
        name: Text,
    },
    /// A parent, or a name of a constraint, is not declared earlier.
    UnknownFeature {
        at: Option<Span>,
        name: Text,
    },
    /// The feature model declares more than 64 features.
    TooManyFeatures {
        at: Option<Span>,
        count: u64,
    },
    /// A second text for one feature.
    DuplicateText {
        at: Option<Span>,
        name: Text,
    },
    /// The feature model does not name the feature of a text.
    FeatureNotInModel {
        at: Option<Span>,
        name: Text,
    },
    /// The feature model has no valid product.
    NoProduct {
        at: Option<Span>,
    },
    /// The named set of features is no valid product.
    NotValid {
        at: Option<Span>,
        word: Text,
    },
    /// A feature uses a name that is not known in some valid product with the feature.
    RequireMissing {
        at: Option<Span>,
        feature: Text,
        name: Text,
        product: Product,
    },
    /// A required name has another type, or is no variable.
    RequireType {
        at: Option<Span>,
        feature: Text,
        name: Text,
    },
    /// An introduced name is declared already.
    IntroduceClash {
        at: Option<Span>,
        feature: Text,
        name: Text,
    },
    /// A feature introduces an instance.
    IntroducedInstance {
        at: Option<Span>,
        feature: Text,
        name: Text,
    },
    /// A feature assigns a variable that it does not introduce.
    IntroducedAssign {
        at: Option<Span>,
        feature: Text,
        name: Text,
    },
    /// The module declares no variable of this name with a type.
    ImposeTarget {
        at: Option<Span>,
        name: Text,
    },
    /// The left side does not fit the existing assignments of the variable.
    ImposeKind {
        at: Option<Span>,
        name: Text,
    },
    /// The path is not known in the module, or resolves to an instance.
    TreatTarget {
        at: Option<Span>,
        path: Text,
    },
    /// A path is neither known nor a symbol.
    UnknownName {
        at: Option<Span>,
        path: Text,
    },
    /// An instance of an unknown module, or no `main`.
    UnknownModule {
        at: Option<Span>,
        name: Text,
    },
    /// A module is on a cycle of instances.
    RecursiveModule {
        at: Option<Span>,
        name: Text,
    },
    /// Actuals and formals differ in number, or `main` has formals.
    ArgumentCount {
        at: Option<Span>,
        name: Text,
    },
    /// Two modules, declarations, formals or values of one name.
    DuplicateName {
        at: Option<Span>,
        name: Text,
    },
    /// A rule of kinds is broken, or an instance is used as a value.
    KindMismatch {
        at: Option<Span>,
    },
    /// `low` is above `high`.
    EmptyRange {
        at: Option<Span>,
    },
    /// A dividend may be negative, or a divisor may not be positive.
    NegativeMod {
        at: Option<Span>,
    },
    /// A choice where none is allowed.
    ChoicePlace {
        at: Option<Span>,
    },
    /// A `next` where none is allowed.
    NextPlace {
        at: Option<Span>,
    },
    /// Two equal left sides, or `x :=` beside `init(x)` or `next(x)`.
    DoubleAssign {
        at: Option<Span>,
        name: Text,
    },
    /// A left side names a formal, a definition or an instance.
    ParameterAssign {
        at: Option<Span>,
        name: Text,
    },
    /// A definition or formal is on a cycle.
    CyclicDefine {
        at: Option<Span>,
        cycle: Text,
    },
    /// More than 65,536 instances, or nodes of the flat lift.
    TooLarge {
        at: Option<Span>,
    },
    /// There is no spec to prove.
    NoSpec {
        at: Option<Span>,
    },
    /// The depth costs more than 16,777,216.
    TooDeep {
        at: Option<Span>,
        cost: u64,
    },
    /// Memory ran out.
    NoMemory,
}

impl From<NoMemory> for Fault {
    ghost use Rattle.std.specs.Prelude.{◌≡◌};
    ghost use Rattle.smv_ast.specs.declared.fault.Fault.TheVariants as variants;

    ghost from_gives = { λ _ f. f ≡ variants.NoMemory };

    fn from(_: NoMemory) -> Fault {
        Fault::NoMemory
    }
}

impl From<AllocError> for Fault {
    ghost use Rattle.std.specs.Prelude.{◌≡◌};
    ghost use Rattle.smv_ast.specs.declared.fault.Fault.TheVariants as variants;

    ghost from_gives = { λ _ f. f ≡ variants.NoMemory };

    fn from(_: AllocError) -> Fault {
        Fault::NoMemory
    }
}
