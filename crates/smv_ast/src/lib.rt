//! The trees of featured SMV, and their canonical text.
#![tactic(auto)]

mod edge;
mod fault;
mod feature;
mod model;
mod printing;
mod program;
mod syntax;

pub use edge::Edge;
pub use fault::Fault;
pub use feature::{Action, Change, Family, Feature, Joined, Lifted, Need, OwnedSpec, OwnedVar};
pub use fsmv_base::{Boxed, Id, List, NoMemory, Proof, Text};
pub use model::{FeatureModel, GroupKind, Literal, ModelLine, Product};
pub use printing::{print_expr, print_joined, print_program};
pub use program::{
    Assignment, Declaration, Declared, Definition, Left, Module, Program, Section, Skipped,
};
pub use syntax::{Branch, Choice, Expr, Op, Path, SmvType, Span};
