//! Feature models and products.

use crate::syntax::Expr;
use fsmv_base::Text;
use sqlite_items::Items as List;

/// The relation between the children of a group and their parent.
#[derive(Clone, Copy, Debug, PartialEq, Eq)]
pub enum GroupKind {
    Mandatory,
    Optional,
    Or,
    Alternative,
}

/// A line of a feature model. Features are given by number.
#[derive(Drop)]
pub enum ModelLine {
    Group {
        kind: GroupKind,
        parent: u8,
        children: List<u8>,
    },
    Constraint(Expr),
}

/// The features by number, the root 0, and the constraints on their sets.
#[derive(Drop)]
pub struct FeatureModel {
    pub names: List<Text>,
    pub lines: List<ModelLine>,
}

/// A set of features: bit i is set where feature i is in it.
#[derive(Clone, Copy, Debug, PartialEq, Eq)]
pub struct Product {
    pub bits: u64,
}

/// `+F` or `-F`: feature F is chosen, or not.
#[derive(Clone, Copy, Debug, PartialEq, Eq)]
pub struct Literal {
    pub feature: u8,
    pub chosen: bool,
}
