//! Features, families and lifted models.

use crate::model::FeatureModel;
use crate::program::{Left, Program, Section};
use crate::syntax::{Expr, Path, SmvType, Span};
use fsmv_base::Text;
use sqlite_items::Items as List;

/// A name that a feature requires of a module, and its type, if the feature states one. An empty
/// name requires the module alone.
#[derive(Drop)]
pub struct Need {
    pub module: Text,
    pub name: Text,
    pub wanted: Option<SmvType>,
    pub at: Span,
}

/// Sections that a feature introduces at the end of a module.
#[derive(Drop)]
pub struct Joined {
    pub module: Text,
    pub sections: List<Section>,
    pub at: Span,
}

/// The effect of a change where its condition is true.
#[derive(Drop)]
pub enum Action {
    /// The variable's value, at the time of the left side, becomes that of `right`.
    Impose { left: Left, name: Text, right: Expr },
    /// Each read of the path reads `right` instead.
    Treat { path: Path, right: Expr },
}

/// One action of a feature in one module. Its span is the word IMPOSE or TREAT.
#[derive(Drop)]
pub struct Change {
    pub module: Text,
    pub cond: Expr,
    pub action: Action,
    pub at: Span,
}

/// The text of a feature.
#[derive(Drop)]
pub struct Feature {
    pub name: Text,
    pub needs: List<Need>,
    pub joins: List<Joined>,
    pub changes: List<Change>,
    pub at: Span,
}

/// A base model, its feature model, and the texts of its features in the order of integration.
#[derive(Drop)]
pub struct Family {
    pub base: Program,
    pub model: FeatureModel,
    pub features: List<Feature>,
}

/// A variable of a lifted model that a feature introduces.
#[derive(Drop)]
pub struct OwnedVar {
    pub module: Text,
    pub name: Text,
    pub feature: u8,
}

/// An INVARSPEC of a lifted model that a feature introduces, by the number of its section.
#[derive(Drop)]
pub struct OwnedSpec {
    pub module: Text,
    pub section: u32,
    pub feature: u8,
}

/// The lifted model of a family: each change is guarded by its feature's variable.
#[derive(Drop)]
pub struct Lifted {
    pub program: Program,
    pub vars: List<OwnedVar>,
    pub specs: List<OwnedSpec>,
}
