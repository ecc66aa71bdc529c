//! Which products are valid.

ghost use Rattle.std.specs.Prelude.{◌≡◌, ◌<◌, ◌≤◌, ◌^◌, ◌↔◌, All, Any, IsTrue, length, drop};
ghost use Rattle.smv_ast.specs.declared.model.GroupKind.TheVariants as kind;
ghost use Rattle.feature_model.specs.Constraints as constraints;
ghost use Rattle.feature_model.specs.Products.{Has};
ghost use Rattle.feature_model.specs.Validity as spec;

use crate::sets::{has, has_number};
use smv_ast::{Expr, FeatureModel, GroupKind, ModelLine, Op, Product, Text};

/// The number of the feature of this name.
pub fn number_of(names: &[Text], name: &str) -> Option<usize>
    ensures { result ≡ constraints.feature_of names.now name.now }
{
    names.iter().position(|n| n.is(name))
}

/// The same, of a name that is a `Text`.
pub fn feature_of(names: &[Text], name: &Text) -> Option<usize>
    ensures { result ≡ constraints.feature_of names.now name.now }
{
    number_of(names, name.as_str())
}

/// The value of a path: of a single name, whether the product has the feature of that name.
fn path_value(names: &[Text], product: Product, path: &[Text]) -> bool
    ensures { result ≡ constraints.path_value names.now product path.now }
{
    match path {
        [name] => match feature_of(names, name) {
            Some(f) => has_number(product.bits, f),
            None => false,
        },
        _ => false,
    }
}

/// The value of an operator between truth values.
fn op_value(op: Op, a: bool, b: bool) -> bool
    ensures { result ≡ constraints.op_value op a b }
{
    match op {
        Op::And => a && b,
        Op::Or => a || b,
        Op::Xor => a != b,
        Op::Xnor | Op::Iff => a == b,
        Op::Implies => !a || b,
        _ => false,
    }
}

/// The value of a constraint in the product.
fn value(names: &[Text], product: Product, e: &Expr) -> bool
    ensures { result ≡ constraints.value names.now product e.now }
{
    match e {
        Expr::True => true,
        Expr::Name(path) => path_value(names, product, path.names.as_slice()),
        Expr::Not(a) => !value(names, product, a.get()),
        Expr::Binary(op, a, b) => op_value(
            *op,
            value(names, product, a.get()),
            value(names, product, b.get()),
        ),
        _ => false,
    }
}

/// Whether each child that the product has asks for its parent.
fn ask_for_parent(product: Product, parent: u8, children: &[u8]) -> bool
    ensures { IsTrue result ↔ spec.AskForParent product parent children.now }
{
    has(product.bits, parent) || !has_any(product, children)
}

/// Whether the product has all children where it has the parent.
fn has_all(product: Product, parent: u8, children: &[u8]) -> bool
    ensures { IsTrue result ↔ spec.KeepsKind product kind.Mandatory parent children.now }
{
    !has(product.bits, parent) || children.iter().all(|child| has(product.bits, *child))
}

/// Whether the product has one of the children.
fn has_any(product: Product, children: &[u8]) -> bool
    ensures { IsTrue result ↔ Any (Has product) children.now }
{
    children.iter().any(|child| has(product.bits, *child))
}

/// Whether the product has at least one child where it has the parent.
fn at_least_one(product: Product, parent: u8, children: &[u8]) -> bool
    ensures { IsTrue result ↔ spec.AtLeastOne product parent children.now }
{
    !has(product.bits, parent) || has_any(product, children)
}

/// Whether the product has one of the children from the index on.
fn has_any_from(product: Product, children: &[u8], i: usize) -> bool
    requires { i ≤ length children.now }
    ensures { IsTrue result ↔ Any (Has product) (drop i children.now) }
{
    has_any(product, &children[i..])
}

/// Whether the product has no two of the children.
fn at_most_one(product: Product, children: &[u8]) -> bool
    ensures { IsTrue result ↔ spec.AtMostOne product children.now }
{
    for (i, child) in children.iter().enumerate() {
        if has(product.bits, *child) && has_any_from(product, children, i + 1) {
            return false;
        }
    }
    true
}

/// Whether the product keeps what the group asks of its children.
fn keeps_kind(product: Product, kind: GroupKind, parent: u8, children: &[u8]) -> bool
    ensures { IsTrue result ↔ spec.KeepsKind product kind parent children.now }
{
    match kind {
        GroupKind::Mandatory => has_all(product, parent, children),
        GroupKind::Optional => true,
        GroupKind::Or => at_least_one(product, parent, children),
        GroupKind::Alternative => {
            at_least_one(product, parent, children) && at_most_one(product, children)
        }
    }
}

/// Whether the product keeps the line.
fn keeps_line(names: &[Text], product: Product, line: &ModelLine) -> bool
    ensures { IsTrue result ↔ spec.KeepsLine names.now product line.now }
{
    match line {
        ModelLine::Group {
            kind,
            parent,
            children,
        } => {
            ask_for_parent(product, *parent, children.as_slice())
                && keeps_kind(product, *kind, *parent, children.as_slice())
        }
        ModelLine::Constraint(e) => value(names, product, e),
    }
}

/// Whether the set has none but the first so many features.
fn is_among_first(features: u64, count: usize) -> bool
    ensures { IsTrue result ↔ (features < 2 ^ count) }
{
    count >= 64 || features >> count == 0
}

/// Whether the product is a valid one of the feature model: it has the root, keeps each line of the
/// model, and has no feature beyond the last.
pub fn is_valid(model: &FeatureModel, product: Product) -> bool
    ensures { IsTrue result ↔ spec.IsValid model.now product }
{
    let names = model.names.as_slice();
    has(product.bits, 0)
        && is_among_first(product.bits, names.len())
        && model
            .lines
            .as_slice()
            .iter()
            .all(|line| keeps_line(names, product, line))
}
