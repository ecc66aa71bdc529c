//! What the lines of a feature model say of a partial product.

ghost use Rattle.std.specs.Prelude.{◌≡◌, ◌<◌, ◌≤◌, length, Bool, All, IsTrue};
ghost use Rattle.std.specs.List.{list_any};
ghost use Rattle.smv_ast.specs.declared.model.GroupKind.TheVariants as kind;
ghost use Rattle.smv_ast.specs.declared.model.Product.{Product as ProductSeen};
ghost use Rattle.feature_model.specs.declared.partial_product.PartialProduct.{PartialProduct as Partial};
ghost use Rattle.feature_model.specs.Constraints as constraints;
ghost use Rattle.feature_model.specs.Findings.{IsFinding};
ghost use Rattle.feature_model.specs.Lookaheads.{IsLookahead};
ghost use Rattle.feature_model.specs.Products as products;
ghost use Rattle.feature_model.specs.Products.{Has};
ghost use Rattle.feature_model.specs.Validity as validity;
ghost use Rattle.feature_model.specs.WellFormed as well_formed;

use crate::finding::Finding;
use crate::lookahead::Lookahead;
use crate::partial_product::PartialProduct;
use crate::sets::has;
use crate::validity::feature_of;
use smv_ast::{Expr, FeatureModel, GroupKind, ModelLine, Op, Text};

/// What a path may be: of a single name, whether a product has the feature of that name.
fn path_ahead(names: &[Text], partial: PartialProduct, path: &[Text]) -> Lookahead
    requires { length names.now ≤ 64 }
    ensures { IsLookahead partial (λ p. constraints.path_value names.now p path.now) result }
{
    match path {
        [name] => match feature_of(names, name) {
            Some(f) => Lookahead::of_feature(partial, f as u8),
            None => Lookahead::unknown(),
        },
        _ => Lookahead::unknown(),
    }
}

/// What an operator makes of two rules.
fn op_ahead(op: Op, one: Lookahead, two: Lookahead) -> Lookahead
    ensures { (partial : Partial) (a b : ProductSeen → Bool) → IsLookahead partial a one
        → IsLookahead partial b two → IsLookahead partial (λ p. constraints.op_value op (a p) (b p)) result }
{
    match op {
        Op::And => one.and(two),
        Op::Or => one.or(two),
        Op::Xor => one.iff(two).negated(),
        Op::Xnor | Op::Iff => one.iff(two),
        Op::Implies => one.implies(two),
        _ => Lookahead::unknown(),
    }
}

/// What a constraint may be.
fn constraint_ahead(names: &[Text], partial: PartialProduct, e: &Expr) -> Lookahead
    requires { length names.now ≤ 64 }
    ensures { IsLookahead partial (λ p. constraints.value names.now p e.now) result }
{
    match e {
        Expr::True => Lookahead::constant(true),
        Expr::False => Lookahead::constant(false),
        Expr::Name(path) => path_ahead(names, partial, path.names.as_slice()),
        Expr::Not(a) => constraint_ahead(names, partial, a.get()).negated(),
        Expr::Binary(op, a, b) => op_ahead(
            *op,
            constraint_ahead(names, partial, a.get()),
            constraint_ahead(names, partial, b.get()),
        ),
        _ => Lookahead::unknown(),
    }
}

/// What it says that a product with one feature has the other.
fn implication(partial: PartialProduct, one: u8, other: u8) -> Finding
    requires one { one < 64 }
    requires other { other < 64 }
    ensures { IsFinding partial (λ p. Has p one → Has p other) result }
{
    let rule = Lookahead::of_feature(partial, one).implies(Lookahead::of_feature(partial, other));
    Finding::of_rule(partial, rule)
}

/// What it says that no product has both features.
fn exclusion(partial: PartialProduct, one: u8, other: u8) -> Finding
    requires one { one < 64 }
    requires other { other < 64 }
    ensures { IsFinding partial (λ p. Has p one → Has p other → ⊥) result }
{
    let rule = Lookahead::of_feature(partial, one).and(Lookahead::of_feature(partial, other));
    Finding::of_rule(partial, rule.negated())
}

/// What it says that each child asks for its parent.
fn children_ask(partial: PartialProduct, parent: u8, children: &[u8]) -> Finding
    requires parent { parent < 64 }
    requires children { All (λ child. child < 64) children.now }
    ensures { IsFinding partial (λ p. validity.AskForParent p parent children.now) result }
{
    for child in children {
        let found = implication(partial, *child, parent);
        if !found.is_open() {
            return found;
        }
    }
    Finding::Open
}

/// What it says that a product with the parent has all children.
fn parent_asks(partial: PartialProduct, parent: u8, children: &[u8]) -> Finding
    requires parent { parent < 64 }
    requires children { All (λ child. child < 64) children.now }
    ensures { IsFinding partial (λ p. validity.KeepsKind p kind.Mandatory parent children.now) result }
{
    for child in children {
        let found = implication(partial, parent, *child);
        if !found.is_open() {
            return found;
        }
    }
    Finding::Open
}

/// The rule that a product has one of the features.
fn any_ahead(partial: PartialProduct, children: &[u8]) -> Lookahead
    requires { All (λ child. child < 64) children.now }
    ensures { IsLookahead partial (λ p. list_any (products.has p.bits) children.now) result }
{
    let mut rule = Lookahead::constant(false);
    for child in children {
        rule = rule.or(Lookahead::of_feature(partial, *child));
    }
    rule
}

/// What it says that a product with the parent has at least one child.
fn at_least_one(partial: PartialProduct, parent: u8, children: &[u8]) -> Finding
    requires parent { parent < 64 }
    requires children { All (λ child. child < 64) children.now }
    ensures { IsFinding partial (λ p. validity.AtLeastOne p parent children.now) result }
{
    let rule = Lookahead::of_feature(partial, parent).implies(any_ahead(partial, children));
    Finding::of_rule(partial, rule)
}

/// What it says that no product has the child at the index beside another one.
fn alone(partial: PartialProduct, children: &[u8], index: usize) -> Finding
    requires index { index < length children.now }
    requires children { All (λ child. child < 64) children.now }
    ensures { IsFinding partial (λ p. validity.AtMostOne p children.now) result }
{
    for (i, other) in children.iter().enumerate() {
        if i != index {
            let found = exclusion(partial, children[index], *other);
            if !found.is_open() {
                return found;
            }
        }
    }
    Finding::Open
}

/// What it says that no product has two of the children.
fn at_most_one(partial: PartialProduct, children: &[u8]) -> Finding
    requires { All (λ child. child < 64) children.now }
    ensures { IsFinding partial (λ p. validity.AtMostOne p children.now) result }
{
    for (i, child) in children.iter().enumerate() {
        // Two children that are not decided say nothing of each other.
        if has(partial.chosen, *child) {
            let found = alone(partial, children, i);
            if !found.is_open() {
                return found;
            }
        }
    }
    Finding::Open
}

/// What a group says beside that its children ask for their parent.
fn group_asks(partial: PartialProduct, kind: GroupKind, parent: u8, children: &[u8]) -> Finding
    requires parent { parent < 64 }
    requires children { All (λ child. child < 64) children.now }
    ensures { IsFinding partial (λ p. validity.KeepsKind p kind parent children.now) result }
{
    match kind {
        GroupKind::Mandatory => parent_asks(partial, parent, children),
        GroupKind::Optional => Finding::Open,
        GroupKind::Or => at_least_one(partial, parent, children),
        GroupKind::Alternative => {
            let found = at_least_one(partial, parent, children);
            if !found.is_open() {
                return found;
            }
            at_most_one(partial, children)
        }
    }
}

/// What it says that a constraint is true.
fn constraint_finding(names: &[Text], partial: PartialProduct, e: &Expr) -> Finding
    requires { length names.now ≤ 64 }
    ensures { IsFinding partial (λ p. IsTrue (constraints.value names.now p e.now)) result }
{
    Finding::of_rule(partial, constraint_ahead(names, partial, e))
}

/// What a line of the feature model says.
fn line_finding(names: &[Text], partial: PartialProduct, line: &ModelLine) -> Finding
    requires names { length names.now ≤ 64 }
    requires line { well_formed.IsBelow 64 line.now }
    ensures { IsFinding partial (λ p. validity.KeepsLine names.now p line.now) result }
{
    match line {
        ModelLine::Group {
            kind,
            parent,
            children,
        } => {
            let found = children_ask(partial, *parent, children.as_slice());
            if !found.is_open() {
                return found;
            }
            group_asks(partial, *kind, *parent, children.as_slice())
        }
        ModelLine::Constraint(e) => constraint_finding(names, partial, e),
    }
}

/// What the first line of the feature model says that says anything.
pub fn model_finding(model: &FeatureModel, partial: PartialProduct) -> Finding
    requires { well_formed.FitsSet model.now }
    ensures { IsFinding partial (validity.IsValid model.now) result }
{
    for line in model.lines.as_slice() {
        let found = line_finding(model.names.as_slice(), partial, line);
        if !found.is_open() {
            return found;
        }
    }
    Finding::Open
}
