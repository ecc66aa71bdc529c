//! The formula of a feature model.

ghost use Rattle.std.specs.Prelude.{◌≡◌, ◌<◌, ◌≤◌, ◌∷◌, ◌++◌, [], ◌^◌, ◌↔◌, length, All, IfOk, IsTrue};
ghost use Rattle.smv_ast.specs.declared.syntax.Op.TheVariants as op;
ghost use Rattle.smv_ast.specs.declared.syntax.Expr.TheVariants as e;
ghost use Rattle.smv_ast.specs.declared.model.Product.{Product as ProductSeen};
ghost use Rattle.feature_model.specs.Constraints.{value};
ghost use Rattle.feature_model.specs.Formula as spec;
ghost use Rattle.feature_model.specs.Validity.{IsValid};
ghost use Rattle.feature_model.specs.WellFormed.{IsBelow, IsFeatureModel};

use integrate_impose::copies::copy_expr;
use smv_ast::{
    Boxed, Expr, FeatureModel, GroupKind, List, ModelLine, NoMemory, Op, Path, Span, Text,
};
use std::alloc::Global;

/// The name of a feature, as an expression.
fn named(alloc: Global, names: &[Text], f: u8) -> Result<Expr, NoMemory>
    requires { f < length names.now }
    ensures { IfOk result (λ made. made ≡ spec.named names.now f) }
{
    let mut path = List::new(alloc);
    path.push(names[f as usize].try_clone(alloc)?)?;
    Ok(Expr::Name(Path {
        names: path,
        at: Span { file: 1, at: 0 },
    }))
}

fn binary(alloc: Global, op: Op, one: Expr, other: Expr) -> Result<Expr, NoMemory>
    ensures { IfOk result (λ made. made ≡ e.Binary op one other) }
{
    Ok(Expr::Binary(op, Boxed::new(alloc, one)?, Boxed::new(alloc, other)?))
}

/// The formula, and each child with its parent.
fn with_parent(
    alloc: Global,
    names: &[Text],
    formula: Expr,
    op: Op,
    parent: u8,
    children: &[u8],
) -> Result<Expr, NoMemory>
    requires parent { parent < length names.now }
    requires children { All (λ child. child < length names.now) children.now }
    ensures { IfOk result (λ made. made ≡ spec.all_of formula (spec.with_parent names.now op parent children.now)) }
{
    let mut made = formula;
    for child in children {
        let asked = binary(
            alloc,
            op,
            named(alloc, names, *child)?,
            named(alloc, names, parent)?,
        )?;
        made = binary(alloc, Op::And, made, asked)?;
    }
    Ok(made)
}

/// One of the children.
fn any_of(alloc: Global, names: &[Text], children: &[u8]) -> Result<Expr, NoMemory>
    requires { All (λ child. child < length names.now) children.now }
    ensures { IfOk result (λ made. made ≡ spec.any_of names.now children.now) }
{
    let [first, more @ ..] = children else {
        return Ok(Expr::False);
    };
    let mut made = named(alloc, names, *first)?;
    for child in more {
        made = binary(alloc, Op::Or, made, named(alloc, names, *child)?)?;
    }
    Ok(made)
}

/// The formula, and that the parent asks for one of the children.
fn with_one_asked(
    alloc: Global,
    names: &[Text],
    formula: Expr,
    parent: u8,
    children: &[u8],
) -> Result<Expr, NoMemory>
    requires parent { parent < length names.now }
    requires children { All (λ child. child < length names.now) children.now }
    ensures { IfOk result (λ made. made ≡ e.Binary op.And formula (spec.one_asked names.now parent children.now)) }
{
    let any = any_of(alloc, names, children)?;
    let asked = binary(alloc, Op::Implies, named(alloc, names, parent)?, any)?;
    binary(alloc, Op::And, formula, asked)
}

/// The formula, and that the child does not stand beside one of the others.
fn with_excluded(
    alloc: Global,
    names: &[Text],
    formula: Expr,
    child: u8,
    others: &[u8],
) -> Result<Expr, NoMemory>
    requires child { child < length names.now }
    requires others { All (λ other. other < length names.now) others.now }
    ensures { IfOk result (λ made. made ≡ spec.all_of formula (spec.excluded names.now child others.now)) }
{
    let mut made = formula;
    for other in others {
        let both = binary(
            alloc,
            Op::And,
            named(alloc, names, child)?,
            named(alloc, names, *other)?,
        )?;
        let excluded = Expr::Not(Boxed::new(alloc, both)?);
        made = binary(alloc, Op::And, made, excluded)?;
    }
    Ok(made)
}

/// The formula, and that no two of the children stand together.
fn with_exclusions(
    alloc: Global,
    names: &[Text],
    formula: Expr,
    children: &[u8],
) -> Result<Expr, NoMemory>
    requires { All (λ child. child < length names.now) children.now }
    ensures { IfOk result (λ made. made ≡ spec.all_of formula (spec.exclusions names.now children.now)) }
{
    let mut made = formula;
    for (i, child) in children.iter().enumerate() {
        made = with_excluded(alloc, names, made, *child, &children[i + 1..])?;
    }
    Ok(made)
}

/// The formula, and what a group says.
fn with_group(
    alloc: Global,
    names: &[Text],
    formula: Expr,
    kind: GroupKind,
    parent: u8,
    children: &[u8],
) -> Result<Expr, NoMemory>
    requires parent { parent < length names.now }
    requires children { All (λ child. child < length names.now) children.now }
    ensures { IfOk result (λ made. made ≡ spec.all_of formula (spec.group_conjuncts names.now kind parent children.now)) }
{
    match kind {
        GroupKind::Mandatory => with_parent(alloc, names, formula, Op::Iff, parent, children),
        GroupKind::Optional => with_parent(alloc, names, formula, Op::Implies, parent, children),
        GroupKind::Or => {
            let made = with_parent(alloc, names, formula, Op::Implies, parent, children)?;
            with_one_asked(alloc, names, made, parent, children)
        }
        GroupKind::Alternative => {
            let made = with_parent(alloc, names, formula, Op::Implies, parent, children)?;
            let asked = with_one_asked(alloc, names, made, parent, children)?;
            with_exclusions(alloc, names, asked, children)
        }
    }
}

/// The formula, and what a line says.
fn with_line(
    alloc: Global,
    names: &[Text],
    formula: Expr,
    line: &ModelLine,
) -> Result<Expr, NoMemory>
    requires { IsBelow (length names.now) line.now }
    ensures { IfOk result (λ made. made ≡ spec.all_of formula (spec.conjuncts names.now line.now)) }
{
    match line {
        ModelLine::Group {
            kind,
            parent,
            children,
        } => with_group(alloc, names, formula, *kind, *parent, children.as_slice()),
        ModelLine::Constraint(constraint) => {
            let copy = copy_expr(alloc, constraint)?;
            binary(alloc, Op::And, formula, copy)
        }
    }
}

fn conjunction(alloc: Global, model: &FeatureModel) -> Result<Expr, NoMemory>
    requires { IsFeatureModel model.now }
    ensures { IfOk result (λ made. made ≡ spec.formula_of model.now) }
{
    let names = model.names.as_slice();
    let mut made = named(alloc, names, 0)?;
    for line in model.lines.as_slice() {
        made = with_line(alloc, names, made, line)?;
    }
    Ok(made)
}

/// The formula of the feature model, whose names are its features: the conjunction, from the left, of the
/// root and of what the lines say, in their order. It is true of just the valid products.
///
/// Its tree is about as high as it has conjuncts.
pub fn formula(alloc: Global, model: &FeatureModel) -> Result<Expr, NoMemory>
    requires { IsFeatureModel model.now }
    ensures formula { IfOk result (λ made. made ≡ spec.formula_of model.now) }
    ensures valid { IfOk result (λ made. (p : ProductSeen) → p.bits < 2 ^ length model.now.names
        → (IsTrue (value model.now.names p made) ↔ IsValid model.now p)) }
{
    conjunction(alloc, model)
}
