//! The specs of a flat model: their nodes and their texts.

ghost use Rattle.std.specs.Prelude.{◌≡◌, ◌<◌, IfOk, length, map, slice_get, All};
ghost use Rattle.smv_ast.specs.declared.syntax.Expr.{out-Expr};
ghost use Rattle.smv_ast.specs.PrintedExpr.{printed_expr};
ghost use Rattle.smv_meaning.specs.Valuation as valuation;
ghost use Rattle.smv_flatten.specs.Names.{number_found};
ghost use Rattle.smv_flatten.specs.Invariants as invariants;
ghost use Rattle.smv_flatten.specs.SpecTexts as spec;

use crate::invariants::SpecAt;
use flat_model::FlatSpec;
use smv_ast::{Expr, List, NoMemory, Op, Text, print_expr};
use smv_meaning::instance_texts::instance_text;
use smv_meaning::table::InstanceTable;
use sqlite_items::at;
use std::alloc::Global;

/// The right side of an implication; any other expression itself.
fn consequence(e: &Expr) -> &Expr
    ensures { result.now ≡ invariants.consequence e.now (out-Expr e.now) }
{
    match e {
        Expr::Binary(op, _, right) => match op {
            Op::Implies => right.get(),
            _ => e,
        },
        _ => e,
    }
}

/// The expression of a spec without the guard of its feature.
fn unguarded<'p>(one: SpecAt<'p>) -> &'p Expr
    ensures { result.now ≡ invariants.unguarded (invariants.spec_view one.entry) }
{
    match one.owner {
        Some(_) => consequence(one.expression),
        None => one.expression,
    }
}

/// The canonical text of an expression.
fn expression_text(alloc: Global, e: &Expr) -> Result<Text, NoMemory>
    ensures { IfOk result (λ text. text ≡ printed_expr e.now) }
{
    let mut text = String::new(alloc);
    print_expr(&mut text, e)?;
    Text::from_str(alloc, text.as_str())
}

/// A spec with its node and its texts.
fn flat_spec(
    alloc: Global,
    table: &InstanceTable,
    texts: &[Text],
    one: SpecAt,
    node: u32,
) -> Result<FlatSpec, NoMemory>
    requires row { one.row < length table.now.rows }
    requires linked { valuation.AreLinked table.now.rows }
    requires texts { valuation.ArePathTexts table.now.rows texts.now }
    ensures { IfOk result (λ made. made
        ≡ spec.flat_spec table.now (invariants.spec_view one.entry) node) }
{
    let instance = instance_text(alloc, table, texts, one.row)?;
    let text = expression_text(alloc, unguarded(one))?;
    Ok(FlatSpec {
        node,
        owner: one.owner,
        instance,
        text,
    })
}

/// The number of a spec's node. There is one for each spec.
fn node_at(nodes: &[u32], place: usize) -> u32
    ensures { result ≡ number_found (slice_get nodes.now place) }
{
    match at(nodes, place).copied() {
        Some(node) => node,
        None => 0,
    }
}

/// The specs, each with the node of its position.
pub fn flat_specs(
    alloc: Global,
    table: &InstanceTable,
    texts: &[Text],
    specs: &[SpecAt],
    nodes: &[u32],
) -> Result<List<FlatSpec>, NoMemory>
    requires rows { All (λ one. one.row < length table.now.rows) specs.now }
    requires linked { valuation.AreLinked table.now.rows }
    requires texts { valuation.ArePathTexts table.now.rows texts.now }
    ensures { IfOk result (λ found. found
        ≡ spec.flat_specs table.now nodes.now 0 (map invariants.spec_view specs.now)) }
{
    let mut found = List::new(alloc);
    for (place, one) in specs.iter().enumerate() {
        let node = node_at(nodes, place);
        let made = flat_spec(alloc, table, texts, *one, node)?;
        found.push(made)?;
    }
    Ok(found)
}
