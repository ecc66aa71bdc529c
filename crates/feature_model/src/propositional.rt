//! Which expressions may stand in constraints.

ghost use Rattle.std.specs.Prelude.{◌≡◌};
ghost use Rattle.feature_model.specs.Propositional as spec;
ghost use Rattle.feature_model.specs.WellFormed as well_formed;

use smv_ast::{Expr, Op};

/// Whether the operator is one between truth values.
fn is_logical(op: Op) -> bool
    ensures { result ≡ well_formed.is_logical op }
{
    matches!(
        op,
        Op::And | Op::Or | Op::Xor | Op::Xnor | Op::Iff | Op::Implies
    )
}

/// Whether the expression is a propositional formula: TRUE, FALSE, single names, and what `!`, `&`, `|`, `xor`,
/// `xnor`, `<->` and `->` make of them.
pub fn is_propositional(e: &Expr) -> bool
    ensures { result ≡ spec.is_propositional e.now }
{
    match e {
        Expr::True | Expr::False => true,
        Expr::Name(path) => path.names.len() == 1,
        Expr::Not(a) => is_propositional(a.get()),
        Expr::Binary(op, a, b) => {
            is_logical(*op) && is_propositional(a.get()) && is_propositional(b.get())
        }
        _ => false,
    }
}
