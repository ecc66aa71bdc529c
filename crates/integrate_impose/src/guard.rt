//! Guarded values.

ghost use Rattle.std.specs.Prelude.{◌≡◌, IfOk};
ghost use Rattle.integrate_impose.specs.Guard as spec;

use smv_ast::{Branch, Expr, List, NoMemory};
use std::alloc::Global;

/// `case cond : value; TRUE : old; esac`.
pub fn guarded(alloc: Global, cond: Expr, value: Expr, old: Expr) -> Result<Expr, NoMemory>
    ensures { IfOk result (λ e. e ≡ spec.guarded cond value old) }
{
    let mut branches = List::new(alloc);
    branches.push(Branch { cond, value })?;
    branches.push(Branch {
        cond: Expr::True,
        value: old,
    })?;
    Ok(Expr::Cases(branches))
}
