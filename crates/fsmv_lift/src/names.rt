//! The names that a lift adds to a model, and the expressions that read them.

ghost use Rattle.std.specs.Prelude.{◌≡◌, IfOk};
ghost use Rattle.fsmv_lift.specs.LiftNames as spec;

use smv_ast::{Expr, List, NoMemory, Path, Span, Text};
use std::alloc::Global;

/// The module that has a variable for each feature.
pub const FEATURES_MODULE: &str = "fsmv_features";

/// The instance of that module in `main`, and the formal under which other modules know it.
pub const FEATURES_INSTANCE: &str = "fsmv_fm";

/// The span of all that a lift adds by itself: the start of the feature model's file.
pub const ADDED_AT: Span = Span { file: 1, at: 0 };

/// A name of a module, as an expression that the lift adds.
pub fn name(alloc: Global, name: &str) -> Result<Expr, NoMemory>
    ensures { IfOk result (λ e. e ≡ spec.name name.now) }
{
    let mut names = List::new(alloc);
    names.push(Text::from_str(alloc, name)?)?;
    Ok(Expr::Name(Path {
        names,
        at: ADDED_AT,
    }))
}

/// `fsmv_fm`, as an actual.
pub fn features_actual(alloc: Global) -> Result<Expr, NoMemory>
    ensures { IfOk result (λ e. e ≡ spec.features_actual) }
{
    name(alloc, FEATURES_INSTANCE)
}

/// The guard of a feature: its variable, `fsmv_fm.F`.
pub fn guard(alloc: Global, feature: &Text) -> Result<Expr, NoMemory>
    ensures { IfOk result (λ e. e ≡ spec.guard feature.now) }
{
    let mut names = List::new(alloc);
    names.push(Text::from_str(alloc, FEATURES_INSTANCE)?)?;
    names.push(feature.try_clone(alloc)?)?;
    Ok(Expr::Name(Path {
        names,
        at: ADDED_AT,
    }))
}
