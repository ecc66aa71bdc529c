//! The three rules, checked one after another on all items.

ghost use Rattle.std.specs.Prelude.{◌≡◌};
ghost use Rattle.smv_kinds.specs.ItemRules as spec;

use crate::facts::Facts;
use crate::sorts::{is_small, type_sort};
use smv_ast::{Fault, SmvType, Span};

/// The rule that a pass checks.
#[derive(Clone, Copy, Debug, Drop)]
pub enum Pass {
    /// The rules of kinds.
    Kinds,
    /// The limit of magnitude.
    Magnitudes,
    /// The rule of `mod`.
    Mods,
}

/// Whether the facts of an expression keep the rule.
pub fn kept(pass: Pass, facts: Facts) -> bool
    ensures { result ≡ spec.kept pass facts }
{
    match pass {
        Pass::Kinds => facts.kinds,
        Pass::Magnitudes => facts.small,
        Pass::Mods => facts.mods,
    }
}

/// A requirement of the rules of kinds alone.
pub fn in_kinds(pass: Pass, required: bool) -> bool
    ensures { result ≡ spec.in_kinds pass required }
{
    match pass {
        Pass::Kinds => required,
        _ => true,
    }
}

/// Whether the numbers of a type keep the limit.
pub fn type_keeps(pass: Pass, type_: &SmvType) -> bool
    ensures { result ≡ spec.type_keeps pass type_.now }
{
    match pass {
        Pass::Magnitudes => is_small(Some(type_sort(type_))),
        _ => true,
    }
}

/// Whether the facts of an actual keep the rule.
pub fn actual_keeps(pass: Pass, is_instance: bool, facts: Facts) -> bool
    ensures { result ≡ spec.actual_keeps pass is_instance facts }
{
    match pass {
        Pass::Kinds => is_instance || facts.kinds,
        _ => kept(pass, facts),
    }
}

/// The fault of an item that breaks the rule.
pub fn fault_of(pass: Pass, at: Span) -> Fault
    ensures { result ≡ spec.fault_of pass at }
{
    match pass {
        Pass::Kinds => Fault::KindMismatch { at: Some(at) },
        Pass::Magnitudes => Fault::WideNumber { at: Some(at) },
        Pass::Mods => Fault::NegativeMod { at: Some(at) },
    }
}
