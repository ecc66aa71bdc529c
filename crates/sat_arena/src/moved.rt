//! The reasons of a trail, as clauses are taken out and others move.
ghost use Rattle.std.specs.Prelude.{◌≡◌, ℕ, ◌<◌, ◌∷◌, [], None, Contains, length, slice_index_or, IfNone, IfSome};
ghost use Rattle.sat_arena.specs.ArenaState.{clauses_of};
ghost use Rattle.sat_arena.specs.Moved.{IsReasonNow, MovesEntry, AreMovedEntries, HasTarget, HaveTargets};

use crate::arena::Arena;
use crate::trail::{Assigned, Trail};
use sat_lits::Lit;

/// Puts each reason where its clause stands since the last `reclaim`. Where that was taken out, the reason
/// becomes the unit clause of the literal. It takes no memory.
pub fn move_reasons(arena: &Arena, trail: &mut Trail)
    requires { HaveTargets arena.now trail.old.entries }
    ensures vars { trail.new.vars ≡ trail.old.vars }
    ensures entries { AreMovedEntries arena.now trail.old.entries trail.new.entries }
{
    for at in 0..trail.entries().len() {
        move_reason(arena, trail, at);
    }
}

/// The same for the entry at the position.
fn move_reason(arena: &Arena, trail: &mut Trail, at: usize)
    requires within { at < length trail.old.entries }
    requires target { (d : Assigned) → HasTarget arena.now (slice_index_or trail.old.entries at d) }
    ensures vars { trail.new.vars ≡ trail.old.vars }
    ensures entry { MovesEntry arena.now at trail.old.entries trail.new.entries }
{
    let _vars = trail.vars();
    let entry = trail.entries()[at];
    if let Some(reason) = entry.reason {
        let position = reason_now(arena, entry.lit, reason);
        trail.set_reason(at as u32, position);
    }
}

/// Where the reason of the literal stands since the last `reclaim`, or else the unit clause of the literal.
fn reason_now(arena: &Arena, lit: Lit, reason: u32) -> u32
    requires within { reason < length arena.now.moved }
    requires target { slice_index_or arena.now.moved reason None ≡ None
        → Contains (clauses_of arena.now.stored) (lit ∷ []) }
    ensures { IsReasonNow arena.now lit reason result }
{
    match arena.moved(reason) {
        Some(position) => position,
        None => arena.find_unit(lit).unwrap(),
    }
}
