//! The rule of a pass in an instance of a program.

ghost use Rattle.std.specs.Prelude.{◌≡◌, ◌<◌, length};
ghost use Rattle.std.specs.Option.{is_some};
ghost use Rattle.smv_ast.specs.declared.syntax.Expr.{Expr as ExprSeen};
ghost use Rattle.smv_meaning.specs.Checking.{instance_at};
ghost use Rattle.smv_meaning.specs.Instances as instances;
ghost use Rattle.smv_meaning.specs.Value.{Name};
ghost use Rattle.smv_meaning.specs.Entries.{entity_among};
ghost use Rattle.fixpoint.specs.Fixpoints.{entry};
ghost use Rattle.smv_meaning.specs.Paths as paths;
ghost use Rattle.smv_meaning.specs.Slots.{by_slot};
ghost use Rattle.smv_meaning.specs.InstanceTable.{entries_at};
ghost use Rattle.smv_kinds.specs.SortsOfNames as name_sorts;

use crate::context::KindContext;
use crate::pass::Pass;
use crate::sorts::Sort;

/// The rule of a pass in an instance, given by its number.
#[derive(Drop)]
pub struct InstanceRule<'t> {
    pub context: &'t KindContext<'t>,
    /// The sort of each slot.
    pub solution: &'t [Option<Sort>],
    pub row: usize,
    pub pass: Pass,
    ghost within: { row < length context.now.table.now.rows },
    ghost targets: { (name : Name)
        → name_sorts.target_sort (entity_among (entries_at context.now.table.now.rows row) name)
        ≡ name_sorts.target_in context.now.program.now (instance_at context.now.table.now row) name },
    ghost sorting: { name_sorts.row_sorting context.now.program.now context.now.table.now solution.now
        row ≡ name_sorts.sorting_in context.now.program.now (instance_at context.now.table.now row) },
    ghost aliases_after: { (e : ExprSeen)
        → is_some (paths.aliased (by_slot context.now.table.now (entry context.now.aliases.now)) row
        e) ≡ is_some (paths.aliased (paths.aliases (instances.binding_at context.now.program.now))
        (instance_at context.now.table.now row) e) },
}
