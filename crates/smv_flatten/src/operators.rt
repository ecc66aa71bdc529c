//! The nodes of operators.

ghost use Rattle.std.specs.Prelude.{◌≡◌, IfOk};
ghost use Rattle.smv_flatten.specs.Making as spec;

use crate::store::{Store, push, push_not};
use flat_model::FlatNode;
use smv_ast::{NoMemory, Op};

/// The node of an operator other than `->`, after those of its operands.
pub fn join(store: &mut Store, op: Op, a: u32, b: u32) -> Result<u32, NoMemory>
    ensures { IfOk result (λ n. (store.new, n) ≡ spec.joined op a b store.old) }
{
    match op {
        Op::Add => push(store, FlatNode::Add(a, b)),
        Op::Sub => push(store, FlatNode::Sub(a, b)),
        Op::Mul => push(store, FlatNode::Mul(a, b)),
        Op::Mod => push(store, FlatNode::Mod(a, b)),
        Op::Eq => push(store, FlatNode::Eq(a, b)),
        Op::Ne => push_not(store, FlatNode::Eq(a, b)),
        Op::Lt => push(store, FlatNode::Lt(a, b)),
        Op::Gt => push(store, FlatNode::Lt(b, a)),
        Op::Le => push(store, FlatNode::Le(a, b)),
        Op::Ge => push(store, FlatNode::Le(b, a)),
        Op::And => push(store, FlatNode::And(a, b)),
        Op::Or => push(store, FlatNode::Or(a, b)),
        Op::Xor => push(store, FlatNode::Xor(a, b)),
        Op::Xnor | Op::Iff => push_not(store, FlatNode::Xor(a, b)),
        Op::Implies => push(store, FlatNode::Or(a, b)),
    }
}

/// The node of the first operand as an operator reads it, after that of the operand itself: `->`
/// reads the Not of it.
pub fn negate_for(store: &mut Store, op: Op, a: u32) -> Result<u32, NoMemory>
    ensures { IfOk result (λ n. (store.new, n) ≡ spec.operand_read op (store.old, a)) }
{
    match op {
        Op::Implies => push(store, FlatNode::Not(a)),
        _ => Ok(a),
    }
}

/// The node of a variable, if it has a number.
pub fn push_variable(
    store: &mut Store,
    after_step: bool,
    variable: Option<u32>,
) -> Result<u32, NoMemory>
    ensures { IfOk result (λ n. (store.new, n)
        ≡ spec.variable_made after_step variable store.old) }
{
    match variable {
        Some(v) => {
            if after_step {
                push(store, FlatNode::After(v))
            } else {
                push(store, FlatNode::Now(v))
            }
        }
        None => push(store, FlatNode::Const(0)),
    }
}
