//! The nodes made so far.

ghost use Rattle.std.specs.Prelude.{◌≡◌, IfOk};
ghost use Rattle.flat_model.specs.declared.nodes.FlatNode.TheVariants as variant;
ghost use Rattle.smv_flatten.specs.Making as spec;

use flat_model::FlatNode;
use smv_ast::{List, NoMemory};
use sqlite_items::at;

/// The node of each definition and formal that has been read, by its slot.
#[derive(Drop)]
pub struct SharedNodes {
    /// Those read in the current state.
    pub current: List<Option<u32>>,
    /// Those read after the step.
    pub next: List<Option<u32>>,
}

/// The nodes made so far, operands first.
#[derive(Drop)]
pub struct Store {
    pub nodes: List<FlatNode>,
    pub shared: SharedNodes,
    /// Whether an expression was higher than the depth allows. Then the nodes mean nothing.
    pub is_cut: bool,
}

/// Appends a node, and returns its number.
pub fn push(store: &mut Store, node: FlatNode) -> Result<u32, NoMemory>
    ensures { IfOk result (λ n. (store.new, n) ≡ spec.pushed node store.old) }
{
    match u32::try_from(store.nodes.len()) {
        Ok(number) => {
            store.nodes.push(node)?;
            Ok(number)
        }
        Err(_) => Err(NoMemory),
    }
}

/// Appends a node, and the Not of it.
pub fn push_not(store: &mut Store, node: FlatNode) -> Result<u32, NoMemory>
    ensures { IfOk result (λ n. (store.new, n)
        ≡ spec.then_pushed variant.Not (spec.pushed node store.old)) }
{
    let n = push(store, node)?;
    push(store, FlatNode::Not(n))
}

/// Marks that an expression was cut off, and appends a node in its place.
pub fn cut(store: &mut Store) -> Result<u32, NoMemory>
    ensures { IfOk result (λ n. (store.new, n) ≡ spec.cut store.old) }
{
    store.is_cut = true;
    push(store, FlatNode::Const(0))
}

/// The node of a slot, if it has been made.
pub fn shared_node(shared: &SharedNodes, after_step: bool, slot: usize) -> Option<u32>
    ensures { result ≡ spec.shared_node shared.now after_step slot }
{
    if after_step {
        at(shared.next.as_slice(), slot).copied().flatten()
    } else {
        at(shared.current.as_slice(), slot).copied().flatten()
    }
}

/// Notes the node of a slot, and returns it.
pub fn share(store: &mut Store, after_step: bool, slot: usize, node: u32) -> Result<u32, NoMemory>
    ensures { IfOk result (λ n. (store.new, n) ≡ spec.shared after_step slot (store.old, node)) }
{
    if after_step {
        if slot < store.shared.next.len() {
            store.shared.next.set(slot, Some(node));
        }
    } else {
        if slot < store.shared.current.len() {
            store.shared.current.set(slot, Some(node));
        }
    }
    Ok(node)
}
