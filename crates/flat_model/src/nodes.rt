//! The nodes of a flat model.

/// A node of a flat model. Its operands are numbers of earlier nodes. A truth value is 0 or 1.
#[derive(Clone, Copy, Debug, PartialEq, Eq)]
pub enum FlatNode {
    /// A number.
    Const(i64),
    /// The number of a variable in the current state.
    Now(u32),
    /// The number of a variable in the next state.
    After(u32),
    Not(u32),
    And(u32, u32),
    Or(u32, u32),
    Xor(u32, u32),
    /// Whether two numbers are equal.
    Eq(u32, u32),
    /// Whether the first is less than the second.
    Lt(u32, u32),
    /// Whether the first is at most the second.
    Le(u32, u32),
    Add(u32, u32),
    /// The first less the second.
    Sub(u32, u32),
    Mul(u32, u32),
    /// What is left of the first after division by the second.
    Mod(u32, u32),
    /// The second where the first is true, else the third.
    Choose(u32, u32, u32),
}
