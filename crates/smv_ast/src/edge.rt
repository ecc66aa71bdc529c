//! Edges of failing cubes.

use crate::model::{Literal, Product};

/// A literal that a failing cube needs, and a product without it whose trace violates nothing.
#[derive(Clone, Copy, Debug, PartialEq, Eq)]
pub struct Edge {
    pub literal: Literal,
    pub product: Product,
}
