//! Partial products.

ghost use Rattle.std.specs.Prelude.{◌≡◌, ℕ, ◌<◌, ◌+◌, false};
ghost use Rattle.feature_model.specs.Products as products;
ghost use Rattle.feature_model.specs.PartialProducts as spec;

use crate::sets::with;

/// Some features are decided: each of them is chosen or left out.
#[derive(Clone, Copy)]
pub struct PartialProduct {
    pub chosen: u64,
    pub left_out: u64,
}

impl PartialProduct {
    /// The features that are decided.
    pub fn decided(self) -> u64
        ensures { (f : ℕ) → products.has result f ≡ spec.is_decided self f }
    {
        self.chosen | self.left_out
    }

    /// One feature more is decided, as chosen or as left out.
    pub fn decide(self, f: u8, chosen: bool) -> PartialProduct
        requires small { f < 64 }
        requires open { spec.is_decided self f ≡ false }
        ensures one { spec.DecidesOne self f chosen result }
        ensures more { self.chosen + self.left_out < result.chosen + result.left_out }
    {
        if chosen {
            PartialProduct {
                chosen: with(self.chosen, f),
                left_out: self.left_out,
            }
        } else {
            PartialProduct {
                chosen: self.chosen,
                left_out: with(self.left_out, f),
            }
        }
    }
}
