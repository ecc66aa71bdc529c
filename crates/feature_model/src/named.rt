//! Products that are given by the names of their features.

ghost use Rattle.std.specs.Prelude.{◌≡◌, ◌≤◌, map, length, IfOk, MatchOption};
ghost use Rattle.smv_ast.specs.declared.model.Product.{Product as Features};
ghost use Rattle.feature_model.specs.NamedProducts as spec;
ghost use Rattle.feature_model.specs.Products.{has};
ghost use Rattle.feature_model.specs.NamedProducts.{IsNamed};

use crate::sets::{has_number, with};
use crate::validity::number_of;
use smv_ast::{List, NoMemory, Product, Text};
use std::alloc::Global;

/// The product that has just the features of these names; none where a name is no feature's, or stands twice.
///
/// Bit i of the product stands for the feature whose name is the one at index i of `names`, of which there are at most 64.
pub fn named_product(names: &[Text], listed: &[&str]) -> Option<Product>
    requires { length names.now ≤ 64 }
    ensures { MatchOption result ((p : Features) → IsNamed names.now (spec.names_at listed.now) p → ⊥)
        (IsNamed names.now (spec.names_at listed.now)) }
{
    let mut bits = 0;
    for name in listed {
        match number_of(names, name) {
            None => return None,
            Some(feature) => {
                if has_number(bits, feature) {
                    return None;
                }
                bits = with(bits, feature as u8);
            }
        }
    }
    Some(Product { bits })
}

/// Whether the product has the feature of this number.
pub fn has_feature(product: Product, feature: usize) -> bool
    ensures { result ≡ has product.bits feature }
{
    has_number(product.bits, feature)
}

/// The names of the features that the product has, in their order.
pub fn product_names(
    alloc: Global,
    names: &[Text],
    product: Product,
) -> Result<List<Text>, NoMemory>
    ensures { IfOk result (λ found. found ≡ spec.product_names names.now product) }
{
    let mut found = List::new(alloc);
    for (feature, name) in names.iter().enumerate() {
        if has_number(product.bits, feature) {
            found.push(name.try_clone(alloc)?)?;
        }
    }
    Ok(found)
}
