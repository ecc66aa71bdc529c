//! Applying features to a model, and the text of a product.
#![tactic(auto)]

mod application;
mod changes;
mod imposes;
mod introductions;
mod joined;
mod lookups;
mod module_names;
mod names;
mod needs;
mod parts;
mod product;
mod reports;
mod symbols;
mod types;

pub use application::integrate_one;
pub use changes::apply_changes;
pub use product::integrate_product;
