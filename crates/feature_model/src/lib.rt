//! Feature models: their texts, their valid products, and the formula that says which these are.
#![tactic(auto)]

mod conjuncts;
mod finding;
mod lookahead;
mod model_reader;
mod named;
mod names;
mod numbering;
mod partial_product;
mod propagation;
mod propositional;
mod reading;
mod search;
mod sets;
mod text;
mod validity;

pub use conjuncts::formula;
pub use model_reader::read_model;
pub use named::{has_feature, named_product, product_names};
pub use names::is_reserved;
pub use search::first_valid;
pub use validity::{feature_of, is_valid};
