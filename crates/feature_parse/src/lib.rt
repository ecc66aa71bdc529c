//! Reads the texts of features, and says where a text leaves their grammar.
#![tactic(auto)]

mod changes;
mod features;
mod introduced;
mod needs;

pub use features::{FeatureReading, read_features};
