//! What both trees and clauses stand on: texts, lists, boxes, want of memory, and citations of
//! clauses.
#![tactic(auto)]

mod citation;
mod no_memory;
mod text;

pub use citation::{Id, Proof};
pub use no_memory::NoMemory;
pub use sqlite_items::{Boxed, Items as List};
pub use text::Text;
