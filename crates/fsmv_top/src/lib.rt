//! The top call of fsmv: from the words of a command to one text and one status.
#![tactic(auto)]

mod command;
mod feature_names;
mod input;
mod output;
mod plan;
mod refusal;
mod reserved;
mod status;
mod weave;
mod words;

pub use command::run;
pub use status::Status;
