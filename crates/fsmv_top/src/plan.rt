//! What a command is to write, and the status of its call.

ghost use Rattle.std.specs.Prelude.{◌≡◌, IfOk, string_bytes};
ghost use Rattle.fsmv_top.specs.Refusals as spec;

use crate::refusal::{read_fault_line, refusal_line};
use crate::status::Status;
use smv_ast::{Fault, NoMemory, Text};
use std::alloc::Global;

const USAGE: &str = "usage: fsmv weave|prove|check|make, see the manual\n";

/// The bytes to write, and the status of the call once they are written.
#[derive(Drop)]
pub struct Plan {
    pub status: Status,
    pub text: String,
}

impl Plan {
    /// The usage line.
    pub fn usage(alloc: Global) -> Result<Plan, NoMemory>
        ensures { IfOk result (λ plan. (plan.status ≡ Status.Usage)
            × (string_bytes plan.text ≡ spec.usage_line)) }
    {
        Ok(Plan {
            status: Status::Usage,
            text: String::from_str(alloc, USAGE)?,
        })
    }

    /// The line of a refusal, where the feature model's features have these names.
    pub fn refusal(alloc: Global, names: &[Text], fault: Fault) -> Result<Plan, NoMemory>
        ensures { IfOk result (λ plan. (plan.status ≡ Status.Refused)
            × (string_bytes plan.text ≡ spec.refusal_line names.now fault)) }
    {
        let text = refusal_line(alloc, names, &fault)?;
        Ok(Plan {
            status: Status::Refused,
            text,
        })
    }

    /// The line that names a file that cannot be read.
    pub fn read_fault(alloc: Global, file: u32) -> Result<Plan, NoMemory>
        ensures { IfOk result (λ plan. (plan.status ≡ Status.ReadFault)
            × (string_bytes plan.text ≡ spec.read_fault_line file)) }
    {
        Ok(Plan {
            status: Status::ReadFault,
            text: read_fault_line(alloc, file)?,
        })
    }
}
