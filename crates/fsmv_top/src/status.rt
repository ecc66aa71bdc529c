//! The outcome of a call of fsmv.

/// The outcome of a call. The exit statuses of the program are 0 to 8, in this order.
#[derive(Clone, Copy, Debug, PartialEq, Eq)]
pub enum Status {
    /// The requested text is written.
    Good,
    /// The report is written, and some cube of it fails.
    Failing,
    /// The report is written, no cube of it fails, and some is unknown.
    Open,
    /// The input is refused, and the line with the fault is written.
    Refused,
    /// The words are not those of a command, and the usage line is written.
    Usage,
    /// A file cannot be read, and the line that names it is written.
    ReadFault,
    /// A part of the text could not be written.
    WriteFault,
    /// Memory ran out. A prefix of the text may be written.
    NoMemory,
    /// The report is not accepted, and the line with the reason is written.
    Rejected,
}
