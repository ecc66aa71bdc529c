//! The program `fsmv`: it passes its words, the machine's files and its standard output to the top
//! call, and exits with the status's number.
#![tactic(auto)]

ghost use Rattle.std.specs.Prelude.{◌≡◌};
ghost use Rattle.std.specs.Process.{exit_status};
ghost use Rattle.fsmv_cli.specs.Numbers.{number};

use fsmv_outside::{DiskFiles, StandardOut};
use fsmv_top::{Status, run};
use std::alloc::AllocError;
use std::process::ExitCode;
use std::{env, io};

/// The exit status where the machine does not give the words.
const NO_WORDS: u8 = 9;

/// The words after the program's name. An error of the kind `InvalidData` says that one of them is
/// not UTF-8.
fn given_words(rt: &HostRuntime) -> io::Result<Vec<String>> {
    let mut words = Vec::new(rt.alloc());
    for word in env::args(rt)?.skip(1) {
        words.push(word)?;
    }
    Ok(words)
}

/// The words of the command. Where one of them is not text there are none: both are no command, and
/// are answered by the usage line.
fn words(rt: &HostRuntime) -> io::Result<Vec<String>> {
    match given_words(rt) {
        Err(error) if error.kind() == io::ErrorKind::InvalidData => Ok(Vec::new(rt.alloc())),
        given => given,
    }
}

/// The exit status of the call.
fn exit_code(status: Status) -> ExitCode
    ensures { exit_status result ≡ number status }
{
    ExitCode::from(status as u8)
}

/// The exit status where the machine does not give the words.
fn without_words(error: &io::Error) -> ExitCode {
    match error.kind() {
        io::ErrorKind::OutOfMemory => exit_code(Status::NoMemory),
        _ => ExitCode::from(NO_WORDS),
    }
}

fn main(rt: HostRuntime) -> ExitCode {
    let words = match words(&rt) {
        Ok(words) => words,
        Err(error) => return without_words(&error),
    };
    let mut files = DiskFiles::new(&rt);
    let mut out = StandardOut::new(&rt);
    let status = run(rt.alloc(), words.as_slice(), &mut files, &mut out);
    exit_code(status)
}
