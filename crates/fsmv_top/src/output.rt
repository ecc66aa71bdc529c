//! Writing a text line by line.

ghost use Rattle.std.specs.Prelude.{◌≡◌, ◌<◌, ◌≤◌, length, OnOk, OnErr, is_some};
ghost use Rattle.fsmv_outside.specs.Count.{Rose};
ghost use Rattle.fsmv_outside.specs.Writing.{with_piece, WritesPrefix};

use fsmv_outside::{Sink, SinkFault};

/// The length of the first line of the text, with its line feed, if it has one.
fn line_len(text: &[u8]) -> usize
    requires { 0 < length text.now }
    ensures some { 0 < result }
    ensures within { result ≤ length text.now }
{
    match text.iter().position(|b| *b == b'\n') {
        Some(before) => before + 1,
        None => text.len(),
    }
}

/// Writes the text, each line with its line feed in one write, up to the first write that fails.
pub fn put_lines<S: Sink>(out: &mut S, text: &[u8]) -> Result<(), SinkFault>
    ensures reports { is_some (S.content out.new) ≡ is_some (S.content out.old) }
    ensures faults_never_fall { S.faults out.old ≤ S.faults out.new }
    ensures ok { OnOk result (S.content out.new ≡ with_piece (S.content out.old) text.now) }
    ensures refused { OnErr result (WritesPrefix (S.content out.old) (S.content out.new) text.now) }
    ensures failed { result ≡ Err SinkFault.Failed → Rose (S.faults out.old) (S.faults out.new) }
{
    let mut tail = text;
    while !tail.is_empty() {
        let (line, more) = tail.split_at(line_len(tail));
        out.put(line)?;
        tail = more;
    }
    Ok(())
}
