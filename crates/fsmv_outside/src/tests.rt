ghost use Rattle.std.specs.Prelude.{◌≡◌, ◌++◌, IsTrue, OnOk, IfSome};
ghost use Rattle.fsmv_outside.specs.Count.{Rose};
ghost use Rattle.fsmv_outside.specs.Writing.{with_piece};

use crate::disk::read_to_end;
use crate::standard::write_whole;
use crate::{
    DiskFiles, Files, FilesFault, MemoryFiles, MemorySink, Sink, SinkFault, StandardOut,
    SteadyFiles, SteadySink,
};
use std::alloc::{AllocError, Global};
use std::io::{ErrorKind, Read, Write};
use std::test::Fail;
use std::{fs, io};

// Two reads in a row, by a caller that is generic over the files.
fn read_both<F: Files>(
    alloc: Global,
    files: &mut F,
    first: &str,
    second: &str,
    most: u64,
    into: &mut Vec<u8>,
) -> Result<(), FilesFault>
    requires first_allowed { IsTrue (F.may_read files.old first.now) }
    requires second_allowed { IsTrue (F.may_read files.old second.now) }
    ensures held_stays { F.held files.new ≡ F.held files.old }
    ensures failed { result ≡ Err FilesFault.Failed
        → Rose (F.faults files.old) (F.faults files.new) }
    ensures given { OnOk result (IfSome (F.held files.old first.now) (λ one.
        IfSome (F.held files.old second.now) (λ two.
        into.new.items ≡ into.old.items ++ one ++ two))) }
{
    files.read_all(alloc, first, most, into)?;
    files.read_all(alloc, second, most, into)
}

// Two writes in a row, by a caller that is generic over the sink.
fn put_both<S: Sink>(sink: &mut S, first: &[u8], second: &[u8]) -> Result<(), SinkFault>
    ensures ok { OnOk result
        (S.content sink.new ≡ with_piece (S.content sink.old) (first.now ++ second.now)) }
    ensures failed { result ≡ Err SinkFault.Failed → Rose (S.faults sink.old) (S.faults sink.new) }
{
    sink.put(first)?;
    sink.put(second)
}

fn three_files(alloc: Global) -> Result<Vec<(String, Vec<u8>)>, AllocError> {
    let mut files = Vec::new(alloc);
    for (name, content) in [("a", "one"), ("b", "four"), ("a", "two")] {
        let content = Vec::from_slice(alloc, content.as_bytes())?;
        files.push((String::from_str(alloc, name)?, content))?;
    }
    Ok(files)
}

#[test]
fn reads_from_memory(rt: HostRuntime) -> Result<(), Fail> {
    let alloc = rt.alloc();
    let mut planned = MemoryFiles::new(three_files(alloc)?, vec![in alloc; 3]?);
    let mut steady = SteadyFiles::new(three_files(alloc)?);
    let (mut first, mut second) = (Vec::new(alloc), Vec::new(alloc));
    let calls = [
        ("a", 9, Ok(()), Ok(()), "one", "one"),
        (
            "b",
            3,
            Err(FilesFault::TooLong),
            Err(FilesFault::TooLong),
            "one",
            "one",
        ),
        ("a", 9, Err(FilesFault::Failed), Ok(()), "one", "oneone"),
        ("c", 9, Err(FilesFault::Failed), Ok(()), "one", "oneone"),
        ("b", 4, Ok(()), Ok(()), "onefour", "oneonefour"),
    ];
    for (name, most, by_plan, steadily, one, two) in calls {
        assert_eq!(rt;
            planned.read_all(alloc, name, most, &mut first),
            by_plan,
            "{name}"
        );
        assert_eq!(rt;
            steady.read_all(alloc, name, most, &mut second),
            steadily,
            "{name}"
        );
        assert_eq!(rt; first.as_slice(), one.as_bytes());
        assert_eq!(rt; second.as_slice(), two.as_bytes());
    }
    assert_eq!(rt;
        read_both(alloc, &mut steady, "b", "a", 9, &mut second),
        Ok(())
    );
    assert_eq!(rt; second.as_slice(), b"oneonefourfourone".as_slice());
    Ok(())
}

#[test]
fn writes_to_memory(rt: HostRuntime) -> Result<(), Fail> {
    let alloc = rt.alloc();
    let mut planned = MemorySink::new(alloc, vec![in alloc; 2]?);
    let mut steady = SteadySink::new(alloc);
    let calls = [
        ("ab", Ok(()), "ab", "ab"),
        ("cd", Err(SinkFault::Failed), "ab", "abcd"),
        ("ef", Ok(()), "abef", "abcdef"),
    ];
    for (piece, by_plan, one, two) in calls {
        assert_eq!(rt; planned.put(piece.as_bytes()), by_plan, "{piece}");
        assert_eq!(rt; steady.put(piece.as_bytes()), Ok(()), "{piece}");
        assert_eq!(rt; planned.written(), one.as_bytes());
        assert_eq!(rt; steady.written(), two.as_bytes());
    }
    assert_eq!(rt; put_both(&mut steady, b"gh", b"i"), Ok(()));
    assert_eq!(rt; steady.written(), b"abcdefghi".as_slice());
    Ok(())
}

#[test]
fn reads_from_disk(rt: HostRuntime) -> Result<(), Fail> {
    let alloc = rt.alloc();
    let path = "fsmv_outside_test";
    let content = vec![in alloc; b'x'; 10_000]?;
    fs::write(&rt, path, content.as_slice())?;
    let mut files = DiskFiles::new(&rt);
    let mut into = Vec::from_slice(alloc, b"kept".as_slice())?;
    let calls = [
        (path, 9_999, Err(FilesFault::TooLong), 4),
        ("fsmv_outside_missing", 9_999, Err(FilesFault::Failed), 4),
        (".", 9_999, Err(FilesFault::Failed), 4),
        (path, 10_000, Ok(()), 10_004),
    ];
    for (name, most, answer, length) in calls {
        assert_eq!(rt;
            files.read_all(alloc, name, most, &mut into),
            answer,
            "{name}"
        );
        assert_eq!(rt; into.len(), length, "{name}");
    }
    fs::remove_file(&rt, path)?;
    assert!(rt; into.starts_with(b"keptxxx"));
    Ok(())
}

#[test]
fn writes_to_standard_output(rt: HostRuntime) {
    let mut out = StandardOut::new(&rt);
    assert_eq!(rt; out.put(b"one line\n"), Ok(()));
}

// Reads and writes at most three bytes a call. Each second call is interrupted, and one fails.
#[derive(Drop)]
struct Halting {
    bytes: Vec<u8>,
    calls: u32,
    fails_at: u32,
}

impl Halting {
    fn next_call(&mut self) -> io::Result<()> {
        self.calls = self.calls.saturating_add(1);
        if self.calls == self.fails_at {
            return Err(io::Error::from(ErrorKind::Other));
        }
        if self.calls % 2 == 0 {
            return Err(io::Error::from(ErrorKind::Interrupted));
        }
        Ok(())
    }
}

impl Read for Halting {
    fn read(&mut self, buf: &mut [u8]) -> io::Result<usize> {
        self.next_call()?;
        let count = buf.len().min(3).min(self.bytes.len());
        for byte in buf[..count].iter_mut() {
            *byte = self.bytes.pop().unwrap_or(0);
        }
        Ok(count)
    }
}

impl Write for Halting {
    fn write(&mut self, buf: &[u8]) -> io::Result<usize> {
        self.next_call()?;
        let room = 8usize.saturating_sub(self.bytes.len());
        let count = buf.len().min(3).min(room);
        self.bytes.extend_from_slice(&buf[..count])?;
        Ok(count)
    }

    fn flush(&mut self) -> io::Result<()> {
        Ok(())
    }
}

#[test]
fn goes_on_after_interruptions(rt: HostRuntime) -> Result<(), Fail> {
    let alloc = rt.alloc();
    for (fails_at, answer) in [(0, Ok(())), (4, Err(FilesFault::Failed))] {
        let bytes = Vec::from_slice(alloc, b"76543210".as_slice())?;
        let mut file = Halting {
            bytes,
            calls: 0,
            fails_at,
        };
        let mut into = Vec::new(alloc);
        assert_eq!(rt; read_to_end(&mut file, 8, &mut into), answer);
        if answer.is_ok() {
            assert_eq!(rt; into.as_slice(), b"01234567".as_slice());
        }
    }
    let calls = [
        (0, "01234567", Ok(()), "01234567"),
        (4, "01234567", Err(SinkFault::Failed), "012345"),
        (0, "012345678", Err(SinkFault::Failed), "01234567"),
    ];
    for (fails_at, piece, answer, written) in calls {
        let mut out = Halting {
            bytes: Vec::new(alloc),
            calls: 0,
            fails_at,
        };
        assert_eq!(rt; write_whole(&mut out, piece.as_bytes()), answer);
        assert_eq!(rt; out.bytes.as_slice(), written.as_bytes());
    }
    Ok(())
}
