//! Look-up of a file among files in memory.

ghost use Rattle.std.specs.Prelude.{◌≡◌, ◌≢◌, ◌↔◌, ◌^◌, ◌<◌, ◌++◌, length, OnOk, OnErr, IfSome};
ghost use Rattle.std.specs.Option.{option_copied};
ghost use Rattle.fsmv_outside.specs.Memory.{content_of, content_or_empty, listed};

use crate::files::FilesFault;

/// The content of the first file of this name.
pub(crate) fn find_file<'a>(files: &'a [(String, Vec<u8>)], name: &str) -> Option<&'a [u8]>
    ensures first { option_copied result ≡ content_of (listed files.now) name.now }
    ensures short { IfSome (content_of (listed files.now) name.now)
        (λ content. length content < 2 ^ 63) }
{
    for (held, content) in files {
        if held.as_str() == name {
            return Some(content.as_slice());
        }
    }
    None
}

/// The content of the first file of this name; an unknown name is an empty file.
pub(crate) fn find_file_or_empty<'a>(files: &'a [(String, Vec<u8>)], name: &str) -> &'a [u8]
    ensures first { result.now ≡ content_or_empty (listed files.now) name.now }
{
    find_file(files, name).unwrap_or(&[])
}

/// Appends a file's content, if it has at most `most` bytes.
pub(crate) fn append_file(content: &[u8], most: u64, into: &mut Vec<u8>) -> Result<(), FilesFault>
    ensures ok { OnOk result (into.new.items ≡ into.old.items ++ content.now) }
    ensures refused { OnErr result (into.new.items ≡ into.old.items) }
    ensures too_long { (result ≡ Err FilesFault.TooLong) ↔ (most < length content.now) }
    ensures never_failed { result ≢ Err FilesFault.Failed }
{
    if content.len() as u64 > most {
        return Err(FilesFault::TooLong);
    }
    into.extend_from_slice(content)?;
    Ok(())
}
