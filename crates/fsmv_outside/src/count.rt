//! Counts that saturate at the end of `u64`.

ghost use Rattle.std.specs.Prelude.{◌≡◌};
ghost use Rattle.fsmv_outside.specs.Count.{counted};

/// The count after one more.
pub(crate) fn count_one(count: u64) -> u64
    ensures { result ≡ counted count }
{
    count.saturating_add(1)
}
