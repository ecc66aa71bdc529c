//! Where the current level of a trail begins.
ghost use Rattle.std.specs.Prelude.{◌≡◌, ◌≤◌, AllPairs};
ghost use Rattle.sat_arena.specs.Justified.{current_level};
ghost use Rattle.sat_analyze.specs.Walked.{IsStart};

use sat_arena::Assigned;

/// The first position of the current_level level, where that is above 0, and otherwise the number of entries.
pub fn start_of_current_level(entries: &[Assigned]) -> usize
    requires { AllPairs (λ e f. e.level ≤ f.level) entries.now }
    ensures { IsStart entries.now result }
{
    let level = level_of_last(entries);
    let mut start = entries.len();
    while level > 0 && start > 0 && entries[start - 1].level == level {
        start -= 1;
    }
    start
}

/// The level of the last entry, and 0 where there is none.
fn level_of_last(entries: &[Assigned]) -> u32
    ensures { result ≡ current_level entries.now }
{
    match entries.last() {
        Some(entry) => entry.level,
        None => 0,
    }
}
