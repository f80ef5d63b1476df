//! The arguments `trial B N SEED`.
ghost use Rattle.std.specs.Prelude.{IfSome, IfNone};
ghost use Rattle.bus_commands.specs.declared.trial_words.TrialWords.{TrialWords};
ghost use Rattle.bus_commands.specs.TrialWords.{NamesTrial};

use text_lines::forms;

/// How large a trial is, and what it begins with.
#[derive(Clone, Copy, Debug, PartialEq, Eq)]
pub struct TrialWords {
    /// How many events are drawn, 1 to 60,000.
    pub count: u32,
    /// The seed that they are drawn from.
    pub seed: u64,
}

/// What the first, third and fourth of four arguments ask for; the second names a bus file. They are `trial`, the
/// number of events from 1 to 60,000, and a seed below 2^64. Both numbers are decimal digits without sign, and only 0
/// begins with 0.
pub fn trial_of(name: &str, count: &str, seed: &str) -> Option<TrialWords>
    ensures found { IfSome result (NamesTrial name.now count.now seed.now) }
    ensures none { IfNone result ((trial : TrialWords) → ¬ NamesTrial name.now count.now seed.now trial) }
{
    if name != "trial" {
        return None;
    }
    let count = forms::number(count.as_bytes(), 1, 60_000)?;
    let seed = forms::number(seed.as_bytes(), 0, u64::MAX)?;
    Some(TrialWords {
        count: count as u32,
        seed,
    })
}
