//! What secure boot came to.
ghost use Rattle.std.specs.Prelude.{◌≡◌};
ghost use Rattle.secure_boot.specs.Booting.{is_good, is_decided, decided_as};

/// What secure boot came to since the last power-up.
#[derive(Clone, Copy, Debug, PartialEq, Eq)]
pub enum BootState {
    /// No boot was decided.
    Undecided,
    /// A boot succeeded.
    Good,
    /// A boot was decided and didn't succeed.
    Wrong,
}

impl BootState {
    /// The state after a boot that was decided so.
    pub fn decided(good: bool) -> BootState
        ensures { result ≡ decided_as good }
    {
        if good {
            BootState::Good
        } else {
            BootState::Wrong
        }
    }

    /// Whether a boot succeeded.
    pub fn is_good(self) -> bool
        ensures { result ≡ is_good self }
    {
        self == BootState::Good
    }

    /// Whether a boot was decided.
    pub fn is_decided(self) -> bool
        ensures { result ≡ is_decided self }
    {
        self != BootState::Undecided
    }
}
