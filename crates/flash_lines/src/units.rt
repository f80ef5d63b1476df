//! The units that a part programs.
ghost use Rattle.std.specs.Prelude.{◌≡◌, ◌≤◌, MatchOption};
ghost use Rattle.flash_lines.specs.Lines.{line_length};
ghost use Rattle.flash_lines.specs.Units.{unit_bytes, IsNoUnit};

/// How many bytes a part programs at once, and only once between two erases.
#[derive(Clone, Copy, Debug, PartialEq, Eq, Drop)]
pub enum UnitSize {
    Bytes8,
    Bytes16,
    Bytes32,
    Bytes64,
    Bytes128,
}

impl UnitSize {
    /// The unit of so many bytes. A part of smaller ones takes eight bytes as its unit.
    pub fn of(bytes: u16) -> Option<UnitSize>
        ensures { MatchOption result (IsNoUnit bytes) (λ unit. unit_bytes unit ≡ bytes) }
    {
        match bytes {
            8 => Some(UnitSize::Bytes8),
            16 => Some(UnitSize::Bytes16),
            32 => Some(UnitSize::Bytes32),
            64 => Some(UnitSize::Bytes64),
            128 => Some(UnitSize::Bytes128),
            _ => None,
        }
    }

    /// How many bytes a line takes.
    pub fn line_length(self) -> usize
        ensures length { result ≡ line_length (unit_bytes self) }
        ensures least { 44 ≤ result }
        ensures most { result ≤ 128 }
    {
        match self {
            UnitSize::Bytes8 | UnitSize::Bytes16 => 48,
            UnitSize::Bytes32 | UnitSize::Bytes64 => 64,
            UnitSize::Bytes128 => 128,
        }
    }
}
