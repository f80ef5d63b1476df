// What stores there are, and what a look at the first bytes of one finds.
ghost use Rattle.std.specs.Prelude.{◌≡◌};
ghost use Rattle.cell_store.specs.Layout.{base};

/// How a store keeps its cells. Its byte in the header is 1 for `Twin` and 2 for `Log`.
#[derive(Clone, Copy, Debug, PartialEq, Eq, Drop)]
pub enum Kind {
    Twin,
    Log,
}

/// Where a store lies on its disk. Its byte in the header is 1 for `One` and 2 for `Two`.
#[derive(Clone, Copy, Debug, PartialEq, Eq, Drop)]
pub enum Version {
    One,
    Two,
}

impl Version {
    /// The address of a store's first byte: 0 for `One` and 32768 for `Two`.
    pub fn base(self) -> u64
        ensures { result ≡ base self }
    {
        match self {
            Version::One => 0,
            Version::Two => 32768,
        }
    }
}

/// The kind and the version of a store.
#[derive(Clone, Copy, Debug, PartialEq, Eq, Drop)]
pub struct Layout {
    pub kind: Kind,
    pub version: Version,
}

/// What the 32 bytes at a store's base are: all zero, no header, or the header of a store.
#[derive(Clone, Copy, Debug, PartialEq, Eq)]
pub enum Probe {
    Blank,
    Foreign,
    Store { kind: Kind, cells: u16 },
}
