//! What a head tells of its part and its store.

/// What a caller says of its part and its store. Sizes that are all zero say nothing.
#[derive(Clone, Copy, Debug, PartialEq, Eq, Drop)]
pub struct FlashSizes {
    /// The unit of the part, in bytes.
    pub unit: u16,
    /// How many banks there are.
    pub banks: u8,
    /// How many bytes a bank has.
    pub bank_size: u32,
    /// How many cells the store has.
    pub cells: u16,
}
