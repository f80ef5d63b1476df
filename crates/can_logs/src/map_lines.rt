//! The lines of a map: what stands after the CAN identifiers of a bus.
ghost use Rattle.std.specs.Prelude.{◌≡◌, ◌≤◌, ◌<◌, ◌*◌, ◌^◌, length, map as each, true};
ghost use Rattle.std.specs.Char.{to_ascii_lowercase};
ghost use Rattle.secured_pdu.specs.Frame.{IsWindow};
ghost use Rattle.can_logs.specs.MapLines.{is_can, can_form, line_with, place_of_can};
ghost use Rattle.can_logs.specs.MapLines.{hears_frame, row_head, own_silence};

use arrayvec::ArrayVec;
use basics::{Block, Bytes};
use secoc_words::WIDEST_WINDOW;
use std::alloc::Global;
use std::marker::Model;
use text_lines::reader::{LineReader, expect_count, value_at};
use text_lines::words::Words;
use text_lines::{Cause, LineFault, forms};

/// As many periods without an accepted frame are a silence.
const SILENT_PERIODS: u64 = 5;

/// The most lines that a map has.
pub const MOST_MAP_LINES: usize = 256;

/// A line of a map.
#[derive(Debug, Drop)]
pub struct MapLine {
    /// The CAN identifier.
    pub can: CanId,
    /// The Data ID.
    pub id: u16,
    /// The key of the authenticator.
    pub key: Block,
    /// The counter of the receiver: the freshness that it accepted last.
    pub counter: u64,
    /// The length of the payload.
    pub size: PayloadSize,
    /// The window of the receiver.
    pub window: Window,
    /// The channel that it hears, as a log names it; every one if there is none.
    pub channel: Option<Bytes>,
    /// Whether a log without an accepted frame of this line passes all the same.
    pub optional: bool,
    /// The time from one of its frames to the next, if the line tells it.
    pub every: Option<Period>,
    /// The time without an accepted frame that is too long for it, if the line tells it.
    pub silent: Option<Period>,
    /// What is printed instead of the CAN identifier, if the line has a name.
    pub name: Option<LineName>,
}

impl MapLine {
    /// What is printed of the line: its name, or else its CAN identifier.
    pub fn head(&self) -> &[u8]
        ensures value { result.now ≡ row_head self.now }
        ensures few { length result.now ≤ 32 }
    {
        match &self.name {
            Some(name) => name.bytes(),
            None => self.can.digits(),
        }
    }

    /// The microseconds without an accepted frame that are too many for the line: its own, or five times its period.
    pub fn own_silence(&self) -> Option<u64>
        ensures { result ≡ own_silence self.now }
    {
        if let Some(silent) = &self.silent {
            return Some(silent.get());
        }
        match &self.every {
            Some(every) => Some(every.get() * SILENT_PERIODS),
            None => None,
        }
    }
}

/// The name of a line of a map, at most 32 bytes. A contract sees the list of them.
#[derive(Debug, Drop)]
pub struct LineName {
    bytes: Vec<u8>,
}

impl Model for LineName {
    ghost use Rattle.std.specs.Prelude.{List, ℕ, ◌≤◌, length};

    ghost Value = { List ℕ };

    ghost view = { λ n. n.bytes.items };

    ghost invariant = { λ n. length n.bytes.items ≤ 32 };
}

impl LineName {
    /// The name of these bytes.
    pub fn of(bytes: Vec<u8>) -> LineName
        requires { length bytes.items ≤ 32 }
        ensures { result ≡ bytes.items }
    {
        LineName { bytes }
    }

    /// Its bytes.
    pub fn bytes(&self) -> &[u8]
        ensures value { result.now ≡ self.now }
        ensures few { length result.now ≤ 32 }
    {
        self.bytes.as_slice()
    }
}

/// A CAN identifier: its three or eight hexadecimal digits, in lower case. A contract sees the list of them.
#[derive(Debug, Drop)]
pub struct CanId {
    digits: ArrayVec<u8, 8>,
}

impl Model for CanId {
    ghost use Rattle.std.specs.Prelude.{List, ℕ};

    ghost Value = { List ℕ };

    ghost view = { λ c. c.digits.items };
}

impl CanId {
    /// The digits.
    pub fn digits(&self) -> &[u8]
        ensures value { result.now ≡ self.now }
        ensures few { length result.now ≤ 8 }
    {
        self.digits.as_slice()
    }
}

/// The window of a receiver, 1 to 256.
#[derive(Debug, Drop)]
pub struct Window {
    size: u16,
}

impl Model for Window {
    ghost use Rattle.std.specs.Prelude.{ℕ};
    ghost use Rattle.secured_pdu.specs.Frame.{IsWindow};

    ghost Value = { ℕ };

    ghost view = { λ w. w.size };

    ghost invariant = { λ w. IsWindow w.size };
}

impl Window {
    /// This window.
    pub fn of(size: u16) -> Window
        requires { IsWindow size }
        ensures { result ≡ size }
    {
        Window { size }
    }

    /// The window as a number.
    pub fn get(&self) -> u16
        ensures value { result ≡ self.now }
        ensures is_window { IsWindow result }
    {
        self.size
    }
}

/// The length of a payload in bytes, 1 to 60.
#[derive(Debug, Drop)]
pub struct PayloadSize {
    size: u8,
}

impl Model for PayloadSize {
    ghost use Rattle.std.specs.Prelude.{ℕ, ◌≤◌};

    ghost Value = { ℕ };

    ghost view = { λ s. s.size };

    ghost invariant = { λ s. (1 ≤ s.size) × (s.size ≤ 60) };
}

impl PayloadSize {
    /// This length.
    pub fn of(size: u8) -> PayloadSize
        requires some { 1 ≤ size }
        requires few { size ≤ 60 }
        ensures { result ≡ size }
    {
        PayloadSize { size }
    }

    /// The length as a number.
    pub fn get(&self) -> usize
        ensures value { result ≡ self.now }
        ensures some { 1 ≤ result }
        ensures few { result ≤ 60 }
    {
        usize::from(self.size)
    }
}

/// A time of a line of a map in microseconds: at least one, and at most 2 * 10^18.
#[derive(Debug, Drop)]
pub struct Period {
    micros: u64,
}

impl Model for Period {
    ghost use Rattle.std.specs.Prelude.{ℕ, ◌≤◌, ◌<◌, ◌*◌, ◌^◌};

    ghost Value = { ℕ };

    ghost view = { λ p. p.micros };

    ghost invariant = { λ p. (0 < p.micros) × (p.micros ≤ 2 * 10 ^ 18) };
}

impl Period {
    /// This time.
    pub fn of(micros: u64) -> Period
        requires some { 0 < micros }
        requires few { micros ≤ 2 * 10 ^ 18 }
        ensures { result ≡ micros }
    {
        Period { micros }
    }

    /// The microseconds.
    pub fn get(&self) -> u64
        ensures value { result ≡ self.now }
        ensures some { 0 < result }
        ensures few { result ≤ 2 * 10 ^ 18 }
    {
        self.micros
    }
}

/// A CAN identifier: three or eight hexadecimal digits of either case. Its digits in lower case stand for its length
/// and value.
#[tactic(auto, unfolding(crate::specs::MapLines::can_form))]
pub fn can_id(word: &[u8]) -> Option<CanId>
    ensures { result ≡ can_form word.now }
{
    if !is_can_id(word) {
        return None;
    }
    Some(CanId {
        digits: lower_digits(word),
    })
}

/// The bytes of a word with letters in lower case.
fn lower_digits(word: &[u8]) -> ArrayVec<u8, 8>
    requires { length word.now ≤ 8 }
    ensures { result.items ≡ each to_ascii_lowercase word.now }
{
    let mut digits = ArrayVec::new();
    for byte in word {
        digits.push(byte.to_ascii_lowercase());
    }
    digits
}

/// Whether a word is three or eight hexadecimal digits.
pub fn is_can_id(word: &[u8]) -> bool
    ensures exact { result ≡ is_can word.now }
    ensures few { result ≡ true → length word.now ≤ 8 }
{
    if !word.iter().all(u8::is_ascii_hexdigit) {
        return false;
    }
    word.len() == 3 || word.len() == 8
}

/// The place of the line for a CAN identifier, counted from 0; `None` if there is none.
pub fn place_of(lines: &[MapLine], can: &[u8]) -> Option<usize>
    ensures { result ≡ place_of_can lines.now can.now }
{
    lines.iter().position(|line| line.can.digits() == can)
}

/// Whether a line hears a frame of this CAN identifier on this channel.
pub fn does_hear(line: &MapLine, can: &[u8], channel: &[u8]) -> bool
    ensures { result ≡ hears_frame line.now can.now channel.now }
{
    if line.can.digits() != can {
        return false;
    }
    match &line.channel {
        Some(own) => own.bytes() == channel,
        None => true,
    }
}

/// The line of these words, with its CAN identifier and window, if they are of their forms, and its channel. It has no
/// marks.
#[tactic(auto, unfolding(crate::specs::MapLines::line_with))]
pub fn line_of_words(
    words: &Words<'_>,
    can: Option<CanId>,
    window: Option<Window>,
    channel: Option<Bytes>,
) -> Result<MapLine, Cause>
    requires { 5 ≤ length words.now }
    ensures { result ≡ line_with can window channel words.now }
{
    let can = value_at(1, can)?;
    let id = value_at(2, secoc_words::data_id(words.word(2)))?;
    let key = value_at(3, secoc_words::key(words.word(3)))?;
    let counter = value_at(4, secoc_words::fresh(words.word(4)))?;
    let size = value_at(5, forms::number(words.word(5), 1, 60))?;
    let window = value_at(6, window)?;
    Ok(MapLine {
        can,
        id,
        key,
        counter,
        size: PayloadSize::of(size as u8),
        window,
        channel,
        optional: false,
        every: None,
        silent: None,
        name: None,
    })
}
