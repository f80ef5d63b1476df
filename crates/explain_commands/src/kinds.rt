//! The kinds of reasons for which a frame fails, and the tries of each.
ghost use Rattle.std.specs.Prelude.{◌≡◌, ◌<◌, ◌≤◌, ◌^◌, length, slice_get, option_map, unwrap_or, IfSome};
ghost use Rattle.secured_pdu.specs.declared.frame.TheConstants.{WIDEST_WINDOW};
ghost use Rattle.explain_commands.specs.declared.kinds.ReasonKind.TheVariants as kind;
ghost use Rattle.explain_commands.specs.Trials.{accepted_freshness, carried_tag};
ghost use Rattle.explain_commands.specs.Explaining.{frame_at};
ghost use Rattle.explain_commands.specs.Reasons.{receiver_of, trial_of, number_of_tries, reason_at, last_reason, beyond};
ghost use Rattle.explain_commands.specs.Reasons.{flipped, number_at, passes_or_not, again_at};
ghost use Rattle.explain_commands.specs.Reasons.{digit_number, low_16_bits, can_trial};

use crate::recent::{Accepted, Recent};
use crate::trials::{
    Comparison, KnownReceiver, Making, accepted_freshness, carried_tag, carries_tag, trial_ahead,
    trial_behind, trial_covering, trial_turned, trial_unlike, trial_with, trial_within,
};
use basics::Block;
use can_logs::{MapLine, WatchMap};
use std::marker::Model;

/// How far beyond the window a freshness is looked for.
const FAR: usize = 65536;

/// The most bytes of a frame, of CAN FD.
const MOST_BYTES: usize = 64;

/// A kind of reason. The kinds are looked for in this order.
#[derive(Clone, Copy)]
pub enum ReasonKind {
    /// The freshness and the authenticator of a frame that was accepted.
    Replay,
    /// The freshness of a frame that was accepted, with another authenticator.
    UsedAgain,
    /// A freshness that isn't above the last one.
    Behind,
    /// A freshness beyond the window.
    FarAhead,
    /// Another length of the payload.
    OtherLength,
    /// Another line of the map, with its key, Data ID, counter, window and length.
    OtherLine,
    /// The key of another line of the map.
    OtherKey,
    /// The Data ID of another line of the map.
    OtherId,
    /// The bytes of the Data ID in the other order.
    SwappedId,
    /// The bytes of the freshness in the other order.
    SwappedFreshness,
    /// No Data ID under the authenticator.
    NoId,
    /// A freshness of 32 bits under the authenticator.
    ShortFreshness,
    /// The last bytes of the CMAC in place of the first.
    LastBytes,
    /// The bytes of the authenticator in the other order.
    ReversedTag,
    /// The bytes of the key in the other order.
    ReversedKey,
    /// Freshness and authenticator before the payload.
    TrailerFirst,
    /// Fewer bytes of the payload under the authenticator, or zeros behind it.
    OtherCover,
    /// Another freshness byte.
    OtherLow,
    /// One bit of the PDU is another.
    FlippedBit,
    /// The low 16 bits of the CAN identifier as the Data ID.
    CanAsId,
}

/// Why a frame fails.
#[derive(Clone, Copy)]
pub enum Reason {
    /// Its freshness and its authenticator were accepted before, with the frame of this line of the log.
    Replay(u64),
    /// Its freshness was accepted before, with the frame of this line of the log, which has another authenticator.
    UsedAgain(u64),
    /// Its freshness is so far behind the counter, and of no accepted frame that is kept.
    Behind(usize),
    /// Its freshness is so far ahead of the counter, which is beyond this window.
    FarAhead(usize, u16),
    /// It verifies with a payload of so many bytes.
    OtherLength(usize),
    /// It verifies as this line of the map.
    OtherLine(u64),
    /// It verifies with the key of this line of the map.
    OtherKey(u64),
    /// It verifies with the Data ID of this line of the map.
    OtherId(u64),
    /// It verifies with the bytes of the Data ID in the other order.
    SwappedId,
    /// It verifies with the bytes of the freshness in the other order.
    SwappedFreshness,
    /// It verifies without the Data ID.
    NoId,
    /// It verifies with a freshness of 32 bits.
    ShortFreshness,
    /// It carries the last bytes of the CMAC in place of the first.
    LastBytes,
    /// It carries the bytes of the authenticator in the other order.
    ReversedTag,
    /// It verifies with the bytes of the key in the other order.
    ReversedKey,
    /// It verifies with freshness and authenticator before the payload.
    TrailerFirst,
    /// It verifies if the authenticator covers so many bytes of the payload and of zeros behind it.
    OtherCover(usize),
    /// It verifies with the freshness so far ahead of the counter, of which it carries another low byte.
    OtherLow(usize),
    /// It verifies if this bit of this byte is flipped. Both are counted from 0, the bits from the lowest.
    FlippedBit(usize, usize),
    /// It verifies with the low 16 bits of the CAN identifier as the Data ID.
    CanAsId,
    /// None of these: it has too few bytes for a payload of so many.
    TooShort(usize),
    /// None of these, and it is long enough.
    NoReason,
}

/// Why a frame fails, and how many authenticators were computed to find it.
#[derive(Clone, Copy)]
pub struct Explained {
    /// The reason.
    pub reason: Reason,
    /// The authenticators that were computed.
    pub tries: usize,
}

/// A frame that failed, and what is known before it.
#[derive(Drop)]
pub struct Case<'a> {
    lines: &'a [MapLine],
    numbers: &'a [u64],
    counters: &'a [u64],
    recent: &'a Recent,
    place: usize,
    receiver: KnownReceiver,
    bytes: &'a [u8],
}

impl<'a> Model for Case<'a> {
    ghost use Rattle.std.specs.Prelude.{◌≡◌, ◌≤◌, ◌<◌, length};
    ghost use Rattle.secured_pdu.specs.declared.frame.TheConstants.{WIDEST_WINDOW};
    ghost use Rattle.explain_commands.specs.Reasons.{Failing};

    ghost Value = { Failing };

    ghost view = { λ c. record {
      lines = c.lines.now;
      numbers = c.numbers.now;
      counters = c.counters.now;
      recent = c.recent.now;
      place = c.place;
      receiver = c.receiver;
      bytes = c.bytes.now;
    } };

    ghost invariant = { λ c. (length c.numbers.now ≡ length c.lines.now) × (length c.counters.now ≡ length c.lines.now)
        × (length c.lines.now ≤ 256) × (length c.bytes.now ≤ 64)
        × (c.receiver.size ≤ 60) × (c.receiver.window ≤ WIDEST_WINDOW) × (c.place < length c.lines.now) };
}

/// What a receiver of a line of the map knows that accepted this freshness last.
pub fn receiver_of(line: &MapLine, counter: u64) -> KnownReceiver
    ensures value { result ≡ receiver_of line.now counter }
    ensures some { 1 ≤ result.size }
    ensures size { result.size ≤ 60 }
    ensures window { result.window ≤ WIDEST_WINDOW }
{
    KnownReceiver {
        key: line.key,
        id: line.id,
        counter,
        window: line.window.get(),
        size: line.size.get(),
    }
}

impl<'a> Case<'a> {
    /// A frame that the line of the map at a place hears, and what is known before it.
    pub fn of(
        map: &'a WatchMap,
        counters: &'a [u64],
        recent: &'a Recent,
        place: usize,
        bytes: &'a [u8],
    ) -> Case<'a>
        requires as_many { length counters.now ≡ length map.now.lines }
        requires place { place < length map.now.lines }
        requires few { length bytes.now ≤ 64 }
        ensures { IfSome (slice_get map.now.lines place) (λ line. result
            ≡ frame_at (record { mapping = map.now; counters = counters.now; recent = recent.now })
            place bytes.now line) }
    {
        let lines = map.lines();
        Case {
            lines,
            numbers: map.numbers(),
            counters,
            recent,
            place,
            receiver: receiver_of(&lines[place], counters[place]),
            bytes,
        }
    }

    /// The place of the line of the map that hears it.
    pub fn place(&self) -> usize
        ensures { result ≡ self.now.place }
    {
        self.place
    }

    /// The freshness with which that line accepts it.
    pub fn accepted(&self) -> Option<u64>
        ensures { result ≡ accepted_freshness self.now.receiver self.now.bytes }
    {
        accepted_freshness(&self.receiver, self.bytes)
    }

    /// The authenticator that it carries; zeros if it is too short.
    pub fn tag(&self) -> [u8; 3]
        ensures { result ≡ carried_tag self.now.receiver self.now.bytes }
    {
        carried_tag(&self.receiver, self.bytes)
    }

    /// A try of a kind, counted from 0.
    pub fn trial(&self, kind: ReasonKind, at: usize) -> Comparison
        requires { at < number_of_tries self.now kind }
        ensures { result ≡ trial_of self.now kind at }
    {
        match kind {
            ReasonKind::Replay => self.again(at, true),
            ReasonKind::UsedAgain => self.again(at, false),
            ReasonKind::Behind => trial_behind(&self.receiver, self.bytes, at as u64),
            ReasonKind::FarAhead => self.far_ahead(at),
            ReasonKind::OtherLength => self.other_length(at),
            ReasonKind::OtherLine => self.other_line(at),
            ReasonKind::OtherKey => self.other_key(at),
            ReasonKind::OtherId => self.other_id(at),
            ReasonKind::SwappedId => trial_within(Making::SwappedId, &self.receiver, self.bytes),
            ReasonKind::SwappedFreshness => {
                trial_within(Making::SwappedFreshness, &self.receiver, self.bytes)
            }
            ReasonKind::NoId => trial_within(Making::NoId, &self.receiver, self.bytes),
            ReasonKind::ShortFreshness => {
                trial_within(Making::ShortFreshness, &self.receiver, self.bytes)
            }
            ReasonKind::LastBytes => trial_within(Making::LastBytes, &self.receiver, self.bytes),
            ReasonKind::ReversedTag => trial_within(
                Making::ReversedTag,
                &self.receiver,
                self.bytes,
            ),
            ReasonKind::ReversedKey => self.reversed_key(),
            ReasonKind::TrailerFirst => trial_turned(&self.receiver, self.bytes),
            ReasonKind::OtherCover => self.other_cover(at),
            ReasonKind::OtherLow => trial_unlike(&self.receiver, self.bytes, at as u64 + 1),
            ReasonKind::FlippedBit => self.flipped_bit(at),
            ReasonKind::CanAsId => self.can_as_id(),
        }
    }

    /// How many tries of a kind there are.
    pub fn count(&self, kind: ReasonKind) -> usize
        ensures value { result ≡ number_of_tries self.now kind }
        ensures few { result ≤ 65536 }
    {
        match kind {
            ReasonKind::Replay | ReasonKind::UsedAgain => self.recent.len(),
            ReasonKind::Behind | ReasonKind::FarAhead => FAR,
            ReasonKind::OtherLength | ReasonKind::OtherCover => 60,
            ReasonKind::OtherLine | ReasonKind::OtherKey | ReasonKind::OtherId => self.lines.len(),
            ReasonKind::SwappedId
            | ReasonKind::SwappedFreshness
            | ReasonKind::NoId
            | ReasonKind::ShortFreshness
            | ReasonKind::LastBytes
            | ReasonKind::ReversedTag
            | ReasonKind::ReversedKey
            | ReasonKind::TrailerFirst
            | ReasonKind::CanAsId => 1,
            ReasonKind::OtherLow => usize::from(self.receiver.window),
            ReasonKind::FlippedBit => 8 * (self.receiver.size + 4),
        }
    }

    /// The reason that a try gives if it agrees.
    pub fn reason(&self, kind: ReasonKind, at: usize) -> Reason
        requires { at < number_of_tries self.now kind }
        ensures { result ≡ reason_at self.now kind at }
    {
        match kind {
            ReasonKind::Replay => Reason::Replay(self.number_of_accepted(at)),
            ReasonKind::UsedAgain => Reason::UsedAgain(self.number_of_accepted(at)),
            ReasonKind::Behind => Reason::Behind(at),
            ReasonKind::FarAhead => Reason::FarAhead(self.beyond() + at, self.receiver.window),
            ReasonKind::OtherLength => Reason::OtherLength(at + 1),
            ReasonKind::OtherLine => Reason::OtherLine(self.numbers[at]),
            ReasonKind::OtherKey => Reason::OtherKey(self.numbers[at]),
            ReasonKind::OtherId => Reason::OtherId(self.numbers[at]),
            ReasonKind::SwappedId => Reason::SwappedId,
            ReasonKind::SwappedFreshness => Reason::SwappedFreshness,
            ReasonKind::NoId => Reason::NoId,
            ReasonKind::ShortFreshness => Reason::ShortFreshness,
            ReasonKind::LastBytes => Reason::LastBytes,
            ReasonKind::ReversedTag => Reason::ReversedTag,
            ReasonKind::ReversedKey => Reason::ReversedKey,
            ReasonKind::TrailerFirst => Reason::TrailerFirst,
            ReasonKind::OtherCover => Reason::OtherCover(at + 1),
            ReasonKind::OtherLow => Reason::OtherLow(at + 1),
            ReasonKind::FlippedBit => Reason::FlippedBit(at / 8, at % 8),
            ReasonKind::CanAsId => Reason::CanAsId,
        }
    }

    /// The reason if no try agrees.
    pub fn last_reason(&self) -> Reason
        ensures { result ≡ last_reason self.now }
    {
        if self.bytes.len() < self.receiver.size + 4 {
            Reason::TooShort(self.receiver.size)
        } else {
            Reason::NoReason
        }
    }

    /// How far ahead of the counter the first freshness beyond the window is.
    fn beyond(&self) -> usize
        ensures value { result ≡ beyond self.now.receiver }
        ensures few { result ≤ 257 }
    {
        usize::from(self.receiver.window) + 1
    }

    /// The number of the log's line of an accepted frame.
    fn number_of_accepted(&self, at: usize) -> u64
        ensures { result ≡ number_at self.now at }
    {
        match self.recent.get(at) {
            Some(accepted) => accepted.number,
            None => 0,
        }
    }

    /// The freshness of an accepted frame with the same authenticator, or with another.
    fn again(&self, at: usize, same: bool) -> Comparison
        ensures { result ≡ again_at same self.now at }
    {
        let Some(accepted) = self.recent.get(at) else {
            return Comparison::Skipped;
        };
        if accepted.place != self.place {
            return Comparison::Skipped;
        }
        if !passes_or_not(same, carries_tag(&self.receiver, self.bytes, &accepted.tag)) {
            return Comparison::Skipped;
        }
        trial_with(&self.receiver, self.bytes, accepted.freshness)
    }

    /// The bytes of the key in the other order.
    fn reversed_key(&self) -> Comparison
        ensures { result ≡ trial_of self.now kind.ReversedKey 0 }
    {
        let mut other = self.receiver;
        let mut bytes = *other.key.bytes();
        bytes.reverse();
        other.key = Block::of(bytes);
        trial_within(Making::Standard, &other, self.bytes)
    }

    /// Another length under the authenticator.
    fn other_cover(&self, at: usize) -> Comparison
        requires { at < 60 }
        ensures { result ≡ trial_of self.now kind.OtherCover at }
    {
        let count = at + 1;
        if count == self.receiver.size {
            return Comparison::Skipped;
        }
        trial_covering(&self.receiver, count, self.bytes)
    }

    /// A freshness beyond the window.
    fn far_ahead(&self, at: usize) -> Comparison
        requires { at < 65536 }
        ensures { result ≡ trial_of self.now kind.FarAhead at }
    {
        trial_ahead(&self.receiver, self.bytes, (self.beyond() + at) as u64)
    }

    /// Another length of the payload.
    fn other_length(&self, at: usize) -> Comparison
        requires { at < 60 }
        ensures { result ≡ trial_of self.now kind.OtherLength at }
    {
        let size = at + 1;
        if size == self.receiver.size {
            return Comparison::Skipped;
        }
        let mut other = self.receiver;
        other.size = size;
        trial_within(Making::Standard, &other, self.bytes)
    }

    /// Another line of the map.
    fn other_line(&self, at: usize) -> Comparison
        requires { at < length self.now.lines }
        ensures { result ≡ trial_of self.now kind.OtherLine at }
    {
        if at == self.place {
            return Comparison::Skipped;
        }
        let other = receiver_of(&self.lines[at], self.counters[at]);
        trial_within(Making::Standard, &other, self.bytes)
    }

    /// The key of another line of the map.
    fn other_key(&self, at: usize) -> Comparison
        requires { at < length self.now.lines }
        ensures { result ≡ trial_of self.now kind.OtherKey at }
    {
        if at == self.place {
            return Comparison::Skipped;
        }
        let mut other = self.receiver;
        other.key = self.lines[at].key;
        trial_within(Making::Standard, &other, self.bytes)
    }

    /// The Data ID of another line of the map.
    fn other_id(&self, at: usize) -> Comparison
        requires { at < length self.now.lines }
        ensures { result ≡ trial_of self.now kind.OtherId at }
    {
        if at == self.place {
            return Comparison::Skipped;
        }
        let mut other = self.receiver;
        other.id = self.lines[at].id;
        trial_within(Making::Standard, &other, self.bytes)
    }

    /// The CAN identifier as the Data ID.
    fn can_as_id(&self) -> Comparison
        ensures { result ≡ trial_of self.now kind.CanAsId 0 }
    {
        self.with_can(&self.lines[self.place])
    }

    /// The CAN identifier of a line as the Data ID.
    fn with_can(&self, line: &MapLine) -> Comparison
        ensures { result ≡ can_trial self.now line.now }
    {
        let id = low_16_bits(line.can.digits());
        if id == self.receiver.id {
            return Comparison::Skipped;
        }
        let mut other = self.receiver;
        other.id = id;
        trial_within(Making::Standard, &other, self.bytes)
    }

    /// One bit flipped.
    fn flipped_bit(&self, bit: usize) -> Comparison
        ensures { result ≡ trial_of self.now kind.FlippedBit bit }
    {
        let mut room = [0u8; MOST_BYTES];
        let bytes = &mut room[..self.bytes.len()];
        bytes.copy_from_slice(self.bytes);
        flip(bit, bytes);
        trial_within(Making::Standard, &self.receiver, bytes)
    }
}

/// The low 16 bits of hexadecimal digits in lower case.
fn low_16_bits(digits: &[u8]) -> u16
    ensures { result ≡ low_16_bits digits.now }
{
    let mut sum = 0u32;
    for digit in digits {
        sum = (sum * 16 + digit_number(*digit)) % 65536;
    }
    sum as u16
}

/// The number of a hexadecimal digit in lower case.
fn digit_number(digit: u8) -> u32
    ensures value { result ≡ digit_number digit }
    ensures few { result ≤ 255 }
{
    if digit > b'9' {
        return u32::from(digit.saturating_sub(87));
    }
    u32::from(digit.saturating_sub(b'0'))
}

/// Whether a test passes, or whether it doesn't.
fn passes_or_not(passes: bool, test: bool) -> bool
    ensures { result ≡ passes_or_not passes test }
{
    if passes { test } else { !test }
}

/// Flips one bit. Bits are counted from the first byte on, and in a byte from the lowest.
fn flip(bit: usize, bytes: &mut [u8])
    ensures { bytes.new ≡ flipped bit bytes.old }
{
    let place = bit / 8;
    if place < bytes.len() {
        bytes[place] ^= mask(bit % 8);
    }
}

/// The byte of which one bit is set.
fn mask(bit: usize) -> u8
    requires { bit < 8 }
    ensures { result ≡ 2 ^ bit }
{
    1 << bit
}
