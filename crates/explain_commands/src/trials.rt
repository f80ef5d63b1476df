//! A frame that is tried as a Secured I-PDU of a receiver.
ghost use Rattle.std.specs.Prelude.{◌≡◌, ◌+◌, ◌-◌, ◌%◌, ◌^◌, ◌<◌, ◌≤◌, ◌++◌, length, take, drop, replicate, true};
ghost use Rattle.std.specs.Prelude.{Some, None, if◌then◌else◌};
ghost use Rattle.secured_pdu.specs.Frame.{IsPayload};
ghost use Rattle.explain_commands.specs.Trials.{tag_by, has_room, has_low, tag_trial, trial_with, candidate};
ghost use Rattle.explain_commands.specs.Trials.{trial_within, agrees as is_agreement, accepted_freshness};
ghost use Rattle.explain_commands.specs.Trials.{input_without_id, input_with_32_bits, payload_trial, trial_behind};
ghost use Rattle.explain_commands.specs.Trials.{trial_unlike, carries_tag, carried_tag, trial_covering, trial_turned};
ghost use Rattle.she_cmac.specs.Cmac.{cmac};

use basics::Block;
use secured_pdu::input_mac;
use she_aes::{Schedule, expand};
use she_cmac::cmac_of_parts;

/// How a PDU may have been made.
#[derive(Clone, Copy)]
pub enum Making {
    /// As SecOC's profile 1 says.
    Standard,
    /// With the bytes of the Data ID in the other order.
    SwappedId,
    /// With the bytes of the full freshness in the other order.
    SwappedFreshness,
    /// Without the Data ID under the authenticator.
    NoId,
    /// With a freshness of 32 bits under the authenticator.
    ShortFreshness,
    /// With the last three bytes of the CMAC in place of the first.
    LastBytes,
    /// With the bytes of the authenticator in the other order.
    ReversedTag,
}

/// What a try comes to.
#[derive(Clone, Copy)]
pub enum Comparison {
    /// The low byte of the freshness isn't the one that the frame carries, or the frame is too short: no authenticator
    /// was computed.
    Skipped,
    /// The authenticator is another one.
    Differs,
    /// The authenticator is that of the frame.
    Agrees,
}

impl Comparison {
    /// Whether the authenticator is that of the frame.
    pub fn agrees(self) -> bool
        ensures { result ≡ is_agreement self }
    {
        matches!(self, Comparison::Agrees)
    }
}

/// What a receiver of a PDU knows: its key, its Data ID, the freshness that it accepted last, its window and the length
/// of the payload in bytes.
#[derive(Clone, Copy)]
pub struct KnownReceiver {
    /// The key.
    pub key: Block,
    /// The Data ID.
    pub id: u16,
    /// The freshness that was accepted last.
    pub counter: u64,
    /// The window, 1 to 256.
    pub window: u16,
    /// The length of the payload, 1 to 60.
    pub size: usize,
}

/// Three bytes of the CMAC of a PDU that was made in this way.
#[tactic(auto, unfolding(crate::specs::Trials::tag_by))]
fn tag_by(
    schedule: &Schedule,
    how: Making,
    receiver: &KnownReceiver,
    payload: &[u8],
    freshness: u64,
) -> [u8; 3]
    requires payload { IsPayload payload.now }
    requires key { schedule.now ≡ receiver.now.key }
    ensures { result ≡ tag_by how receiver.now payload.now freshness }
{
    match how {
        Making::Standard => first_three(&input_mac(schedule, receiver.id, payload, freshness)),
        Making::SwappedId => {
            let id = receiver.id.swap_bytes();
            first_three(&input_mac(schedule, id, payload, freshness))
        }
        Making::SwappedFreshness => {
            let swapped = freshness.swap_bytes();
            first_three(&input_mac(schedule, receiver.id, payload, swapped))
        }
        Making::NoId => first_three(&mac_without_id(schedule, payload, freshness)),
        Making::ShortFreshness => {
            first_three(&mac_with_32_bits(schedule, receiver.id, payload, freshness))
        }
        Making::LastBytes => last_three(&input_mac(schedule, receiver.id, payload, freshness)),
        Making::ReversedTag => {
            let [one, two, three] = first_three(&input_mac(
                schedule,
                receiver.id,
                payload,
                freshness,
            ));
            [three, two, one]
        }
    }
}

/// The CMAC without the Data ID.
fn mac_without_id(schedule: &Schedule, payload: &[u8], freshness: u64) -> Block
    ensures { result ≡ cmac schedule.now (input_without_id payload.now freshness) }
{
    cmac_of_parts(schedule, &[payload, &freshness.to_be_bytes()])
}

/// The CMAC with a freshness of 32 bits.
fn mac_with_32_bits(schedule: &Schedule, id: u16, payload: &[u8], freshness: u64) -> Block
    ensures { result ≡ cmac schedule.now (input_with_32_bits id payload.now freshness) }
{
    let low = (freshness % 0x1_0000_0000) as u32;
    cmac_of_parts(schedule, &[&id.to_be_bytes(), payload, &low.to_be_bytes()])
}

/// The first three bytes of a CMAC.
fn first_three(mac: &Block) -> [u8; 3]
    ensures { result ≡ take 3 mac.now }
{
    let bytes = mac.bytes();
    [bytes[0], bytes[1], bytes[2]]
}

/// The last three bytes of a CMAC.
fn last_three(mac: &Block) -> [u8; 3]
    ensures { result ≡ drop 13 mac.now }
{
    let bytes = mac.bytes();
    [bytes[13], bytes[14], bytes[15]]
}

/// Whether a payload has 1 to 60 bytes, and a frame enough for the PDU.
fn has_room(size: usize, bytes: &[u8]) -> bool
    ensures exact { result ≡ has_room size bytes.now }
    ensures some { result ≡ true → 1 ≤ size }
    ensures few { result ≡ true → size ≤ 60 }
    ensures enough { result ≡ true → size + 4 ≤ length bytes.now }
{
    if size == 0 || size > 60 {
        return false;
    }
    bytes.len() >= size + 4
}

/// Computes the authenticator with the round keys of the receiver's key, and compares it.
pub fn tag_trial_by(
    schedule: &Schedule,
    how: Making,
    receiver: &KnownReceiver,
    bytes: &[u8],
    freshness: u64,
) -> Comparison
    requires key { schedule.now ≡ receiver.now.key }
    requires some { 1 ≤ receiver.now.size }
    requires few { receiver.now.size ≤ 60 }
    requires enough { receiver.now.size + 4 ≤ length bytes.now }
    ensures { result ≡ tag_trial how receiver.now bytes.now freshness }
{
    payload_trial(
        schedule,
        how,
        receiver,
        &bytes[..receiver.size],
        bytes,
        freshness,
    )
}

/// Computes the authenticator of a payload, and compares it with the one that the bytes carry.
fn payload_trial(
    schedule: &Schedule,
    how: Making,
    receiver: &KnownReceiver,
    payload: &[u8],
    bytes: &[u8],
    freshness: u64,
) -> Comparison
    requires payload { IsPayload payload.now }
    requires key { schedule.now ≡ receiver.now.key }
    requires few { receiver.now.size ≤ 60 }
    requires enough { receiver.now.size + 4 ≤ length bytes.now }
    ensures { result ≡ payload_trial how receiver.now payload.now bytes.now freshness }
{
    let size = receiver.size;
    let tag = tag_by(schedule, how, receiver, payload, freshness);
    if bytes[size + 1..size + 4] == tag[..] {
        Comparison::Agrees
    } else {
        Comparison::Differs
    }
}

/// Computes the authenticator and compares it.
fn tag_trial(how: Making, receiver: &KnownReceiver, bytes: &[u8], freshness: u64) -> Comparison
    requires some { 1 ≤ receiver.now.size }
    requires few { receiver.now.size ≤ 60 }
    requires enough { receiver.now.size + 4 ≤ length bytes.now }
    ensures { result ≡ tag_trial how receiver.now bytes.now freshness }
{
    tag_trial_by(&expand(&receiver.key), how, receiver, bytes, freshness)
}

/// Tries the first bytes of a frame as the PDU with this freshness.
#[tactic(auto, unfolding(crate::specs::Trials::trial_with))]
pub fn trial_with(receiver: &KnownReceiver, bytes: &[u8], freshness: u64) -> Comparison
    ensures { result ≡ trial_with receiver.now bytes.now freshness }
{
    if !has_room(receiver.size, bytes) {
        return Comparison::Skipped;
    }
    if freshness % 256 != u64::from(bytes[receiver.size]) {
        return Comparison::Skipped;
    }
    tag_trial(Making::Standard, receiver, bytes, freshness)
}

/// The freshness so far ahead of a counter, if it has this low byte.
fn with_low(counter: u64, steps: u64, low: u8) -> Option<u64>
    ensures { result ≡ (if has_low low (counter + steps) then Some (counter + steps) else None) }
{
    let freshness = counter.checked_add(steps)?;
    if freshness % 256 == u64::from(low) {
        Some(freshness)
    } else {
        None
    }
}

/// Tries the first bytes of a frame as the PDU with the freshness so far ahead of the counter.
#[tactic(auto, unfolding(crate::specs::Trials::trial_with))]
pub fn trial_ahead(receiver: &KnownReceiver, bytes: &[u8], steps: u64) -> Comparison
    ensures { result ≡ trial_with receiver.now bytes.now (receiver.now.counter + steps) }
{
    if !has_room(receiver.size, bytes) {
        return Comparison::Skipped;
    }
    match with_low(receiver.counter, steps, bytes[receiver.size]) {
        Some(freshness) => tag_trial(Making::Standard, receiver, bytes, freshness),
        None => Comparison::Skipped,
    }
}

/// Tries the first bytes of a frame as the PDU with the freshness so far behind the counter.
#[tactic(auto, unfolding(crate::specs::Trials::trial_behind))]
pub fn trial_behind(receiver: &KnownReceiver, bytes: &[u8], steps: u64) -> Comparison
    ensures { result ≡ trial_behind receiver.now bytes.now steps }
{
    if steps > receiver.counter {
        return Comparison::Skipped;
    }
    trial_with(receiver, bytes, receiver.counter - steps)
}

/// Tries the first bytes of a frame as the PDU with the freshness so far ahead of the counter, whatever low byte they
/// carry.
#[tactic(auto, unfolding(crate::specs::Trials::trial_unlike))]
pub fn trial_unlike(receiver: &KnownReceiver, bytes: &[u8], steps: u64) -> Comparison
    ensures { result ≡ trial_unlike receiver.now bytes.now (receiver.now.counter + steps) }
{
    if !has_room(receiver.size, bytes) {
        return Comparison::Skipped;
    }
    match receiver.counter.checked_add(steps) {
        Some(freshness) => tag_trial(Making::Standard, receiver, bytes, freshness),
        None => Comparison::Skipped,
    }
}

/// Whether the first bytes of a frame carry this authenticator.
pub fn carries_tag(receiver: &KnownReceiver, bytes: &[u8], tag: &[u8; 3]) -> bool
    ensures { result ≡ carries_tag receiver.now bytes.now tag.now }
{
    let size = receiver.size;
    has_room(size, bytes) && bytes[size + 1..size + 4] == tag[..]
}

/// The authenticator that they carry; zeros if they are too short.
pub fn carried_tag(receiver: &KnownReceiver, bytes: &[u8]) -> [u8; 3]
    ensures { result ≡ carried_tag receiver.now bytes.now }
{
    let size = receiver.size;
    if !has_room(size, bytes) {
        return [0; 3];
    }
    [bytes[size + 1], bytes[size + 2], bytes[size + 3]]
}

/// The freshness within the window above a counter that has this low byte.
fn candidate(counter: u64, window: u16, low: u8) -> Option<u64>
    ensures { result ≡ candidate counter window low }
{
    for step in 0..u64::from(window) {
        if let Some(freshness) = with_low(counter, step + 1, low) {
            return Some(freshness);
        }
    }
    None
}

/// Tries the first bytes of a frame as a PDU that was made in this way, with a freshness within the window.
#[tactic(auto, unfolding(crate::specs::Trials::trial_within))]
pub fn trial_within(how: Making, receiver: &KnownReceiver, bytes: &[u8]) -> Comparison
    ensures { result ≡ trial_within how receiver.now bytes.now }
{
    if !has_room(receiver.size, bytes) {
        return Comparison::Skipped;
    }
    match candidate(receiver.counter, receiver.window, bytes[receiver.size]) {
        Some(freshness) => tag_trial(how, receiver, bytes, freshness),
        None => Comparison::Skipped,
    }
}

/// The freshness with which a receiver accepts a frame.
#[tactic(auto, unfolding(crate::specs::Trials::accepted_freshness))]
pub fn accepted_freshness(receiver: &KnownReceiver, bytes: &[u8]) -> Option<u64>
    ensures { result ≡ accepted_freshness receiver.now bytes.now }
{
    if !has_room(receiver.size, bytes) {
        return None;
    }
    let freshness = candidate(receiver.counter, receiver.window, bytes[receiver.size])?;
    if tag_trial(Making::Standard, receiver, bytes, freshness).agrees() {
        Some(freshness)
    } else {
        None
    }
}

/// What the authenticator covers of a payload of so many bytes, if that is a payload of another length: fewer bytes, or
/// zeros behind them.
fn covered(size: usize, bytes: &[u8]) -> [u8; 60]
    requires few { size ≤ 60 }
    requires enough { size ≤ length bytes.now }
    ensures { result ≡ take size bytes.now ++ replicate (60 - size) 0 }
{
    let mut room = [0; 60];
    room[..size].copy_from_slice(&bytes[..size]);
    room
}

/// Tries the first bytes of a frame as a PDU whose authenticator covers so many bytes.
#[tactic(auto, unfolding(crate::specs::Trials::trial_covering))]
pub fn trial_covering(receiver: &KnownReceiver, count: usize, bytes: &[u8]) -> Comparison
    requires some { 1 ≤ count }
    requires few { count ≤ 60 }
    ensures { result ≡ trial_covering receiver.now count bytes.now }
{
    if !has_room(receiver.size, bytes) {
        return Comparison::Skipped;
    }
    let Some(freshness) = candidate(receiver.counter, receiver.window, bytes[receiver.size]) else {
        return Comparison::Skipped;
    };
    let room = covered(receiver.size, bytes);
    let schedule = expand(&receiver.key);
    payload_trial(
        &schedule,
        Making::Standard,
        receiver,
        &room[..count],
        bytes,
        freshness,
    )
}

/// Tries the first bytes of a frame as a PDU with the freshness and the authenticator before the payload.
#[tactic(auto, unfolding(crate::specs::Trials::trial_turned))]
pub fn trial_turned(receiver: &KnownReceiver, bytes: &[u8]) -> Comparison
    ensures { result ≡ trial_turned receiver.now bytes.now }
{
    let size = receiver.size;
    if !has_room(size, bytes) {
        return Comparison::Skipped;
    }
    let mut room = [0u8; 64];
    let turned = &mut room[..size + 4];
    turned.copy_from_slice(&bytes[..size + 4]);
    turned.rotate_left(4);
    trial_within(Making::Standard, receiver, turned)
}
