//! The CMAC of a message that comes in pieces.
ghost use Rattle.std.specs.Prelude.{◌≡◌, ◌≢◌, ◌↔◌, ◌++◌, ℕ, List, [], IfNone, IfSome};
ghost use Rattle.she_cmac.specs.Cmac.{cmac};
ghost use Rattle.rathonsi_c.specs.Calls.{IsKey};
ghost use Rattle.rathonsi_c.specs.Pieces.{parts_of, IsBegun, TookPieces};

use crate::keys::key_of;
use crate::{BAD_LENGTH, BAD_VALUE, OK};
use she_aes::{Block, expand};
use she_cmac::{Mac, MacParts};

/// A CMAC of which some pieces were given. The calls below alone change it.
#[derive(Clone, Copy)]
#[repr(C)]
pub struct RathonsiMac {
    /// The key.
    pub key: [u8; 16],
    /// What the blocks before the last one came to.
    pub chain: [u8; 16],
    /// The block that may be the last one.
    pub block: [u8; 16],
    /// How many bytes of it were given.
    pub filled: u8,
    /// 1 once `rathonsi_mac_begin` has begun it.
    pub begun: u8,
    /// Fills the struct up; zero.
    pub unused: [u8; 2],
}

// What this key's MAC keeps, as a struct.
pub(crate) fn mac_struct(key: &Block, parts: &MacParts) -> RathonsiMac
    ensures key { result.key ≡ key.now }
    ensures parts { parts_of result ≡ parts.now }
    ensures begun { result.begun ≡ 1 }
{
    RathonsiMac {
        key: *key.bytes(),
        chain: parts.chain,
        block: parts.block,
        filled: parts.filled,
        begun: 1,
        unused: [0; 2],
    }
}

/// The same MAC after more bytes; none if it wasn't begun.
pub(crate) fn updated(mac: &RathonsiMac, bytes: &[u8]) -> Option<RathonsiMac>
    ensures none { IfNone result (¬ IsBegun mac.now) }
    ensures some { IfSome result (λ new. IsBegun mac.now × ((key message : List ℕ) → TookPieces key message mac.now
        → TookPieces key (message ++ bytes.now) new)) }
{
    if mac.begun != 1 {
        return None;
    }
    let key = Block::of(mac.key);
    let schedule = expand(&key);
    let Some(mut going_on) = Mac::from_parts(&schedule, &parts_of(mac)) else {
        return None;
    };
    going_on.update(bytes);
    Some(mac_struct(&key, &going_on.parts()))
}

/// The CMAC of all bytes given so far; none if it wasn't begun.
pub(crate) fn finished(mac: &RathonsiMac) -> Option<Block>
    ensures none { IfNone result (¬ IsBegun mac.now) }
    ensures some { IfSome result (λ tag. IsBegun mac.now
        × ((key message : List ℕ) → TookPieces key message mac.now → tag ≡ cmac key message)) }
{
    if mac.begun != 1 {
        return None;
    }
    let schedule = expand(&Block::of(mac.key));
    let Some(whole) = Mac::from_parts(&schedule, &parts_of(mac)) else {
        return None;
    };
    Some(whole.finish())
}

fn parts_of(mac: &RathonsiMac) -> MacParts
    ensures { result ≡ parts_of mac.now }
{
    MacParts {
        chain: mac.chain,
        block: mac.block,
        filled: mac.filled,
    }
}

/// A CMAC under this key that was given no byte yet.
pub(crate) fn begun(key: &Block) -> RathonsiMac
    ensures { TookPieces key.now [] result }
{
    let schedule = expand(key);
    mac_struct(key, &Mac::new(&schedule).parts())
}

/// Begins the CMAC of a message under this key. `BAD_LENGTH`: the key hasn't 16 bytes.
#[unsafe(no_mangle)]
pub extern "C" fn rathonsi_mac_begin(key: &[u8], mac: &mut RathonsiMac) -> i32
    ensures done { (result ≡ OK) ↔ IsKey key.now }
    ensures bad_length { (result ≡ BAD_LENGTH) ↔ ¬ IsKey key.now }
    ensures begun { result ≡ OK → TookPieces key.now [] mac.new }
    ensures unchanged { result ≢ OK → mac.new ≡ mac.old }
{
    match key_of(key) {
        Some(key) => {
            *mac = begun(&key);
            OK
        }
        None => BAD_LENGTH,
    }
}

/// Takes the next bytes of the message, any number. `BAD_VALUE`: it wasn't begun.
#[unsafe(no_mangle)]
pub extern "C" fn rathonsi_mac_update(mac: &mut RathonsiMac, bytes: &[u8]) -> i32
    ensures done { (result ≡ OK) ↔ IsBegun mac.old }
    ensures bad_value { (result ≡ BAD_VALUE) ↔ ¬ IsBegun mac.old }
    ensures took { (key message : List ℕ) → TookPieces key message mac.old
        → TookPieces key (message ++ bytes.now) mac.new }
    ensures unchanged { result ≢ OK → mac.new ≡ mac.old }
{
    match updated(mac, bytes) {
        Some(new) => {
            *mac = new;
            OK
        }
        None => BAD_VALUE,
    }
}

/// Writes the CMAC of all bytes given so far to `tag`; more may be given after it. `BAD_VALUE`: it wasn't begun.
#[unsafe(no_mangle)]
pub extern "C" fn rathonsi_mac_finish(mac: &RathonsiMac, tag: &mut [u8; 16]) -> i32
    ensures done { (result ≡ OK) ↔ IsBegun mac.now }
    ensures bad_value { (result ≡ BAD_VALUE) ↔ ¬ IsBegun mac.now }
    ensures value { (key message : List ℕ) → TookPieces key message mac.now → tag.new ≡ cmac key message }
    ensures unchanged { result ≢ OK → tag.new ≡ tag.old }
{
    match finished(mac) {
        Some(block) => {
            *tag = *block.bytes();
            OK
        }
        None => BAD_VALUE,
    }
}
