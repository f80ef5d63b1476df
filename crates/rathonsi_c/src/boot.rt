//! The secure boot of SHE, over the image of a store: a program, whole or in pieces, against slots 2 and 3.
ghost use Rattle.std.specs.Prelude.{◌≡◌, ◌≢◌, ◌*◌, ◌++◌, replicate, IfOk, IfErr, OnOk};
ghost use Rattle.basics.specs.Numbers.{bytes_of};
ghost use Rattle.rathonsi_c.specs.Pieces.{TookPieces};
ghost use Rattle.rathonsi_c.specs.Booting.{IsProgram, BootSlotsAnswer};
ghost use Rattle.rathonsi_c.specs.Booting.{BootAnswers, BootsProgram, BeginAnswers, BootBegins, UpdateAnswers};
ghost use Rattle.rathonsi_c.specs.Booting.{BootTakes, FinishAnswers, BootEnds};

use crate::images::slot_at;
use crate::macs::{RathonsiMac, finished, mac_struct, updated};
use crate::{BAD_LENGTH, BAD_VALUE, DAMAGED, KEY_EMPTY, OK};
use key_slots::Slot;
use she_aes::{Block, expand};
use she_cmac::Mac;

/// A boot of a program of which some pieces were given. The calls below alone change it.
#[derive(Clone, Copy)]
#[repr(C)]
pub struct RathonsiBoot {
    /// The boot MAC so far.
    pub mac: RathonsiMac,
    /// The boot MAC that slot 3 holds.
    pub wanted: [u8; 16],
    /// How many bytes of the program are still to come.
    pub left: u32,
}

// The most bytes of a program: their number in bits has 32 bits.
const PROGRAM_MOST: u32 = 0x1fff_ffff;

// The boot MAC of a program of so many bytes, of which none was given yet.
fn mac_begun(key: &Block, size: u32) -> RathonsiMac
    requires { IsProgram size }
    ensures { TookPieces key.now (replicate 12 0 ++ bytes_of 4 (8 * size)) result }
{
    let schedule = expand(key);
    let mut mac = Mac::new(&schedule);
    mac.update(&[0; 12]);
    mac.update(&(8 * size).to_be_bytes());
    mac_struct(key, &mac.parts())
}

// Whether this boot MAC is the wanted one, as a byte.
fn is_wanted(tag: &Block, wanted: &[u8; 16]) -> u8
    ensures yes { wanted.now ≡ tag.now → result ≡ 1 }
    ensures no { wanted.now ≢ tag.now → result ≡ 0 }
{
    if *tag.bytes() == *wanted { 1 } else { 0 }
}

// A boot of a program of so many bytes, or the status of why there is none.
fn boot_begun(image: &[u8], size: u32) -> Result<RathonsiBoot, i32>
    requires { IsProgram size }
    ensures begins { IfOk result (BootBegins image.now size) }
    ensures done { OnOk result (BootSlotsAnswer image.now OK) }
    ensures refused { IfErr result (λ status. (status ≢ OK) × BootSlotsAnswer image.now status) }
{
    let Some(second) = slot_at(image, 2) else {
        return Err(DAMAGED);
    };
    let Some(third) = slot_at(image, 3) else {
        return Err(DAMAGED);
    };
    let Slot::Filled { key, .. } = second else {
        return Err(KEY_EMPTY);
    };
    let Slot::Filled { key: wanted, .. } = third else {
        return Err(KEY_EMPTY);
    };
    Ok(RathonsiBoot {
        mac: mac_begun(&key, size),
        wanted: *wanted.bytes(),
        left: size,
    })
}

/// Begins the boot of a program of so many bytes, below 2^29, with the boot MAC key of slot 2 and the boot MAC of slot
/// 3. `BAD_LENGTH`: it has no byte, or more. `DAMAGED`: the cell of slot 2 or 3 holds no slot. `KEY_EMPTY`: one of them
/// is empty. The first that applies.
#[unsafe(no_mangle)]
pub extern "C" fn rathonsi_boot_begin(
    image: &[u8],
    program_length: u32,
    boot: &mut RathonsiBoot,
) -> i32
    ensures answer { BeginAnswers image.now program_length result }
    ensures begins { result ≡ OK → BootBegins image.now program_length boot.new }
    ensures unchanged { result ≢ OK → boot.new ≡ boot.old }
{
    if program_length == 0 || program_length > PROGRAM_MOST {
        return BAD_LENGTH;
    }
    match boot_begun(image, program_length) {
        Ok(begun) => {
            *boot = begun;
            OK
        }
        Err(status) => status,
    }
}

/// Takes the next bytes of the program. `BAD_VALUE`: the boot wasn't begun. `BAD_LENGTH`: they are more than are still
/// to come.
#[unsafe(no_mangle)]
pub extern "C" fn rathonsi_boot_update(boot: &mut RathonsiBoot, bytes: &[u8]) -> i32
    ensures answer { UpdateAnswers boot.old bytes.now result }
    ensures takes { result ≡ OK → BootTakes boot.old bytes.now boot.new }
    ensures unchanged { result ≢ OK → boot.new ≡ boot.old }
{
    let Some(mac) = updated(&boot.mac, bytes) else {
        return BAD_VALUE;
    };
    if bytes.len() > boot.left as usize {
        return BAD_LENGTH;
    }
    boot.mac = mac;
    boot.left -= bytes.len() as u32;
    OK
}

/// Says in `booted` whether the program that was given has the boot MAC: 1 or 0. `BAD_VALUE`: the boot wasn't begun.
/// `BAD_LENGTH`: bytes are still to come.
#[unsafe(no_mangle)]
pub extern "C" fn rathonsi_boot_finish(boot: &RathonsiBoot, booted: &mut u8) -> i32
    ensures answer { FinishAnswers boot.now result }
    ensures ends { result ≡ OK → BootEnds boot.now booted.new }
    ensures unchanged { result ≢ OK → booted.new ≡ booted.old }
{
    let Some(tag) = finished(&boot.mac) else {
        return BAD_VALUE;
    };
    if boot.left != 0 {
        return BAD_LENGTH;
    }
    *booted = is_wanted(&tag, &boot.wanted);
    OK
}

/// Says in `booted` whether the secure boot of a program, which is in one piece, succeeds: 1 or 0. `BAD_LENGTH`,
/// `DAMAGED`, `KEY_EMPTY` as `rathonsi_boot_begin` has them.
#[unsafe(no_mangle)]
pub extern "C" fn rathonsi_boot(image: &[u8], program: &[u8], booted: &mut u8) -> i32
    ensures answer { BootAnswers image.now program.now result }
    ensures boots { result ≡ OK → BootsProgram image.now program.now booted.new }
    ensures unchanged { result ≢ OK → booted.new ≡ booted.old }
{
    if program.is_empty() || program.len() > PROGRAM_MOST as usize {
        return BAD_LENGTH;
    }
    let begun = match boot_begun(image, program.len() as u32) {
        Ok(begun) => begun,
        Err(status) => return status,
    };
    let Some(mac) = updated(&begun.mac, program) else {
        return BAD_VALUE;
    };
    let Some(tag) = finished(&mac) else {
        return BAD_VALUE;
    };
    *booted = is_wanted(&tag, &begun.wanted);
    OK
}
