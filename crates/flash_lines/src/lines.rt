//! A line as bytes, and back.
ghost use Rattle.std.specs.Prelude.{◌≡◌, ◌≤◌, length, IfSome, MatchOption};
ghost use Rattle.flash_places.specs.declared.FlashLine.{FlashLine};
ghost use Rattle.flash_places.specs.Places.{FlashPlace, Looks};
ghost use Rattle.flash_lines.specs.declared.sizes.FlashSizes.{FlashSizes};
ghost use Rattle.flash_lines.specs.Lines.{sizes_bytes, line_body, line_bytes, IsFlashLine, HoldsLine, HoldsNoLine};
ghost use Rattle.flash_lines.specs.Lines.{TellsSizes, TellsNoSizes};
ghost use Rattle.flash_lines.specs.Reading.{PlaceReads};

use crate::crc::crc64;
use crate::sizes::FlashSizes;
use flash_places::FlashLine;

const HEAD: u8 = 0x5a;

const ENTRY: u8 = 0xa5;

const MARK: u8 = 0x96;

/// Sizes as bytes: the unit, the banks, the bytes of a bank, the cells.
#[tactic(auto, unfolding(crate::specs::Lines::sizes_bytes))]
fn sizes_bytes(sizes: &FlashSizes) -> [u8; 9]
    ensures { result ≡ sizes_bytes sizes.now }
{
    let [unit_high, unit_low] = sizes.unit.to_be_bytes();
    let [first, second, third, fourth] = sizes.bank_size.to_be_bytes();
    let [cells_high, cells_low] = sizes.cells.to_be_bytes();
    [
        unit_high,
        unit_low,
        sizes.banks,
        first,
        second,
        third,
        fourth,
        cells_high,
        cells_low,
    ]
}

/// The body of a line, 35 bytes. A head tells these sizes.
#[tactic(auto, unfolding(crate::specs::Lines::line_body))]
fn line_body(told: &FlashSizes, line: &FlashLine) -> [u8; 35]
    ensures value { result ≡ line_body told.now line.now }
    ensures size { length result ≡ 35 }
{
    let mut body = [0; 35];
    match line {
        FlashLine::Head(generation) => {
            body[0] = HEAD;
            body[1..9].copy_from_slice(&generation.to_be_bytes());
            body[9..18].copy_from_slice(&sizes_bytes(told));
        }
        FlashLine::Entry(cell, payload) => {
            let [high, low] = cell.to_be_bytes();
            body[0] = ENTRY;
            body[1] = high;
            body[2] = low;
            body[3..].copy_from_slice(payload);
        }
    }
    body
}

/// Writes a line: all these bytes, of which there are 44 at least. A head tells these sizes.
pub fn line_bytes(told: &FlashSizes, line: &FlashLine, bytes: &mut [u8])
    requires { 44 ≤ length bytes.old }
    ensures { bytes.new ≡ line_bytes (length bytes.old) told.now line.now }
{
    let body = line_body(told, line);
    let last = bytes.len() - 1;
    bytes[..35].copy_from_slice(&body);
    bytes[35..43].copy_from_slice(&crc64(&body).to_be_bytes());
    bytes[43..last].fill(0);
    bytes[last] = MARK;
}

/// The line that these bytes can be alone.
fn line_parts(bytes: &[u8]) -> Option<FlashLine>
    requires { 44 ≤ length bytes.now }
    ensures line { IfSome result IsFlashLine }
    ensures whole { (line : FlashLine) → HoldsLine bytes.now line → result ≡ Some line }
{
    match bytes[0] {
        HEAD => {
            let mut generation = [0; 8];
            generation.copy_from_slice(&bytes[1..9]);
            Some(FlashLine::Head(u64::from_be_bytes(generation)))
        }
        ENTRY => {
            let cell = u16::from_be_bytes([bytes[1], bytes[2]]);
            let mut payload = [0; 32];
            payload.copy_from_slice(&bytes[3..35]);
            Some(FlashLine::Entry(cell, payload))
        }
        _ => None,
    }
}

/// The sizes that these bytes can tell alone.
fn told_parts(bytes: &[u8]) -> FlashSizes
    requires { 44 ≤ length bytes.now }
    ensures { (told : FlashSizes) → TellsSizes bytes.now told → result ≡ told }
{
    FlashSizes {
        unit: u16::from_be_bytes([bytes[9], bytes[10]]),
        banks: bytes[11],
        bank_size: u32::from_be_bytes([bytes[12], bytes[13], bytes[14], bytes[15]]),
        cells: u16::from_be_bytes([bytes[16], bytes[17]]),
    }
}

/// The line that these bytes are, 44 to 128 of them; none if they are no line.
pub fn read_line(bytes: &[u8]) -> Option<FlashLine>
    requires least { 44 ≤ length bytes.now }
    requires most { length bytes.now ≤ 128 }
    ensures reads { MatchOption result (HoldsNoLine bytes.now) (HoldsLine bytes.now) }
    ensures looks { (p q : FlashPlace) → PlaceReads p bytes.now q → Looks p result q }
{
    let line = line_parts(bytes)?;
    let told = told_parts(bytes);
    let mut again = [0; 128];
    let again = &mut again[..bytes.len()];
    line_bytes(&told, &line, again);
    if *again == *bytes { Some(line) } else { None }
}

/// The sizes that these bytes tell, 44 to 128 of them; none if they are no head.
pub fn told_sizes(bytes: &[u8]) -> Option<FlashSizes>
    requires least { 44 ≤ length bytes.now }
    requires most { length bytes.now ≤ 128 }
    ensures { MatchOption result (TellsNoSizes bytes.now) (TellsSizes bytes.now) }
{
    match read_line(bytes)? {
        FlashLine::Head(_) => Some(told_parts(bytes)),
        FlashLine::Entry(_, _) => None,
    }
}
