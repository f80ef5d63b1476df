//! The store on NOR flash: one operation after another for the caller's driver, the put of a plan, and the image.
ghost use Rattle.std.specs.Prelude.{◌≡◌, ◌≢◌, ◌↔◌, ℕ, List, length, IsTrue};
ghost use Rattle.store_plan.specs.Plans.{IsEmptyPlan};
ghost use Rattle.flash_calls.specs.Calls.{Begun, FormatBegun, SaysNext, DidMoves, PutTaken};
ghost use Rattle.store_plan.specs.Leaving.{IsImageOf};
ghost use Rattle.flash_images.specs.Images.{WritesPut};
ghost use Rattle.rathonsi_c.specs.Stores.{IsSize};
ghost use Rattle.rathonsi_c.specs.Flash.{flash_status, FlashBeginAnswers, FlashTakeAnswers, FlashNextAnswers};
ghost use Rattle.rathonsi_c.specs.Flash.{FlashDidAnswers, FlashPutAnswers, FlashImageAnswers};

use crate::{BAD_LENGTH, BAD_VALUE, BUSY, DAMAGED, EXHAUSTED, FAILED, NO_STORE, OK};
use flash_calls::{
    FlashNumbers, FlashOperation, FlashRefusal, begin, did, is_call, is_idle, next, put, take,
};
use flash_images::{image_of, planned, read_cells};
use store_plan::{ImageFault, Plan, check, is_empty};

// The status of a refusal.
fn flash_status(refusal: FlashRefusal) -> i32
    ensures { result ≡ flash_status refusal }
{
    match refusal {
        FlashRefusal::BadLength => BAD_LENGTH,
        FlashRefusal::BadValue => BAD_VALUE,
        FlashRefusal::NoStore => NO_STORE,
        FlashRefusal::Busy => BUSY,
        FlashRefusal::Exhausted => EXHAUSTED,
        FlashRefusal::Failed => FAILED,
    }
}

// Whether an image of so many bytes is that of a store of so many cells: fourteen slots and up to 256 routes.
fn is_size_of(size: usize, cells: usize) -> bool
    ensures { IsTrue result ↔ IsSize cells size }
{
    14 <= cells && cells <= 270 && size == 32 + 68 * cells
}

/// Begins at power-up, over so many banks of `bank_size` bytes. `BAD_VALUE`: the unit is none of 8, 16, 32, 64 and 128
/// bytes, there are fewer than 2 or more than 16 banks, fewer than 14 or more than 270 cells, or a bank has no room for
/// two lines more than there are cells.
#[unsafe(no_mangle)]
pub extern "C" fn rathonsi_flash_begin(
    flash: &mut FlashNumbers,
    unit: u16,
    banks: u8,
    bank_size: u32,
    cells: usize,
) -> i32
    ensures answer { FlashBeginAnswers unit banks bank_size cells result }
    ensures begun { result ≡ OK → Begun unit banks bank_size cells flash.new }
    ensures unchanged { result ≢ OK → flash.new ≡ flash.old }
{
    match begin(flash, unit, banks, bank_size, cells) {
        Ok(()) => OK,
        Err(refusal) => flash_status(refusal),
    }
}

/// Begins to make a store of the cells of this image: all banks are erased. `BAD_LENGTH`: the image doesn't have the
/// size of a store of so many cells. `NO_STORE`, `DAMAGED`: `rathonsi_store_check` has these. `BAD_VALUE`:
/// `rathonsi_flash_begin` has it. The first that applies.
#[unsafe(no_mangle)]
pub extern "C" fn rathonsi_flash_take(
    flash: &mut FlashNumbers,
    unit: u16,
    banks: u8,
    bank_size: u32,
    image: &[u8],
    cells: &mut [[u8; 32]],
) -> i32
    ensures answer { FlashTakeAnswers unit banks bank_size (length cells.old) image.now result }
    ensures begun { result ≡ OK → FormatBegun unit banks bank_size (length cells.old) flash.new }
    ensures cells { result ≡ OK → IsImageOf image.now cells.new }
    ensures unchanged { result ≢ OK → (flash.new ≡ flash.old) × (cells.new ≡ cells.old) }
{
    if !is_size_of(image.len(), cells.len()) {
        return BAD_LENGTH;
    }
    match check(image, cells.len() as u16) {
        Ok(()) => {}
        Err(ImageFault::NoStore) => return NO_STORE,
        Err(ImageFault::Damaged) => return DAMAGED,
    }
    if take(flash, unit, banks, bank_size, cells.len()).is_err() {
        return BAD_VALUE;
    }
    read_cells(image, cells);
    OK
}

/// Says which operation comes next. `BAD_VALUE`: the struct is none that these calls leave for so many cells, as one
/// that was begun with another number. `NO_STORE`: no store of so many cells was found, or the head of a bank tells
/// another unit, number or size of banks, or number of cells. `EXHAUSTED`, `FAILED`: the plan has ended so.
#[unsafe(no_mangle)]
pub extern "C" fn rathonsi_flash_next(
    flash: &FlashNumbers,
    cells: &[[u8; 32]],
    operation: &mut FlashOperation,
) -> i32
    ensures answer { FlashNextAnswers (length cells.now) flash.now result }
    ensures says { result ≡ OK → SaysNext flash.now cells.now operation.new }
    ensures unchanged { result ≢ OK → operation.new ≡ operation.old }
{
    match next(flash, cells, operation) {
        Ok(()) => OK,
        Err(refusal) => flash_status(refusal),
    }
}

/// Takes the outcome of the operation that comes next: 0 done, and of a read 1 blank, 2 nothing; else it failed. A read
/// that is done has its bytes in `operation`. `BAD_LENGTH`: `scratch` has another length than `cells`. `BAD_VALUE` as
/// above. The first that applies.
#[unsafe(no_mangle)]
pub extern "C" fn rathonsi_flash_did(
    flash: &mut FlashNumbers,
    cells: &mut [[u8; 32]],
    scratch: &mut [[u8; 32]],
    outcome: u32,
    operation: &FlashOperation,
) -> i32
    ensures answer { FlashDidAnswers (length cells.old) (length scratch.old) flash.old result }
    ensures moves { result ≡ OK → DidMoves outcome operation.now.bytes flash.old cells.old scratch.old flash.new
        cells.new scratch.new }
    ensures unchanged { result ≢ OK → flash.new ≡ flash.old }
    ensures kept { result ≢ OK → (cells.new ≡ cells.old) × (scratch.new ≡ scratch.old) }
{
    match did(flash, cells, scratch, outcome, &operation.bytes) {
        Ok(()) => OK,
        Err(refusal) => flash_status(refusal),
    }
}

/// Begins the put of a plan. An empty plan puts nothing. `BAD_VALUE`: as above, or the plan is none of a put to one of
/// the cells. `BUSY`: an operation comes next, or the store isn't ready. `EXHAUSTED`: the bank is full, and its log was
/// copied as often as it can be. The first that applies.
#[unsafe(no_mangle)]
pub extern "C" fn rathonsi_flash_put(
    flash: &mut FlashNumbers,
    plan: &Plan,
    cells: &[[u8; 32]],
) -> i32
    ensures answer { FlashPutAnswers (length cells.now) plan.now flash.old result }
    ensures puts { result ≡ OK → (i : ℕ) (c : List ℕ) → WritesPut plan.now i c
        → PutTaken i c cells.now flash.old flash.new }
    ensures none { IsEmptyPlan plan.now → flash.new ≡ flash.old }
    ensures unchanged { result ≢ OK → flash.new ≡ flash.old }
{
    if !is_call(flash, cells.len()) {
        return BAD_VALUE;
    }
    if is_empty(plan) {
        return if is_idle(flash) { OK } else { BUSY };
    }
    let Some(waiting) = planned(plan) else {
        return BAD_VALUE;
    };
    match put(flash, cells, waiting.cell, &waiting.payload) {
        Ok(()) => OK,
        Err(refusal) => flash_status(refusal),
    }
}

/// Makes the image of the store that is ready. `BAD_LENGTH`: the image doesn't have the size of a store of so many
/// cells. `BAD_VALUE`, `BUSY` as above. The first that applies.
#[unsafe(no_mangle)]
pub extern "C" fn rathonsi_flash_image(
    flash: &FlashNumbers,
    cells: &[[u8; 32]],
    image: &mut [u8],
) -> i32
    ensures answer { FlashImageAnswers (length cells.now) (length image.old) flash.now result }
    ensures made { result ≡ OK → IsImageOf image.new cells.now }
    ensures unchanged { result ≢ OK → image.new ≡ image.old }
{
    if !is_size_of(image.len(), cells.len()) {
        return BAD_LENGTH;
    }
    if !is_call(flash, cells.len()) {
        return BAD_VALUE;
    }
    if !is_idle(flash) {
        return BUSY;
    }
    image_of(cells, image);
    OK
}
