//! An engine over a twin store: its calls of a MAC and of a cipher, which no program makes so, and a load whose disk
//! fails. What is asked of it is rows.
ghost use Rattle.std.specs.Prelude.{◌≡◌, false};
ghost use Rattle.slot_disk.specs.Cell.{HoldSlots};

use crate::comparing::{holds, same};
use crate::engine_bench::{KEY, UID, block, slot};
use crate::engine_lives::{self, Life, live};
use cell_store::CutCells;
use freshness_manager::Direction;
use key_slots::{Block, Counter28, Erc, Flags, SlotId};
use memory_update::{Request, Uid, Update, build};
use she_engine::{Engine, LoadFault};
use std::process::Abort;
use std::test::Fail;

/// What authorises an empty slot.
const EMPTY: u128 = 0xffffffffffffffffffffffffffffffff;

/// The first blocks of the examples of SP 800-38A, in the clear and in either mode; those of CBC begin at `START`.
const PLAIN: [u128; 2] = [
    0x6bc1bee22e409f96e93d7e117393172a,
    0xae2d8a571e03ac9c9eb76fac45af8e51,
];

const ECB: [u128; 2] = [
    0x3ad77bb40d7a3660a89ecaf32466ef97,
    0xf5d3d58503b9699de785895a96fdbaaf,
];

const CBC: [u128; 2] = [
    0x7649abac8119b246cee98e9b12e9197d,
    0x5086cb9b507219ee95db113a917678b2,
];

const START: u128 = 0x000102030405060708090a0b0c0d0e0f;

/// The first of these blocks as a message, and its CMAC.
const MESSAGE: &[u8] = &[
    0x6b, 0xc1, 0xbe, 0xe2, 0x2e, 0x40, 0x9f, 0x96, 0xe9, 0x3d, 0x7e, 0x11, 0x73, 0x93, 0x17, 0x2a,
];

const MAC: [u8; 16] = [
    0x07, 0x0a, 0x16, 0xb4, 0x6b, 0x4d, 0x41, 0x44, 0xf7, 0x9b, 0xdd, 0x9d, 0xd0, 0x4a, 0x28, 0x7c,
];

/// A call of a cipher, over the two blocks.
#[derive(Clone, Copy)]
enum Mode {
    EncryptEcb,
    DecryptEcb,
    EncryptCbc,
    DecryptCbc,
}

/// What is asked of an engine and a slot.
#[derive(Clone, Copy)]
enum Act {
    IsUsable,
    /// The CMAC of the message.
    Mac,
    /// Whether the message has this tag.
    Verify(&'static [u8]),
    Cipher(Mode),
}

/// What is answered.
#[derive(Clone, Copy, PartialEq, Eq)]
enum Answer {
    Done,
    Said(bool),
    Mac([u8; 16]),
    Blocks([u128; 2]),
    Refused(Erc),
    /// The row is wrong.
    NoAct,
}

/// A slot, what is asked, and what is answered.
#[derive(Clone, Copy)]
struct Row(u8, Act, Answer);

fn is_usable(engine: &Engine, at: SlotId) -> Answer {
    match engine.usable_for_mac(at) {
        Ok(()) => Answer::Done,
        Err(refusal) => Answer::Refused(refusal),
    }
}

fn mac_of(engine: &Engine, at: SlotId) -> Answer {
    match engine.generate_mac(at, MESSAGE) {
        Ok(mac) => Answer::Mac(*mac.bytes()),
        Err(refusal) => Answer::Refused(refusal),
    }
}

fn verifies(engine: &Engine, at: SlotId, tag: &[u8]) -> Answer {
    if tag.is_empty() || tag.len() > 16 {
        return Answer::NoAct;
    }
    match engine.verify_mac(at, MESSAGE, tag) {
        Ok(good) => Answer::Said(good),
        Err(refusal) => Answer::Refused(refusal),
    }
}

fn blocks(numbers: [u128; 2]) -> [Block; 2] {
    let [first, second] = numbers;
    [block(first), block(second)]
}

fn number(block: Block) -> u128 {
    u128::from_be_bytes(*block.bytes())
}

fn numbers(blocks: [Block; 2]) -> [u128; 2] {
    let [first, second] = blocks;
    [number(first), number(second)]
}

fn in_mode(engine: &Engine, at: SlotId, mode: Mode) -> Result<[Block; 2], Erc> {
    match mode {
        Mode::EncryptEcb => engine.encrypt_ecb(at, &blocks(PLAIN)),
        Mode::DecryptEcb => engine.decrypt_ecb(at, &blocks(ECB)),
        Mode::EncryptCbc => engine.encrypt_cbc(at, &block(START), &blocks(PLAIN)),
        Mode::DecryptCbc => engine.decrypt_cbc(at, &block(START), &blocks(CBC)),
    }
}

fn ciphers(engine: &Engine, at: SlotId, mode: Mode) -> Answer {
    match in_mode(engine, at, mode) {
        Ok(blocks) => Answer::Blocks(numbers(blocks)),
        Err(refusal) => Answer::Refused(refusal),
    }
}

fn tells(engine: &Engine, at: SlotId, act: Act) -> Answer {
    match act {
        Act::IsUsable => is_usable(engine, at),
        Act::Mac => mac_of(engine, at),
        Act::Verify(tag) => verifies(engine, at, tag),
        Act::Cipher(mode) => ciphers(engine, at, mode),
    }
}

fn asks(rt: &impl Abort, engine: &Engine, rows: &[Row]) -> Result<(), Fail> {
    for (place, row) in rows.iter().enumerate() {
        let answer = tells(engine, slot(row.0)?, row.1);
        holds(rt, place, answer == row.2);
    }
    Ok(())
}

/// The load of the key into an empty slot.
fn first_key(number: u8, flags: u8) -> Result<Request, &'static str> {
    let at = slot(number)?;
    let update = Update {
        uid: Uid::of(UID),
        id: at,
        auth: at,
        counter: Counter28::new(1).ok_or("a counter")?,
        flags: Flags::of(flags % 32),
        key: block(KEY),
    };
    Ok(build(&update, &block(EMPTY)))
}

/// Slot 4 has its key from the store, and slot 13 has its own loaded.
const USES: &[Row] = &[
    Row(4, Act::IsUsable, Answer::Done),
    Row(3, Act::IsUsable, Answer::Refused(Erc::KeyInvalid)),
    Row(13, Act::IsUsable, Answer::Refused(Erc::KeyInvalid)),
    Row(4, Act::Mac, Answer::Mac(MAC)),
    Row(4, Act::Verify(&[7, 10, 22]), Answer::Said(true)),
    Row(4, Act::Verify(&[7, 10, 23]), Answer::Said(false)),
    Row(4, Act::Verify(&[7]), Answer::Said(true)),
    Row(4, Act::Verify(&MAC), Answer::Said(true)),
    Row(13, Act::Cipher(Mode::EncryptEcb), Answer::Blocks(ECB)),
    Row(13, Act::Cipher(Mode::DecryptEcb), Answer::Blocks(PLAIN)),
    Row(13, Act::Cipher(Mode::EncryptCbc), Answer::Blocks(CBC)),
    Row(13, Act::Cipher(Mode::DecryptCbc), Answer::Blocks(PLAIN)),
    Row(
        12,
        Act::Cipher(Mode::EncryptEcb),
        Answer::Refused(Erc::KeyEmpty),
    ),
];

const AFTER_A_FAULT: &[Row] = &[
    Row(4, Act::IsUsable, Answer::Done),
    Row(7, Act::IsUsable, Answer::Refused(Erc::KeyEmpty)),
    Row(13, Act::Cipher(Mode::EncryptEcb), Answer::Blocks(ECB)),
];

/// Loads a key, then another as the disk stops at the last call of its put.
pub(crate) fn serves<C: CutCells>(
    rt: &impl Abort,
    engine: &mut Engine,
    store: &mut C,
) -> Result<(), Fail>
    requires whole { (C.state store.old).broken ≡ false }
    requires held { HoldSlots (C.state store.old).cells engine.old.slots }
{
    engine.load_key(store, &first_key(13, 0)?)?;
    asks(rt, engine, USES)?;
    store.stop_at(6);
    let answer = engine.load_key(store, &first_key(7, 2)?);
    same(rt, "load_key", &answer.err(), &Some(LoadFault::Faulted));
    asks(rt, engine, AFTER_A_FAULT)
}

const SERVES: &[Life] = &[Life {
    direction: Direction::Sends,
    bound: 0,
    act: engine_lives::Act::Serves,
}];

#[test]
fn keys_serve_by_their_flags_also_behind_a_failed_load(rt: HostRuntime) -> Result<(), Fail> {
    live(&rt, rt.alloc(), SERVES)
}
