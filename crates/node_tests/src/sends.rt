// One send over a twin store in memory: a PDU that OpenSSL's CMAC made, a route that no bus file has, and the bound
// that a fault tells.
ghost use Rattle.std.specs.Prelude.{◌≡◌, false, length, IfOk};
ghost use Rattle.secoc_node.specs.Words.{Sends};
ghost use Rattle.freshness_manager.specs.Counters.{KeepsBound};

use crate::comparing::same;
use crate::engine_bench::{ID, slot};
use crate::engine_lives::{Act, Life, live};
use cell_store::{Cells, CutCells};
use freshness_manager::{Direction, Route, Tx};
use freshness_store::read_bound;
use key_slots::Erc;
use secoc_sender::*;
use she_engine::Engine;
use std::process::Abort;
use std::test::Fail;

const RESERVE: u16 = 4;

const PAYLOAD: [u8; 6] = [0xbe, 0xe2, 0x2e, 0x40, 0x9f, 0x96];

const START: u64 = 0xe93d7e11_73931729;

fn route(number: u8) -> Result<Route, &'static str>
    ensures { IfOk result (λ r. (r.id ≡ 27585) × (r.direction ≡ Sends) × (r.reserve ≡ 4)) }
{
    Ok(Route {
        id: ID,
        direction: Direction::Sends,
        slot: slot(number)?,
        reserve: RESERVE,
        window: 256,
        start: 0,
    })
}

/// The sender that the store keeps.
fn sender_in<C: Cells>(store: &C) -> Result<Tx, Fail>
    requires { length (C.state store.now).cells ≡ 15 }
    ensures kept { IfOk result (λ t. KeepsBound (C.state store.now).cells t.place t.id Sends t.bound) }
    ensures route { IfOk result (λ t. (t.id ≡ 27585) × (t.reserve ≡ 4)) }
{
    let bound = read_bound(store, 14, ID, Direction::Sends)?;
    Ok(Tx::restore(14, ID, RESERVE, bound))
}

/// A send of the payload: the slot of the key, whether the disk has stopped, what is answered, and the counter and the
/// buffer after it.
pub(crate) struct Row {
    slot: u8,
    stops: bool,
    answer: Result<Sent, SendFault>,
    counter: u64,
    out: [u8; 64],
}

/// What the buffer has before.
const BEFORE: [u8; 64] = [0xaa; 64];

/// The PDU, and after it what was there before.
const PDU: [u8; 64] = [
    0xbe, 0xe2, 0x2e, 0x40, 0x9f, 0x96, 0x2a, 0x07, 0x0a, 0x16, 0xaa, 0xaa, 0xaa, 0xaa, 0xaa, 0xaa,
    0xaa, 0xaa, 0xaa, 0xaa, 0xaa, 0xaa, 0xaa, 0xaa, 0xaa, 0xaa, 0xaa, 0xaa, 0xaa, 0xaa, 0xaa, 0xaa,
    0xaa, 0xaa, 0xaa, 0xaa, 0xaa, 0xaa, 0xaa, 0xaa, 0xaa, 0xaa, 0xaa, 0xaa, 0xaa, 0xaa, 0xaa, 0xaa,
    0xaa, 0xaa, 0xaa, 0xaa, 0xaa, 0xaa, 0xaa, 0xaa, 0xaa, 0xaa, 0xaa, 0xaa, 0xaa, 0xaa, 0xaa, 0xaa,
];

/// The last three are to put a bound over a disk that has stopped.
const SENDS: &[Life] = &[
    Life {
        direction: Direction::Sends,
        bound: START,
        act: Act::Sends(Row {
            slot: 4,
            stops: false,
            answer: Ok(Sent {
                freshness: START + 1,
                len: 10,
            }),
            counter: START + 1,
            out: PDU,
        }),
    },
    Life {
        direction: Direction::Sends,
        bound: START,
        act: Act::Sends(Row {
            slot: 3,
            stops: false,
            answer: Err(SendFault::Key(Erc::KeyInvalid)),
            counter: START,
            out: BEFORE,
        }),
    },
    Life {
        direction: Direction::Sends,
        bound: START,
        act: Act::Sends(Row {
            slot: 4,
            stops: true,
            answer: Err(SendFault::Faulted {
                bound: 0xe93d7e11_7393172d,
            }),
            counter: START,
            out: BEFORE,
        }),
    },
    Life {
        direction: Direction::Sends,
        bound: 0xe93d7e11_7393172d,
        act: Act::Sends(Row {
            slot: 4,
            stops: true,
            answer: Err(SendFault::Faulted {
                bound: 0xe93d7e11_73931731,
            }),
            counter: 0xe93d7e11_7393172d,
            out: BEFORE,
        }),
    },
    Life {
        direction: Direction::Sends,
        bound: u64::MAX - 2,
        act: Act::Sends(Row {
            slot: 4,
            stops: true,
            answer: Err(SendFault::Faulted { bound: u64::MAX }),
            counter: u64::MAX - 2,
            out: BEFORE,
        }),
    },
];

/// The sender of the store sends as the row says.
pub(crate) fn sends<C: CutCells>(
    rt: &impl Abort,
    engine: &Engine,
    store: &mut C,
    row: &Row,
) -> Result<(), Fail>
    requires whole { (C.state store.old).broken ≡ false }
    requires count { length (C.state store.old).cells ≡ 15 }
{
    let route = route(row.slot)?;
    let mut tx = sender_in(store)?;
    if row.stops {
        store.stop_at(1);
    }
    let mut out = BEFORE;
    let answer = send(engine, &mut tx, store, &route, &PAYLOAD, &mut out);
    same(rt, "send", &answer, &row.answer);
    same(rt, "tx.counter()", &tx.counter(), &row.counter);
    same(rt, "out", &out, &row.out);
    Ok(())
}

#[test]
fn a_send_writes_the_buffer_or_tells_its_fault(rt: HostRuntime) -> Result<(), Fail> {
    live(&rt, rt.alloc(), SENDS)
}
