// One reception over a twin store in memory: a PDU that is accepted, and the bound that a fault tells. The PDUs were
// made by OpenSSL's CMAC.
ghost use Rattle.std.specs.Prelude.{◌≡◌, false, length, IfOk};
ghost use Rattle.secoc_receiver.specs.Words.{Receives};
ghost use Rattle.freshness_manager.specs.Counters.{KeepsBound};

use crate::comparing::same;
use crate::engine_bench::{ID, slot, store_with};
use crate::engine_lives::{Act, Life, live};
use cell_store::{Cells, CutCells};
use freshness_manager::{Direction, Route, Rx};
use freshness_store::read_bound;
use secoc_receiver::*;
use she_engine::Engine;
use std::process::Abort;
use std::test::Fail;

// PDUs of the payload bee22e409f96 with the freshness ..172a and ..172d.
const FIRST: &[u8] = &[0xbe, 0xe2, 0x2e, 0x40, 0x9f, 0x96, 0x2a, 0x07, 0x0a, 0x16];

const FOURTH: &[u8] = &[0xbe, 0xe2, 0x2e, 0x40, 0x9f, 0x96, 0x2d, 0x0b, 0xa6, 0xdc];

const START: u64 = 0xe93d7e11_73931729;

const NEXT: u64 = 0xe93d7e11_7393172a;

const THIRD: u64 = 0xe93d7e11_7393172c;

fn route(reserve: u16) -> Result<Route, &'static str>
    ensures { IfOk result
        (λ r. (r.id ≡ 27585) × (r.direction ≡ Receives) × (r.reserve ≡ reserve) × (r.window ≡ 256)) }
{
    Ok(Route {
        id: ID,
        direction: Direction::Receives,
        slot: slot(4)?,
        reserve,
        window: 256,
        start: 0,
    })
}

/// The receiver that the store keeps.
fn receiver_in<C: Cells>(store: &C, reserve: u16) -> Result<Rx, Fail>
    requires { length (C.state store.now).cells ≡ 15 }
    ensures kept { IfOk result (λ r. KeepsBound (C.state store.now).cells r.place r.id Receives r.bound) }
    ensures route { IfOk result (λ r. (r.id ≡ 27585) × (r.reserve ≡ reserve) × (r.window ≡ 256)) }
{
    if reserve < 1 || reserve > 128 {
        return Err(Fail::from("a route's reserve"));
    }
    let bound = read_bound(store, 14, ID, Direction::Receives)?;
    Ok(Rx::restore(14, ID, reserve, 256, bound))
}

/// The reserve, whether the disk has stopped, a PDU, what is answered, and the counter after it.
pub(crate) struct Row {
    reserve: u16,
    stops: bool,
    pdu: &'static [u8],
    answer: Result<Reception, ReceiveFault>,
    counter: u64,
}

/// The last two are to put a bound over a disk that has stopped.
const HEARS: &[Life] = &[
    Life {
        direction: Direction::Receives,
        bound: START,
        act: Act::Hears(Row {
            reserve: 1,
            stops: false,
            pdu: FIRST,
            answer: Ok(Reception::Accepted {
                freshness: NEXT,
                len: 6,
            }),
            counter: NEXT,
        }),
    },
    Life {
        direction: Direction::Receives,
        bound: START,
        act: Act::Hears(Row {
            reserve: 1,
            stops: true,
            pdu: FIRST,
            answer: Err(ReceiveFault::Faulted { bound: NEXT }),
            counter: START,
        }),
    },
    Life {
        direction: Direction::Receives,
        bound: THIRD,
        act: Act::Hears(Row {
            reserve: 3,
            stops: true,
            pdu: FOURTH,
            answer: Err(ReceiveFault::Faulted {
                bound: 0xe93d7e11_7393172f,
            }),
            counter: THIRD,
        }),
    },
];

/// The receiver of the store hears as the row says.
pub(crate) fn hears<C: CutCells>(
    rt: &impl Abort,
    engine: &Engine,
    store: &mut C,
    row: &Row,
) -> Result<(), Fail>
    requires whole { (C.state store.old).broken ≡ false }
    requires count { length (C.state store.old).cells ≡ 15 }
{
    let route = route(row.reserve)?;
    let mut rx = receiver_in(store, row.reserve)?;
    if row.stops {
        store.stop_at(1);
    }
    let answer = receive(engine, &mut rx, store, &route, row.pdu);
    same(rt, "receive", &answer, &row.answer);
    same(rt, "rx.counter()", &rx.counter(), &row.counter);
    Ok(())
}

/// The receiver takes a counter that the sender told, and has this one then.
fn takes<C: Cells>(
    rt: &impl Abort,
    rx: &mut Rx,
    store: &mut C,
    told: u64,
    counter: u64,
) -> Result<(), Fail>
    requires whole { (C.state store.old).broken ≡ false }
    requires kept { KeepsBound (C.state store.old).cells rx.old.place rx.old.id Receives rx.old.bound }
    ensures whole { IfOk result (λ _. (C.state store.new).broken ≡ false) }
    ensures kept { IfOk result
        (λ _. KeepsBound (C.state store.new).cells rx.new.place rx.new.id Receives rx.new.bound) }
{
    if rx.advance(store, told).is_err() {
        return Err(Fail::from("no bound is put"));
    }
    same(rt, told, &rx.counter(), &counter);
    Ok(())
}

#[test]
fn a_counter_that_was_told_is_taken_if_it_is_above(rt: HostRuntime) -> Result<(), Fail> {
    let mut store = store_with(rt.alloc(), Direction::Receives, START)?;
    let mut rx = receiver_in(&store, 4)?;
    takes(&rt, &mut rx, &mut store, START, START)?;
    takes(&rt, &mut rx, &mut store, NEXT + 1000, NEXT + 1000)?;
    takes(&rt, &mut rx, &mut store, NEXT, NEXT + 1000)?;
    same(&rt, "rx.bound()", &rx.bound(), &(NEXT + 1003));
    Ok(())
}

#[test]
fn a_pdu_is_accepted_or_a_fault_tells_the_bound(rt: HostRuntime) -> Result<(), Fail> {
    live(&rt, rt.alloc(), HEARS)
}
