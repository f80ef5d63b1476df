//! Trials over buses of several shapes: their events, written in canonical form. The texts come from another program.
ghost use Rattle.std.specs.Prelude.{All};
ghost use Rattle.bus_script.specs.ScriptEvents.{IsScriptEvent};

use crate::bus_shapes::{Shape, bus_of};
use crate::comparing::holds;
use Direction::{Receives, Sends};
use bus_script::{BusConfig, Event, make_trial, write_event};
use freshness_routes::Direction;
use std::alloc::Global;

/// Adds the canonical lines of these events but the first ones: whether there was memory for them.
fn adds(alloc: Global, bus: &BusConfig, events: &[Event], skipped: usize, out: &mut Vec<u8>) -> bool
    requires { All (IsScriptEvent bus.now.nodes) events.now }
{
    for (place, event) in events.iter().enumerate() {
        if place >= skipped && write_event(alloc, event, bus, out).is_err() {
            return false;
        }
    }
    true
}

/// The number of events of a trial, its seed, and how many of the first of its events are left out.
type Numbers = (u32, u64, usize);

/// Adds the canonical lines of the events of a trial.
fn adds_trial(alloc: Global, bus: &BusConfig, numbers: Numbers, out: &mut Vec<u8>) -> bool {
    let (count, seed, skipped) = numbers;
    if count < 1 || count > 60_000 {
        return false;
    }
    match make_trial(alloc, bus, count, seed) {
        Ok(events) => adds(alloc, bus, events.as_slice(), skipped, out),
        Err(_) => false,
    }
}

/// Whether the events of a trial over this bus, after the first ones, are these.
fn is_trial(alloc: Global, bus: &BusConfig, numbers: Numbers, text: &str) -> bool {
    let mut out = Vec::new(alloc);
    adds_trial(alloc, bus, numbers, &mut out) && out.as_slice() == text.as_bytes()
}

fn has_events(alloc: Global, shape: &Shape, numbers: Numbers, text: &str) -> bool {
    match bus_of(alloc, shape) {
        Some(bus) => is_trial(alloc, &bus, numbers, text),
        None => false,
    }
}

const PLAIN: Shape = (&[(0x6bc1, Sends)], &[(0x6bc1, Receives)], false);

const RICH: Shape = (
    &[(0x6bc1, Sends), (0x0a00, Receives), (0x0c00, Sends)],
    &[(0x6bc1, Receives), (0x0b00, Sends)],
    true,
);

const LISTENING: Shape = (&[(0x6bc1, Receives)], &[], false);

const SILENT: Shape = (&[], &[], false);

const OF_PLAIN: &str =
    "key left 000000000000000000000000000001 4 4 ffffffffffffffffffffffffffffffff 1 00010 04040404040404040404040404040404\nkey left 000000000000000000000000000001 5 5 ffffffffffffffffffffffffffffffff 1 00010 05050505050505050505050505050505\nkey left 000000000000000000000000000001 6 6 ffffffffffffffffffffffffffffffff 1 00010 06060606060606060606060606060606\nkey left 000000000000000000000000000001 7 7 ffffffffffffffffffffffffffffffff 1 00010 07070707070707070707070707070707\nkey left 000000000000000000000000000001 8 8 ffffffffffffffffffffffffffffffff 1 00010 08080808080808080808080808080808\nkey left 000000000000000000000000000001 9 9 ffffffffffffffffffffffffffffffff 1 00010 09090909090909090909090909090909\nkey left 000000000000000000000000000001 10 10 ffffffffffffffffffffffffffffffff 1 00010 0a0a0a0a0a0a0a0a0a0a0a0a0a0a0a0a\nkey left 000000000000000000000000000001 11 11 ffffffffffffffffffffffffffffffff 1 00010 0b0b0b0b0b0b0b0b0b0b0b0b0b0b0b0b\nkey left 000000000000000000000000000001 12 12 ffffffffffffffffffffffffffffffff 1 00010 0c0c0c0c0c0c0c0c0c0c0c0c0c0c0c0c\nkey left 000000000000000000000000000001 13 13 ffffffffffffffffffffffffffffffff 1 00010 0d0d0d0d0d0d0d0d0d0d0d0d0d0d0d0d\nkey right 000000000000000000000000000002 4 4 ffffffffffffffffffffffffffffffff 1 00010 04040404040404040404040404040404\nkey right 000000000000000000000000000002 5 5 ffffffffffffffffffffffffffffffff 1 00010 05050505050505050505050505050505\nkey right 000000000000000000000000000002 6 6 ffffffffffffffffffffffffffffffff 1 00010 06060606060606060606060606060606\nkey right 000000000000000000000000000002 7 7 ffffffffffffffffffffffffffffffff 1 00010 07070707070707070707070707070707\nkey right 000000000000000000000000000002 8 8 ffffffffffffffffffffffffffffffff 1 00010 08080808080808080808080808080808\nkey right 000000000000000000000000000002 9 9 ffffffffffffffffffffffffffffffff 1 00010 09090909090909090909090909090909\nkey right 000000000000000000000000000002 10 10 ffffffffffffffffffffffffffffffff 1 00010 0a0a0a0a0a0a0a0a0a0a0a0a0a0a0a0a\nkey right 000000000000000000000000000002 11 11 ffffffffffffffffffffffffffffffff 1 00010 0b0b0b0b0b0b0b0b0b0b0b0b0b0b0b0b\nkey right 000000000000000000000000000002 12 12 ffffffffffffffffffffffffffffffff 1 00010 0c0c0c0c0c0c0c0c0c0c0c0c0c0c0c0c\nkey right 000000000000000000000000000002 13 13 ffffffffffffffffffffffffffffffff 1 00010 0d0d0d0d0d0d0d0d0d0d0d0d0d0d0d0d\ncut right keep\n";

const OF_RICH: &str =
    "deliver third 28\nfail third 1\ndeliver third 32\ninject left 6bc1 afae5da005\nsend left 6bc1 e84cfb2e5e4c7e\nkey right 000000000000000000000000000002 4 4 04040404040404040404040404040404 625 00010 04040404040404040404040404040404\nkey right 000000000000000000000000000002 6 6 06060606060606060606060606060606 971 00010 06060606060606060606060606060606\ncut right half\nsend left 0c00 c09dbb8d5ac10a86\nsend right 0b00 86\nsend right 0b00 9bc6ed7e\ncut right a7\ndeliver left 35\ndeliver third 39\ninject left 6bc1 66da07956699e5528d4e\nsend left 6bc1 02fd58\ndeliver third 45\ndeliver left 47\nsend left 6bc1 2f88\ndeliver third 42\nsend right 0b00 e95fdca9\ndeliver third 44\ndeliver third 48\ncut third keep\ndeliver right 53\nsend left 0c00 aa24ce\nstop third 3\nsend left 6bc1 f176489aef\nkey left 000000000000000000000000000001 4 4 04040404040404040404040404040404 24 00010 04040404040404040404040404040404\ndeliver third 58\ncut third half\ndeliver right 54\nsend right 0b00 53fd\ndeliver right 62\ndeliver right 57\ninject right 0b00 5e30e34e9678129391\nsend right 0b00 98\nsend right 0b00 81aefef4\nsend left 0c00 5b\ndeliver left 68\n";

const OF_LISTENING: &str =
    "cut right keep\ninject right 6bc1 e09b4fd2063d341e49129b23\nkey right 000000000000000000000000000002 11 11 0b0b0b0b0b0b0b0b0b0b0b0b0b0b0b0b 139 00010 0b0b0b0b0b0b0b0b0b0b0b0b0b0b0b0b\ninject right 6bc1 93fee950dae421bb12173066\ndeliver left 1\ndeliver right 24\ninject left 6bc1 548688ffb9899337\ndeliver left 25\ndeliver left 22\ndeliver left 1\ndeliver left 1\ndeliver left 29\ndeliver left 1\ndeliver left 1\nkey right 000000000000000000000000000002 12 12 0c0c0c0c0c0c0c0c0c0c0c0c0c0c0c0c 545 00010 0c0c0c0c0c0c0c0c0c0c0c0c0c0c0c0c\ndeliver left 1\ndeliver left 32\nkey right 000000000000000000000000000002 9 9 09090909090909090909090909090909 9 00010 09090909090909090909090909090909\ndeliver left 1\ndeliver left 1\ndeliver right 36\ndeliver left 40\ninject left 6bc1 d93e87f87dc5c0e51cf247af\ndeliver left 1\n";

const OF_SILENT: &str =
    "cut right keep\ndeliver left 1\ndeliver left 15\ndeliver left 1\ndeliver right 22\ndeliver left 1\ndeliver left 1\ndeliver left 1\nkey right 000000000000000000000000000002 12 12 0c0c0c0c0c0c0c0c0c0c0c0c0c0c0c0c 932 00010 0c0c0c0c0c0c0c0c0c0c0c0c0c0c0c0c\ndeliver left 1\nkey right 000000000000000000000000000002 11 11 0b0b0b0b0b0b0b0b0b0b0b0b0b0b0b0b 139 00010 0b0b0b0b0b0b0b0b0b0b0b0b0b0b0b0b\ndeliver left 1\ndeliver right 25\ndeliver left 1\nkey right 000000000000000000000000000002 10 10 0a0a0a0a0a0a0a0a0a0a0a0a0a0a0a0a 651 00010 0a0a0a0a0a0a0a0a0a0a0a0a0a0a0a0a\ndeliver left 1\ndeliver left 1\ndeliver left 30\ndeliver left 1\ndeliver left 1\ndeliver left 1\ndeliver right 40\ndeliver left 1\ndeliver right 40\n";

const TRIALS: &[(Shape, Numbers, &str)] = &[
    (PLAIN, (1, 0, 0), OF_PLAIN),
    (RICH, (40, 194, 30), OF_RICH),
    (LISTENING, (24, 0, 20), OF_LISTENING),
    (SILENT, (24, 0, 20), OF_SILENT),
    (PLAIN, (60_000, 1, 60_019), "deliver left 60016\n"),
];

#[test]
fn a_trial_has_keys_and_then_what_the_draws_give(rt: HostRuntime) {
    for (place, row) in TRIALS.iter().enumerate() {
        holds(&rt, place, has_events(rt.alloc(), &row.0, row.1, row.2));
    }
}
