//! The requests of a source, loaded into the engine of the store on the first disk.
ghost use Rattle.std.specs.Prelude.{◌≡◌, ◌≢◌, ◌<◌, ◌≤◌, ◌^◌, length, map, replicate, IfOk, IfErr};
ghost use Rattle.std.specs.Prelude.{Ok};
ghost use Rattle.secoc_words.specs.Frames.{loads_of};
ghost use Rattle.text_lines.specs.LineRows.{NoLines};
ghost use Rattle.key_commands.specs.Promises.{RunsLoad};
ghost use Rattle.key_commands.specs.Loads.{EndsLoad, EndsOnDisk, EndsOverDisks, ReadsRequestSource};

use crate::loading::load_requests;
use crate::opening::open_loader;
use any_cells::put_first;
use bus_port::{Sink, Source};
use cut_disk::Disk;
use memory_update::{Request, Uid};
use program_edge::{Refusal, read_input, tell_refusal};
use secoc_words::read_loads;
use std::alloc::Global;
use text_lines::line_refusal;

/// Reads the requests of a source whole, and loads them into the engine with this identifier over the store that counts
/// on the first disk; what comes of each is written before the next is done. The disk is back in its place at every
/// return.
///
/// The statuses are looked for in the order 5, 8 and 4 of the source, then 9, then the loads: 10 if the disk failed,
/// else 0. Out of memory is 7; a sink that fails makes the status 6, whatever was to be printed.
pub fn load_over<S: Source, K: Sink, D: Disk>(
    alloc: Global,
    uid: Uid,
    request: &mut S,
    sink: &mut K,
    disks: &mut Vec<D>,
) -> u8
    requires { uid ≢ replicate 15 0 }
    // `RunsLoad` of specs/Promises.antt has a member for each promise, in the order of the table of answers.
    ensures promises { RunsLoad
        (record {
          uid = uid;
          request = record { before = S.state request.old; after = S.state request.new };
          before = map D.state disks.old.items;
          after = map D.state disks.new.items;
        })
        (record { before = K.state sink.old; after = K.state sink.new; status = result }) }
    ensures ends { EndsLoad
        (record {
          uid = uid;
          request = record { before = S.state request.old; after = S.state request.new };
          before = map D.state disks.old.items;
          after = map D.state disks.new.items;
        })
        (record { before = K.state sink.old; after = K.state sink.new; status = result }) }
{
    match requests_in(alloc, request) {
        Ok(requests) => load_first(alloc, uid, requests.as_slice(), sink, disks),
        Err(refusal) => tell_refusal(sink, &refusal),
    }
}

/// The requests that a source gives, or why there are none.
fn requests_in<S: Source>(alloc: Global, source: &mut S) -> Result<Vec<Request>, Refusal>
    ensures read { ReadsRequestSource (record { before = S.state source.old; after = S.state source.new }) result }
    ensures few { IfOk result (λ requests. length requests.items ≤ 65536) }
{
    let input = read_input(alloc, source)?;
    requests_of(alloc, input.as_slice())
}

/// The requests of a text, or the refusal of its first line that is none.
fn requests_of(alloc: Global, text: &[u8]) -> Result<Vec<Request>, Refusal>
    requires { length text.now < 2 ^ 32 }
    ensures ok { IfOk result (λ requests. loads_of text.now ≡ Ok requests.items) }
    ensures few { IfOk result (λ requests. length requests.items ≤ 65536) }
    ensures err { IfErr result (NoLines (loads_of text.now)) }
{
    match read_loads(alloc, text) {
        Ok(requests) => Ok(requests),
        Err(fault) => Err(line_refusal(alloc, fault)),
    }
}

/// Loads these requests into the engine of the first disk's store.
fn load_first<K: Sink, D: Disk>(
    alloc: Global,
    uid: Uid,
    requests: &[Request],
    sink: &mut K,
    disks: &mut Vec<D>,
) -> u8
    requires uid { uid ≢ replicate 15 0 }
    requires few { length requests.now < 2 ^ 32 }
    ensures { EndsOverDisks uid requests.now
        (record { before = K.state sink.old; after = K.state sink.new; status = result })
        (map D.state disks.old.items) (map D.state disks.new.items) }
{
    if disks.is_empty() {
        let refusal = Refusal::fixed(9, "store: no disk\n");
        return tell_refusal(sink, &refusal);
    }
    let disk = disks.remove(0);
    let (disk, status) = load_on(alloc, uid, requests, disk, sink);
    put_first(disks, disk);
    status
}

/// Loads these requests into the engine of the store on a disk, and hands the disk back.
fn load_on<K: Sink, D: Disk>(
    alloc: Global,
    uid: Uid,
    requests: &[Request],
    disk: D,
    sink: &mut K,
) -> (D, u8)
    requires uid { uid ≢ replicate 15 0 }
    requires few { length requests.now < 2 ^ 32 }
    ensures { EndsOnDisk uid requests.now
        (record { before = K.state sink.old; after = K.state sink.new; status = result.1 })
        (D.state disk) (D.state result.0) }
{
    match open_loader(alloc, uid, disk) {
        Ok(loader) => {
            let mut loader = loader;
            let status = load_requests(alloc, &mut loader, requests, sink);
            (loader.release(), status)
        }
        Err(unopened) => {
            let status = tell_refusal(sink, &unopened.refusal);
            (unopened.disk, status)
        }
    }
}
