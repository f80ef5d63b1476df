//! Requests that are loaded one after another.
ghost use Rattle.std.specs.Prelude.{◌≡◌, ◌<◌, ◌≤◌, ◌^◌, length, false};
ghost use Rattle.key_commands.specs.Loading.{EndsLoading};
ghost use Rattle.key_commands.specs.Loader.{HoldsAll};

use crate::lines::LoadText;
use crate::loader::Loader;
use bus_port::Sink;
use cut_disk::Disk;
use memory_update::Request;
use program_edge::{DONE, NO_MEMORY, WRITE_FAULT};
use run_driver::{Stop, Unwritten, print_run_until_last};
use std::alloc::Global;

/// The status if the disk failed as a slot was put.
const DISK_FAILED: u8 = 10;

/// Loads the requests one after another, and writes what comes of each before the next is done. The status: 0; 10 if
/// the disk failed as an update was put, whose line is the last; 6 if the sink failed, and 7 if memory is out.
pub fn load_requests<D: Disk, K: Sink>(
    alloc: Global,
    loader: &mut Loader<D>,
    requests: &[Request],
    sink: &mut K,
) -> u8
    requires few { length requests.now < 2 ^ 32 }
    requires up { loader.old.down ≡ false }
    requires wide { 14 ≤ length loader.old.store.cells }
    requires held { HoldsAll loader.old }
    ensures { EndsLoading loader.old requests.now loader.new
        (record { before = K.state sink.old; after = K.state sink.new; status = result }) }
{
    match print_run_until_last::<Loader<D>, LoadText, K>(alloc, loader, requests, sink) {
        Ok(()) => DONE,
        Err(Stop::Last) => DISK_FAILED,
        Err(Stop::Unprinted(Unwritten::SinkFailed)) => WRITE_FAULT,
        Err(Stop::Unprinted(Unwritten::Memory)) => NO_MEMORY,
    }
}
