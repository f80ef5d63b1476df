//! Two nodes that go on where their disks stand: disks in memory, some of which tell their past, or over files in
//! memory. What one node over a file shows is a row of checks/.
use crate::comparing::holds;
use crate::playing::{Run, plays, status_behind};
use crate::replays::{TWO_DISKS, disks_of, held_disks, tapes_of};
use cut_disk::CutDisk;
use std::alloc::Global;
use std::process::Abort;
use std::test::Fail;

/// The key for the sender, and a PDU that it sends. The key and the MAC are of the second CMAC example of SP 800-38B.
const KEYED: &str =
    "key left - 4 4 ffffffffffffffffffffffffffffffff 1 00010 2b7e151628aed2a6abf7158809cf4f3c\nsend left 6bc1 bee22e409f96\n";

/// The PDU alone.
const SEND: &str = "send left 6bc1 bee22e409f96\n";

const KEYED_LINES: &str = "1 keyed 4\n2 sent 6bc1 e93d7e117393172a bee22e409f962a070a16\n";

/// The tag is OpenSSL's.
const SENT_LINE: &str = "1 sent 6bc1 e93d7e117393172e bee22e409f962e567e86\n";

const FOREIGN: &str = "store: node 1: NotFormatted\n";

const LOG: &str = "store = \"log\"\n";

const TWO: &str = "version = 2\n";

const LOG_TWO: &str = "store = \"log\"\nversion = 2\n";

const NODE: &str = "node B F DISK";

/// The layout, and the run.
struct Life(&'static str, Run);

/// Lives over the same disks. After the first come one with stores of the other kind, one that moves the stores to
/// version 2, and one of version 1.
const TWIN_LIVES: &[Life] = &[
    Life("", Run(NODE, [KEYED, ""], 0, [KEYED_LINES, ""])),
    Life(LOG, Run(NODE, [SEND, ""], 10, [FOREIGN, ""])),
    Life(TWO, Run(NODE, [SEND, ""], 0, [SENT_LINE, ""])),
    Life("", Run(NODE, [SEND, ""], 10, [FOREIGN, ""])),
];

const LOG_LIVES: &[Life] = &[
    Life(LOG, Run(NODE, [KEYED, ""], 0, [KEYED_LINES, ""])),
    Life("", Run(NODE, [SEND, ""], 10, [FOREIGN, ""])),
    Life(LOG_TWO, Run(NODE, [SEND, ""], 0, [SENT_LINE, ""])),
    Life(LOG, Run(NODE, [SEND, ""], 10, [FOREIGN, ""])),
];

const AGAIN_LINES: &str =
    "1 refused KEY_UPDATE_ERROR\n2 sent 6bc1 e93d7e117393172e bee22e409f962e567e86\n";

/// The same script twice.
const TWICE: &[Life] = &[
    Life("", Run(NODE, [KEYED, ""], 0, [KEYED_LINES, ""])),
    Life("", Run(NODE, [KEYED, ""], 0, [AGAIN_LINES, ""])),
];

/// A life whose sink fails within its first line, and the next: the key is there, and nothing was sent.
const FAULTED: &Run = &Run(NODE, [KEYED, ""], 6, ["", ""]);

const BEHIND_A_FAULT: &Run = &Run(
    NODE,
    [KEYED, ""],
    0,
    [
        "1 refused KEY_UPDATE_ERROR\n",
        "2 sent 6bc1 e93d7e117393172a bee22e409f962a070a16\n",
    ],
);

const LIVES: &[&[Life]] = &[TWIN_LIVES, LOG_LIVES];

/// The lives one after the other over these disks.
fn lives<D: CutDisk + Drop>(
    rt: &impl Abort,
    alloc: Global,
    disks: Vec<D>,
    lives: &[Life],
) -> Result<(), Fail> {
    let mut disks = disks;
    for life in lives {
        plays(rt, alloc, life.0, &life.1, &mut disks)?;
    }
    Ok(())
}

#[test]
fn a_bus_goes_on_where_its_disks_stand(rt: HostRuntime) -> Result<(), Fail> {
    for rows in LIVES {
        lives(
            &rt,
            rt.alloc(),
            disks_of(rt.alloc(), 65_536, TWO_DISKS)?,
            rows,
        )?;
        lives(&rt, rt.alloc(), held_disks(rt.alloc(), 65_536, 0)?, rows)?;
    }
    Ok(())
}

fn goes_on_behind_a_fault(rt: &impl Abort, alloc: Global) -> Result<(), Fail> {
    let mut tapes = tapes_of(alloc)?;
    let status = status_behind(alloc, FAULTED, 4, &mut tapes)?;
    holds(rt, "a fault", status == FAULTED.2);
    plays(rt, alloc, "", BEHIND_A_FAULT, &mut tapes)
}

#[test]
fn a_bus_goes_on_over_disks_that_tell_their_past(rt: HostRuntime) -> Result<(), Fail> {
    lives(&rt, rt.alloc(), tapes_of(rt.alloc())?, TWICE)?;
    goes_on_behind_a_fault(&rt, rt.alloc())
}
