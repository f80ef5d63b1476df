//! What is said of ledgers, and entries that one takes over from another.
use crate::comparing::same;
use any_cells::AnyCells;
use bus_port::{CleanSource, MemSink};
use campaign_commands::{open_ledger, run_campaign};
use cut_disk::{Disk, MemDisk};
use key_campaign::{Adoption, Ledger};
use ledger_commands::ledgers_words;
use program_edge::Paths;
use std::alloc::Global;
use std::process::Abort;
use std::test::Fail;

/// The reply is that of the example of a memory update in the SHE specification.
const CAMPAIGN: &str =
    "issue 000000000000000000000000000001 4 1 00000 0f0e0d0c0b0a09080706050403020100 000102030405060708090a0b0c0d0e0f
confirm 000000000000000000000000000001 4 1 0f0e0d0c0b0a09080706050403020100 00000000000000000000000000000141b472e8d8727d70d57295e74849a27917 820d8d95dc11b4668878160cb2a4e23e
issue 00000000000000000000000000000A 13 1 00010 0f0e0d0c0b0a09080706050403020100 000102030405060708090a0b0c0d0e0f
";

/// Once more of the second unit.
const ONCE_MORE: &str =
    "issue 00000000000000000000000000000A 13 1 00010 0f0e0d0c0b0a09080706050403020100 000102030405060708090a0b0c0d0e0f\n";

const LIST: &str =
    "000000000000000000000000000001 4 1 confirmed\n00000000000000000000000000000a 13 1 issued\n";

const OPEN: &str = "00000000000000000000000000000a 13 1 issued\n";

const BACKUP: &str =
    "000000000000000000000000000001 4 1 confirmed\n00000000000000000000000000000a 13 1 issued\nend 2\n";

/// The arguments after `ledger`, the status and what is printed.
struct Row(&'static [&'static str], u8, &'static str);

/// Over the ledger of the campaign.
const ROWS: &[Row] = &[
    Row(&["list", "-"], 0, LIST),
    Row(&["open", "-"], 0, OPEN),
    Row(&["export", "-"], 0, BACKUP),
    Row(
        &["show", "-", "000000000000000000000000000001", "4"],
        0,
        "confirmed 1\n",
    ),
    Row(
        &["show", "-", "00000000000000000000000000000A", "13"],
        0,
        "issued 1\n",
    ),
    Row(
        &["show", "-", "000000000000000000000000000001", "5"],
        1,
        "none\n",
    ),
    Row(
        &["show", "-", "000000000000000000000000000000", "4"],
        3,
        "value 2\n",
    ),
    Row(
        &["show", "-", "000000000000000000000000000001", "14"],
        3,
        "value 3\n",
    ),
    Row(&["list", "-", "-"], 5, "read fault\n"),
    Row(
        &["list"],
        2,
        "usage: station ledger list, open, show, export, adopt, import, merge\n",
    ),
    Row(
        &["export", "-", "-"],
        2,
        "usage: station ledger list, open, show, export, adopt, import, merge\n",
    ),
];

/// Over zero bytes, as many as the number says.
const ZEROS: &[(usize, &str)] = &[
    (17_439, "store: TooSmall\n"),
    (17_440, "store: NotFormatted\n"),
];

/// A disk over which a campaign ran, if it has a script.
fn disk_after(alloc: Global, scripts: &[&str]) -> Result<Vec<MemDisk>, Fail> {
    let mut words = Vec::new(alloc);
    words.push(String::from_str(alloc, "f")?)?;
    words.push(String::from_str(alloc, "d")?)?;
    let mut disks = Vec::new(alloc);
    disks.push(MemDisk::new(alloc, 17_440)?)?;
    for text in scripts {
        let mut script = CleanSource::new(text.as_bytes().to_vec(alloc)?);
        let mut sink = MemSink::new(alloc, 4096, Vec::new(alloc), 4096)?;
        if run_campaign(alloc, words.as_slice(), &mut script, &mut sink, &mut disks) != 0 {
            return Err(Fail::from("the campaign failed"));
        }
    }
    Ok(disks)
}

/// The bytes of the first disk.
fn bytes_of(alloc: Global, disks: &mut Vec<MemDisk>) -> Result<Vec<u8>, Fail> {
    let Some(mut disk) = disks.pop() else {
        return Err(Fail::from("no disk"));
    };
    let mut bytes = vec![in alloc; 0; 17_440]?;
    if disk.size() < 17_440 {
        return Err(Fail::from("a small disk"));
    }
    match disk.read(0, bytes.as_mut_slice()) {
        Ok(()) => Ok(bytes),
        Err(_) => Err(Fail::from("a read failed")),
    }
}

/// The status of these arguments over these bytes, and what is printed.
fn answer(host: &HostRuntime, arguments: &[&str], bytes: Vec<u8>) -> Result<(u8, Vec<u8>), Fail> {
    let alloc = host.alloc();
    let mut words = Vec::new(alloc);
    for argument in arguments {
        words.push(String::from_str(alloc, argument)?)?;
    }
    let mut sink = MemSink::new(alloc, 4096, Vec::new(alloc), 4096)?;
    let (status, _) = ledgers_words(
        alloc,
        &mut Paths::of(host),
        &mut Some(CleanSource::new(bytes)),
        words.as_slice(),
        &mut sink,
    );
    Ok((status, sink.bytes().to_vec(alloc)?))
}

fn check_answer(
    rt: &impl Abort,
    host: &HostRuntime,
    arguments: &[&str],
    bytes: Vec<u8>,
    wanted: (u8, &str),
) -> Result<(), Fail> {
    let (status, text) = answer(host, arguments, bytes)?;
    same(
        rt,
        wanted.1,
        &(status, text.as_slice()),
        &(wanted.0, wanted.1.as_bytes()),
    );
    Ok(())
}

#[test]
fn a_ledger_is_listed_shown_and_backed_up(rt: HostRuntime) -> Result<(), Fail> {
    let alloc = rt.alloc();
    for row in ROWS {
        let bytes = bytes_of(alloc, &mut disk_after(alloc, &[CAMPAIGN])?)?;
        check_answer(&rt, &rt, row.0, bytes, (row.1, row.2))?;
    }
    for (size, text) in ZEROS {
        let bytes = vec![in alloc; 0; *size]?;
        check_answer(&rt, &rt, &["list", "-"], bytes, (9, *text))?;
    }
    Ok(())
}

/// The ledger of a disk over which these campaigns ran.
fn ledger_after(alloc: Global, scripts: &[&str]) -> Result<Ledger<AnyCells<MemDisk>>, Fail> {
    let mut disks = disk_after(alloc, scripts)?;
    let Some(disk) = disks.pop() else {
        return Err(Fail::from("no disk"));
    };
    match open_ledger(alloc, disk) {
        Ok(ledger) => Ok(ledger),
        Err(_) => Err(Fail::from("no ledger")),
    }
}

/// What a ledger makes of the entry at this place of another: 0 if there is none, 1 if it was put, 2 if it has as much,
/// 3 and its counter if it has more, 4 if it refused.
#[tactic(auto, unfolding(key_campaign::specs::Entries::place_count))]
fn adopt_of(
    to: &mut Ledger<AnyCells<MemDisk>>,
    from: &Ledger<AnyCells<MemDisk>>,
    place: u8,
) -> (u8, u32) {
    let Some(entry) = from.entry(u16::from(place)) else {
        return (0, 0);
    };
    match &to.adopt(&entry) {
        Ok(Adoption::Raised) => (1, 0),
        Ok(Adoption::Held) => (2, 0),
        Ok(Adoption::Behind(counter)) => (3, counter.number()),
        Err(_) => (4, 0),
    }
}

#[test]
fn a_ledger_takes_over_what_says_more(rt: HostRuntime) -> Result<(), Fail> {
    let alloc = rt.alloc();
    let first = ledger_after(alloc, &[CAMPAIGN])?;
    let later = ledger_after(alloc, &[CAMPAIGN, ONCE_MORE])?;
    let mut ledger = ledger_after(alloc, &[])?;
    same(&rt, "put", &adopt_of(&mut ledger, &first, 0), &(1, 0));
    same(&rt, "put", &adopt_of(&mut ledger, &first, 1), &(1, 0));
    same(&rt, "no entry", &adopt_of(&mut ledger, &first, 2), &(0, 0));
    same(&rt, "again", &adopt_of(&mut ledger, &first, 1), &(2, 0));
    same(&rt, "more", &adopt_of(&mut ledger, &later, 1), &(1, 0));
    same(&rt, "less", &adopt_of(&mut ledger, &first, 1), &(3, 2));
    Ok(())
}
