//! The driver of the lines of a log, over memory: which calls a taker gets, and how the log ends.
use crate::comparing::holds;
use bus_port::MemSource;
use line_stream::{LineTaker, StreamFault, stream_lines};
use std::alloc::{AllocError, Global};

/// Notes its calls: of a line its number, 9 for any above 4, its first five bytes, `w` if it has 4,096 and `l` if it
/// has 4,097, and `;`; of a pause `|`; of the end of the log `.`. It ends the log at a line or a pause of this number.
#[derive(Drop)]
struct Notes {
    text: Vec<u8>,
    last_line: u64,
    last_pause: u64,
    pauses: u64,
}

impl Notes {
    /// Notes bytes in room that there is.
    fn note(&mut self, bytes: &[u8]) {
        let _ = self.text.extend_from_slice(bytes);
    }
}

impl LineTaker for Notes {
    type End = u8;

    ghost State = { Unit {0} };

    ghost state = { λ _. tt };

    ghost takes = { λ _ _ _ _ _. Unit {0} };

    ghost pauses = { λ _ _ _. Unit {0} };

    ghost ends = { λ _ _ _. Unit {0} };

    fn take(&mut self, number: u64, line: &[u8]) -> Result<(), u8> {
        let digit = match number {
            1 => b'1',
            2 => b'2',
            3 => b'3',
            4 => b'4',
            _ => b'9',
        };
        self.note(&[digit]);
        self.note(&line[..line.len().min(5)]);
        match line.len() {
            4096 => self.note(b"w"),
            4097 => self.note(b"l"),
            _ => (),
        }
        self.note(b";");
        if number == self.last_line {
            Err(9)
        } else {
            Ok(())
        }
    }

    fn pause(&mut self) -> Result<(), u8> {
        self.note(b"|");
        self.pauses = self.pauses.saturating_add(1);
        if self.pauses == self.last_pause {
            Err(8)
        } else {
            Ok(())
        }
    }

    fn finish(&mut self) -> u8 {
        self.note(b".");
        0
    }
}

/// A log, the most bytes that a read gives, and the number of the read that fails; the line and the pause that end the
/// log, where 0 is none; how it ends, and the calls of the taker.
struct Stream(
    &'static [u8],
    usize,
    u64,
    u64,
    u64,
    Result<u8, StreamFault>,
    &'static [u8],
);

/// Whether the driver ends so, with these calls.
fn is_streamed(alloc: Global, row: &Stream) -> Result<bool, AllocError> {
    if row.1 == 0 {
        return Ok(false);
    }
    let bytes = row.0.to_vec(alloc)?;
    let failing = [row.2].to_vec(alloc)?;
    let mut log = MemSource::new(bytes, failing, row.1);
    let mut notes = Notes {
        text: Vec::new(alloc),
        last_line: row.3,
        last_pause: row.4,
        pauses: 0,
    };
    let end = stream_lines(&mut log, &mut notes);
    Ok(end == row.5 && notes.text.as_slice() == row.6)
}

const LOG: &[u8] = b"ab\n\ncdefg\nx";

const LONG: &[u8] = &[b'y'; 9000];

const STREAMS: &[Stream] = &[
    Stream(LOG, 3, 0, 0, 0, Ok(0), b"1ab;|2;||3cdefg;|4x;."),
    Stream(LOG, 4096, 0, 0, 0, Ok(0), b"1ab;2;3cdefg;|4x;."),
    Stream(b"a\n", 4096, 0, 0, 0, Ok(0), b"1a;|2;."),
    Stream(b"", 4096, 0, 0, 0, Ok(0), b"1;."),
    Stream(LOG, 3, 3, 0, 0, Err(StreamFault::ReadFault), b"1ab;|2;|"),
    Stream(LOG, 4096, 0, 2, 0, Ok(9), b"1ab;2;"),
    Stream(LOG, 3, 0, 0, 2, Ok(8), b"1ab;|2;|"),
    Stream(LOG, 3, 0, 4, 0, Ok(9), b"1ab;|2;||3cdefg;|4x;"),
    Stream(LONG, 1000, 0, 0, 0, Ok(0), b"|||||||||1yyyyyl;."),
    Stream(&[b'y'; 4097], 4096, 0, 0, 0, Ok(0), b"||1yyyyyl;."),
    Stream(&[b'y'; 4096], 4096, 0, 0, 0, Ok(0), b"|1yyyyyw;."),
];

#[test]
fn each_line_is_taken_before_the_log_is_read_again(rt: HostRuntime) {
    for (place, row) in STREAMS.iter().enumerate() {
        holds(&rt, place, is_streamed(rt.alloc(), row) == Ok(true));
    }
}
