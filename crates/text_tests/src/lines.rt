// Lines, words and numbers of a text, and texts of faults, as no program prints them. What programs print is rows of
// checks/rows/bus_replay_inputs.toml.
use crate::comparing::{holds, same};
use basics::Bytes;
use secoc_words::frames::FrameReader;
use std::alloc::Global;
use std::fmt::Display;
use std::process::Abort;
use std::test::Fail;
use text_lines::fault::{Cause, LineFault, Memory, ScriptFault};
use text_lines::pushing::push_digits;
use text_lines::reader::{LineReader, MOST_LINES, read_lines};
use text_lines::texts::fault_text;
use text_lines::words::Words;
use text_lines::{forms, laws};

// Takes any line.
struct AnyLine;

impl LineReader for AnyLine {
    ghost use Rattle.std.specs.Prelude.{Ok};

    type Item = ();

    ghost means = { λ _ _ _. Ok tt };

    fn read(&self, _alloc: Global, _words: &Words<'_>, _before: &[()]) -> Result<(), LineFault> {
        Ok(())
    }
}

fn short_lines(
    alloc: Global,
    count: usize,
    most: usize,
) -> Result<Result<usize, ScriptFault>, Fail> {
    let mut text = Vec::new(alloc);
    for _ in 0..count {
        text.extend_from_slice(b"a\n")?;
    }
    if text.len() > 1_000_000 {
        return Err("a long text")?;
    }
    Ok(read_lines(alloc, &text, most, &AnyLine).map(|lines| lines.len()))
}

/// A count of lines and the most that there may be, and the line that is one too many.
const COUNTS: &[(usize, usize, Option<u32>)] = &[
    (0, 0, None),
    (1, 0, Some(1)),
    (1, 1, None),
    (2, 1, Some(2)),
    (256, 256, None),
    (257, 256, Some(257)),
    (MOST_LINES, MOST_LINES, None),
    (MOST_LINES + 1, MOST_LINES, Some(65_537)),
];

#[test]
fn one_line_may_be_too_many(rt: HostRuntime) -> Result<(), Fail> {
    for (count, most, line) in COUNTS {
        let read = short_lines(rt.alloc(), *count, *most)?;
        let want = match line {
            None => Ok(*count),
            Some(line) => Err(ScriptFault::At {
                line: *line,
                cause: Cause::TooMany,
            }),
        };
        same(&rt, *count, &read, &want);
    }
    Ok(())
}

/// A line of a file of frames.
const FRAME: &[u8] = b"2b7e151628aed2a6abf7158809cf4f3c 6bc1 e93d7e117393172a bee22e409f96";

/// What holds of every text that is read holds of a program's reader, too.
#[test]
fn a_kind_of_line_is_read_through_its_reader(rt: HostRuntime) {
    laws::values_are_those_of_the_lines::<FrameReader>();
    laws::a_fault_is_the_first::<FrameReader>();
    let read = read_lines(rt.alloc(), FRAME, 1, &FrameReader);
    same(&rt, "one", &read.map(|lines| lines.len()), &Ok(1));
    let read = read_lines(rt.alloc(), FRAME, 0, &FrameReader);
    let too_many = ScriptFault::At {
        line: 1,
        cause: Cause::TooMany,
    };
    same(&rt, "none", &read.map(|lines| lines.len()), &Err(too_many));
}

/// A word, the least and the most number, and the number that it is.
const NUMBERS: &[(&[u8], u64, u64, Option<u64>)] = &[
    (b"0", 0, 65_536, Some(0)),
    (b"65536", 0, 65_536, Some(65_536)),
    (b"65537", 0, 65_536, None),
    (b"01", 0, 65_536, None),
    (b"00", 0, 65_536, None),
    (b"+1", 0, 65_536, None),
    (b"", 0, 65_536, None),
    (b"1a", 0, 65_536, None),
    (b"18446744073709551616", 0, 65_536, None),
    (b"3", 4, 13, None),
    (b"18446744073709551615", 1, u64::MAX, Some(u64::MAX)),
];

#[test]
fn numbers_are_read_between_their_bounds(rt: HostRuntime) {
    for (place, (word, least, most, number)) in NUMBERS.iter().enumerate() {
        same(&rt, place, &forms::number(word, *least, *most), number);
    }
}

const BYTES: &[(&[u8], Option<&[u8]>)] = &[
    (b"00fF", Some(b"\x00\xff")),
    (b"-", Some(b"")),
    (b"", None),
];

#[test]
fn bytes_are_read_by_their_form(rt: HostRuntime) -> Result<(), Fail> {
    for (word, bytes) in BYTES {
        let found: Option<Bytes> = forms::bytes(rt.alloc(), word)?;
        let found = found.as_ref().map(|found| found.bytes());
        same(&rt, word.len(), &found, bytes);
    }
    Ok(())
}

/// What arrives, as a word: none, a few bytes, and 65, one more than a PDU has.
const RECEIVED: &[(&[u8], Option<&[u8]>)] = &[
    (b"-", Some(b"")),
    (b"00fF", Some(b"\x00\xff")),
    (
        b"000102030405060708090a0b0c0d0e0f101112131415161718191a1b1c1d1e1f202122232425262728292a2b2c2d2e2f303132333435363738393a3b3c3d3e3f40",
        Some(
            b"\x00\x01\x02\x03\x04\x05\x06\x07\x08\x09\x0a\x0b\x0c\x0d\x0e\x0f\x10\x11\x12\x13\x14\x15\x16\x17\x18\x19\x1a\x1b\x1c\x1d\x1e\x1f\x20\x21\x22\x23\x24\x25\x26\x27\x28\x29\x2a\x2b\x2c\x2d\x2e\x2f\x30\x31\x32\x33\x34\x35\x36\x37\x38\x39\x3a\x3b\x3c\x3d\x3e\x3f\x40",
        ),
    ),
    (b"--", None),
];

#[test]
fn what_arrives_is_read_whole(rt: HostRuntime) -> Result<(), Fail> {
    for (word, bytes) in RECEIVED {
        let found = secoc_words::received(rt.alloc(), word)?;
        let found = found.as_ref().map(|found| found.bytes());
        same(&rt, word.len(), &found, bytes);
    }
    Ok(())
}

/// A word, the least and the most number of bytes, and their number.
const LENGTHS: &[(&[u8], usize, usize, Option<usize>)] = &[
    (b"00fF", 1, 60, Some(2)),
    (b"00fF", 2, 2, Some(2)),
    (b"00fF", 3, 60, None),
    (b"00fF", 0, 1, None),
    (b"00f", 1, 1, None),
    (b"0g", 1, 1, None),
    (b"", 0, 60, Some(0)),
    (b"", 1, 60, None),
    (b"-", 0, 60, None),
];

#[test]
fn bytes_are_of_a_least_and_a_most_number(rt: HostRuntime) -> Result<(), Fail> {
    for (place, (word, least, most, len)) in LENGTHS.iter().enumerate() {
        holds(&rt, place, *most <= 64);
        let found: Option<Bytes> = forms::hex_bytes(rt.alloc(), word, *least, *most)?;
        let found = found.map(|bytes| bytes.bytes().len());
        same(&rt, place, &found, len);
        let pdu = secoc_words::pdu(word, *least, *most);
        same(&rt, place, &pdu.map(|bytes| bytes.bytes().len()), len);
    }
    Ok(())
}

/// The line of each word of a text, its place and its length.
fn places(alloc: Global, text: &[u8]) -> Result<Vec<(u32, u32, u32)>, Fail> {
    if text.len() > 1000 {
        return Err(Fail::from("a long text"));
    }
    let cuts = forms::cut(alloc, text)?;
    let mut places = Vec::new(alloc);
    for cut in cuts {
        for span in cut.words.into_vec() {
            places.push((cut.line, span.at, span.len))?;
        }
    }
    Ok(places)
}

#[test]
fn a_text_is_cut_into_words_with_their_places(rt: HostRuntime) -> Result<(), Fail> {
    let places = places(rt.alloc(), b"# x\n\n a\tbc \r\nd")?;
    let wanted = [(3, 6, 1), (3, 8, 2), (4, 13, 1)];
    same(&rt, "places", &places.as_slice(), &wanted.as_slice());
    Ok(())
}

#[test]
fn an_unknown_event_has_its_text(rt: HostRuntime) -> Result<(), Memory> {
    let text = fault_text(rt.alloc(), 4_294_967_295, &Cause::Event)?;
    same(
        &rt,
        "text",
        &text.as_str(),
        &("script: line 4294967295: unknown event\n"),
    );
    Ok(())
}

/// A fault's text is this.
fn displays<T: Display>(rt: &impl Abort, alloc: Global, fault: &T, text: &str) -> Result<(), Fail> {
    let told = format!(in alloc; "{}", *fault)?;
    same(rt, text, &told.as_str(), &text);
    Ok(())
}

/// A cause, its text, and that of a script's fault in the third line.
const CAUSES: &[(Cause, &str, &str)] = &[
    (Cause::Event, "unknown event", "line 3: unknown event"),
    (
        Cause::Count,
        "wrong number of words",
        "line 3: wrong number of words",
    ),
    (Cause::Field(9), "word 9", "line 3: word 9"),
    (Cause::TooMany, "too many events", "line 3: too many events"),
];

#[test]
fn faults_are_displayed(rt: HostRuntime) -> Result<(), Fail> {
    for (cause, text, with_line) in CAUSES {
        let fault = ScriptFault::At {
            line: 3,
            cause: *cause,
        };
        displays(&rt, rt.alloc(), cause, text)?;
        displays(&rt, rt.alloc(), &LineFault::Refused(*cause), text)?;
        displays(&rt, rt.alloc(), &fault, with_line)?;
    }
    displays(&rt, rt.alloc(), &LineFault::OutOfMemory, "out of memory")?;
    displays(&rt, rt.alloc(), &ScriptFault::Memory, "out of memory")
}

#[test]
fn no_bytes_have_no_digits(rt: HostRuntime) -> Result<(), Fail> {
    let mut text = Vec::new(rt.alloc());
    push_digits(&mut text, &[])?;
    same(&rt, "digits", &text.len(), &0);
    Ok(())
}

#[test]
fn no_bytes_are_no_kind_of_cut(rt: HostRuntime) {
    same(&rt, "torn", &secoc_words::torn(b""), &None);
}
