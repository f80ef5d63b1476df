//! What is found of all lines of a log.
ghost use Rattle.std.specs.Prelude.{◌≡◌, ◌<◌, ◌^◌, ◌++◌, length, OnOk, IfOk};
ghost use Rattle.trace_audit.specs.Auditing.{others_text, TellsAudit};

use can_logs::{MapTable, counters_of, push_finding};
use std::alloc::{AllocError, Global};
use text_lines::Memory;
use text_lines::forms::cut;
use text_lines::laws::places_are_those_of_the_words;
use text_lines::words::Words;

/// What is found of all lines, one after the other, and then the number of those that the map has no line for.
pub fn audit_text(alloc: Global, map: &MapTable, log: &[u8]) -> Result<Vec<u8>, Memory>
    requires { length log.now < 2 ^ 32 }
    ensures { IfOk result (λ text. TellsAudit map.now log.now text.items) }
{
    places_are_those_of_the_words();
    let cuts = cut(alloc, log)?;
    let mut counters = counters_of(alloc, map.lines())?;
    let mut text = Vec::new(alloc);
    let mut others = 0usize;
    for line in cuts.as_slice() {
        let words = Words::of(log, line.words.as_slice());
        let tally = push_finding(
            map,
            counters.as_mut_slice(),
            u64::from(line.line),
            &words,
            &mut text,
        )?;
        if tally.is_other() {
            others += 1;
        }
    }
    push_others(alloc, others, &mut text)?;
    Ok(text)
}

/// Adds the number of the lines that the map has no line for.
fn push_others(alloc: Global, others: usize, text: &mut Vec<u8>) -> Result<(), AllocError>
    ensures { OnOk result (text.new.items ≡ text.old.items ++ others_text others) }
{
    let line = format!(in alloc; "other {others}\n")?;
    text.extend_from_slice(line.as_bytes())
}
