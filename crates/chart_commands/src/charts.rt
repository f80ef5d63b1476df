//! The whole chart.
ghost use Rattle.std.specs.Prelude.{◌≡◌, ◌≤◌, ◌++◌, length, IfOk, OnOk};
ghost use Rattle.text_lines.specs.Readings.{most_lines};
ghost use Rattle.chart_commands.specs.ChartTexts.{chart_text, sized_chart as text_of_size, whole_tag, opening_text, page_rect, page_text, four_numbers, three_numbers, seven_numbers, chart_counts};

use crate::constants::{LEGEND, STYLE};
use crate::counting::{CountedKind, count_lines};
use crate::headers::push_headers;
use crate::lifeline_paths::push_lifelines;
use crate::places::{chart_height, chart_width};
use crate::rows::push_rows;
use crate::shown::push_shown;
use bus_config::BusConfig;
use bus_machine::{Event, Line};
use std::alloc::{AllocError, Global};

/// The chart of a bus, of the events of a script over it, and of their lines, one an event. It asks for room for most
/// of it at once. For 65,536 rows that is 40 MiB, and the chart uses 18 of them.
pub fn chart_of(
    alloc: Global,
    bus: &BusConfig,
    events: &[Event],
    lines: &[Line],
) -> Result<Vec<u8>, AllocError>
    requires few { length events.now ≤ most_lines }
    requires as_many { length lines.now ≡ length events.now }
    ensures { IfOk result (λ text. text.items ≡ chart_text bus.now events.now lines.now) }
{
    let nodes = bus.nodes();
    let width = chart_width(nodes.len() as u8);
    let height = chart_height(events.len() as u32);
    sized_chart(alloc, bus, events, lines, width, height)
}

// The chart in this size.
fn sized_chart(
    alloc: Global,
    bus: &BusConfig,
    events: &[Event],
    lines: &[Line],
    width: u64,
    height: u64,
) -> Result<Vec<u8>, AllocError>
    requires few { length events.now ≤ most_lines }
    requires as_many { length lines.now ≡ length events.now }
    ensures { IfOk result (λ text. text.items ≡ text_of_size width height bus.now events.now lines.now) }
{
    let nodes = bus.nodes();
    let mut text = Vec::with_capacity(alloc, 8192 + 640 * events.len())?;
    push_opening(alloc, &mut text, width, height)?;
    push_page(alloc, &mut text, width, height, events, lines)?;
    push_lifelines(alloc, &mut text, nodes.len() as u8, events, lines)?;
    push_rows(alloc, &mut text, events, lines)?;
    push_headers(alloc, &mut text, nodes, events.len() as u32)?;
    text.extend_from_slice(b"</svg>\n")?;
    Ok(text)
}

// Adds the tag of the whole, the title, the description and the style.
fn push_opening(
    alloc: Global,
    text: &mut Vec<u8>,
    width: u64,
    height: u64,
) -> Result<(), AllocError>
    ensures { OnOk result (text.new.items ≡ text.old.items ++ opening_text width height) }
{
    push_tag(alloc, text, width, height)?;
    text.extend_from_slice(
        b"<title>A run of the bus</title>\n<desc>One lifeline a node, one row an event. ",
    )?;
    text.extend_from_slice(
        b"An arrow leads from the row of what was sent, along the lifeline of its sender, to the receiver.",
    )?;
    text.extend_from_slice(b"</desc>\n<style>")?;
    text.extend_from_slice(STYLE)?;
    text.extend_from_slice(b"</style>\n")?;
    Ok(())
}

// Adds the tag of the whole.
fn push_tag(alloc: Global, text: &mut Vec<u8>, width: u64, height: u64) -> Result<(), AllocError>
    ensures { OnOk result (text.new.items ≡ text.old.items ++ whole_tag width height) }
{
    push_shown(
        alloc,
        text,
        format_args!(
            "<svg xmlns=\"http://www.w3.org/2000/svg\" width=\"{width}\" height=\"{height}\" viewBox=\"0 0 {width} {height}\">\n"
        ),
    )
}

// Adds the page, the title, the counts and the legend.
fn push_page(
    alloc: Global,
    text: &mut Vec<u8>,
    width: u64,
    height: u64,
    events: &[Event],
    lines: &[Line],
) -> Result<(), AllocError>
    ensures { OnOk result (text.new.items
        ≡ text.old.items ++ page_text width height (chart_counts (length events.now) lines.now)) }
{
    push_page_rect(alloc, text, width, height)?;
    text.extend_from_slice(
        b"<text class=\"name\" x=\"16\" y=\"28\">A run of the bus</text><text x=\"16\" y=\"50\">",
    )?;
    push_counts(alloc, text, events.len(), lines)?;
    text.extend_from_slice(b"</text>\n")?;
    text.extend_from_slice(LEGEND)?;
    Ok(())
}

// Adds the page.
fn push_page_rect(
    alloc: Global,
    text: &mut Vec<u8>,
    width: u64,
    height: u64,
) -> Result<(), AllocError>
    ensures { OnOk result (text.new.items ≡ text.old.items ++ page_rect width height) }
{
    push_shown(
        alloc,
        text,
        format_args!("<rect class=\"page\" width=\"{width}\" height=\"{height}\"/>\n"),
    )
}

// Adds the seven numbers of a trial's summary, on one line.
fn push_counts(
    alloc: Global,
    text: &mut Vec<u8>,
    events: usize,
    lines: &[Line],
) -> Result<(), AllocError>
    ensures { OnOk result (text.new.items ≡ text.old.items ++ chart_counts events lines.now) }
{
    let sent = count_lines(CountedKind::Sent, lines);
    let accepted = count_lines(CountedKind::Accepted, lines);
    let failures = count_lines(CountedKind::Failures, lines);
    let keyed = count_lines(CountedKind::Keyed, lines);
    let cuts = count_lines(CountedKind::Cuts, lines);
    let refused = count_lines(CountedKind::Refused, lines);
    push_numbers(
        alloc, text, events, sent, accepted, failures, keyed, cuts, refused,
    )
}

// Adds seven numbers with their names.
fn push_numbers(
    alloc: Global,
    text: &mut Vec<u8>,
    events: usize,
    sent: usize,
    accepted: usize,
    failures: usize,
    keyed: usize,
    cuts: usize,
    refused: usize,
) -> Result<(), AllocError>
    ensures { OnOk result (text.new.items
        ≡ text.old.items ++ seven_numbers events sent accepted failures keyed cuts refused) }
{
    push_four(alloc, text, events, sent, accepted, failures)?;
    push_three(alloc, text, keyed, cuts, refused)?;
    Ok(())
}

// Adds the numbers of events, of PDUs that were sent, of those that were accepted, and of failed verdicts.
fn push_four(
    alloc: Global,
    text: &mut Vec<u8>,
    events: usize,
    sent: usize,
    accepted: usize,
    failures: usize,
) -> Result<(), AllocError>
    ensures { OnOk result (text.new.items ≡ text.old.items ++ four_numbers events sent accepted failures) }
{
    push_shown(
        alloc,
        text,
        format_args!("events {events}, sent {sent}, accepted {accepted}, failures {failures}"),
    )
}

// Adds the numbers of keys that were set, of cuts and of refusals.
fn push_three(
    alloc: Global,
    text: &mut Vec<u8>,
    keyed: usize,
    cuts: usize,
    refused: usize,
) -> Result<(), AllocError>
    ensures { OnOk result (text.new.items ≡ text.old.items ++ three_numbers keyed cuts refused) }
{
    push_shown(
        alloc,
        text,
        format_args!(", keyed {keyed}, cuts {cuts}, refused {refused}"),
    )
}
