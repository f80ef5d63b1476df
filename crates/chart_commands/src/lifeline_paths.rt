//! The lifelines of a chart.
ghost use Rattle.std.specs.Prelude.{◌≡◌, ◌<◌, ◌^◌, [], ◌∷◌, ◌++◌, length, IfOk, OnOk};
ghost use Rattle.std.specs.List.{flat_map, range_with_len};
ghost use Rattle.chart_commands.specs.Lifelines.{lifeline_of};
ghost use Rattle.chart_commands.specs.ChartTexts.{stretch_text, life_strokes, path_text, life_path, lifeline_text};
ghost use Rattle.chart_commands.specs.LifeSteps.{GoesOnBy};

use crate::lifelines::{Life, Stretch, life_turn};
use crate::places::{lifeline_bottom, lifeline_x};
use crate::shown::push_shown;
use bus_machine::{Event, Line};
use std::alloc::{AllocError, Global};

/// Adds the lifelines of so many nodes.
pub(crate) fn push_lifelines(
    alloc: Global,
    text: &mut Vec<u8>,
    nodes: u8,
    events: &[Event],
    lines: &[Line],
) -> Result<(), AllocError>
    requires few { length events.now < 2 ^ 32 }
    requires as_many { length lines.now ≡ length events.now }
    ensures { OnOk result (text.new.items ≡ text.old.items
        ++ flat_map (lifeline_text events.now lines.now) (range_with_len 0 nodes)) }
{
    for node in 0..nodes {
        push_lifeline(alloc, text, node, events, lines)?;
    }
    Ok(())
}

// Adds the lifeline of a node: where it is up, and where it is down.
fn push_lifeline(
    alloc: Global,
    text: &mut Vec<u8>,
    node: u8,
    events: &[Event],
    lines: &[Line],
) -> Result<(), AllocError>
    requires few { length events.now < 2 ^ 32 }
    requires as_many { length lines.now ≡ length events.now }
    ensures { OnOk result (text.new.items ≡ text.old.items ++ lifeline_text events.now lines.now node) }
{
    push_life(alloc, text, "up", node, false, events, lines)?;
    push_life(alloc, text, "down", node, true, events, lines)?;
    text.extend_from_slice(b"\n")?;
    Ok(())
}

// Adds the path of this class, of the stretches of a node's lifeline that are down, or of those that are up.
fn push_life(
    alloc: Global,
    text: &mut Vec<u8>,
    class: &str,
    node: u8,
    down: bool,
    events: &[Event],
    lines: &[Line],
) -> Result<(), AllocError>
    requires few { length events.now < 2 ^ 32 }
    requires as_many { length lines.now ≡ length events.now }
    ensures { OnOk result (text.new.items ≡ text.old.items
        ++ life_path class.now (life_strokes node down (lifeline_of node events.now lines.now))) }
{
    let strokes = strokes_of(alloc, node, down, events, lines)?;
    push_path(alloc, text, class, strokes.as_slice())
}

// Adds a path of this class, unless there are no strokes.
fn push_path(
    alloc: Global,
    text: &mut Vec<u8>,
    class: &str,
    strokes: &[u8],
) -> Result<(), AllocError>
    ensures { OnOk result (text.new.items ≡ text.old.items ++ life_path class.now strokes.now) }
{
    if strokes.is_empty() {
        return Ok(());
    }
    push_strokes(alloc, text, class, strokes)
}

// Adds a path of this class.
fn push_strokes(
    alloc: Global,
    text: &mut Vec<u8>,
    class: &str,
    strokes: &[u8],
) -> Result<(), AllocError>
    ensures { OnOk result (text.new.items ≡ text.old.items ++ path_text class.now strokes.now) }
{
    push_shown(alloc, text, format_args!("<path class=\"{class}\" d=\""))?;
    text.extend_from_slice(strokes)?;
    text.extend_from_slice(b"\"/>")?;
    Ok(())
}

// The strokes of the stretches of a node's lifeline that are down, or of those that are up.
fn strokes_of(
    alloc: Global,
    node: u8,
    down: bool,
    events: &[Event],
    lines: &[Line],
) -> Result<Vec<u8>, AllocError>
    requires few { length events.now < 2 ^ 32 }
    requires as_many { length lines.now ≡ length events.now }
    ensures { IfOk result (λ strokes. strokes.items ≡ life_strokes node down (lifeline_of node events.now lines.now)) }
{
    let mut life = Life::first();
    let mut strokes = Vec::new(alloc);
    for (place, line) in lines.iter().enumerate() {
        let row = place as u32 + 1;
        push_turn(
            alloc,
            &mut strokes,
            &mut life,
            node,
            down,
            row,
            &events[place],
            line,
        )?;
    }
    let last = life.end(lifeline_bottom(events.len() as u32));
    push_stretch_among(alloc, &mut strokes, node, down, &last)?;
    Ok(strokes)
}

// Goes on by an event and its line in the row with this number. It adds the stretch that ends there, if one does and it
// is one of these.
fn push_turn(
    alloc: Global,
    strokes: &mut Vec<u8>,
    life: &mut Life,
    node: u8,
    down: bool,
    row: u32,
    event: &Event,
    line: &Line,
) -> Result<(), AllocError>
    ensures { OnOk result (GoesOnBy node down row event.now line.now
        life.old strokes.old.items life.new strokes.new.items) }
{
    match life_turn(node, event, line) {
        Some(turn) => match life.turn(row, turn) {
            Some(stretch) => push_stretch_among(alloc, strokes, node, down, &stretch),
            None => Ok(()),
        },
        None => Ok(()),
    }
}

// Adds a stretch, if it is one of these.
fn push_stretch_among(
    alloc: Global,
    strokes: &mut Vec<u8>,
    node: u8,
    down: bool,
    stretch: &Stretch,
) -> Result<(), AllocError>
    ensures { OnOk result (strokes.new.items ≡ strokes.old.items ++ life_strokes node down (stretch.now ∷ [])) }
{
    if stretch.down != down {
        return Ok(());
    }
    push_stretch(alloc, strokes, node, stretch)
}

// Adds a stretch of a node's lifeline.
fn push_stretch(
    alloc: Global,
    strokes: &mut Vec<u8>,
    node: u8,
    stretch: &Stretch,
) -> Result<(), AllocError>
    ensures { OnOk result (strokes.new.items ≡ strokes.old.items ++ stretch_text node stretch.now) }
{
    let x = lifeline_x(node);
    let from = stretch.from;
    let to = stretch.to;
    push_shown(alloc, strokes, format_args!("M{x} {from}V{to}"))
}
