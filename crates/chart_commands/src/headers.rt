//! The headers of a chart: the names of the nodes, above each forty rows.
ghost use Rattle.std.specs.Prelude.{◌≡◌, ◌≤◌, ◌++◌, length, OnOk};
ghost use Rattle.std.specs.List.{flat_map, range_with_len};
ghost use Rattle.chart_commands.specs.Places.{head_count as count_of_heads};
ghost use Rattle.chart_commands.specs.ChartTexts.{text_at, box_text, name_box, name_boxes, header_text};

use crate::places::{head_count, head_top, lifeline_x};
use crate::shown::push_shown;
use bus_config::NodeLine;
use std::alloc::{AllocError, Global};

/// Adds the headers of these nodes over so many rows.
pub(crate) fn push_headers(
    alloc: Global,
    text: &mut Vec<u8>,
    nodes: &[NodeLine],
    rows: u32,
) -> Result<(), AllocError>
    requires { length nodes.now ≤ 8 }
    ensures { OnOk result (text.new.items ≡ text.old.items
        ++ flat_map (header_text nodes.now) (range_with_len 0 (count_of_heads rows))) }
{
    for block in 0..head_count(rows) {
        push_header(alloc, text, nodes, block)?;
    }
    Ok(())
}

// Adds a header, counted from 0: the name of each node.
fn push_header(
    alloc: Global,
    text: &mut Vec<u8>,
    nodes: &[NodeLine],
    block: u32,
) -> Result<(), AllocError>
    requires { length nodes.now ≤ 8 }
    ensures { OnOk result (text.new.items ≡ text.old.items ++ header_text nodes.now block) }
{
    text.extend_from_slice(b"<g class=\"head\">")?;
    push_names(alloc, text, nodes, block)?;
    text.extend_from_slice(b"</g>\n")?;
    Ok(())
}

// Adds the name of each node in its box.
fn push_names(
    alloc: Global,
    text: &mut Vec<u8>,
    nodes: &[NodeLine],
    block: u32,
) -> Result<(), AllocError>
    requires { length nodes.now ≤ 8 }
    ensures { OnOk result (text.new.items ≡ text.old.items ++ name_boxes block 0 nodes.now) }
{
    for (place, node) in nodes.iter().enumerate() {
        push_node(alloc, text, block, place as u8, node)?;
    }
    Ok(())
}

// Adds the name of this node, which stands at this place, from 0, in its box.
fn push_node(
    alloc: Global,
    text: &mut Vec<u8>,
    block: u32,
    place: u8,
    node: &NodeLine,
) -> Result<(), AllocError>
    ensures { OnOk result (text.new.items ≡ text.old.items ++ name_box block place node.now.name) }
{
    push_name(alloc, text, block, place, node.name.bytes())
}

// Adds a name in its box.
fn push_name(
    alloc: Global,
    text: &mut Vec<u8>,
    block: u32,
    place: u8,
    name: &[u8],
) -> Result<(), AllocError>
    requires { length name.now ≤ 16 }
    ensures { OnOk result (text.new.items ≡ text.old.items ++ name_box block place name.now) }
{
    let size = name.len() as u64;
    let x = lifeline_x(place);
    let top = head_top(block);
    push_box(alloc, text, x - 4 * size - 8, top + 4, 8 * size + 16)?;
    push_name_at(alloc, text, x, top + 21, name)
}

// Adds a box of this width.
fn push_box(
    alloc: Global,
    text: &mut Vec<u8>,
    left: u64,
    top: u64,
    width: u64,
) -> Result<(), AllocError>
    ensures { OnOk result (text.new.items ≡ text.old.items ++ box_text left top width) }
{
    push_shown(
        alloc,
        text,
        format_args!("<rect x=\"{left}\" y=\"{top}\" width=\"{width}\" height=\"26\" rx=\"4\"/>"),
    )
}

// Adds a name at a place.
fn push_name_at(
    alloc: Global,
    text: &mut Vec<u8>,
    x: u64,
    y: u64,
    name: &[u8],
) -> Result<(), AllocError>
    ensures { OnOk result (text.new.items ≡ text.old.items ++ text_at x y name.now) }
{
    push_shown(alloc, text, format_args!("<text x=\"{x}\" y=\"{y}\">"))?;
    text.extend_from_slice(name)?;
    text.extend_from_slice(b"</text>")
}
