//! What the sources of an endpoint have, or why they have it not.
ghost use Rattle.std.specs.Prelude.{◌<◌, ◌^◌, length};
ghost use Rattle.endpoint_commands.specs.Steps.{HasRules, FindsRules};

use crate::rules::{FrameRule, read_rules};
use bus_port::Source;
use freshness_routes::Route;
use program_edge::{Refusal, read_input};
use std::alloc::Global;
use text_lines::line_refusal;

/// The rules of the map that a source gives, over a node with these routes, or the refusal of the source or of a line.
pub fn rules_from<S: Source>(
    alloc: Global,
    routes: &[Route],
    map: &mut S,
) -> Result<Vec<FrameRule>, Refusal>
    ensures { FindsRules routes.now (record { before = S.state map.old; after = S.state map.new }) result }
{
    let input = read_input(alloc, map)?;
    rules_in(alloc, routes, input.as_slice())
}

/// The rules of a map, or the refusal of a line.
fn rules_in(alloc: Global, routes: &[Route], text: &[u8]) -> Result<Vec<FrameRule>, Refusal>
    requires { length text.now < 2 ^ 32 }
    ensures { HasRules routes.now text.now result }
{
    match read_rules(alloc, routes, text) {
        Ok(rules) => Ok(rules),
        Err(fault) => Err(line_refusal(alloc, fault)),
    }
}
