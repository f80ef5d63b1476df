//! What a node does for a line of a log.
ghost use Rattle.std.specs.Prelude.{◌≤◌, length};
ghost use Rattle.secoc_node.specs.Words.{IsImage};
ghost use Rattle.bus_machine.specs.declared.events.Event.TheVariants.{Load, Boot};
ghost use Rattle.endpoint_commands.specs.Alone.{TurnsAlone};
ghost use Rattle.endpoint_commands.specs.Asking.{frame_event};
ghost use Rattle.endpoint_commands.specs.Rules.{taken_size as size_taken};

use crate::rules::FrameRule;
use bus_machine::Line;
use bus_world::{boot_turn, load_turn, receive_turn, send_turn};
use cell_store::Cells;
use freshness_routes::Direction;
use memory_update::Request;
use secoc_node::Node;

/// The node does the rule's event for the first data bytes of a frame. It takes no memory.
pub fn frame_turn<C: Cells>(node: &mut Node<C>, rule: &FrameRule, bytes: &[u8]) -> Line
    requires { size_taken rule.now ≤ length bytes.now }
    ensures { TurnsAlone node.old (frame_event rule.now bytes.now) result node.new }
{
    let taken = &bytes[..rule.taken_size()];
    match rule.direction {
        Direction::Sends => send_turn(node, rule.id, taken),
        Direction::Receives => receive_turn(node, rule.id, taken),
    }
}

/// The node's engine gets a request. It takes no memory.
pub fn request_turn<C: Cells>(node: &mut Node<C>, request: &Request) -> Line
    ensures { TurnsAlone node.old (Load 0 request.now) result node.new }
{
    load_turn(node, request)
}

/// The node makes a secure boot with an image of 1 to 65,536 bytes. It takes no memory.
pub fn image_turn<C: Cells>(node: &mut Node<C>, image: &[u8]) -> Line
    requires { IsImage image.now }
    ensures { TurnsAlone node.old (Boot 0 image.now) result node.new }
{
    boot_turn(node, image)
}
