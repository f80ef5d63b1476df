// The printed texts of faults.

ghost use Rattle.std.specs.Prelude.{◌≡◌, IfOk, Some};
ghost use Rattle.std.specs.String.{string_bytes};
ghost use Rattle.bus_config.specs.FaultTexts.{config_fault_text as text_of_fault};

use crate::fault::ConfigFault;
use std::alloc::{AllocError, Global};

/// The text of a fault, `config: ` and the fault, with the line feed after it; out of memory, also as the fault, has no
/// text.
#[tactic(auto, using(crate::proofs::TwoBytes::two_bytes))]
pub fn config_fault_text(alloc: Global, fault: &ConfigFault) -> Result<String, AllocError>
    ensures { IfOk result (λ text. text_of_fault fault.now ≡ Some (string_bytes text)) }
{
    match fault {
        ConfigFault::Toml => Ok(format!(in alloc; "config: toml\n")?),
        ConfigFault::Root => Ok(format!(in alloc; "config: root\n")?),
        ConfigFault::Node(node) => Ok(format!(in alloc; "config: node {node}\n")?),
        ConfigFault::Route(node, route) => {
            Ok(format!(in alloc; "config: route {node} {route}\n")?)
        }
        ConfigFault::Sender(id) => {
            let digits = hex::encode(alloc, id.to_be_bytes())?;
            Ok(format!(in alloc; "config: sender {digits}\n")?)
        }
        ConfigFault::Memory => Err(AllocError),
    }
}
