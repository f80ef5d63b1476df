//! The commands of a script, or why there are none.
ghost use Rattle.std.specs.Prelude.{◌≡◌, ◌<◌, ◌^◌, length, map, string_bytes};
ghost use Rattle.campaign_commands.specs.Steps.{HasScriptCommands, PreparesCampaign};

use crate::read_campaign;
use crate::refusals::usage_refusal;
use bus_port::Source;
use key_campaign::LedgerCommand;
use program_edge::{Refusal, read_input};
use std::alloc::Global;
use text_lines::line_refusal;

/// The first phase: the arguments, and the script. It ends in commands, or in the first refusal that applies.
pub fn prepare<T: Source>(
    alloc: Global,
    words: &[String],
    script: &mut T,
) -> Result<Vec<LedgerCommand>, Refusal>
    ensures { PreparesCampaign
        (record {
          words = map string_bytes words.now;
          script = record { before = T.state script.old; after = T.state script.new };
        })
        result }
{
    if words.len() != 2 {
        return Err(usage_refusal());
    }
    let input = read_input(alloc, script)?;
    commands_in(alloc, input.as_slice())
}

/// The commands of a script, or the refusal of a line.
fn commands_in(alloc: Global, text: &[u8]) -> Result<Vec<LedgerCommand>, Refusal>
    requires { length text.now < 2 ^ 32 }
    ensures { HasScriptCommands text.now result }
{
    match read_campaign(alloc, text) {
        Ok(commands) => Ok(commands),
        Err(fault) => Err(line_refusal(alloc, fault)),
    }
}
