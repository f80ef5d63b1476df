//! Reading a script line by line.

ghost use Rattle.std.specs.Prelude.{◌≡◌, ◌<◌, ◌≤◌, ◌^◌, length, All, IfOk};
ghost use Rattle.text_lines.specs.Readings.{Gives, GivesLine, most_lines};
ghost use Rattle.campaign_commands.specs.CommandKinds.{command_words};
ghost use Rattle.campaign_commands.specs.CommandForms.{campaign_of, command_fields};
ghost use Rattle.campaign_commands.specs.ScriptCommands.{IsScriptCommand};

use crate::kinds::CommandKind;
use crate::lines::{read_confirm, read_cut, read_fail, read_issue, read_show, read_stop};
use key_campaign::LedgerCommand;
use std::alloc::Global;
use text_lines::reader::{LineReader, MOST_LINES, expect_count, read_lines};
use text_lines::words::Words;
use text_lines::{Cause, LineFault, ScriptFault};

/// Reads a line of a script.
#[derive(Clone, Copy)]
pub struct CommandReader;

impl LineReader for CommandReader {
    ghost use Rattle.campaign_commands.specs.CommandForms.{ledger_command_of};

    type Item = LedgerCommand;

    ghost means = { λ _ _ words. ledger_command_of words };

    #[tactic(auto, unfolding(crate::specs::CommandForms::ledger_command_of))]
    fn read(
        &self,
        _alloc: Global,
        words: &Words<'_>,
        _before: &[LedgerCommand],
    ) -> Result<LedgerCommand, LineFault> {
        if words.is_empty() {
            return Err(LineFault::Refused(Cause::Event));
        }
        let Some(kind) = CommandKind::of(words.word(1)) else {
            return Err(LineFault::Refused(Cause::Event));
        };
        expect_count(words, kind.word_count())?;
        read_fields(kind, words)
    }
}

/// Reads the words of a line of this kind.
fn read_fields(kind: CommandKind, words: &Words<'_>) -> Result<LedgerCommand, LineFault>
    requires { length words.now ≡ command_words kind }
    ensures { GivesLine (command_fields kind words.now) result }
{
    match kind {
        CommandKind::Issue => read_issue(words),
        CommandKind::Confirm => read_confirm(words),
        CommandKind::Show => read_show(words),
        CommandKind::Cut => read_cut(words),
        CommandKind::Stop => read_stop(words),
        CommandKind::Fail => read_fail(words),
    }
}

/// The commands of a script: at most 65,536 lines that aren't skipped; or the first fault, by the line it stands in. A
/// line's cause is the first of: too many commands, no command's name, a wrong number of words, and the lowest word
/// that isn't of its form.
#[tactic(auto, unfolding(crate::specs::CommandForms::campaign_of))]
pub fn read_campaign(alloc: Global, text: &[u8]) -> Result<Vec<LedgerCommand>, ScriptFault>
    requires { length text.now < 2 ^ 32 }
    ensures exact { Gives (campaign_of text.now) result }
    ensures are_commands { IfOk result (λ commands. All IsScriptCommand commands.items) }
    ensures few { IfOk result (λ commands. length commands.items ≤ most_lines) }
{
    read_lines(alloc, text, MOST_LINES, &CommandReader)
}
