//! The lines of the single kinds of commands.

ghost use Rattle.std.specs.Prelude.{◌≡◌, length};
ghost use Rattle.text_lines.specs.Readings.{GivesLine};
ghost use Rattle.campaign_commands.specs.CommandForms.{issue_of, ledger_confirm_of, show_of, ledger_cut_of, ledger_stop_of, ledger_fail_of};

use key_campaign::{Confirm, Issue, LedgerCommand};
use memory_update::Reply;
use text_lines::LineFault;
use text_lines::reader::value_at;
use text_lines::words::Words;

/// Reads the words of an `issue`.
#[tactic(auto, unfolding(crate::specs::CommandForms::issue_of))]
pub fn read_issue(words: &Words<'_>) -> Result<LedgerCommand, LineFault>
    requires { length words.now ≡ 7 }
    ensures { GivesLine (issue_of words.now) result }
{
    let uid = value_at(2, secoc_words::engine_uid(words.word(2)))?;
    let id = value_at(3, secoc_words::slot(words.word(3)))?;
    let auth = value_at(4, secoc_words::slot(words.word(4)))?;
    let flags = value_at(5, secoc_words::flags(words.word(5)))?;
    let key = value_at(6, secoc_words::key(words.word(6)))?;
    let authkey = value_at(7, secoc_words::key(words.word(7)))?;
    Ok(LedgerCommand::Issue(Issue {
        uid,
        id,
        auth,
        flags,
        key,
        authkey,
    }))
}

/// Reads the words of a `confirm`.
#[tactic(auto, unfolding(crate::specs::CommandForms::ledger_confirm_of))]
pub fn read_confirm(words: &Words<'_>) -> Result<LedgerCommand, LineFault>
    requires { length words.now ≡ 7 }
    ensures { GivesLine (ledger_confirm_of words.now) result }
{
    let uid = value_at(2, secoc_words::engine_uid(words.word(2)))?;
    let id = value_at(3, secoc_words::slot(words.word(3)))?;
    let auth = value_at(4, secoc_words::slot(words.word(4)))?;
    let key = value_at(5, secoc_words::key(words.word(5)))?;
    let m4 = value_at(6, secoc_words::two(words.word(6)))?;
    let m5 = value_at(7, secoc_words::key(words.word(7)))?;
    let reply = Reply { m4, m5 };
    Ok(LedgerCommand::Confirm(Confirm {
        uid,
        id,
        auth,
        key,
        reply,
    }))
}

/// Reads the words of a `show`.
#[tactic(auto, unfolding(crate::specs::CommandForms::show_of))]
pub fn read_show(words: &Words<'_>) -> Result<LedgerCommand, LineFault>
    requires { length words.now ≡ 3 }
    ensures { GivesLine (show_of words.now) result }
{
    let uid = value_at(2, secoc_words::engine_uid(words.word(2)))?;
    let id = value_at(3, secoc_words::slot(words.word(3)))?;
    Ok(LedgerCommand::Show { uid, id })
}

/// Reads the words of a `cut`.
#[tactic(auto, unfolding(crate::specs::CommandForms::ledger_cut_of))]
pub fn read_cut(words: &Words<'_>) -> Result<LedgerCommand, LineFault>
    requires { length words.now ≡ 2 }
    ensures { GivesLine (ledger_cut_of words.now) result }
{
    let torn = value_at(2, secoc_words::torn(words.word(2)))?;
    Ok(LedgerCommand::Cut(torn))
}

/// Reads the words of a `stop`.
#[tactic(auto, unfolding(crate::specs::CommandForms::ledger_stop_of))]
pub fn read_stop(words: &Words<'_>) -> Result<LedgerCommand, LineFault>
    requires { length words.now ≡ 2 }
    ensures { GivesLine (ledger_stop_of words.now) result }
{
    let calls = value_at(2, secoc_words::calls(words.word(2)))?;
    Ok(LedgerCommand::Stop(u64::from(calls)))
}

/// Reads the words of a `fail`.
#[tactic(auto, unfolding(crate::specs::CommandForms::ledger_fail_of))]
pub fn read_fail(words: &Words<'_>) -> Result<LedgerCommand, LineFault>
    requires { length words.now ≡ 2 }
    ensures { GivesLine (ledger_fail_of words.now) result }
{
    let calls = value_at(2, secoc_words::calls(words.word(2)))?;
    Ok(LedgerCommand::Fail(u64::from(calls)))
}
