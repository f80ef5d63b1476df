//! A station: the ledger of a campaign as a machine, which tells a line for each command.
ghost use Rattle.std.specs.Prelude.{◌≡◌, All};
ghost use Rattle.key_campaign.specs.Entries.{IsUnit};
ghost use Rattle.key_campaign.specs.declared.commands.LedgerCommand.TheVariants as command;
ghost use Rattle.key_campaign.specs.Lines.{ledger_refusal, issued_line, confirmed_line, ledger_cut_line};
ghost use Rattle.campaign_commands.specs.ScriptCommands.{IsScriptCommand};
ghost use Rattle.campaign_commands.specs.Turns.{LedgerTurn};

use cell_store::{CutCells, Reread};
use cut_disk::Torn;
use key_campaign::{
    Confirm, Issue, Ledger, LedgerCommand, LedgerCut, LedgerFault, LedgerLine, LedgerRefusal,
};
use key_slots::Counter28;
use memory_update::Request;
use run_driver::Machine;

/// A ledger that is given commands. Contracts see it as the ledger.
#[derive(Drop)]
pub struct Station<C: CutCells> {
    ledger: Ledger<C>,
}

impl<C: CutCells> Station<C> {
    ghost use Rattle.std.specs.Prelude.{◌≡◌};
    ghost use Rattle.campaign_commands.specs.ScriptCommands.{IsScriptCommand};
    ghost use Rattle.campaign_commands.specs.Turns.{LedgerTurn};

    /// A station over this ledger.
    pub fn of(ledger: Ledger<C>) -> Station<C>
        ensures { result.ledger ≡ ledger }
    {
        Station { ledger }
    }

    /// Gives the cells back. Nothing is written.
    pub fn release(self) -> C
        ensures { C.state result ≡ self.ledger.store }
    {
        self.ledger.release()
    }

    /// Does a command, and gives its line. It takes no memory.
    pub fn do_command(&mut self, command: &LedgerCommand) -> LedgerLine
        requires { IsScriptCommand command.now }
        ensures { LedgerTurn self.old.ledger command.now result self.new.ledger }
    {
        match *command {
            LedgerCommand::Issue(issue) => self.issue(&issue),
            LedgerCommand::Confirm(confirm) => self.confirm(&confirm),
            LedgerCommand::Show { uid, id } => LedgerLine::Shown(self.ledger.show(uid, id)),
            LedgerCommand::Cut(torn) => self.cut(torn),
            LedgerCommand::Stop(calls) => {
                self.ledger.stop_at(calls);
                LedgerLine::Armed
            }
            LedgerCommand::Fail(calls) => {
                self.ledger.fail_at(calls);
                LedgerLine::Armed
            }
        }
    }

    // Issues a request.
    fn issue(&mut self, issue: &Issue) -> LedgerLine
        requires { IsUnit issue.now.uid }
        ensures { LedgerTurn self.old.ledger (command.Issue issue.now) result self.new.ledger }
    {
        let issued = self.ledger.issue(
            issue.uid,
            issue.id,
            issue.auth,
            issue.flags,
            &issue.key,
            &issue.authkey,
        );
        line_of_issue(issued)
    }

    // Records a reply.
    fn confirm(&mut self, confirm: &Confirm) -> LedgerLine
        ensures { LedgerTurn self.old.ledger (command.Confirm confirm.now) result self.new.ledger }
    {
        let confirmed = self.ledger.confirm(
            confirm.uid,
            confirm.id,
            confirm.auth,
            &confirm.key,
            &confirm.reply,
        );
        line_of_confirm(confirmed)
    }

    // Cuts the power, which comes back.
    fn cut(&mut self, torn: Torn) -> LedgerLine
        ensures { LedgerTurn self.old.ledger (command.Cut torn) result self.new.ledger }
    {
        cut_line(self.ledger.power_cut(torn))
    }
}

impl<C: CutCells> Machine for Station<C> {
    ghost use Rattle.std.specs.Prelude.{All};
    ghost use Rattle.key_campaign.specs.State.{LedgerState};
    ghost use Rattle.campaign_commands.specs.ScriptCommands.{IsScriptCommand};
    ghost use Rattle.campaign_commands.specs.Turns.{LedgerTurn};

    type Command = LedgerCommand;

    type Line = LedgerLine;

    ghost State = { LedgerState };

    ghost state = { λ station. station.ledger };

    ghost steps = { LedgerTurn };

    ghost ready = { λ _ commands. All IsScriptCommand commands };

    fn step(&mut self, command: &LedgerCommand) -> LedgerLine {
        self.do_command(command)
    }
}

/// The line of an answer to an issue.
fn line_of_issue(issued: Result<(Counter28, Request), LedgerFault>) -> LedgerLine
    ensures { result ≡ issued_line issued }
{
    match issued {
        Ok((counter, request)) => LedgerLine::Issued { counter, request },
        Err(fault) => LedgerLine::Refused(refusal_of(fault)),
    }
}

/// The line of an answer to a confirmation.
fn line_of_confirm(confirmed: Result<Counter28, LedgerFault>) -> LedgerLine
    ensures { result ≡ confirmed_line confirmed }
{
    match confirmed {
        Ok(counter) => LedgerLine::Confirmed(counter),
        Err(fault) => LedgerLine::Refused(refusal_of(fault)),
    }
}

/// The refusal that a fault of the ledger is printed as.
fn refusal_of(fault: LedgerFault) -> LedgerRefusal
    ensures { result ≡ ledger_refusal fault }
{
    match fault {
        LedgerFault::Down => LedgerRefusal::Down,
        LedgerFault::BadPair => LedgerRefusal::BadPair,
        LedgerFault::Full => LedgerRefusal::Full,
        LedgerFault::Spent => LedgerRefusal::Spent,
        LedgerFault::Faulted => LedgerRefusal::MemoryFailure,
        LedgerFault::Unknown => LedgerRefusal::Unknown,
        LedgerFault::AlreadyConfirmed => LedgerRefusal::AlreadyConfirmed,
        LedgerFault::NotConfirmed => LedgerRefusal::NotConfirmed,
    }
}

/// The line of an answer to a power cut.
fn cut_line(cut: Result<(), LedgerCut>) -> LedgerLine
    ensures { result ≡ ledger_cut_line cut }
{
    match cut {
        Ok(()) => LedgerLine::Up,
        Err(LedgerCut::Store(Reread::DiskFailed)) => LedgerLine::Refused(
            LedgerRefusal::MemoryFailure,
        ),
        Err(LedgerCut::Store(Reread::NotFormatted)) => LedgerLine::Refused(
            LedgerRefusal::NotFormatted,
        ),
        Err(LedgerCut::Store(Reread::Damaged(cell))) => LedgerLine::Refused(LedgerRefusal::Damaged(
            cell,
        )),
        Err(LedgerCut::BadEntry(cell)) => LedgerLine::Refused(LedgerRefusal::BadEntry(cell)),
    }
}
