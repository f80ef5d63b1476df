//! A ledger that takes over entries, one after another.
ghost use Rattle.std.specs.Prelude.{◌≡◌, ◌||◌, false};
ghost use Rattle.key_campaign.specs.Entries.{IsEntry};
ghost use Rattle.adopt_commands.specs.AdoptTurns.{AdoptTurn, adopt_line, is_refused};

use crate::lines::AdoptLine;
use cell_store::Cells;
use key_campaign::{Adoption, Ledger, LedgerEntry, LedgerFault};
use run_driver::Machine;

/// A ledger that is given entries, and whether one was refused.
#[derive(Drop)]
pub struct Keeper<C: Cells> {
    ledger: Ledger<C>,
    strict: bool,
    refused: bool,
}

impl<C: Cells> Keeper<C> {
    /// A keeper over this ledger. If it is strict, an entry that the ledger is ahead of is refused, too.
    pub fn of(ledger: Ledger<C>, strict: bool) -> Keeper<C>
        ensures ledger { result.ledger ≡ ledger }
        ensures strict { result.strict ≡ strict }
        ensures none { result.refused ≡ false }
    {
        Keeper {
            ledger,
            strict,
            refused: false,
        }
    }

    /// Whether an entry was refused.
    pub fn has_refused(&self) -> bool
        ensures { result ≡ self.now.refused }
    {
        self.refused
    }

    /// Gives the cells back. Nothing is written.
    pub fn release(self) -> C
        ensures { C.state result ≡ self.ledger.store }
    {
        self.ledger.release()
    }

    /// Takes over an entry, and gives its line.
    pub fn take_over(&mut self, entry: &LedgerEntry) -> AdoptLine
        requires { IsEntry entry.now }
        ensures { AdoptTurn
            (record { ledger = self.old.ledger; strict = self.old.strict; refused = self.old.refused }) entry.now result
            (record { ledger = self.new.ledger; strict = self.new.strict; refused = self.new.refused }) }
    {
        let answer = self.ledger.adopt(entry);
        let line = line_of(entry, &answer);
        self.refused = either(self.refused, refuses(self.strict, &line));
        line
    }
}

/// The line of an answer.
fn line_of(entry: &LedgerEntry, answer: &Result<Adoption, LedgerFault>) -> AdoptLine
    ensures { result ≡ adopt_line entry.now answer.now }
{
    match answer {
        Ok(Adoption::Raised) => AdoptLine::Adopted(*entry),
        Ok(Adoption::Held) => AdoptLine::Held(*entry),
        Ok(Adoption::Behind(counter)) => AdoptLine::Ahead {
            entry: *entry,
            counter: *counter,
        },
        Err(LedgerFault::Full) => AdoptLine::Full(*entry),
        Err(_) => AdoptLine::Failed,
    }
}

/// Whether a line says that an entry isn't there, or, if it is strict, that the ledger is ahead.
fn refuses(strict: bool, line: &AdoptLine) -> bool
    ensures { result ≡ is_refused strict line.now }
{
    match line {
        AdoptLine::Ahead { .. } => strict,
        AdoptLine::Full(_) => true,
        AdoptLine::Adopted(_) | AdoptLine::Held(_) | AdoptLine::Failed => false,
    }
}

/// Whether one of both holds.
fn either(one: bool, other: bool) -> bool
    ensures { result ≡ (one || other) }
{
    one || other
}

impl<C: Cells> Machine for Keeper<C> {
    ghost use Rattle.std.specs.Prelude.{All};
    ghost use Rattle.key_campaign.specs.Entries.{IsEntry};
    ghost use Rattle.adopt_commands.specs.AdoptTurns.{KeeperState, AdoptTurn};

    type Command = LedgerEntry;

    type Line = AdoptLine;

    ghost State = { KeeperState };

    ghost state = { λ keeper. record { ledger = keeper.ledger; strict = keeper.strict; refused = keeper.refused } };

    ghost steps = { AdoptTurn };

    ghost ready = { λ _ entries. All IsEntry entries };

    fn step(&mut self, command: &LedgerEntry) -> AdoptLine {
        self.take_over(command)
    }
}
