//! A law of what is taken over: the contract of the function is the law, and its body is empty.
ghost use Rattle.std.specs.Prelude.{◌≡◌, ◌≢◌, ◌≤◌, ◌++◌, ◌∷◌, List, All};
ghost use Rattle.key_campaign.specs.declared.entries.LedgerEntry.{LedgerEntry};
ghost use Rattle.key_campaign.specs.Entries.{IsEntry, last_issued};
ghost use Rattle.key_campaign.specs.Campaign.{Campaign, SoundLedger};
ghost use Rattle.adopt_commands.specs.declared.lines.AdoptLine.{AdoptLine};
ghost use Rattle.adopt_commands.specs.declared.lines.AdoptLine.TheVariants.{Full};
ghost use Rattle.adopt_commands.specs.Adoptions.{AdoptsEach, NoneLast};

/// After entries were taken over each is there with no lower counter, unless a line says `refused Full` of it. So of two
/// ledgers that are merged the higher counter is left.
pub fn entries_taken_over_are_there()
    ensures { (c : Campaign) (entries : List LedgerEntry) (lines : List AdoptLine) (after : Campaign) → SoundLedger c
        → All IsEntry entries → AdoptsEach c entries lines after → NoneLast lines
        → (first rest : List LedgerEntry) (entry : LedgerEntry) → entries ≡ first ++ entry ∷ rest
        → All (λ told. told ≢ Full entry) lines → entry.counter ≤ last_issued entry.uid entry.id after.entries }
{}
