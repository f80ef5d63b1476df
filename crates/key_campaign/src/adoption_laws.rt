//! Laws of adoptions: the contract of each function is the law, and its body is empty.
ghost use Rattle.key_campaign.specs.Adopting.{AdoptionsKeepSound, AdoptionsKeepEntries, AdoptionsReach, AdoptionsTouchNoOther};

/// An adoption keeps a ledger sound.
pub fn adoptions_keep_ledgers_sound()
    ensures { AdoptionsKeepSound }
{}

/// No entry goes away by an adoption, and no counter falls; so it is after the next power-up, too, if the disk failed.
pub fn adoptions_keep_entries()
    ensures { AdoptionsKeepEntries }
{}

/// After an adoption that isn't refused the counter issued last is at least the adopted one.
pub fn adoptions_reach_their_counter()
    ensures { AdoptionsReach }
{}

/// An adoption leaves the entries of all other units and slots as they were.
pub fn adoptions_touch_no_other_entry()
    ensures { AdoptionsTouchNoOther }
{}
