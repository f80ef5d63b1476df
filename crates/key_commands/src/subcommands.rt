//! The subcommands of the key command.
ghost use Rattle.std.specs.Prelude.{◌≡◌, map, string_bytes, IfSome, IfNone};
ghost use Rattle.key_commands.specs.Subcommands.{NamesSubcommand, name_of};
ghost use Rattle.key_commands.specs.declared.subcommands.Subcommand.{Subcommand};

/// What the arguments ask for.
#[derive(Clone, Copy, Debug, PartialEq, Eq)]
pub enum Subcommand {
    /// `make UID ID AUTH COUNTER FLAGS NEWKEY AUTHKEY`: the messages M1, M2 and M3.
    Make,
    /// `read AUTHKEY M1 M2 M3`: the update that the messages carry.
    Read,
    /// `confirm UID ID AUTH COUNTER NEWKEY M4 M5`: whether the messages confirm the update.
    Confirm,
    /// `bootmac KEY IMAGE`: the boot MAC of the image under the key.
    Bootmac,
    /// `load FILE UID`: what the engine of the store on a disk answers to requests. FILE names the disk, and isn't
    /// looked at.
    Load,
}

/// The subcommand that the first of the arguments names, the program's name left out.
pub fn subcommand_of(words: &[String]) -> Option<Subcommand>
    ensures found { IfSome result (NamesSubcommand (map string_bytes words.now)) }
    ensures none { IfNone result ((s : Subcommand) → ¬ NamesSubcommand (map string_bytes words.now) s) }
{
    match words {
        [] => None,
        [name, ..] => named(name.as_str()),
    }
}

/// The subcommand of this name.
fn named(name: &str) -> Option<Subcommand>
    ensures found { IfSome result (λ s. name.now ≡ name_of s) }
    ensures none { IfNone result ((s : Subcommand) → ¬ (name.now ≡ name_of s)) }
{
    match name {
        "make" => Some(Subcommand::Make),
        "read" => Some(Subcommand::Read),
        "confirm" => Some(Subcommand::Confirm),
        "bootmac" => Some(Subcommand::Bootmac),
        "load" => Some(Subcommand::Load),
        _ => None,
    }
}
