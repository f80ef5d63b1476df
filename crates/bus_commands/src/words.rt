//! The arguments of the command line.
ghost use Rattle.std.specs.Prelude.{◌≡◌, ◌↔◌, ◌∷◌, [], None, ℕ, List, map, string_bytes, option_map, codes};
ghost use Rattle.std.specs.Prelude.{IsTrue, IfSome, IfNone};
ghost use Rattle.bus_commands.specs.Words.{NamesCommand, NamesBusCommand, NamesCommandOfFour, AreInput};
ghost use Rattle.bus_commands.specs.Words.{Asks, IsAsked};
ghost use Rattle.bus_commands.specs.Keeping.{KeepsAs, AsksToKeep};
ghost use Rattle.bus_commands.specs.declared.words.Command.{Command};
ghost use Rattle.bus_commands.specs.declared.words.Command.TheVariants.{World};
ghost use Rattle.bus_commands.specs.declared.words.WorldCommand.TheVariants.{Replay, Trial};

use crate::trial_words::{TrialWords, trial_of};
use bus_world::Start;

/// What the arguments ask for.
#[derive(Clone, Copy, Debug, PartialEq, Eq)]
pub enum Command {
    /// Lines are read, and what they come to is printed.
    Lines(LineCommand),
    /// A bus runs over disks, and what comes of it is printed.
    World(WorldCommand),
}

/// A command that uses no disk.
#[derive(Clone, Copy, Debug, PartialEq, Eq)]
pub enum LineCommand {
    /// `frame F`, or no arguments: one Secured I-PDU a line.
    Frame,
    /// `judge F`: one verdict a line.
    Judge,
    /// `check B F`: the events of a script in canonical form.
    Check,
}

/// A command that runs a bus over disks.
#[derive(Clone, Copy, Debug, PartialEq, Eq)]
pub enum WorldCommand {
    /// The lines of a script's events: with `replay B F` over disks that are formatted, and with `node B F DISK` if the
    /// bus goes on over its disk.
    Replay(Start),
    /// `trial B N SEED`: the summary of a run of the events that a seed gives.
    Trial(TrialWords),
}

/// What the arguments ask for, and what they name.
#[derive(Drop)]
pub struct CommandLine<'a> {
    /// The command. None if the arguments are malformed.
    pub command: Option<Command>,
    /// The argument that names the bus file. None if the command reads none, or the arguments are malformed.
    pub config: Option<&'a str>,
    /// The argument that names the lines: `-`, standard input, if there are no arguments. It is none for a trial, which
    /// has no lines, and if the arguments are malformed. It is none, too, if the bus file is standard input and the
    /// script is to be it as well.
    pub script: Option<&'a str>,
    /// The argument that names the file of the disk on which a bus goes on: `-` is a file of that name, too. None for
    /// other arguments.
    pub disk: Option<&'a str>,
}

/// What `node --keep` names.
#[derive(Drop)]
pub struct KeptWords<'a> {
    /// The argument that names the bus file.
    pub bus: &'a str,
    /// The argument that names the script.
    pub file: &'a str,
    /// The argument that names the file of the disk.
    pub disk: &'a str,
}

/// What the arguments `node --keep B F DISK` name; none of other arguments.
pub(crate) fn kept_words(words: &[String]) -> Option<KeptWords<'_>>
    ensures some { IfSome result (λ kept. KeepsAs (map string_bytes words.now)
        (codes "node" ∷ kept.bus.now ∷ kept.file.now ∷ kept.disk.now ∷ [])) }
    ensures none { IfNone result (¬ AsksToKeep (map string_bytes words.now)) }
{
    match words {
        [name, keep, bus, file, disk] => kept_of_five(
            name.as_str(),
            keep.as_str(),
            bus.as_str(),
            file.as_str(),
            disk.as_str(),
        ),
        _ => None,
    }
}

/// The same of five arguments.
fn kept_of_five<'a>(
    name: &str,
    keep: &str,
    bus: &'a str,
    file: &'a str,
    disk: &'a str,
) -> Option<KeptWords<'a>>
    ensures some { IfSome result (λ kept. KeepsAs (name.now ∷ keep.now ∷ bus.now ∷ file.now ∷ disk.now ∷ [])
        (codes "node" ∷ kept.bus.now ∷ kept.file.now ∷ kept.disk.now ∷ [])) }
    ensures none { IfNone result
        (¬ AsksToKeep (name.now ∷ keep.now ∷ bus.now ∷ file.now ∷ disk.now ∷ [])) }
{
    if is_node(name) && is_keep(keep) {
        Some(KeptWords { bus, file, disk })
    } else {
        None
    }
}

/// Whether this argument asks for a look at the whole disk.
fn is_keep(option: &str) -> bool
    ensures { IsTrue result ↔ (option.now ≡ codes "--keep") }
{
    option == "--keep"
}

/// What the arguments ask for, the program's name left out. `B` and `F` may be any text.
pub fn command_line(words: &[String]) -> CommandLine<'_>
    ensures { IsAsked (map string_bytes words.now) result.command (option_map (λ w. w.now) result.config)
        (option_map (λ w. w.now) result.script) (option_map (λ w. w.now) result.disk) }
{
    match words {
        [] => CommandLine {
            command: Some(Command::Lines(LineCommand::Frame)),
            config: None,
            script: Some("-"),
            disk: None,
        },
        [name, file] => command_line_of_two(name.as_str(), file.as_str()),
        [name, bus, file] => command_line_of_three(name.as_str(), bus.as_str(), file.as_str()),
        [name, bus, third, fourth] => command_line_of_four(
            name.as_str(),
            bus.as_str(),
            third.as_str(),
            fourth.as_str(),
        ),
        _ => nothing(),
    }
}

/// What malformed arguments ask for.
fn nothing<'a>() -> CommandLine<'a>
    ensures command { result.command ≡ None }
    ensures config { option_map (λ w. w.now) result.config ≡ None }
    ensures script { option_map (λ w. w.now) result.script ≡ None }
    ensures disk { option_map (λ w. w.now) result.disk ≡ None }
{
    CommandLine {
        command: None,
        config: None,
        script: None,
        disk: None,
    }
}

/// What two arguments ask for: a command's name, and the file of its lines.
fn command_line_of_two<'a>(name: &str, file: &'a str) -> CommandLine<'a>
    ensures { IsAsked (name.now ∷ file.now ∷ []) result.command (option_map (λ w. w.now) result.config)
        (option_map (λ w. w.now) result.script) (option_map (λ w. w.now) result.disk) }
{
    match over_lines(name) {
        None => nothing(),
        Some(command) => CommandLine {
            command: Some(command),
            config: None,
            script: Some(file),
            disk: None,
        },
    }
}

/// What three arguments ask for: a command's name, the bus file and the script.
fn command_line_of_three<'a>(name: &str, bus: &'a str, file: &'a str) -> CommandLine<'a>
    ensures { IsAsked (name.now ∷ bus.now ∷ file.now ∷ []) result.command (option_map (λ w. w.now) result.config)
        (option_map (λ w. w.now) result.script) (option_map (λ w. w.now) result.disk) }
{
    match over_a_bus(name) {
        None => nothing(),
        Some(command) => CommandLine {
            command: Some(command),
            config: Some(bus),
            script: beside(bus, file),
            disk: None,
        },
    }
}

/// What four arguments ask for: a command's name, the bus file, and the script and the disk on which a bus goes on,
/// or a number of events and a seed.
fn command_line_of_four<'a>(
    name: &str,
    bus: &'a str,
    third: &'a str,
    fourth: &'a str,
) -> CommandLine<'a>
    ensures { IsAsked (name.now ∷ bus.now ∷ third.now ∷ fourth.now ∷ []) result.command
        (option_map (λ w. w.now) result.config) (option_map (λ w. w.now) result.script)
        (option_map (λ w. w.now) result.disk) }
{
    match of_four(name, third, fourth) {
        None => nothing(),
        Some(command) => with_world(command, bus, third, fourth),
    }
}

/// What four arguments ask for, if the first, the third and the fourth ask for this command.
fn with_world<'a>(
    command: WorldCommand,
    bus: &'a str,
    third: &'a str,
    fourth: &'a str,
) -> CommandLine<'a>
    ensures { (name : List ℕ) → Asks (name ∷ bus.now ∷ third.now ∷ fourth.now ∷ []) (World command)
        → IsAsked (name ∷ bus.now ∷ third.now ∷ fourth.now ∷ []) result.command (option_map (λ w. w.now) result.config)
        (option_map (λ w. w.now) result.script) (option_map (λ w. w.now) result.disk) }
{
    match command {
        WorldCommand::Replay(start) => with_disk(start, bus, third, fourth),
        WorldCommand::Trial(trial) => with_trial(trial, bus),
    }
}

/// What they ask for if a bus goes on over its disk.
pub(crate) fn with_disk<'a>(
    start: Start,
    bus: &'a str,
    file: &'a str,
    disk: &'a str,
) -> CommandLine<'a>
    ensures { (name : List ℕ) → Asks (name ∷ bus.now ∷ file.now ∷ disk.now ∷ []) (World (Replay start))
        → IsAsked (name ∷ bus.now ∷ file.now ∷ disk.now ∷ []) result.command (option_map (λ w. w.now) result.config)
        (option_map (λ w. w.now) result.script) (option_map (λ w. w.now) result.disk) }
{
    let script = beside(bus, file);
    CommandLine {
        command: Some(Command::World(WorldCommand::Replay(start))),
        config: Some(bus),
        script,
        disk: Some(disk),
    }
}

/// What they ask for if it is a trial.
fn with_trial(trial: TrialWords, bus: &str) -> CommandLine<'_>
    ensures { (name third fourth : List ℕ) → Asks (name ∷ bus.now ∷ third ∷ fourth ∷ []) (World (Trial trial))
        → IsAsked (name ∷ bus.now ∷ third ∷ fourth ∷ []) result.command (option_map (λ w. w.now) result.config)
        (option_map (λ w. w.now) result.script) (option_map (λ w. w.now) result.disk) }
{
    CommandLine {
        command: Some(Command::World(WorldCommand::Trial(trial))),
        config: Some(bus),
        script: None,
        disk: None,
    }
}

/// The command of this name that reads lines alone.
fn over_lines(name: &str) -> Option<Command>
    ensures found { IfSome result (NamesCommand name.now) }
    ensures none { IfNone result ((command : Command) → ¬ NamesCommand name.now command) }
{
    match name {
        "frame" => Some(Command::Lines(LineCommand::Frame)),
        "judge" => Some(Command::Lines(LineCommand::Judge)),
        _ => None,
    }
}

/// The command of this name that reads a bus file and a script.
fn over_a_bus(name: &str) -> Option<Command>
    ensures found { IfSome result (NamesBusCommand name.now) }
    ensures none { IfNone result ((command : Command) → ¬ NamesBusCommand name.now command) }
{
    match name {
        "check" => Some(Command::Lines(LineCommand::Check)),
        "replay" => Some(Command::World(WorldCommand::Replay(Start::Format))),
        _ => None,
    }
}

/// The command of this name that reads a bus file, and a script and a disk, or a number of events and a seed.
fn of_four(name: &str, third: &str, fourth: &str) -> Option<WorldCommand>
    ensures found { IfSome result (λ c. NamesCommandOfFour name.now third.now fourth.now (World c)) }
    ensures none { IfNone result ((command : Command) → ¬ NamesCommandOfFour name.now third.now fourth.now command) }
{
    if is_node(name) {
        return Some(WorldCommand::Replay(Start::Attach));
    }
    match trial_of(name, third, fourth) {
        Some(trial) => Some(WorldCommand::Trial(trial)),
        None => None,
    }
}

/// Whether the command of this name lets a bus go on where its disk stands.
fn is_node(name: &str) -> bool
    ensures { IsTrue result ↔ (name.now ≡ codes "node") }
{
    name == "node"
}

/// The script's word, unless both words are standard input.
fn beside<'a>(bus: &str, file: &'a str) -> Option<&'a str>
    ensures some { IfSome result (λ word. (word.now ≡ file.now) × ¬ AreInput bus.now file.now) }
    ensures none { IfNone result (AreInput bus.now file.now) }
{
    if bus == "-" && file == "-" {
        None
    } else {
        Some(file)
    }
}
