//! The arguments of the command line, the program's name left out: what they name is read, and what they ask for is
//! run.
ghost use Rattle.std.specs.Prelude.{◌≡◌, ◌⊎◌, ◌≤◌, ◌++◌, [], ℕ, List, map, string_bytes, option_map, IfOk, IfErr};
ghost use Rattle.bus_world.specs.declared.start.Start.TheVariants.{Attach};
ghost use Rattle.program_edge.specs.NamedSources.{word_source, missing_source, openings};
ghost use Rattle.bus_commands.specs.declared.words.Command.TheVariants.{World};
ghost use Rattle.bus_commands.specs.declared.words.WorldCommand.TheVariants.{Replay};
ghost use Rattle.bus_commands.specs.Words.{Asks, AsksCommand, AsksNothing, IsAsked, NamesDisk};
ghost use Rattle.bus_commands.specs.Inputs.{AsksWorld};
ghost use Rattle.bus_commands.specs.StartRows.{disks_between};
ghost use Rattle.bus_commands.specs.Steps.{IsWholeWorld, DoesNamed};
ghost use Rattle.bus_commands.specs.Named.{NamesSources, RunsOver, AreGiven, RunsNamed};

use crate::job::WorldJob;
use crate::run::{do_world, run_asked, world_job};
use crate::words::{Command, CommandLine, WorldCommand, command_line};
use bus_port::{Sink, Source};
use bus_programs::{blank_disks, unopened};
use bus_world::Start;
use cut_disk::{CutDisk, MemDisk};
use file_disk::{DiskOpener, open_disk};
use program_edge::{NO_MEMORY, Opener, WordSource, open_both, tell_refusal};
use std::alloc::{AllocError, Global};

/// Runs the command that the arguments ask for over what they name. It gives the status that the program ends with, the
/// sources of the bus file and of the lines as the command left them, and the disk that was opened for `node`. `-`
/// names the input, which is taken then. If both arguments are `-`, the bus file has it, and the lines are missing.
/// What no argument names is missing, and of malformed arguments nothing is opened. A replay or a trial runs over eight
/// blank disks in memory. If there is no memory for these, the status is 7, and nothing is written or opened. The disk
/// of `node` is opened, and its file made if it isn't there, once bus file and script are read and are valid.
pub fn bus_words<O: Opener, P: DiskOpener, I: Source + Drop, K: Sink>(
    alloc: Global,
    opener: &mut O,
    disk_opener: &mut P,
    input: &mut Option<I>,
    words: &[String],
    sink: &mut K,
) -> (
    u8,
    WordSource<O::Opened, I>,
    WordSource<O::Opened, I>,
    Vec<P::Opened>,
)
    // All that a command promises, of these arguments, over the sources that they name, which are those handed back,
    // and over the disks that are made for them, or the one that they name. Each word that names a source is opened
    // once, and the one that names the disk once or not at all; and no other.
    ensures words { RunsNamed P.Opened.state (O.opens opener.old) (P.opens disk_opener.old)
        (record {
          before = openings (O.opened opener.old) (option_map I.state input.old);
          after = openings (O.opened opener.new) (option_map I.state input.new);
          disks_before = P.opened disk_opener.old;
          disks_after = P.opened disk_opener.new;
        })
        (record {
          config = word_source O.Opened.state I.state result.1;
          script = word_source O.Opened.state I.state result.2;
        })
        result.3 (map string_bytes words.now)
        (record { before = K.state sink.old; after = K.state sink.new; status = result.0 }) }
    ensures usage { result.0 ≡ 2 → AsksNothing (map string_bytes words.now) }
    ensures usage_only { AsksNothing (map string_bytes words.now) → (result.0 ≡ 2) ⊎ (result.0 ≡ 6) }

    // No disk is opened, and so no file is made, if the arguments, the bus file or the script is refused.
    ensures no_disk { (result.0 ≡ 2) ⊎ ((3 ≤ result.0) × (result.0 ≤ 5)) ⊎ (result.0 ≡ 8)
        → P.opened disk_opener.new ≡ P.opened disk_opener.old }

    // The file of each disk that was opened was made, if it wasn't there. No other file was made.
    ensures makes { (words : List (List ℕ)) × (P.opened disk_opener.new ≡ P.opened disk_opener.old ++ words)
        × (P.made disk_opener.new ≡ P.made disk_opener.old ++ words) }

    // The disks that are made for a replay or a trial are enough, and don't fail as the bus starts: 9 and 10 come for
    // `node` alone.
    ensures starts { (result.0 ≡ 9) ⊎ (result.0 ≡ 10) → Asks (map string_bytes words.now) (World (Replay Attach)) }
{
    let asked = command_line(words);
    match asked.disk {
        Some(path) => run_node(alloc, opener, disk_opener, input, &asked, path, sink),
        None => match disks_for(alloc, asked.command) {
            Ok(mut disks) => {
                let (status, config, script) = run_over(
                    alloc, opener, input, &asked, sink, &mut disks,
                );
                (status, config, script, Vec::new(alloc))
            }
            Err(AllocError) => without_memory(alloc),
        },
    }
}

/// Runs `node` over the sources that are named, which are handed back, and the disk that the path opens. Both inputs
/// are read whole before the disk is opened, so that refused ones make no file.
fn run_node<O: Opener, P: DiskOpener, I: Source + Drop, K: Sink>(
    alloc: Global,
    opener: &mut O,
    disk_opener: &mut P,
    input: &mut Option<I>,
    asked: &CommandLine<'_>,
    path: &str,
    sink: &mut K,
) -> (
    u8,
    WordSource<O::Opened, I>,
    WordSource<O::Opened, I>,
    Vec<P::Opened>,
)
    requires { (words : List (List ℕ)) × NamesDisk words path.now }
    ensures runs { (words : List (List ℕ)) → NamesSources words (option_map (λ w. w.now) asked.now.config)
        (option_map (λ w. w.now) asked.now.script) → NamesDisk words path.now
        → RunsNamed P.Opened.state (O.opens opener.old) (P.opens disk_opener.old)
        (record {
          before = openings (O.opened opener.old) (option_map I.state input.old);
          after = openings (O.opened opener.new) (option_map I.state input.new);
          disks_before = P.opened disk_opener.old;
          disks_after = P.opened disk_opener.new;
        })
        (record {
          config = word_source O.Opened.state I.state result.1;
          script = word_source O.Opened.state I.state result.2;
        })
        result.3 words
        (record { before = K.state sink.old; after = K.state sink.new; status = result.0 }) }
    ensures makes { (words : List (List ℕ)) × (P.opened disk_opener.new ≡ P.opened disk_opener.old ++ words)
        × (P.made disk_opener.new ≡ P.made disk_opener.old ++ words) }
{
    let (mut bus, mut events) = open_both(opener, input, asked.config, asked.script);
    let node = WorldCommand::Replay(Start::Attach);
    match world_job(alloc, node, &mut bus, &mut events) {
        Ok(job) => {
            let (status, disks) = do_on_disk(alloc, disk_opener, path, &job, sink);
            (status, bus, events, disks)
        }
        Err(refusal) => (tell_refusal(sink, &refusal), bus, events, Vec::new(alloc)),
    }
}

/// The second phase of `node`, over the disk that the path opens. If there is no memory for the disk, none is opened.
fn do_on_disk<P: DiskOpener, K: Sink>(
    alloc: Global,
    disk_opener: &mut P,
    path: &str,
    job: &WorldJob,
    sink: &mut K,
) -> (u8, Vec<P::Opened>)
    requires { IsWholeWorld job.now }
    ensures does { DoesNamed P.Opened.state (P.opens disk_opener.old) (P.opened disk_opener.old)
        (P.opened disk_opener.new) path.now job.now result.1
        (record { before = K.state sink.old; after = K.state sink.new; status = result.0 }) }
    ensures makes { (words : List (List ℕ)) × (P.opened disk_opener.new ≡ P.opened disk_opener.old ++ words)
        × (P.made disk_opener.new ≡ P.made disk_opener.old ++ words) }
{
    match open_disk(alloc, disk_opener, path) {
        Ok(mut disks) => {
            let status = do_world(alloc, job, sink, &mut disks);
            (status, disks)
        }
        Err(AllocError) => (NO_MEMORY, Vec::new(alloc)),
    }
}

/// Runs the command that is asked for over the sources that are named, which are handed back, and these disks.
fn run_over<O: Opener, I: Source + Drop, K: Sink, D: CutDisk>(
    alloc: Global,
    opener: &mut O,
    input: &mut Option<I>,
    asked: &CommandLine<'_>,
    sink: &mut K,
    disks: &mut Vec<D>,
) -> (u8, WordSource<O::Opened, I>, WordSource<O::Opened, I>)
    requires { (words : List (List ℕ)) × IsAsked words asked.now.command (option_map (λ w. w.now) asked.now.config)
        (option_map (λ w. w.now) asked.now.script) (option_map (λ w. w.now) asked.now.disk) }
    ensures { (words : List (List ℕ)) → IsAsked words asked.now.command (option_map (λ w. w.now) asked.now.config)
        (option_map (λ w. w.now) asked.now.script) (option_map (λ w. w.now) asked.now.disk)
        → RunsOver (O.opens opener.old) (openings (O.opened opener.old) (option_map I.state input.old))
        (openings (O.opened opener.new) (option_map I.state input.new))
        (record {
          config = word_source O.Opened.state I.state result.1;
          script = word_source O.Opened.state I.state result.2;
        })
        words (disks_between D.state disks.old disks.new)
        (record { before = K.state sink.old; after = K.state sink.new; status = result.0 }) }
{
    let (mut config, mut script) = open_both(opener, input, asked.config, asked.script);
    let status = run_asked(alloc, asked.command, &mut config, &mut script, sink, disks);
    (status, config, script)
}

/// What comes of a replay or a trial for whose disks there is no memory: nothing is opened; both sources are missing.
fn without_memory<S: Source + Drop, I: Source + Drop, D: CutDisk + Drop>(
    alloc: Global,
) -> (u8, WordSource<S, I>, WordSource<S, I>, Vec<D>)
    ensures status { result.0 ≡ 7 }
    ensures config { word_source S.state I.state result.1 ≡ missing_source 0 }
    ensures script { word_source S.state I.state result.2 ≡ missing_source 0 }
    ensures disks { result.3.items ≡ [] }
{
    let (status, config, script) = unopened(NO_MEMORY);
    (status, config, script, Vec::new(alloc))
}

/// Eight blank disks of 65,536 bytes for `replay` and `trial`, and none, without taking memory, for other commands.
fn disks_for(alloc: Global, command: Option<Command>) -> Result<Vec<MemDisk>, AllocError>
    ensures given { IfOk result (λ disks. (words : List (List ℕ)) → AsksCommand words command
        → AreGiven words disks.items) }
    ensures wanted { IfErr result (λ _. (words : List (List ℕ)) → AsksCommand words command → AsksWorld words) }
{
    match command {
        Some(Command::World(_)) => blank_disks(alloc, 8, 65_536),
        _ => Ok(Vec::new(alloc)),
    }
}
