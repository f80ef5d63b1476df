//! `node --keep B F DISK`: the run of `node` after a look at its whole disk.
ghost use Rattle.std.specs.Prelude.{◌≡◌, ◌⊎◌, ◌≤◌, ◌++◌, ◌∷◌, [], ℕ, List, length, map, string_bytes, option_map};
ghost use Rattle.std.specs.Prelude.{codes, OnOk, IfErr};
ghost use Rattle.bus_config.specs.Buses.{IsNamedBus};
ghost use Rattle.bus_programs.specs.Scripts.{AreEvents};
ghost use Rattle.bus_world.specs.Starts.{HasRoom};
ghost use Rattle.kept_starts.specs.LookedAt.{LookedAt, NotKept};
ghost use Rattle.program_edge.specs.NamedSources.{word_source, openings};
ghost use Rattle.bus_commands.specs.declared.words.Command.TheVariants.{World};
ghost use Rattle.bus_commands.specs.declared.words.WorldCommand.TheVariants.{Replay};
ghost use Rattle.bus_world.specs.declared.start.Start.TheVariants.{Attach};
ghost use Rattle.bus_commands.specs.Words.{Asks, AsksNothing, NamesDisk};
ghost use Rattle.bus_commands.specs.Steps.{IsWholeWorld};
ghost use Rattle.bus_commands.specs.Named.{NamesSources, RunsNamed};
ghost use Rattle.bus_commands.specs.Keeping.{KeepsAs, AsksToKeep, AnswersKeepReplay, DoesKept, RunsKept};

use crate::job::WorldJob;
use crate::replay::replay;
use crate::run::world_job;
use crate::start::bus_words;
use crate::words::{CommandLine, KeptWords, WorldCommand, kept_words, with_disk};
use bus_config::BusConfig;
use bus_machine::Event;
use bus_port::{Sink, Source};
use bus_world::{
    Start, starts_are_set_up, starts_go_on_at_a_first_world, turns_are_world_runs,
    turns_leave_disks,
};
use cut_disk::{CutDisk, Disk};
use file_disk::{DiskOpener, open_disk};
use kept_starts::{KeepFault, keep_refusal, look_first};
use program_edge::{NO_MEMORY, Opener, WordSource, open_both, tell_refusal};
use std::alloc::{AllocError, Global};

/// Runs the command that the arguments ask for over what they name, the program's name left out. With
/// `node --keep B F DISK` it is `node B F DISK`, after a look at the whole disk: it goes on over the store of the bus's
/// node, formats an unused disk, whose bytes are all zeros, and refuses any other. Each other command is run as
/// [`bus_words`] does. The status that the program ends with comes back, with the sources and the disk as the command
/// left them.
pub fn replay_words<O: Opener, P: DiskOpener, I: Source + Drop, K: Sink>(
    alloc: Global,
    opener: &mut O,
    disk_opener: &mut P,
    input: &mut Option<I>,
    words: &[String],
    sink: &mut K,
) -> (
    u8,
    WordSource<O::Opened, I>,
    WordSource<O::Opened, I>,
    Vec<P::Opened>,
)
    // All that a command promises, if the arguments don't ask for `node --keep`.
    ensures words { ¬ AsksToKeep (map string_bytes words.now)
        → RunsNamed P.Opened.state (O.opens opener.old) (P.opens disk_opener.old)
        (record {
          before = openings (O.opened opener.old) (option_map I.state input.old);
          after = openings (O.opened opener.new) (option_map I.state input.new);
          disks_before = P.opened disk_opener.old;
          disks_after = P.opened disk_opener.new;
        })
        (record {
          config = word_source O.Opened.state I.state result.1;
          script = word_source O.Opened.state I.state result.2;
        })
        result.3 (map string_bytes words.now)
        (record { before = K.state sink.old; after = K.state sink.new; status = result.0 }) }

    // All that `node --keep` promises, with its own table of answers (specs/Keeping.antt).
    ensures keeps { (plain : List (List ℕ)) → KeepsAs (map string_bytes words.now) plain
        → RunsKept P.Opened.state (O.opens opener.old) (P.opens disk_opener.old)
        (record {
          before = openings (O.opened opener.old) (option_map I.state input.old);
          after = openings (O.opened opener.new) (option_map I.state input.new);
          disks_before = P.opened disk_opener.old;
          disks_after = P.opened disk_opener.new;
        })
        (record {
          config = word_source O.Opened.state I.state result.1;
          script = word_source O.Opened.state I.state result.2;
        })
        result.3 plain
        (record { before = K.state sink.old; after = K.state sink.new; status = result.0 }) }
    ensures usage { result.0 ≡ 2 → AsksNothing (map string_bytes words.now) × ¬ AsksToKeep (map string_bytes words.now) }
    ensures usage_only { AsksNothing (map string_bytes words.now) → ¬ AsksToKeep (map string_bytes words.now)
        → (result.0 ≡ 2) ⊎ (result.0 ≡ 6) }

    // No disk is opened, and so no file is made, if the arguments, the bus file or the script is refused.
    ensures no_disk { (result.0 ≡ 2) ⊎ ((3 ≤ result.0) × (result.0 ≤ 5)) ⊎ (result.0 ≡ 8)
        → P.opened disk_opener.new ≡ P.opened disk_opener.old }

    // The file of each disk that was opened was made, if it wasn't there. No other file was made.
    ensures makes { (words : List (List ℕ)) × (P.opened disk_opener.new ≡ P.opened disk_opener.old ++ words)
        × (P.made disk_opener.new ≡ P.made disk_opener.old ++ words) }

    // 9 and 10 come for `node` alone, with `--keep` or without.
    ensures starts { (result.0 ≡ 9) ⊎ (result.0 ≡ 10)
        → Asks (map string_bytes words.now) (World (Replay Attach)) ⊎ AsksToKeep (map string_bytes words.now) }
{
    match kept_words(words) {
        Some(kept) => keep_words(alloc, opener, disk_opener, input, &kept, sink),
        None => bus_words(alloc, opener, disk_opener, input, words, sink),
    }
}

/// Runs `node --keep` over what its arguments name.
fn keep_words<O: Opener, P: DiskOpener, I: Source + Drop, K: Sink>(
    alloc: Global,
    opener: &mut O,
    disk_opener: &mut P,
    input: &mut Option<I>,
    kept: &KeptWords<'_>,
    sink: &mut K,
) -> (
    u8,
    WordSource<O::Opened, I>,
    WordSource<O::Opened, I>,
    Vec<P::Opened>,
)
    ensures runs { RunsKept P.Opened.state (O.opens opener.old) (P.opens disk_opener.old)
        (record {
          before = openings (O.opened opener.old) (option_map I.state input.old);
          after = openings (O.opened opener.new) (option_map I.state input.new);
          disks_before = P.opened disk_opener.old;
          disks_after = P.opened disk_opener.new;
        })
        (record {
          config = word_source O.Opened.state I.state result.1;
          script = word_source O.Opened.state I.state result.2;
        })
        result.3 (codes "node" ∷ kept.now.bus.now ∷ kept.now.file.now ∷ kept.now.disk.now ∷ [])
        (record { before = K.state sink.old; after = K.state sink.new; status = result.0 }) }
    ensures makes { (words : List (List ℕ)) × (P.opened disk_opener.new ≡ P.opened disk_opener.old ++ words)
        × (P.made disk_opener.new ≡ P.made disk_opener.old ++ words) }
{
    let asked = with_disk(Start::Attach, kept.bus, kept.file, kept.disk);
    keep_node(alloc, opener, disk_opener, input, &asked, kept.disk, sink)
}

/// Runs it over the sources that are named, which are handed back, and the disk that the path opens. Both inputs are
/// read whole before the disk is opened, so that refused ones make no file.
fn keep_node<O: Opener, P: DiskOpener, I: Source + Drop, K: Sink>(
    alloc: Global,
    opener: &mut O,
    disk_opener: &mut P,
    input: &mut Option<I>,
    asked: &CommandLine<'_>,
    path: &str,
    sink: &mut K,
) -> (
    u8,
    WordSource<O::Opened, I>,
    WordSource<O::Opened, I>,
    Vec<P::Opened>,
)
    requires { (plain : List (List ℕ)) × NamesDisk plain path.now }
    ensures runs { (plain : List (List ℕ)) → NamesSources plain (option_map (λ w. w.now) asked.now.config)
        (option_map (λ w. w.now) asked.now.script) → NamesDisk plain path.now
        → RunsKept P.Opened.state (O.opens opener.old) (P.opens disk_opener.old)
        (record {
          before = openings (O.opened opener.old) (option_map I.state input.old);
          after = openings (O.opened opener.new) (option_map I.state input.new);
          disks_before = P.opened disk_opener.old;
          disks_after = P.opened disk_opener.new;
        })
        (record {
          config = word_source O.Opened.state I.state result.1;
          script = word_source O.Opened.state I.state result.2;
        })
        result.3 plain
        (record { before = K.state sink.old; after = K.state sink.new; status = result.0 }) }
    ensures makes { (words : List (List ℕ)) × (P.opened disk_opener.new ≡ P.opened disk_opener.old ++ words)
        × (P.made disk_opener.new ≡ P.made disk_opener.old ++ words) }
{
    let (mut bus, mut events) = open_both(opener, input, asked.config, asked.script);
    let node = WorldCommand::Replay(Start::Attach);
    match world_job(alloc, node, &mut bus, &mut events) {
        Ok(job) => {
            let (status, disks) = keep_on_disk(alloc, disk_opener, path, &job, sink);
            (status, bus, events, disks)
        }
        Err(refusal) => (tell_refusal(sink, &refusal), bus, events, Vec::new(alloc)),
    }
}

/// The second phase, over the disk that the path opens. If there is no memory for the disk, none is opened.
fn keep_on_disk<P: DiskOpener, K: Sink>(
    alloc: Global,
    disk_opener: &mut P,
    path: &str,
    job: &WorldJob,
    sink: &mut K,
) -> (u8, Vec<P::Opened>)
    requires { IsWholeWorld job.now }
    ensures does { DoesKept P.Opened.state (P.opens disk_opener.old) (P.opened disk_opener.old)
        (P.opened disk_opener.new) path.now job.now result.1
        (record { before = K.state sink.old; after = K.state sink.new; status = result.0 }) }
    ensures makes { (words : List (List ℕ)) × (P.opened disk_opener.new ≡ P.opened disk_opener.old ++ words)
        × (P.made disk_opener.new ≡ P.made disk_opener.old ++ words) }
{
    match open_disk(alloc, disk_opener, path) {
        Ok(mut disks) => {
            let status = keep_and_replay(alloc, &job.bus, job.events.as_slice(), sink, &mut disks);
            (status, disks)
        }
        Err(AllocError) => (NO_MEMORY, Vec::new(alloc)),
    }
}

/// Looks at the one disk, and replays the events where it stands, if its bytes are such as the start keeps.
fn keep_and_replay<K: Sink, D: CutDisk>(
    alloc: Global,
    bus: &BusConfig,
    events: &[Event],
    sink: &mut K,
    disks: &mut Vec<D>,
) -> u8
    requires is_bus { IsNamedBus bus.now }
    requires are_events { AreEvents bus.now events.now }
    requires one { length disks.old.items ≡ 1 }
    ensures { AnswersKeepReplay (disks.new ≡ disks.old) bus.now events.now
        (record { before = map D.state disks.old.items; after = map D.state disks.new.items })
        (record { before = K.state sink.old; after = K.state sink.new; status = result }) }
{
    starts_are_set_up();
    starts_go_on_at_a_first_world();
    turns_leave_disks();
    turns_are_world_runs();
    if let Err(fault) = look_at_one(alloc, bus, disks) {
        return tell_refusal(sink, &keep_refusal(fault));
    }
    replay(alloc, bus, events, Start::Attach, sink, disks)
}

/// Looks at the one disk, if the bus has one node. For a bus of more nodes it is too few, and the start says so.
fn look_at_one<D: Disk>(alloc: Global, bus: &BusConfig, disks: &mut Vec<D>) -> Result<(), KeepFault>
    requires is_bus { IsNamedBus bus.now }
    requires one { length disks.old.items ≡ 1 }
    ensures looked { OnOk result (LookedAt bus.now (map D.state disks.old.items) (map D.state disks.new.items)) }
    ensures unlooked { OnOk result (¬ HasRoom bus.now (map D.state disks.old.items) → disks.new ≡ disks.old) }
    ensures refused { IfErr result (NotKept bus.now (map D.state disks.old.items) (map D.state disks.new.items)) }
{
    if bus.nodes().len() != 1 {
        return Ok(());
    }
    look_first(alloc, bus, disks)
}
