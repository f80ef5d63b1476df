//! The arguments of `campaign`, with `--keep` or without.
ghost use Rattle.std.specs.Prelude.{◌≡◌, ◌↔◌, ◌++◌, ℕ, List, map, string_bytes, option_map, codes, IsTrue, IfSome, IfNone};
ghost use Rattle.program_edge.specs.NamedSources.{word_source, openings};
ghost use Rattle.campaign_commands.specs.Rows.{AreTwo};
ghost use Rattle.campaign_commands.specs.Files.{CampaignOfWords};
ghost use Rattle.kept_campaigns.specs.KeptCampaigns.{KeepsCampaign, CampaignKept};

use crate::looking::{look_at_ledger, unkept_refusal};
use bus_port::{Sink, Source};
use campaign_commands::{campaign_words, run_campaign};
use file_disk::{DiskOpener, open_disks};
use program_edge::{
    MissingSource, NO_MEMORY, Opener, WordSource, open_word, tell_refusal, two_words,
};
use std::alloc::Global;

/// Runs a campaign over what the arguments name, the program's name left out. With `--keep F DISK` it is `F DISK`, after
/// a look at the whole disk: it goes on over a ledger and over an unused disk, whose bytes are all zeros, and refuses any
/// other before it reads F. Each other command line is run as [`campaign_words`] does. It gives the status that the
/// program ends with, and the script's source and the disk as the campaign left them.
pub fn keep_campaign_words<O: Opener, P: DiskOpener, I: Source + Drop, K: Sink>(
    alloc: Global,
    opener: &mut O,
    disk_opener: &mut P,
    input: &mut Option<I>,
    words: &[String],
    sink: &mut K,
) -> (u8, WordSource<O::Opened, I>, Vec<P::Opened>)
    // All that a campaign promises, if the arguments aren't `--keep F DISK`.
    ensures plain { ((two : List (List ℕ)) → ¬ KeepsCampaign (map string_bytes words.now) two)
        → CampaignOfWords (O.opens opener.old) (P.opens disk_opener.old)
        (record {
          before = openings (O.opened opener.old) (option_map I.state input.old);
          after = openings (O.opened opener.new) (option_map I.state input.new);
          disks_before = P.opened disk_opener.old;
          disks_after = P.opened disk_opener.new;
        })
        (map string_bytes words.now)
        (word_source O.Opened.state I.state result.1) (map P.Opened.state result.2.items)
        (record { before = K.state sink.old; after = K.state sink.new; status = result.0 }) }
    // All that `--keep` promises.
    ensures keeps { (two : List (List ℕ)) → KeepsCampaign (map string_bytes words.now) two
        → CampaignKept P.Opened.state (O.opens opener.old) (P.opens disk_opener.old)
        (record {
          before = openings (O.opened opener.old) (option_map I.state input.old);
          after = openings (O.opened opener.new) (option_map I.state input.new);
          disks_before = P.opened disk_opener.old;
          disks_after = P.opened disk_opener.new;
        })
        two (word_source O.Opened.state I.state result.1) result.2
        (record { before = K.state sink.old; after = K.state sink.new; status = result.0 }) }
    // The file of each disk that was opened was made, if it wasn't there. No other file was made.
    ensures makes { (words : List (List ℕ)) × (P.opened disk_opener.new ≡ P.opened disk_opener.old ++ words)
        × (P.made disk_opener.new ≡ P.made disk_opener.old ++ words) }
{
    match kept_words(words) {
        Some(two) => keep_campaign(alloc, opener, disk_opener, input, two, sink),
        None => campaign_words(alloc, opener, disk_opener, input, words, sink),
    }
}

/// The two arguments after `--keep`; none of other arguments.
fn kept_words(words: &[String]) -> Option<&[String]>
    ensures some { IfSome result (λ two. KeepsCampaign (map string_bytes words.now) (map string_bytes two.now)) }
    ensures none { IfNone result ((two : List (List ℕ)) → ¬ KeepsCampaign (map string_bytes words.now) two) }
{
    if words.len() != 3 {
        return None;
    }
    if !is_keep(words[0].as_str()) {
        return None;
    }
    Some(&words[1..])
}

/// Whether this argument asks for a look at the whole disk.
fn is_keep(option: &str) -> bool
    ensures { IsTrue result ↔ (option.now ≡ codes "--keep") }
{
    option == "--keep"
}

/// Runs the script over the ledger of the disk that the two arguments name, if it is kept.
fn keep_campaign<O: Opener, P: DiskOpener, I: Source + Drop, K: Sink>(
    alloc: Global,
    opener: &mut O,
    disk_opener: &mut P,
    input: &mut Option<I>,
    words: &[String],
    sink: &mut K,
) -> (u8, WordSource<O::Opened, I>, Vec<P::Opened>)
    requires { AreTwo (map string_bytes words.now) }
    ensures keeps { CampaignKept P.Opened.state (O.opens opener.old) (P.opens disk_opener.old)
        (record {
          before = openings (O.opened opener.old) (option_map I.state input.old);
          after = openings (O.opened opener.new) (option_map I.state input.new);
          disks_before = P.opened disk_opener.old;
          disks_after = P.opened disk_opener.new;
        })
        (map string_bytes words.now) (word_source O.Opened.state I.state result.1) result.2
        (record { before = K.state sink.old; after = K.state sink.new; status = result.0 }) }
    ensures makes { (words : List (List ℕ)) × (P.opened disk_opener.new ≡ P.opened disk_opener.old ++ words)
        × (P.made disk_opener.new ≡ P.made disk_opener.old ++ words) }
{
    let (script_word, disk_word) = two_words(words);
    let Ok(mut disks) = open_disks(alloc, disk_opener, disk_word) else {
        let missing = MissingSource::new();
        return (NO_MEMORY, WordSource::Missing(missing), Vec::new(alloc));
    };
    if let Err(fault) = look_at_ledger(alloc, &mut disks) {
        let missing = MissingSource::new();
        let status = tell_refusal(sink, &unkept_refusal(fault));
        return (status, WordSource::Missing(missing), disks);
    }
    let mut script = open_word(opener, input, script_word);
    let status = run_campaign(alloc, words, &mut script, sink, &mut disks);
    (status, script, disks)
}
