//! The forms of words that only events have.

ghost use Rattle.std.specs.Prelude.{◌≡◌, ◌<◌, length};
ghost use Rattle.text_lines.specs.Forms.{number_form};
ghost use Rattle.bus_script.specs.EventForms.{uid_at, event_uid_form};

use bus_config::BusConfig;
use memory_update::Uid;
use text_lines::forms;

/// The identifier that a word of an event gives: 30 hexadecimal digits, or `-` for that of the node at this place.
#[tactic(auto, unfolding(crate::specs::EventForms::event_uid_form))]
pub fn event_uid(bus: &BusConfig, place: u8, word: &[u8]) -> Option<Uid>
    requires { place < length bus.now.nodes }
    ensures { result ≡ event_uid_form (uid_at bus.now.nodes place) word.now }
{
    if word == b"-".as_slice() {
        let node = &bus.nodes()[place as usize];
        let config = &node.config;
        return Some(config.uid);
    }
    secoc_words::uid(word)
}

/// A number from 1 to `most`.
#[tactic(auto, using(text_lines::proofs::Numbers::number_in_range))]
pub fn from_one(word: &[u8], most: u32) -> Option<u32>
    ensures { result ≡ number_form 1 most word.now }
{
    let value = forms::number(word, 1, most as u64)?;
    Some(value as u32)
}
