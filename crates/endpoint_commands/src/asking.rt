//! What a line of a log asks of a node.
ghost use Rattle.std.specs.Prelude.{◌≡◌, length};
ghost use Rattle.endpoint_commands.specs.Asking.{request_form, asked_of_words as asked_by_words};
ghost use Rattle.endpoint_commands.specs.Asking.{IsWithin};

use crate::rules::{FrameRule, place_of_rule};
use can_logs::{FrameBytes, log_frame};
use memory_update::Request;
use secoc_words::{key, two};
use text_lines::words::Words;

/// What a line of a log asks for.
#[derive(Drop)]
pub enum Asked {
    /// Nothing: it is a comment, or has no word.
    Nothing,
    /// Nothing either: it is of another form, or no rule takes its frame.
    Other,
    /// A rule takes a frame.
    Frame {
        /// The place of the rule, counted from 0.
        place: usize,
        /// The data bytes of the frame.
        bytes: FrameBytes,
    },
    /// The node's engine gets the request of a key update.
    Load {
        /// M1, M2 and M3.
        request: Request,
    },
}

/// The request of a line `load M1 M2 M3`: 32, 64 and 32 hexadecimal digits.
#[tactic(auto, unfolding(crate::specs::Asking::request_form))]
fn request_of(words: &Words<'_>) -> Option<Request>
    ensures { result ≡ request_form words.now }
{
    if words.len() != 4 || words.word(1) != b"load".as_slice() {
        return None;
    }
    let m1 = key(words.word(2))?;
    let m2 = two(words.word(3))?;
    let m3 = key(words.word(4))?;
    Some(Request { m1, m2, m3 })
}

/// What the words of a line that isn't skipped ask for, by the rules of a map.
#[tactic(auto, unfolding(crate::specs::Asking::asked_of_words))]
pub fn asked_of_words(rules: &[FrameRule], words: &Words<'_>) -> Asked
    ensures asked { result ≡ asked_by_words rules.now words.now }
    ensures within { IsWithin (length rules.now) (length words.now) result }
{
    if let Some(request) = request_of(words) {
        return Asked::Load { request };
    }
    let Some(frame) = log_frame(words) else {
        return Asked::Other;
    };
    match place_of_rule(rules, frame.can.digits(), words.word(2)) {
        Some(place) => Asked::Frame {
            place,
            bytes: frame.bytes,
        },
        None => Asked::Other,
    }
}
