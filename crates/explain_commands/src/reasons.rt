//! Why a frame fails: the first reason that holds.
ghost use Rattle.std.specs.Prelude.{◌≡◌, ◌≤◌};
ghost use Rattle.explain_commands.specs.Reasons.{all_kinds, first_agreeing, tries_for, explained};

use crate::kinds::{Case, Explained, ReasonKind};
use crate::trials::Comparison;

/// The kinds in their order.
const KINDS: [ReasonKind; 20] = [
    ReasonKind::Replay,
    ReasonKind::UsedAgain,
    ReasonKind::Behind,
    ReasonKind::FarAhead,
    ReasonKind::OtherLength,
    ReasonKind::OtherLine,
    ReasonKind::OtherKey,
    ReasonKind::OtherId,
    ReasonKind::SwappedId,
    ReasonKind::SwappedFreshness,
    ReasonKind::NoId,
    ReasonKind::ShortFreshness,
    ReasonKind::LastBytes,
    ReasonKind::ReversedTag,
    ReasonKind::ReversedKey,
    ReasonKind::TrailerFirst,
    ReasonKind::OtherCover,
    ReasonKind::OtherLow,
    ReasonKind::FlippedBit,
    ReasonKind::CanAsId,
];

/// What the tries of a kind come to: the first that agrees, and how many authenticators were computed.
#[derive(Clone, Copy)]
struct Searched {
    found: Option<usize>,
    tries: usize,
}

/// The first try of a kind that agrees.
fn search(case: &Case<'_>, kind: ReasonKind) -> Searched
    ensures found { result.found ≡ first_agreeing case.now kind }
    ensures tries { result.tries ≡ tries_for case.now kind }
    ensures few { result.tries ≤ 65536 }
{
    let mut tries = 0;
    for at in 0..case.count(kind) {
        match case.trial(kind, at) {
            Comparison::Skipped => (),
            Comparison::Differs => tries += 1,
            Comparison::Agrees => {
                return Searched {
                    found: Some(at),
                    tries: tries + 1,
                };
            }
        }
    }
    Searched { found: None, tries }
}

/// Why a frame fails.
pub fn explain(case: &Case<'_>) -> Explained
    ensures { result ≡ explained case.now }
{
    let mut tries = 0;
    for kind in &KINDS {
        let searched = search(case, *kind);
        tries += searched.tries;
        if let Some(at) = searched.found {
            return Explained {
                reason: case.reason(*kind, at),
                tries,
            };
        }
    }
    Explained {
        reason: case.last_reason(),
        tries,
    }
}
