//! The kinds of events, as the first word of a line names them.

ghost use Rattle.std.specs.Prelude.{◌≡◌};
ghost use Rattle.bus_script.specs.EventKinds.{kinds, own_kinds, kind_name, kind_words, kind_of};

/// A kind of event.
#[derive(Clone, Copy, Debug, PartialEq, Eq)]
pub enum EventKind {
    Send,
    Deliver,
    Inject,
    Load,
    Key,
    Boot,
    Cut,
    Stop,
    Fail,
}

/// The kinds of all events.
pub const KINDS: [EventKind; 9] = [
    EventKind::Send,
    EventKind::Deliver,
    EventKind::Inject,
    EventKind::Load,
    EventKind::Key,
    EventKind::Boot,
    EventKind::Cut,
    EventKind::Stop,
    EventKind::Fail,
];

/// The kinds of events that are a node's own: all but those by which a PDU goes from a node of the bus to another.
pub const OWN_KINDS: [EventKind; 7] = [
    EventKind::Inject,
    EventKind::Load,
    EventKind::Key,
    EventKind::Boot,
    EventKind::Cut,
    EventKind::Stop,
    EventKind::Fail,
];

impl EventKind {
    /// The word that names the kind.
    pub fn name(self) -> &'static [u8]
        ensures { result.now ≡ kind_name self }
    {
        match self {
            EventKind::Send => b"send",
            EventKind::Deliver => b"deliver",
            EventKind::Inject => b"inject",
            EventKind::Load => b"load",
            EventKind::Key => b"key",
            EventKind::Boot => b"boot",
            EventKind::Cut => b"cut",
            EventKind::Stop => b"stop",
            EventKind::Fail => b"fail",
        }
    }

    /// How many words a line of this kind has, its name included.
    pub fn word_count(self) -> usize
        ensures { result ≡ kind_words self }
    {
        match self {
            EventKind::Send | EventKind::Inject => 4,
            EventKind::Load => 5,
            EventKind::Key => 9,
            EventKind::Deliver
            | EventKind::Boot
            | EventKind::Cut
            | EventKind::Stop
            | EventKind::Fail => 3,
        }
    }

    /// The kind among these that a word names.
    #[tactic(auto, unfolding(crate::specs::EventKinds::kind_of))]
    pub fn among(kinds: &[EventKind], word: &[u8]) -> Option<EventKind>
        ensures { result ≡ kind_of kinds.now word.now }
    {
        kinds.iter().copied().find(|kind| word == kind.name())
    }
}
