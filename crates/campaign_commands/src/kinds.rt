//! The kinds of commands, as the first word of a line names them.

ghost use Rattle.std.specs.Prelude.{◌≡◌};
ghost use Rattle.campaign_commands.specs.CommandKinds.{command_words, command_kind_of};

/// A kind of command.
#[derive(Clone, Copy, Debug, PartialEq, Eq)]
pub enum CommandKind {
    Issue,
    Confirm,
    Show,
    Cut,
    Stop,
    Fail,
}

impl CommandKind {
    /// How many words a line of this kind has, its name included.
    pub fn word_count(self) -> usize
        ensures { result ≡ command_words self }
    {
        match self {
            CommandKind::Issue | CommandKind::Confirm => 7,
            CommandKind::Show => 3,
            CommandKind::Cut | CommandKind::Stop | CommandKind::Fail => 2,
        }
    }

    /// The kind that a word names.
    #[tactic(auto, unfolding(crate::specs::CommandKinds::command_kind_of))]
    pub fn of(word: &[u8]) -> Option<CommandKind>
        ensures { result ≡ command_kind_of word.now }
    {
        if word == b"issue".as_slice() {
            return Some(CommandKind::Issue);
        }
        if word == b"confirm".as_slice() {
            return Some(CommandKind::Confirm);
        }
        if word == b"show".as_slice() {
            return Some(CommandKind::Show);
        }
        if word == b"cut".as_slice() {
            return Some(CommandKind::Cut);
        }
        if word == b"stop".as_slice() {
            return Some(CommandKind::Stop);
        }
        if word == b"fail".as_slice() {
            return Some(CommandKind::Fail);
        }
        None
    }
}
