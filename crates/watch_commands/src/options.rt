//! What the words of the command line ask for.
ghost use Rattle.std.specs.Prelude.{◌≡◌, ◌≤◌, ◌-◌, ◌^◌, length, map as each, drop, string_bytes, option_map};
ghost use Rattle.watch_commands.specs.Limits.{or_strict, limits_in};
ghost use Rattle.watch_commands.specs.OptionWords.{option_of, valued_option_of, nothing_asked, with_option};
ghost use Rattle.watch_commands.specs.OptionWords.{is_expect, new_limit, new_silence, limits_with, with_kept, with_value, step_of};
ghost use Rattle.watch_commands.specs.OptionWords.{TakesWord, SetsValue, asked_words};
ghost use Rattle.watch_commands.specs.OptionWords.{watch_options, watch_inputs, kept_file};

use crate::limits::Limits;
use can_logs::period;
use std::marker::Model;
use text_lines::forms;

/// The silence that is too long if all is strict, in microseconds.
const STRICT_SILENCE: u64 = 5_000_000;

/// How findings are printed, and what passes.
#[derive(Clone, Copy, Debug)]
pub struct WatchOptions {
    /// Whether the answers to accepted frames are left out.
    pub quiet: bool,
    /// Whether each line is an object of JSON.
    pub json: bool,
    /// Whether the log's time and channel stand before each answer.
    pub time: bool,
    /// Whether what has no limit may not be at all.
    pub strict: bool,
    /// What the log may have at most.
    pub limits: Limits,
}

impl WatchOptions {
    /// The options that these words ask for, the program's name left out.
    pub fn of(words: &[String]) -> WatchOptions
        ensures { result ≡ watch_options (each string_bytes words.now) }
    {
        let (asked, _) = read_words(words);
        asked.options
    }

    /// The limits that hold.
    pub fn limits_in(self) -> Limits
        ensures { result ≡ limits_in self }
    {
        let limits = self.limits;
        Limits {
            missed: or_strict(
                self.strict && limits.missed_share.is_none(),
                0,
                limits.missed,
            ),
            missed_share: limits.missed_share,
            malformed: or_strict(self.strict, 0, limits.malformed),
            unmapped: or_strict(self.strict, 0, limits.unmapped),
            silent: or_strict(self.strict, STRICT_SILENCE, limits.silent),
        }
    }
}

/// A limit, or if it isn't given and all is strict, this one.
fn or_strict(strict: bool, most: u64, limit: Option<u64>) -> Option<u64>
    ensures { result ≡ or_strict strict most limit }
{
    match limit {
        Some(given) => Some(given),
        None => { if strict { Some(most) } else { None } }
    }
}

/// An option. The last five have a value, which is the next word.
#[derive(Clone, Copy, Debug)]
enum WatchOption {
    Quiet,
    Json,
    Time,
    Strict,
    Unmapped,
    Expect,
    Missed,
    MissedShare,
    Malformed,
    Silent,
}

/// The option that a word is.
fn option_of(word: &str) -> Option<WatchOption>
    ensures { result ≡ option_of word.now }
{
    if word == "--quiet" {
        return Some(WatchOption::Quiet);
    }
    if word == "--json" {
        return Some(WatchOption::Json);
    }
    if word == "--time" {
        return Some(WatchOption::Time);
    }
    if word == "--strict" {
        return Some(WatchOption::Strict);
    }
    if word == "--unmapped" {
        return Some(WatchOption::Unmapped);
    }
    valued_option(word)
}

/// The same of the options that have a value.
fn valued_option(word: &str) -> Option<WatchOption>
    ensures { result ≡ valued_option_of word.now }
{
    if word == "--expect" {
        return Some(WatchOption::Expect);
    }
    if word == "--missed" {
        return Some(WatchOption::Missed);
    }
    if word == "--missed-share" {
        return Some(WatchOption::MissedShare);
    }
    if word == "--malformed" {
        return Some(WatchOption::Malformed);
    }
    if word == "--silent" {
        return Some(WatchOption::Silent);
    }
    None
}

/// What words ask for: the file of `--expect`, too, and the option whose value comes next.
#[derive(Drop)]
struct Asked<'a> {
    options: WatchOptions,
    kept: Option<&'a str>,
    waiting: Option<WatchOption>,
}

impl<'a> Model for Asked<'a> {
    ghost use Rattle.std.specs.Prelude.{option_map};
    ghost use Rattle.watch_commands.specs.OptionWords.{Asked as AskedSo};

    ghost Value = { AskedSo };

    ghost view = { λ a. record { options = a.options; kept = option_map (λ w. w.now) a.kept; waiting = a.waiting } };
}

/// What a word is behind others.
#[derive(Clone, Copy, Debug)]
enum WordKind {
    /// One of the options, or the value of one.
    Option,
    /// The first that is none.
    Input,
    /// A value that the option before it can't have.
    NoValue,
}

impl<'a> Asked<'a> {
    /// Before all words.
    fn nothing() -> Asked<'a>
        ensures { result ≡ nothing_asked }
    {
        Asked {
            options: WatchOptions {
                quiet: false,
                json: false,
                time: false,
                strict: false,
                limits: Limits::none(),
            },
            kept: None,
            waiting: None,
        }
    }

    /// Takes one more word. It changes nothing if this isn't one of the options or the value of one.
    fn take(&mut self, word: &'a str) -> WordKind
        ensures { TakesWord (step_of self.old word.now) self.old self.new result }
    {
        if let Some(option) = self.waiting {
            if self.set_value(option, word) {
                return WordKind::Option;
            }
            return WordKind::NoValue;
        }
        match option_of(word) {
            Some(option) => {
                self.set_option(option);
                WordKind::Option
            }
            None => WordKind::Input,
        }
    }

    /// Asks for an option, or waits for its value.
    fn set_option(&mut self, option: WatchOption)
        ensures { self.new ≡ with_option self.old option }
    {
        match option {
            WatchOption::Quiet => self.options.quiet = true,
            WatchOption::Json => self.options.json = true,
            WatchOption::Time => self.options.time = true,
            WatchOption::Strict => self.options.strict = true,
            WatchOption::Unmapped => self.options.limits.unmapped = Some(0),
            WatchOption::Expect => self.waiting = Some(WatchOption::Expect),
            WatchOption::Missed => self.waiting = Some(WatchOption::Missed),
            WatchOption::MissedShare => self.waiting = Some(WatchOption::MissedShare),
            WatchOption::Malformed => self.waiting = Some(WatchOption::Malformed),
            WatchOption::Silent => self.waiting = Some(WatchOption::Silent),
        }
    }

    /// Gives an option this value, and tells whether it can have it. Else it changes nothing.
    fn set_value(&mut self, option: WatchOption, word: &'a str) -> bool
        ensures { SetsValue (with_value self.old word.now option) self.old self.new result }
    {
        if is_expect(option) {
            return self.set_kept(word);
        }
        match limits_with(self.options.limits, option, word.as_bytes()) {
            Some(limits) => {
                self.options.limits = limits;
                self.waiting = None;
                true
            }
            None => false,
        }
    }

    /// Asks for the file of `--expect`, if none was asked for, and tells whether it does.
    fn set_kept(&mut self, word: &'a str) -> bool
        ensures { SetsValue (with_kept self.old word.now) self.old self.new result }
    {
        if self.kept.is_some() {
            return false;
        }
        self.kept = Some(word);
        self.waiting = None;
        true
    }
}

/// Whether it is `--expect`.
fn is_expect(option: WatchOption) -> bool
    ensures { result ≡ is_expect option }
{
    matches!(option, WatchOption::Expect)
}

/// Limits with the value of one more option, if it is one, isn't among them yet, and the word is of its form.
fn limits_with(mut limits: Limits, option: WatchOption, word: &[u8]) -> Option<Limits>
    ensures { result ≡ limits_with limits word.now option }
{
    match option {
        WatchOption::Missed => limits.missed = Some(new_limit(limits.missed, u64::MAX, word)?),
        WatchOption::MissedShare => {
            limits.missed_share = Some(new_limit(limits.missed_share, 100, word)?);
        }
        WatchOption::Malformed => {
            limits.malformed = Some(new_limit(limits.malformed, u64::MAX, word)?);
        }
        WatchOption::Silent => limits.silent = Some(new_silence(limits.silent, word)?),
        WatchOption::Quiet
        | WatchOption::Json
        | WatchOption::Time
        | WatchOption::Strict
        | WatchOption::Unmapped
        | WatchOption::Expect => return None,
    }
    Some(limits)
}

/// A limit that isn't given yet: a number of so many at most.
fn new_limit(given: Option<u64>, most: u64, word: &[u8]) -> Option<u64>
    ensures { result ≡ new_limit given most word.now }
{
    if given.is_some() {
        return None;
    }
    forms::number(word, 0, most)
}

/// A silence that isn't given yet: a time of at least a microsecond.
fn new_silence(given: Option<u64>, word: &[u8]) -> Option<u64>
    ensures { result ≡ new_silence given word.now }
{
    if given.is_some() {
        return None;
    }
    match period(word) {
        Some(time) => Some(time.get()),
        None => None,
    }
}

/// What words ask for, the program's name left out, and how many of them stand before the inputs; all, if an option has
/// no value, or one that it can't have.
fn read_words(words: &[String]) -> (Asked<'_>, usize)
    ensures asked { asked_words (each string_bytes words.now)
        ≡ record { asked = result.0; inputs = drop result.1 (each string_bytes words.now) } }
    ensures within { result.1 ≤ length words.now }
{
    let size = words.len();
    let mut asked = Asked::nothing();
    for place in 0..size {
        match asked.take(words[place].as_str()) {
            WordKind::Option => (),
            WordKind::Input => return (asked, place),
            WordKind::NoValue => return (asked, size),
        }
    }
    (asked, size)
}

/// The words behind the options.
pub fn inputs_of(words: &[String]) -> &[String]
    ensures { each string_bytes result.now ≡ watch_inputs (each string_bytes words.now) }
{
    let (_, count) = read_words(words);
    &words[count..]
}

/// The file that `--expect` names, if two words name the map and the log.
pub fn kept_file(words: &[String]) -> Option<&str>
    ensures { option_map (λ w. w.now) result ≡ kept_file (each string_bytes words.now) }
{
    let (asked, count) = read_words(words);
    if words.len() - count != 2 {
        return None;
    }
    asked.kept
}
