//! The options of a command.
ghost use Rattle.std.specs.Prelude.{◌≡◌, ◌+◌, ◌<◌, ◌^◌, length};
ghost use Rattle.solver_words.specs.Options.{has_option, setting_named as setting_named_of};
ghost use Rattle.solver_words.specs.Options.{memo_named as memo_named_of, way_named as way_named_of, setting_of};
ghost use Rattle.solver_words.specs.Options.{is_given, setting_at, with_value as with_value_of};
ghost use Rattle.solver_words.specs.Options.{options_from, no_options};
ghost use Rattle.solver_words.specs.Texts.{texts};

use crate::number::number_within;
use crate::{MemoWord, Way, WordFault};

const MOST_CACHE: u64 = 4_000_000;

const MOST_NODES: u64 = 1_000_000_000_000;

/// An option, by its word.
#[derive(Clone, Copy, Debug, PartialEq, Eq)]
pub enum Setting {
    Cache,
    Nodes,
    Narrow,
    Way,
    Memo,
    Seed,
}

/// A command that has options.
#[derive(Clone, Copy, Debug, PartialEq, Eq)]
pub enum Taker {
    /// It solves a deal file.
    SolveFile,
    /// It solves the deal of a seed.
    SolveSeed,
    /// It prints the deal of a seed.
    Deal,
}

/// The values that were given.
#[derive(Clone, Copy, Debug, PartialEq, Eq)]
pub struct Options {
    pub cache: Option<u32>,
    pub nodes: Option<u64>,
    pub narrow: Option<u64>,
    pub way: Option<Way>,
    pub memo: Option<MemoWord>,
    pub seed: Option<u64>,
}

fn setting_named(word: &str) -> Option<Setting>
    ensures { result ≡ setting_named_of word.now }
{
    match word {
        "--cache" => Some(Setting::Cache),
        "--nodes" => Some(Setting::Nodes),
        "--narrow" => Some(Setting::Narrow),
        "--way" => Some(Setting::Way),
        "--memo" => Some(Setting::Memo),
        "--seed" => Some(Setting::Seed),
        _ => None,
    }
}

fn way_named(word: &str) -> Option<Way>
    ensures { result ≡ way_named_of word.now }
{
    match word {
        "foundations" => Some(Way::Foundations),
        "suits" => Some(Way::Suits),
        "both" => Some(Way::Both),
        _ => None,
    }
}

fn memo_named(word: &str) -> Option<MemoWord>
    ensures { result ≡ memo_named_of word.now }
{
    match word {
        "linked" => Some(MemoWord::Linked),
        "lru" => Some(MemoWord::Lru),
        _ => None,
    }
}

impl Taker {
    fn has_option(self, setting: Setting) -> bool
        ensures { result ≡ has_option self setting }
    {
        match self {
            Taker::SolveFile => setting != Setting::Seed,
            Taker::SolveSeed => true,
            Taker::Deal => setting == Setting::Seed,
        }
    }
}

// The option that the word names, if the command has it.
fn setting_of(taker: Taker, word: &str) -> Option<Setting>
    ensures { result ≡ setting_of taker word.now }
{
    match setting_named(word) {
        Some(setting) if taker.has_option(setting) => Some(setting),
        _ => None,
    }
}

impl Options {
    fn has(&self, setting: Setting) -> bool
        ensures { result ≡ is_given setting self.now }
    {
        match setting {
            Setting::Cache => self.cache.is_some(),
            Setting::Nodes => self.nodes.is_some(),
            Setting::Narrow => self.narrow.is_some(),
            Setting::Way => self.way.is_some(),
            Setting::Memo => self.memo.is_some(),
            Setting::Seed => self.seed.is_some(),
        }
    }
}

// The option of the word at the place, unless it is unknown or was given.
fn read_setting(taker: Taker, at: u32, word: &str, given: &Options) -> Result<Setting, WordFault>
    ensures { result ≡ setting_at taker at word.now given.now }
{
    let Some(setting) = setting_of(taker, word) else {
        return Err(WordFault::UnknownOption(at));
    };
    if given.has(setting) {
        return Err(WordFault::RepeatedOption(at));
    }
    Ok(setting)
}

// The options with this one too, whose value is the word at the place.
fn with_value(at: u32, setting: Setting, given: Options, word: &str) -> Result<Options, WordFault>
    ensures { result ≡ with_value_of at setting given word.now }
{
    let fault = WordFault::BadOptionValue(at);
    match setting {
        Setting::Cache => {
            let cache = number_within(1, MOST_CACHE, word).ok_or(fault)?;
            Ok(Options {
                cache: Some(cache as u32),
                ..given
            })
        }
        Setting::Nodes => {
            let nodes = number_within(1, MOST_NODES, word).ok_or(fault)?;
            Ok(Options {
                nodes: Some(nodes),
                ..given
            })
        }
        Setting::Narrow => {
            let narrow = number_within(0, MOST_NODES, word).ok_or(fault)?;
            Ok(Options {
                narrow: Some(narrow),
                ..given
            })
        }
        Setting::Way => {
            let way = way_named(word).ok_or(fault)?;
            Ok(Options {
                way: Some(way),
                ..given
            })
        }
        Setting::Memo => {
            let memo = memo_named(word).ok_or(fault)?;
            Ok(Options {
                memo: Some(memo),
                ..given
            })
        }
        Setting::Seed => {
            let seed = number_within(0, u64::MAX, word).ok_or(fault)?;
            Ok(Options {
                seed: Some(seed),
                ..given
            })
        }
    }
}

/// The options from the word at the place on, read from left to right.
pub fn read_options(taker: Taker, first: u32, words: &[String]) -> Result<Options, WordFault>
    requires { first + length words.now < 2 ^ 32 }
    ensures { result ≡ options_from taker first no_options (texts words.now) }
{
    let mut at = first;
    let mut given = Options {
        cache: None,
        nodes: None,
        narrow: None,
        way: None,
        memo: None,
        seed: None,
    };
    let mut rest = words;
    while let Some((option, more)) = rest.split_first() {
        let setting = read_setting(taker, at, option.as_str(), &given)?;
        let Some((value, after)) = more.split_first() else {
            return Err(WordFault::MissingValue(at));
        };
        given = with_value(at + 1, setting, given, value.as_str())?;
        rest = after;
        at += 2;
    }
    Ok(given)
}
