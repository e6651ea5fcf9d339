//! What the words of the command line ask for.

use rv_event::MemoryModel;
use rv_watch::CutRule;
use std::alloc::Global;
use std::env;
use thiserror::Error;

/// The text of `--harts --help`.
pub(crate) const HELP: &str = "\
Judges a run of any length by RVWMO, RISC-V's weak memory model: neither rows, bytes
nor the events of a hart are limited. What every hart has passed is forgotten, so
memory does not grow where the harts synchronise again and again. The answers are
those for all events from the first on.

Usage: rvmon --harts LIST [WORD..] [FILE..]

  FILE              traces, at most 8, of which a row each is taken in turn; standard
                    input is read where no file is named. Harts whose rows came from a
                    file have ended where it ends
  --harts LIST      the harts that act, as 0,1,2 or 0-7. An event is kept for as long as
                    one of them may still come before it
  --cut K           forget what can be after each K events; where it is not said, as
                    often as is quick
  --model rvwmo|tso the memory model; rvwmo where it is not said
  --sc-within N     an SC stands at most N events of its hart behind its LR, as long as that
                    is kept; 1024 where it is not said
  --recheck         where an event comes before what was forgotten, read the files once
                    more, and show the circle in place of the line past

A trace is as `rvmon --help` has it, without rows I. A row may also tell that a hart
has ended, and acts no more. Hart 3 has ended:

  3,,END,,,,,

Printed is one of these. Where an event comes before what was forgotten, a line past
tells why, and the word and the version of what was forgotten.

  allowed: E events, O operations, W waiting loads
  forbidden: ID after N events, and a circle, or a line stale or past
    past: ID REASON word W version V
  malformed: ID after N events: fault F TEXT

Status: 0 allowed, 1 forbidden, 2 malformed, a source that is not in the format, or
wrong words, 3 reading, writing or memory failed, or an event can't be judged: its hart
was not declared or has ended, or 4096 events of its hart are kept, since some hart has
not passed them, or it is an SC whose LR was forgotten. It is told then what the events
before it come to.";

/// How many events an SC stands behind its LR at most, where that is not said.
const SC_WITHIN: u32 = 1_024;

/// The highest hart.
const LAST_HART: u8 = 15;

/// How many sources there are at most.
const MOST_SOURCES: usize = 8;

/// What is asked.
#[derive(Drop)]
pub(crate) struct Words {
    /// The harts that act.
    pub(crate) harts: Vec<u8>,
    /// When what can be is forgotten.
    pub(crate) rule: CutRule,
    /// The memory model that events are judged by.
    pub(crate) model: MemoryModel,
    /// The files of the traces; none for standard input.
    pub(crate) files: Vec<String>,
    /// How many events an SC stands behind its LR at most.
    pub(crate) patience: u32,
    /// Whether the files are read again for a circle.
    pub(crate) recheck: bool,
    /// Whether help is asked for.
    pub(crate) help: bool,
}

/// Why the words are refused.
#[derive(Debug, Drop, Error)]
pub(crate) enum WordsFault {
    /// They are no texts.
    #[error("the words can't be read")]
    Unread,
    /// `--harts` has no list of harts behind it.
    #[error("--harts takes harts up to 15, as 0,1,2 or 0-7")]
    Harts,
    /// `--cut` has no number of events behind it.
    #[error("--cut takes a number of events, 1 or more")]
    Cut,
    /// `--model` has no model behind it.
    #[error("--model takes rvwmo or tso")]
    Model,
    /// `--sc-within` has no number of events behind it.
    #[error("--sc-within takes a number of events, 1 or more")]
    ScWithin,
    /// There is nothing to read twice.
    #[error("--recheck takes files, as it reads them twice")]
    Recheck,
    /// There are more than eight files.
    #[error("at most 8 sources")]
    TooMany,
    /// This word begins with `-` and is none of those that there are.
    #[error("--harts does not go with {0}")]
    Unknown(String),
    /// Memory ran out.
    #[error("no memory")]
    NoMemory,
}

/// A word that has another one behind it.
#[derive(Clone, Copy)]
enum Setting {
    /// `--harts`.
    Harts,
    /// `--cut`.
    Cut,
    /// `--model`.
    Model,
    /// `--sc-within`.
    ScWithin,
}

impl Setting {
    /// The one of this name.
    fn named(word: &str) -> Option<Setting> {
        match word {
            "--harts" => Some(Setting::Harts),
            "--cut" => Some(Setting::Cut),
            "--model" => Some(Setting::Model),
            "--sc-within" => Some(Setting::ScWithin),
            _ => None,
        }
    }

    /// The fault where nothing, or something else is behind it.
    fn fault(self) -> WordsFault {
        match self {
            Setting::Harts => WordsFault::Harts,
            Setting::Cut => WordsFault::Cut,
            Setting::Model => WordsFault::Model,
            Setting::ScWithin => WordsFault::ScWithin,
        }
    }
}

/// The hart of this number.
fn hart_of(text: &str) -> Option<u8> {
    match u32::from_str_radix(text, 10) {
        Ok(hart) if hart <= LAST_HART as u32 => Some(hart as u8),
        _ => None,
    }
}

/// The first and the last hart that a part of a list names: `3`, or `0-7`.
fn range_of(text: &str) -> Option<(u8, u8)> {
    match text.split_once('-') {
        Some((first, last)) => Some((hart_of(first)?, hart_of(last)?)),
        None => {
            let hart = hart_of(text)?;
            Some((hart, hart))
        }
    }
}

/// The harts that a list names.
fn harts_of(alloc: Global, text: &str) -> Result<Vec<u8>, WordsFault> {
    let mut harts = Vec::new(alloc);
    for part in text.split(',') {
        let Some((first, last)) = range_of(part) else {
            return Err(WordsFault::Harts);
        };
        if first > last {
            return Err(WordsFault::Harts);
        }
        'harts: for hart in 0..=LAST_HART {
            if first <= hart && hart <= last && !harts.contains(&hart) {
                if harts.push(hart).is_err() {
                    return Err(WordsFault::NoMemory);
                }
            }
        }
    }
    Ok(harts)
}

/// A number of events, 1 or more.
fn count_of(text: &str) -> Option<u32> {
    match u32::from_str_radix(text, 10) {
        Ok(0) | Err(_) => None,
        Ok(count) => Some(count),
    }
}

impl Words {
    /// Those of a command line without words.
    fn new(alloc: Global) -> Words {
        Words {
            harts: Vec::new(alloc),
            rule: CutRule::Grown,
            model: MemoryModel::Rvwmo,
            files: Vec::new(alloc),
            patience: SC_WITHIN,
            recheck: false,
            help: false,
        }
    }

    /// Takes the word behind a setting.
    fn set(&mut self, alloc: Global, setting: Setting, value: &str) -> Result<(), WordsFault> {
        match (setting, value) {
            (Setting::Harts, text) => self.harts = harts_of(alloc, text)?,
            (Setting::Cut, text) => match count_of(text) {
                Some(count) => self.rule = CutRule::Every(count),
                None => return Err(WordsFault::Cut),
            },
            (Setting::ScWithin, text) => match count_of(text) {
                Some(count) => self.patience = count,
                None => return Err(WordsFault::ScWithin),
            },
            (Setting::Model, "rvwmo") => self.model = MemoryModel::Rvwmo,
            (Setting::Model, "tso") => self.model = MemoryModel::Ztso,
            (Setting::Model, _) => return Err(WordsFault::Model),
        }
        Ok(())
    }

    /// Takes a word that has none behind it, but may have a value in it, as `--cut=8`.
    fn take(&mut self, alloc: Global, word: String) -> Result<(), WordsFault> {
        if let Some((name, value)) = word.as_str().split_once('=') {
            if let Some(setting) = Setting::named(name) {
                return self.set(alloc, setting, value);
            }
        }
        match word.as_str() {
            "--help" | "-h" => self.help = true,
            "--recheck" => self.recheck = true,
            _ if word.as_str().starts_with("-") => return Err(WordsFault::Unknown(word)),
            _ => {
                if self.files.push(word).is_err() {
                    return Err(WordsFault::NoMemory);
                }
            }
        }
        Ok(())
    }

    /// The words, if they can be followed.
    fn checked(self) -> Result<Words, WordsFault> {
        if self.files.len() > MOST_SOURCES {
            return Err(WordsFault::TooMany);
        }
        if self.harts.is_empty() && !self.help {
            return Err(WordsFault::Harts);
        }
        if self.recheck && self.files.is_empty() && !self.help {
            return Err(WordsFault::Recheck);
        }
        Ok(self)
    }
}

/// Reads the command line.
pub(crate) fn request_of(rt: &HostRuntime) -> Result<Words, WordsFault> {
    let Ok(all) = env::args(rt) else {
        return Err(WordsFault::Unread);
    };
    let mut words = Words::new(rt.alloc());
    let mut waiting: Option<Setting> = None;
    for word in all.skip(1) {
        match (waiting, Setting::named(word.as_str())) {
            (Some(Setting::Harts), _) if word.as_str() == "--help" => {
                waiting = None;
                words.help = true;
            }
            (Some(setting), _) => {
                waiting = None;
                words.set(rt.alloc(), setting, word.as_str())?;
            }
            (None, Some(setting)) => waiting = Some(setting),
            (None, None) => words.take(rt.alloc(), word)?,
        }
    }
    match waiting {
        Some(setting) => Err(setting.fault()),
        None => words.checked(),
    }
}
