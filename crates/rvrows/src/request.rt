//! What the words of the command line ask for.

use crate::judging::{Form, Telling};
use rv_event::MemoryModel;
use rv_insn::Width;
use std::alloc::Global;
use std::env;
use thiserror::Error;

/// The text of `--help`.
pub(crate) const HELP: &str = "\
Writes the rows of a trace from a commit log: what a design or a simulator logs of
its harts, an instruction or a store that took effect in each record. rvmon
--carriers judges the rows; rvmon --log judges them as they come.

Usage: rvrows [WORD..] [LOG..]
       rvmon --log [WORD..] [LOG..]

  LOG               the log, or its parts in order, each with the header; standard
                    input is read where no file is named
  --xlen 32|64      the width of the integer registers; 64 where it is not said
  --zero            memory is 0 at first
  --complete        the log must end with E
  --pending         stores that wait at the end take effect then
  --range LO-HI     leaves out accesses below LO, and from HI on; both are hexadecimal
                    and multiples of 8
  --where FILE      rvrows: writes where each row comes from, as source,row,text
  --end             rvrows: --complete, and the record end,N is written behind the N rows,
                    for rvmon --complete
  --model rvwmo|tso rvmon: the memory model; rvwmo where it is not said
  --explain         rvmon: says behind the report why a row was refused, or what an
                    allowed log has exercised
  --svg             rvmon: prints a picture of the refusal in place of the report
  --coverage        rvmon: counts behind an allowed report what of the model the log has
                    exercised
  --strength        rvmon: tells behind an allowed report how many loads could not have
                    returned an older version

A log is CSV: this header, and then a record for each instruction and store.

  kind,hart,order,pc,insn,addr,rdata,wdata,time

  kind   C: an instruction retired. P: the store of an instruction took effect.
         E: the log ends; order is how many records there are before it
  hart   the hart, 0 to 15
  order  how many instructions of the hart retired before it
  pc     its program counter, and insn the word as fetched (C alone)
  addr   the address of the access, where there is one
  rdata  what memory returned; of a store-conditional its success code
  wdata  what memory holds after it
  time   P: when the store took effect. C: when a load took its value
Numbers of hart, order and time are decimal, the others hexadecimal.

For example, hart 0 stores 1 to 0x1000 at time 7:

  kind,hart,order,pc,insn,addr,rdata,wdata,time
  C,0,0,80000000,0062b023,1000,,1,
  P,0,0,,,1000,,1,7

Status of rvrows: 0 all rows are written, 2 wrong words or a fault of the log, which
is told on standard error, 3 reading, writing or memory failed. Of rvmon: 0 allowed,
1 forbidden, 2 malformed, wrong words or a fault of the log, 3 as rvrows.";

/// The addresses of accesses that are taken.
#[derive(Clone, Copy)]
pub(crate) struct Range {
    low: u64,
    high: u64,
}

/// What is asked of the rows.
#[derive(Clone, Copy)]
pub(crate) struct Request {
    /// The width of the integer registers.
    pub(crate) width: Width,
    /// Whether memory is 0 at first.
    pub(crate) zero: bool,
    /// Whether the log must end with `E`.
    pub(crate) complete: bool,
    /// Whether stores that wait at the end take effect then.
    pub(crate) pending: bool,
    /// The accesses that are taken; `None` for all.
    pub(crate) range: Option<Range>,
}

impl Request {
    /// Whether accesses to this address are taken.
    pub(crate) fn has(&self, address: u64) -> bool {
        match self.range {
            Some(Range { low, high }) => low <= address && address < high,
            None => true,
        }
    }
}

/// What is asked.
#[derive(Drop)]
pub(crate) struct Words {
    /// What is asked of the rows.
    pub(crate) request: Request,
    /// Whether the rows are judged, in place of being written.
    pub(crate) judges: bool,
    /// The memory model that they are judged by.
    pub(crate) model: MemoryModel,
    /// How the judgement is told.
    pub(crate) telling: Telling,
    /// The files of the log; none for standard input.
    pub(crate) files: Vec<String>,
    /// The file that tells where rows come from, if there is one.
    pub(crate) places: Option<String>,
    /// Whether an end record is written behind the rows of a whole log.
    pub(crate) ends: bool,
    /// Whether help is asked for.
    pub(crate) help: bool,
}

/// Why the words are refused.
#[derive(Debug, Drop, Error)]
pub(crate) enum WordsFault {
    /// They are no texts, or memory ran out.
    #[error("the words can't be read")]
    Unread,
    /// `--xlen` has no width behind it.
    #[error("--xlen takes 32 or 64")]
    Width,
    /// `--model` has no model behind it.
    #[error("--model takes rvwmo or tso")]
    Model,
    /// `--range` has no range behind it.
    #[error("--range takes LO-HI, hexadecimal and multiples of 8")]
    Range,
    /// `--where` has no file behind it.
    #[error("--where takes a file")]
    Where,
    /// This word begins with `-` and is none of those that there are.
    #[error("unknown word {0}")]
    Unknown(String),
}

/// A word that has another one behind it.
#[derive(Clone, Copy)]
enum Setting {
    /// `--xlen`.
    Width,
    /// `--model`.
    Model,
    /// `--range`.
    Range,
    /// `--where`.
    Where,
}

impl Setting {
    /// The one of this name.
    fn named(word: &str) -> Option<Setting> {
        match word {
            "--xlen" => Some(Setting::Width),
            "--model" => Some(Setting::Model),
            "--range" => Some(Setting::Range),
            "--where" => Some(Setting::Where),
            _ => None,
        }
    }

    /// The fault where nothing, or something else is behind it.
    fn fault(self) -> WordsFault {
        match self {
            Setting::Width => WordsFault::Width,
            Setting::Model => WordsFault::Model,
            Setting::Range => WordsFault::Range,
            Setting::Where => WordsFault::Where,
        }
    }
}

/// The range that a word names.
fn range_of(text: &str) -> Option<Range> {
    let (low, high) = text.split_once('-')?;
    let low = u64::from_str_radix(low, 16).ok()?;
    let high = u64::from_str_radix(high, 16).ok()?;
    if low % 8 != 0 || high % 8 != 0 {
        return None;
    }
    Some(Range { low, high })
}

impl Words {
    /// Those of a command line without words.
    fn new(alloc: Global) -> Words {
        Words {
            request: Request {
                width: Width::Rv64,
                zero: false,
                complete: false,
                pending: false,
                range: None,
            },
            judges: false,
            model: MemoryModel::Rvwmo,
            telling: Telling {
                form: Form::Text,
                coverage: false,
                strength: false,
            },
            files: Vec::new(alloc),
            places: None,
            ends: false,
            help: false,
        }
    }

    /// Takes the word behind a setting.
    fn set(&mut self, setting: Setting, value: String) -> Result<(), WordsFault> {
        match (setting, value.as_str()) {
            (Setting::Width, "32") => self.request.width = Width::Rv32,
            (Setting::Width, "64") => self.request.width = Width::Rv64,
            (Setting::Model, "rvwmo") => self.model = MemoryModel::Rvwmo,
            (Setting::Model, "tso") => self.model = MemoryModel::Ztso,
            (Setting::Range, text) => match range_of(text) {
                Some(range) => self.request.range = Some(range),
                None => return Err(WordsFault::Range),
            },
            (Setting::Where, _) => self.places = Some(value),
            (Setting::Width | Setting::Model, _) => return Err(setting.fault()),
        }
        Ok(())
    }

    /// Takes a word that has none behind it.
    fn take(&mut self, word: String) -> Result<(), WordsFault> {
        match word.as_str() {
            "--zero" => self.request.zero = true,
            "--complete" => self.request.complete = true,
            "--pending" => self.request.pending = true,
            "--end" => {
                // The record says that the rows are those of a whole log.
                self.ends = true;
                self.request.complete = true;
            }
            "--log" => self.judges = true,
            "--svg" => self.telling.form = Form::Picture,
            "--coverage" => self.telling.coverage = true,
            "--strength" => self.telling.strength = true,
            "--explain" => {
                if self.telling.form == Form::Text {
                    self.telling.form = Form::Explained;
                }
            }
            "--help" | "-h" => self.help = true,
            _ if word.as_str().starts_with("-") => return Err(WordsFault::Unknown(word)),
            _ => match self.files.push(word) {
                Ok(()) => {}
                Err(_) => return Err(WordsFault::Unread),
            },
        }
        Ok(())
    }
}

/// The name that the program is called by: that of `rvmon` where a log is judged.
pub(crate) fn name_called(rt: &HostRuntime) -> &'static str {
    let Ok(mut all) = env::args(rt) else {
        return "rvrows";
    };
    if all.any(|word| word.as_str() == "--log") {
        "rvmon"
    } else {
        "rvrows"
    }
}

/// Reads the command line.
pub(crate) fn request_of(rt: &HostRuntime) -> Result<Words, WordsFault> {
    let Ok(all) = env::args(rt) else {
        return Err(WordsFault::Unread);
    };
    let mut words = Words::new(rt.alloc());
    let mut waiting: Option<Setting> = None;
    for word in all.skip(1) {
        let taken = match (waiting, Setting::named(word.as_str())) {
            (Some(setting), _) => {
                waiting = None;
                words.set(setting, word)
            }
            (None, Some(setting)) => {
                waiting = Some(setting);
                Ok(())
            }
            (None, None) => words.take(word),
        };
        if let Err(fault) = taken {
            return Err(fault);
        }
    }
    match waiting {
        Some(setting) => Err(setting.fault()),
        None => Ok(words),
    }
}
