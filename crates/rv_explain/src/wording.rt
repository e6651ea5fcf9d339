//! Events and reasons in words.
ghost use Rattle.std.specs.Prelude.{Some};
ghost use Rattle.std.specs.Option.{option_copied};
ghost use Rattle.rv_explain.specs.Wording.{atomic_sentence, between_text, bits_text, class_text};
ghost use Rattle.rv_explain.specs.Wording.{deed_text, dependency_text, pair_text, rule_sentence, stale_text, step_text};
ghost use Rattle.rv_explain.specs.Wording.{third_text, version_sentence};

use crate::step::Step;
use rv_event::{Event, Op, Reason};
use std::fmt;

/// The acquire and release bits of an event, as the assembler writes them.
#[derive(Clone, Copy)]
struct Bits {
    acquire: bool,
    release: bool,
}

impl fmt::Display for Bits {
    ghost output = { λ b. Some (bits_text b.acquire b.release) };

    fn fmt<W: fmt::Write>(&self, f: &mut fmt::Formatter<W>) -> fmt::Result {
        match (self.acquire, self.release) {
            (true, true) => write!(f, ".aqrl"),
            (true, false) => write!(f, ".aq"),
            (false, true) => write!(f, ".rl"),
            (false, false) => Ok(()),
        }
    }
}

/// What an event does, in words: its operation, its word and its versions.
#[derive(Clone, Copy)]
pub struct Deed<'a> {
    /// The event.
    pub event: &'a Event,
}

impl<'a> fmt::Display for Deed<'a> {
    ghost output = { λ d. Some (deed_text d.event.now.op d.event.now) };

    fn fmt<W: fmt::Write>(&self, f: &mut fmt::Formatter<W>) -> fmt::Result {
        let event = self.event;
        let word = event.word;
        let read = event.read;
        let wrote = event.wrote;
        let bits = Bits {
            acquire: event.acquire,
            release: event.release,
        };
        match event.op {
            Op::Load => write!(f, "load word {word}, version {read}"),
            Op::Store => write!(f, "store word {word}, version {wrote}"),
            Op::Lr => write!(f, "LR{bits} word {word}, version {read}"),
            Op::Sc => write!(f, "SC{bits} word {word}, version {wrote}"),
            Op::ScFailed => write!(f, "failed SC word {word}"),
            Op::Amo => write!(f, "AMO{bits} word {word}, version {read}, then {wrote}"),
            Op::Fence { pred, succ } => write!(f, "fence {pred},{succ}"),
            Op::FenceTso => write!(f, "fence.tso"),
            Op::Branch => write!(f, "branch"),
            Op::Carrier => write!(f, "instruction"),
        }
    }
}

/// The class of a memory operation, in words.
#[derive(Clone, Copy)]
struct Class {
    op: Op,
}

impl fmt::Display for Class {
    ghost output = { λ c. Some (class_text c.op) };

    fn fmt<W: fmt::Write>(&self, f: &mut fmt::Formatter<W>) -> fmt::Result {
        match self.op {
            Op::Load | Op::Lr => write!(f, "loads"),
            Op::Store | Op::Sc => write!(f, "stores"),
            Op::Amo => write!(f, "AMOs"),
            _ => write!(f, "operations"),
        }
    }
}

/// What a reason stands on, with the noun of its kind.
#[derive(Clone, Copy)]
struct Third<'a> {
    noun: &'a str,
    event: Option<&'a Event>,
}

impl<'a> fmt::Display for Third<'a> {
    ghost output = { λ t. Some (third_text t.noun.now (option_copied t.event)) };

    fn fmt<W: fmt::Write>(&self, f: &mut fmt::Formatter<W>) -> fmt::Result {
        let noun = self.noun;
        match self.event {
            Some(event) => {
                let id = event.id;
                write!(f, "the {noun} {id}")
            }
            None => write!(f, "a {noun}"),
        }
    }
}

/// What a rule says of two events alone.
#[derive(Clone, Copy)]
struct PairRule<'a> {
    rule: u8,
    from: &'a Event,
    to: &'a Event,
}

impl<'a> fmt::Display for PairRule<'a> {
    ghost output = { λ s. Some (pair_text s.rule s.from.now s.to.now) };

    fn fmt<W: fmt::Write>(&self, f: &mut fmt::Formatter<W>) -> fmt::Result {
        let Event {
            id: a,
            word,
            read: first,
            ..
        } = self.from;
        let Event {
            id: b,
            word: same_word,
            read: second,
            ..
        } = self.to;
        match self.rule {
            1 => write!(f, "both access word {word}, and {b} stores to it"),
            2 => write!(
                f,
                "they returned versions {first} and {second} of word {word}, and no store to it \
                 stands between them"
            ),
            3 => write!(
                f,
                "{b} returned version {second} of word {same_word}, which the AMO or SC {a} wrote"
            ),
            5 => write!(f, "{a} has an acquire annotation"),
            6 => write!(f, "{b} has a release annotation"),
            7 => write!(f, "both have RCsc annotations"),
            8 => write!(f, "{a} is the LR that is paired with the SC {b}"),
            _ => Ok(()),
        }
    }
}

/// What a rule says by which the second of two events has a dependency on the first.
#[derive(Clone, Copy)]
struct DependencyRule<'a> {
    rule: u8,
    from: &'a Event,
    to: &'a Event,
}

impl<'a> fmt::Display for DependencyRule<'a> {
    ghost output = { λ s. Some (dependency_text s.rule s.from.now s.to.now) };

    fn fmt<W: fmt::Write>(&self, f: &mut fmt::Formatter<W>) -> fmt::Result {
        let a = self.from.id;
        let b = self.to.id;
        match self.rule {
            9 => write!(f, "the address of {b} depends on {a}"),
            10 => write!(f, "the data that {b} stores depends on {a}"),
            _ => Ok(()),
        }
    }
}

/// What a rule says of two events and of one that stands between them.
#[derive(Clone, Copy)]
struct BetweenRule<'a> {
    rule: u8,
    from: &'a Event,
    to: &'a Event,
    witness: Option<&'a Event>,
}

impl<'a> fmt::Display for BetweenRule<'a> {
    ghost output = { λ s. Some (between_text s.rule s.from.now s.to.now (option_copied s.witness)) };

    fn fmt<W: fmt::Write>(&self, f: &mut fmt::Formatter<W>) -> fmt::Result {
        let a = self.from.id;
        let b = self.to.id;
        let event = self.witness;
        match self.rule {
            4 => {
                let fence = Third {
                    noun: "fence",
                    event,
                };
                let before = Class { op: self.from.op };
                let behind = Class { op: self.to.op };
                write!(f, "{fence} between them orders {before} before {behind}")
            }
            11 => {
                let branch = Third {
                    noun: "branch",
                    event,
                };
                write!(
                    f,
                    "{branch} between them depends on {a}, and {b} is a store"
                )
            }
            12 => {
                let store = Third {
                    noun: "store",
                    event,
                };
                write!(
                    f,
                    "{b} returned what {store} between them wrote, whose address or data depends \
                     on {a}"
                )
            }
            13 => {
                let access = Third {
                    noun: "access",
                    event,
                };
                write!(
                    f,
                    "the address of {access} between them depends on {a}, and {b} is a store"
                )
            }
            _ => Ok(()),
        }
    }
}

/// Why a rule of preserved program order has a step's first event come before its second.
#[derive(Clone, Copy)]
struct RuleSentence<'a> {
    step: Step<'a>,
}

impl<'a> fmt::Display for RuleSentence<'a> {
    ghost output = { λ s. Some (rule_sentence s.step.reason s.step.from.now s.step.to.now
        (option_copied s.step.witness)) };

    fn fmt<W: fmt::Write>(&self, f: &mut fmt::Formatter<W>) -> fmt::Result {
        let Step {
            from,
            reason,
            to,
            witness,
        } = self.step;
        let Reason::Preserved(rule) = reason else {
            return Ok(());
        };
        let pair = PairRule { rule, from, to };
        let dependency = DependencyRule { rule, from, to };
        let between = BetweenRule {
            rule,
            from,
            to,
            witness,
        };
        write!(
            f,
            "{pair}{dependency}{between} (preserved program order, rule {rule})"
        )
    }
}

/// Why the versions of a word have a step's first event come before its second.
#[derive(Clone, Copy)]
struct VersionSentence<'a> {
    step: Step<'a>,
}

impl<'a> fmt::Display for VersionSentence<'a> {
    ghost output = { λ s. Some (version_sentence s.step.reason s.step.from.now s.step.to.now) };

    fn fmt<W: fmt::Write>(&self, f: &mut fmt::Formatter<W>) -> fmt::Result {
        let from = self.step.from;
        let to = self.step.to;
        let Event {
            id: a,
            word,
            read: first,
            wrote: old,
            ..
        } = from;
        let Event {
            id: b,
            word: same_word,
            read,
            wrote,
            ..
        } = to;
        match self.step.reason {
            Reason::Coherence => write!(
                f,
                "{a} wrote version {old} of word {word}, and {b} the later version {wrote} \
                 (coherence)"
            ),
            Reason::ReadsFrom => write!(
                f,
                "{b} returned version {read} of word {same_word}, which {a} wrote \
                 (load value axiom)"
            ),
            Reason::FromRead => write!(
                f,
                "{a} returned version {first} of word {word}, and {b} wrote version {wrote} \
                 (load value axiom)"
            ),
            _ => Ok(()),
        }
    }
}

/// Why a pair of LR and SC has a step's first event come before its second.
#[derive(Clone, Copy)]
struct AtomicSentence<'a> {
    step: Step<'a>,
}

impl<'a> fmt::Display for AtomicSentence<'a> {
    ghost output = { λ s. Some (atomic_sentence s.step.reason s.step.from.now s.step.to.now
        (option_copied s.step.witness)) };

    fn fmt<W: fmt::Write>(&self, f: &mut fmt::Formatter<W>) -> fmt::Result {
        let a = self.step.from.id;
        let b = self.step.to.id;
        let word = self.step.to.word;
        let wrote = self.step.to.wrote;
        let event = self.step.witness;
        let lr = Third { noun: "LR", event };
        match self.step.reason {
            Reason::AtomicIn => write!(
                f,
                "{b} is the SC paired with {lr}, which returned what {a} wrote (atomicity axiom)"
            ),
            Reason::AtomicOut => write!(
                f,
                "{a} is the SC paired with {lr}, and another hart's version {wrote} of word \
                 {word}, which {b} wrote, may not come between (atomicity axiom)"
            ),
            _ => Ok(()),
        }
    }
}

/// A step is printed as its two ends, and why the first comes before the second.
impl<'a> fmt::Display for Step<'a> {
    ghost output = { λ s. Some (step_text s) };

    fn fmt<W: fmt::Write>(&self, f: &mut fmt::Formatter<W>) -> fmt::Result {
        let a = self.from.id;
        let b = self.to.id;
        let rule = RuleSentence { step: *self };
        let version = VersionSentence { step: *self };
        let atomic = AtomicSentence { step: *self };
        write!(f, "{a} before {b}: {rule}{version}{atomic}")
    }
}

/// A load, and an earlier store of its hart that wrote a newer version than it returned.
#[derive(Clone, Copy)]
pub struct StalePair<'a> {
    /// The load.
    pub load: &'a Event,
    /// The store.
    pub store: &'a Event,
}

impl<'a> fmt::Display for StalePair<'a> {
    ghost output = { λ p. Some (stale_text p.load.now p.store.now) };

    fn fmt<W: fmt::Write>(&self, f: &mut fmt::Formatter<W>) -> fmt::Result {
        let a = self.load.id;
        let b = self.store.id;
        let word = self.load.word;
        let read = self.load.read;
        let wrote = self.store.wrote;
        write!(
            f,
            "{a} returned version {read} of word {word}, but {b}, an earlier store of its own \
             hart, wrote version {wrote} (load value axiom)"
        )
    }
}
