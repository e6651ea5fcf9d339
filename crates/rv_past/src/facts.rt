//! What the faults of new events ask of the events that were forgotten.
ghost use Rattle.std.specs.Prelude.{ℕ, ◌≡◌, ◌+◌, ◌<◌, ◌++◌, ◌∷◌, ◌≤◌, ◌/◌, ◌↔◌, ◌⊎◌, [], IfOk};
ghost use Rattle.std.specs.Prelude.{IsTrue, List, MatchOption};
ghost use Rattle.std.specs.Prelude.{None, OnOk, Some, nat_eq, slice_set};
ghost use Rattle.std.specs.HashMap.{get, spare};
ghost use Rattle.std.specs.List.{list_any};
ghost use Rattle.std.specs.HashSet.{contains};
ghost use Rattle.std.specs.HashSet as sets;
ghost use Rattle.rv_event.specs.Faults.{can_be_named};
ghost use Rattle.rv_event.specs.Operations.{IsStore};
ghost use Rattle.rv_event.specs.declared.event.Entry.{Entry};
ghost use Rattle.rv_event.specs.declared.event.Id.{Id};
ghost use Rattle.rv_past.specs.Facts.{AreFacts, Fits, Follows, HasRoom, IsMisfit, is_named, is_other};
ghost use Rattle.rv_past.specs.Facts.{is_bad_in, is_written, last_of};
ghost use Rattle.rv_past.specs.Gone.{same_version};

use rv_event::{Dep, Entry, Event, Id, NoMemory, Op, is_bad_dependency};
use rv_rows::Row;
use std::alloc::Global;
use std::collections::{HashMap, HashSet};

/// What is known of the events that were forgotten, as far as the faults of new events ask: the
/// source of each hart, which numbers returned a value, and which versions were written. Contracts
/// see the fields, and say for which entries it stands.
///
/// It takes a bit for each event, in blocks of 4,096 numbers of a hart, a place for each word, and
/// one for each version above the first that no forgotten store of its word wrote.
#[derive(Drop)]
pub struct Facts {
    /// Of each hart the source of its events, where there are any.
    pub sources: [Option<u8>; 16],
    /// By hart and block of 4,096 numbers, the numbers of the block that returned a value.
    pub values: HashMap<(u32, u32), Row>,
    /// By word, the version up to which each one from 1 on was written.
    pub through: HashMap<u32, u32>,
    /// By word and version, those above.
    pub above: HashSet<(u32, u32)>,
}

/// The first thing in which an entry doesn't fit what was forgotten.
#[derive(Clone, Copy, PartialEq, Eq, Debug)]
pub enum Misfit {
    /// It depends on an event that returned no value, or by a kind that it doesn't have.
    Depends,
    /// Its version was written.
    Taken,
    /// Events of its hart came from another source.
    OtherSource,
    /// It has more than 8 dependencies.
    TooManyDeps,
}

/// Whether another event may depend on the operation.
fn returns_value(op: Op) -> bool
    ensures { result ≡ can_be_named op }
{
    matches!(
        op,
        Op::Load | Op::Lr | Op::Sc | Op::ScFailed | Op::Amo | Op::Carrier
    )
}

impl Facts {
    /// Nothing was forgotten. It takes no memory; the allocator serves the calls to come.
    pub fn new(alloc: Global) -> Facts
        ensures { AreFacts [] result }
    {
        Facts {
            sources: [None; 16],
            values: HashMap::new(alloc),
            through: HashMap::new(alloc),
            above: HashSet::new(alloc),
        }
    }

    /// Makes room for so many entries.
    ///
    /// # Errors
    /// `NoMemory` where it could not be had; what is kept stays as it is.
    pub fn reserve(&mut self, more: usize) -> Result<(), NoMemory>
        ensures same { (gone : List Entry) → AreFacts gone self.old → AreFacts gone self.new }
        ensures room { OnOk result (HasRoom self.new more) }
    {
        self.values.reserve(more)?;
        self.through.reserve(more)?;
        self.above.reserve(more)?;
        Ok(())
    }

    /// Takes an entry that is forgotten, which has a number that none before has, and came from the
    /// source of its hart's others. There is room for it. It costs a look-up or two.
    pub fn add(&mut self, entry: &Entry)
        requires { HasRoom self.old 1 }
        ensures added { (gone : List Entry) → AreFacts gone self.old → Follows gone entry.now →
            AreFacts (gone ++ entry.now ∷ []) self.new }
        ensures room { (more : ℕ) → HasRoom self.old (more + 1) → HasRoom self.new more }
    {
        note_source(&mut self.sources, entry);
        note_returned(&mut self.values, &entry.event);
        note_written(&mut self.through, &mut self.above, &entry.event);
    }

    /// The first thing in which the entry doesn't fit what was forgotten, where there is one. Of its
    /// hart the events below the number were forgotten. It costs a look-up for each dependency on
    /// them, and one for a store.
    pub fn find_misfit(&self, first: u32, entry: &Entry) -> Option<Misfit>
        ensures { (gone : List Entry) → AreFacts gone self.now →
            MatchOption result (Fits gone first entry.now) (IsMisfit gone first entry.now) }
    {
        let event = &entry.event;
        if self.depends_badly(first, event) {
            return Some(Misfit::Depends);
        }
        if self.is_taken(event) {
            return Some(Misfit::Taken);
        }
        if self.is_other_source(entry) {
            return Some(Misfit::OtherSource);
        }
        if event.deps.as_slice().len() > 8 {
            return Some(Misfit::TooManyDeps);
        }
        None
    }
}

impl Facts {
    /// Whether a dependency on an event that was forgotten is bad.
    fn depends_badly(&self, first: u32, event: &Event) -> bool
        ensures { result ≡ list_any (is_bad_in (get same_version self.now.values) first event.now) event.now.deps }
    {
        event
            .deps
            .as_slice()
            .iter()
            .any(|dep| self.is_bad(first, event, *dep))
    }

    /// Whether the dependency is on an event that was forgotten, and bad.
    fn is_bad(&self, first: u32, event: &Event, dep: Dep) -> bool
        ensures { result ≡ is_bad_in (get same_version self.now.values) first event.now dep }
    {
        let id = Id {
            hart: event.id.hart,
            seq: dep.seq,
        };
        dep.seq < first && (!self.is_named(id) || is_bad_dependency(event, dep, None))
    }

    /// Whether the forgotten event of this id returned a value.
    fn is_named(&self, id: Id) -> bool
        ensures { result ≡ is_named (get same_version self.now.values) id }
    {
        match self.values.get(&(id.hart as u32, id.seq / 4096)) {
            Some(row) => row.has((id.seq % 4096) as usize),
            None => false,
        }
    }

    /// Whether it is a store with a version that a forgotten one wrote.
    fn is_taken(&self, event: &Event) -> bool
        ensures { IsTrue result ↔ (IsStore event.now × IsTrue (is_written (get nat_eq self.now.through)
            (contains same_version self.now.above) event.now.word event.now.wrote)) }
    {
        event.is_store() && self.is_written(event.word, event.wrote)
    }

    /// Whether a forgotten store wrote the version of the word. It costs a look-up or two.
    pub fn is_written(&self, word: u32, version: u32) -> bool
        ensures { result ≡ is_written (get nat_eq self.now.through)
            (contains same_version self.now.above) word version }
    {
        (version > 0 && version <= last_of(&self.through, word))
            || self.above.contains(&(word, version))
    }

    /// Whether forgotten events of its hart came from another source.
    fn is_other_source(&self, entry: &Entry) -> bool
        ensures { result ≡ is_other self.now.sources entry.now }
    {
        match self.sources.get(entry.event.id.hart as usize) {
            Some(Some(source)) => *source != entry.source,
            _ => false,
        }
    }
}

/// Notes the source of the entry's hart.
fn note_source(sources: &mut [Option<u8>; 16], entry: &Entry)
    ensures { entry.now.event.id.hart < 16 →
        sources.new ≡ slice_set sources.old entry.now.event.id.hart (Some entry.now.source) }
{
    let hart = entry.event.id.hart as usize;
    if hart < 16 {
        sources[hart] = Some(entry.source);
    }
}

/// Notes that the event returned a value, where it did.
fn note_returned(values: &mut HashMap<(u32, u32), Row>, event: &Event)
    requires { 0 < spare values.old }
    ensures noted { (i : Id) → IsTrue (is_named (get same_version values.new) i)
        ↔ (IsTrue (is_named (get same_version values.old) i)
        ⊎ ((i ≡ event.now.id) × IsTrue (can_be_named event.now.op))) }
    ensures room { spare values.old ≤ spare values.new + 1 }
{
    if returns_value(event.op) {
        note_value(values, event.id);
    }
}

/// Notes that the event wrote its version, where it is a store.
fn note_written(through: &mut HashMap<u32, u32>, above: &mut HashSet<(u32, u32)>, event: &Event)
    requires words { 0 < spare through.old }
    requires versions { 0 < sets.spare above.old }
    ensures noted { (w v : ℕ) →
        IsTrue (is_written (get nat_eq through.new) (contains same_version above.new) w v)
        ↔ (IsTrue (is_written (get nat_eq through.old) (contains same_version above.old) w v)
        ⊎ (IsStore event.now × (w ≡ event.now.word) × (v ≡ event.now.wrote))) }
    ensures words { spare through.old ≤ spare through.new + 1 }
    ensures versions { sets.spare above.old ≤ sets.spare above.new + 1 }
{
    if event.is_store() {
        note_version(through, above, event.word, event.wrote);
    }
}

/// Notes that the event of this id returned a value.
fn note_value(values: &mut HashMap<(u32, u32), Row>, id: Id)
    requires { 0 < spare values.old }
    ensures noted { (i : Id) → IsTrue (is_named (get same_version values.new) i)
        ↔ (IsTrue (is_named (get same_version values.old) i) ⊎ (i ≡ id)) }
    ensures room { spare values.old ≤ spare values.new + 1 }
{
    let block = (id.hart as u32, id.seq / 4096);
    match values.get_mut(&block) {
        Some(row) => row.insert((id.seq % 4096) as usize),
        None => note_first(values, id),
    }
}

/// Notes that the event of this id returned a value, the first of its block.
fn note_first(values: &mut HashMap<(u32, u32), Row>, id: Id)
    requires room { 0 < spare values.old }
    requires first { get same_version values.old (id.hart, id.seq / 4096) ≡ None }
    ensures noted { (i : Id) → IsTrue (is_named (get same_version values.new) i)
        ↔ (IsTrue (is_named (get same_version values.old) i) ⊎ (i ≡ id)) }
    ensures room { spare values.old ≤ spare values.new + 1 }
{
    let block = (id.hart as u32, id.seq / 4096);
    let mut row = Row::new();
    row.insert((id.seq % 4096) as usize);
    let Ok(_) = values.insert(block, row) else {
        unreachable!()
    };
}

/// The version of the word up to which each one was written.
fn last_of(through: &HashMap<u32, u32>, word: u32) -> u32
    ensures { result ≡ last_of (get nat_eq through.now word) }
{
    match through.get(&word) {
        Some(last) => *last,
        None => 0,
    }
}

/// Notes that the version of the word was written.
fn note_version(
    through: &mut HashMap<u32, u32>,
    above: &mut HashSet<(u32, u32)>,
    word: u32,
    version: u32,
)
    requires words { 0 < spare through.old }
    requires versions { 0 < sets.spare above.old }
    ensures noted { (w v : ℕ) →
        IsTrue (is_written (get nat_eq through.new) (contains same_version above.new) w v)
        ↔ (IsTrue (is_written (get nat_eq through.old) (contains same_version above.old) w v)
        ⊎ ((w ≡ word) × (v ≡ version))) }
    ensures words { spare through.old ≤ spare through.new + 1 }
    ensures versions { sets.spare above.old ≤ sets.spare above.new + 1 }
{
    let last = last_of(through, word);
    if version > last && version - 1 == last {
        let last = pull(above, word, version);
        let Ok(_) = through.insert(word, last) else {
            unreachable!()
        };
    } else {
        let Ok(_) = above.insert((word, version)) else {
            unreachable!()
        };
    }
}

/// Takes the versions of the word that follow this one out of the set, and answers the last.
fn pull(above: &mut HashSet<(u32, u32)>, word: u32, version: u32) -> u32
    ensures least { version ≤ result }
    ensures pulled { (w v : ℕ) → IsTrue (contains same_version above.old (w, v))
        ↔ (IsTrue (contains same_version above.new (w, v)) ⊎ ((w ≡ word) × (version < v) × (v ≤ result))) }
    ensures room { sets.spare above.old ≤ sets.spare above.new }
{
    let mut last = version;
    'following: while last < u32::MAX && above.remove(&(word, last + 1)) {
        last += 1;
    }
    last
}
