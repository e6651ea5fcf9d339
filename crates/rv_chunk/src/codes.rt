//! The fields of a chunk's words: how events are written as numbers, and read back.
ghost use Rattle.std.specs.Prelude.{◌≡◌, ◌↔◌, ℕ, ◌<◌, ◌≤◌, ◌+◌, ◌*◌, ◌^◌, IfOk, IsTrue, length, slice_index};
ghost use Rattle.std.specs.Prelude.{List, drop};
ghost use Rattle.rv_chunk.specs.Chunks.{set_code, op_code, pred_code, succ_code, kind_code, flag_code, two};
ghost use Rattle.rv_chunk.specs.Chunks.{head_word, dep_code, dep_at, event_words, bits, set_of, op_of};
ghost use Rattle.rv_chunk.specs.Chunks.{kind_of, dep_of, deps_of, dep_halves, head_op, event_of, IsPackable};
ghost use Rattle.rv_chunk.specs.Chunks.{IsTyped, AreSmall};

use rv_event::{Dep, DepKind, Deps, Event, Id, NoMemory, Op, Set};
use std::alloc::Global;

/// The number of a fence's set.
fn set_code(set: Set) -> u64
    ensures { result ≡ set_code set }
{
    match set {
        Set::R => 1,
        Set::W => 2,
        Set::Rw => 3,
    }
}

/// The number of an operation.
fn op_code(op: Op) -> u64
    ensures { result ≡ op_code op }
{
    match op {
        Op::Load => 1,
        Op::Store => 2,
        Op::Lr => 3,
        Op::Sc => 4,
        Op::ScFailed => 5,
        Op::Amo => 6,
        Op::Fence { pred: _, succ: _ } => 7,
        Op::FenceTso => 8,
        Op::Branch => 9,
        Op::Carrier => 10,
    }
}

/// The number of a fence's first set, 0 for other operations.
fn pred_code(op: Op) -> u64
    ensures { result ≡ pred_code op }
{
    match op {
        Op::Fence { pred, succ: _ } => set_code(pred),
        _ => 0,
    }
}

/// The number of a fence's second set, 0 for other operations.
fn succ_code(op: Op) -> u64
    ensures { result ≡ succ_code op }
{
    match op {
        Op::Fence { pred: _, succ } => set_code(succ),
        _ => 0,
    }
}

/// The number of a kind of dependency.
fn kind_code(kind: DepKind) -> u32
    ensures { result ≡ kind_code kind }
{
    match kind {
        DepKind::Addr => 1,
        DepKind::DataOf => 2,
        DepKind::Ctrl => 3,
    }
}

/// The bit of a flag.
fn flag_code(flag: bool) -> u64
    ensures { result ≡ flag_code flag }
{
    if flag { 1 } else { 0 }
}

/// Two numbers of 32 bits in one word, the first in the low half.
pub fn two(low: u32, high: u32) -> u64
    ensures { result ≡ two low high }
{
    u64::from(low) + u64::from(high) * 0x1_0000_0000
}

/// An event's first word: its hart, operation, sets and flags.
fn head_word(hart: u8, op: Op, acquire: bool, release: bool) -> u64
    ensures { result ≡ head_word hart op acquire release }
{
    u64::from(hart)
        + op_code(op) * 0x100
        + pred_code(op) * 0x1000
        + succ_code(op) * 0x4000
        + flag_code(acquire) * 0x1_0000
        + flag_code(release) * 0x2_0000
}

/// The 32 bits of a dependency.
fn dep_code(dep: Dep) -> u32
    requires { dep.seq < 2 ^ 30 }
    ensures { result ≡ dep_code dep }
{
    dep.seq + kind_code(dep.kind) * 0x4000_0000
}

/// The code of a dependency, 0 where there is none.
fn dep_at(deps: &Deps, i: usize) -> u32
    requires { AreSmall deps.now }
    ensures { result ≡ dep_at deps.now i }
{
    match deps.as_slice().get(i) {
        Some(dep) => dep_code(*dep),
        None => 0,
    }
}

/// The seven words of an event.
pub fn event_words(event: &Event) -> [u64; 7]
    requires { IsPackable event.now }
    ensures words { result ≡ event_words event.now }
    ensures typed { IsTyped event.now }
{
    let deps = &event.deps;
    [
        head_word(event.id.hart, event.op, event.acquire, event.release),
        two(event.id.seq, event.word),
        two(event.read, event.wrote),
        two(dep_at(deps, 0), dep_at(deps, 1)),
        two(dep_at(deps, 2), dep_at(deps, 3)),
        two(dep_at(deps, 4), dep_at(deps, 5)),
        two(dep_at(deps, 6), dep_at(deps, 7)),
    ]
}

/// The bits of a word that are its low half.
pub fn low_half(word: u64) -> u32
    ensures { result ≡ bits word 0 32 }
{
    (word % 0x1_0000_0000) as u32
}

/// The bits of a word that are its high half.
pub fn high_half(word: u64) -> u32
    ensures { result ≡ bits word 32 32 }
{
    (word >> 32) as u32
}

/// The set with this number.
fn set_of(n: u64) -> Set
    ensures { result ≡ set_of n }
{
    match n {
        1 => Set::R,
        2 => Set::W,
        _ => Set::Rw,
    }
}

/// The operation with this number and these sets.
fn op_of(n: u64, pred: Set, succ: Set) -> Op
    ensures { result ≡ op_of n pred succ }
{
    match n {
        1 => Op::Load,
        2 => Op::Store,
        3 => Op::Lr,
        4 => Op::Sc,
        5 => Op::ScFailed,
        6 => Op::Amo,
        7 => Op::Fence { pred, succ },
        8 => Op::FenceTso,
        9 => Op::Branch,
        _ => Op::Carrier,
    }
}

/// The kind of dependency with this number.
fn kind_of(n: u32) -> DepKind
    ensures { result ≡ kind_of n }
{
    match n {
        1 => DepKind::Addr,
        2 => DepKind::DataOf,
        _ => DepKind::Ctrl,
    }
}

/// The dependency of 32 bits.
fn dep_of(n: u32) -> Dep
    ensures { result ≡ dep_of n }
{
    Dep {
        kind: kind_of(n >> 30),
        seq: n % 0x4000_0000,
    }
}

/// The operation in an event's first word.
fn head_op(word: u64) -> Op
    ensures { result ≡ head_op word }
{
    op_of(
        (word >> 8) % 16,
        set_of((word >> 12) % 4),
        set_of((word >> 14) % 4),
    )
}

/// The eight halves of the last four of seven words.
fn dep_halves(words: &[u64]) -> [u32; 8]
    requires { 7 ≤ length words.now }
    ensures { result ≡ dep_halves words.now }
{
    [
        low_half(words[3]),
        high_half(words[3]),
        low_half(words[4]),
        high_half(words[4]),
        low_half(words[5]),
        high_half(words[5]),
        low_half(words[6]),
        high_half(words[6]),
    ]
}

/// The code of dependency i among those before the first zero, 0 where there is none.
fn dep_code_at(halves: &[u32; 8], i: usize) -> u32
    requires { i < 8 }
    ensures { result ≡ dep_at (deps_of halves.now) i }
{
    if halves[..i + 1].contains(&0) {
        0
    } else {
        dep_code(dep_of(halves[i]))
    }
}

/// The words of the event that seven words say.
pub fn rewritten_words(words: &[u64]) -> [u64; 7]
    requires { 7 ≤ length words.now }
    ensures { result ≡ event_words (event_of words.now) }
{
    let head = words[0];
    let halves = dep_halves(words);
    let deps = &halves;
    [
        head_word(
            (head % 0x100) as u8,
            head_op(head),
            (head >> 16) % 2 == 1,
            (head >> 17) % 2 == 1,
        ),
        two(low_half(words[1]), high_half(words[1])),
        two(low_half(words[2]), high_half(words[2])),
        two(dep_code_at(deps, 0), dep_code_at(deps, 1)),
        two(dep_code_at(deps, 2), dep_code_at(deps, 3)),
        two(dep_code_at(deps, 4), dep_code_at(deps, 5)),
        two(dep_code_at(deps, 6), dep_code_at(deps, 7)),
    ]
}

/// The dependencies before the first zero.
fn read_deps(alloc: Global, halves: &[u32; 8]) -> Result<Deps, NoMemory>
    ensures { IfOk result (λ d. d ≡ deps_of halves.now) }
{
    let mut deps = Deps::new(alloc);
    for half in halves {
        if *half == 0 {
            break;
        }
        deps.push(dep_of(*half))?;
    }
    Ok(deps)
}

/// The event that seven words say.
pub fn read_event(alloc: Global, words: &[u64]) -> Result<Event, NoMemory>
    requires { 7 ≤ length words.now }
    ensures { IfOk result (λ e. e ≡ event_of words.now) }
{
    let head = words[0];
    let halves = dep_halves(words);
    let deps = read_deps(alloc, &halves)?;
    Ok(Event {
        id: Id {
            hart: (head % 0x100) as u8,
            seq: low_half(words[1]),
        },
        op: head_op(head),
        word: high_half(words[1]),
        read: low_half(words[2]),
        wrote: high_half(words[2]),
        acquire: (head >> 16) % 2 == 1,
        release: (head >> 17) % 2 == 1,
        deps,
    })
}
