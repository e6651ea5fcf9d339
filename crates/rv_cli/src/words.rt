//! From words to a request.
ghost use Rattle.std.specs.Prelude.{◌≡◌, ◌≤◌, IfErr, IfOk, codes, false, length, map, option_map, string_bytes, true};
ghost use Rattle.clap.specs.Walk.{texts};
ghost use Rattle.clap.specs.Words.{first_of, first_value, found_of, one_of, one_text, rows_of};
ghost use Rattle.rv_cli.specs.Answers.{AnswersTo, IsFilesFault};
ghost use Rattle.rv_cli.specs.Asked.{AreInRange, IsForOneTrace, IsInRange, SaysAsked, SaysModel, SaysNumber};
ghost use Rattle.rv_cli.specs.Asked.{files_in, is_true};
ghost use Rattle.rv_cli.specs.Parsed.{HoldsModel, HoldsNumber, HoldsValues, ParsesTo};

use crate::command::command_of;
use crate::request::{Asked, WordsFault};
use clap::{ArgMatches, Error as ParseError};
use rv_event::MemoryModel;
use std::alloc::{AllocError, Global};

/// How many files may be named.
const MAX_FILES: usize = 8;

/// What clap finds in the words.
fn matches_in<'a>(alloc: Global, words: &'a [&'a str]) -> Result<ArgMatches<'a>, ParseError>
    ensures { ParsesTo (texts words.now) result }
{
    command_of(alloc)?.try_get_matches_from(words)
}

/// The number of workers.
fn workers_in(matches: &ArgMatches<'_>) -> u8
    requires { HoldsNumber 1 24 (one_text (found_of matches.now) (codes "workers")) }
    ensures said { SaysNumber (one_of (codes "workers") (rows_of (found_of matches.now))) result }
    ensures range { (1 ≤ result) × (result ≤ 24) }
{
    matches.get_one::<u8>("workers").unwrap()
}

/// The number of slots.
fn slots_in(matches: &ArgMatches<'_>) -> u8
    requires { HoldsNumber 2 16 (one_text (found_of matches.now) (codes "slots")) }
    ensures said { SaysNumber (one_of (codes "slots") (rows_of (found_of matches.now))) result }
    ensures range { (2 ≤ result) × (result ≤ 16) }
{
    matches.get_one::<u8>("slots").unwrap()
}

/// The memory model.
fn model_in(matches: &ArgMatches<'_>) -> MemoryModel
    requires { HoldsModel (first_value (found_of matches.now) (codes "model")) }
    ensures { SaysModel (first_of (codes "model") (rows_of (found_of matches.now))) result }
{
    let name = matches.get_str("model").unwrap();
    if name == "tso" {
        MemoryModel::Ztso
    } else {
        MemoryModel::Rvwmo
    }
}

/// Whether the flag of this name is among the words.
fn flag_in(matches: &ArgMatches<'_>, name: &str) -> bool
    ensures { result ≡ is_true (first_of name.now (rows_of (found_of matches.now))) }
{
    match matches.get_str(name) {
        Some(text) => text == "true",
        None => false,
    }
}

/// Copies of the texts, in order.
fn copies(alloc: Global, names: &[&str]) -> Result<Vec<String>, AllocError>
    ensures { IfOk result (λ list. map string_bytes list.items ≡ texts names.now) }
{
    let mut list = Vec::with_capacity(alloc, names.len())?;
    for name in names {
        list.push(String::from_str(alloc, name)?)?;
    }
    Ok(list)
}

/// The text of the option of this name, if it is among the words.
fn text_in(
    alloc: Global,
    matches: &ArgMatches<'_>,
    name: &str,
) -> Result<Option<String>, AllocError>
    ensures { IfOk result (λ text.
        option_map string_bytes text ≡ first_of name.now (rows_of (found_of matches.now))) }
{
    match matches.get_str(name) {
        Some(text) => Ok(Some(String::from_str(alloc, text)?)),
        None => Ok(None),
    }
}

/// The names of the files in order.
fn files_in(alloc: Global, matches: &ArgMatches<'_>) -> Result<Vec<String>, WordsFault>
    ensures names { IfOk result (λ list.
        map string_bytes list.items ≡ files_in (rows_of (found_of matches.now))) }
    ensures few { IfOk result (λ list. length list.items ≤ 8) }
    ensures fault { IfErr result (IsFilesFault (files_in (rows_of (found_of matches.now)))) }
{
    match matches.get_strs("FILE") {
        Some(names) => {
            if names.len() > MAX_FILES {
                return Err(WordsFault::TooMany);
            }
            Ok(copies(alloc, names)?)
        }
        None => Ok(Vec::new(alloc)),
    }
}

/// Whether a request names a file, or asks for what is told of one trace alone.
fn is_for_one_trace(asked: &Asked) -> bool
    ensures yes { result ≡ true → IsForOneTrace asked.now }
    ensures no { result ≡ false → IsForOneTrace asked.now → ⊥ }
{
    !asked.files.is_empty() || asked.explain || asked.svg || asked.where_file.is_some()
}

/// What the matches say.
fn asked_in(alloc: Global, matches: &ArgMatches<'_>) -> Result<Asked, WordsFault>
    requires { HoldsValues (found_of matches.now) }
    ensures said { IfOk result (SaysAsked (rows_of (found_of matches.now))) }
    ensures numbers { IfOk result AreInRange }
    ensures fault { IfErr result (IsFilesFault (files_in (rows_of (found_of matches.now)))) }
{
    let files = files_in(alloc, matches)?;
    let where_file = text_in(alloc, matches, "where")?;
    let list_file = text_in(alloc, matches, "list")?;
    Ok(Asked {
        workers: workers_in(matches),
        slots: slots_in(matches),
        model: model_in(matches),
        json: flag_in(matches, "json"),
        carriers: flag_in(matches, "carriers"),
        explain: flag_in(matches, "explain"),
        svg: flag_in(matches, "svg"),
        coverage: flag_in(matches, "coverage"),
        complete: flag_in(matches, "complete"),
        strength: flag_in(matches, "strength"),
        where_file,
        list_file,
        files,
    })
}

/// What the words ask for. They come without the program's name.
///
/// # Errors
/// `Parse` where clap refuses the words, or finds a call for help among them. `TooMany` where clap
/// takes the words, and finds more than 8 files. `BesideList` where they name a list of traces, and
/// a file, a file of texts, an explanation or a picture. `NoMemory` where an allocation was
/// refused.
pub fn asked(alloc: Global, words: &[&str]) -> Result<Asked, WordsFault>
    ensures answer { AnswersTo (texts words.now) result }
    ensures range { IfOk result IsInRange }
{
    let matches = matches_in(alloc, words)?;
    let asked = asked_in(alloc, &matches)?;
    if asked.list_file.is_some() && is_for_one_trace(&asked) {
        return Err(WordsFault::BesideList);
    }
    Ok(asked)
}
