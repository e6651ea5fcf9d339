//! The words of the command line.
ghost use Rattle.std.specs.Prelude.{◌≡◌, IfErr, IfOk, map, string_bytes};
ghost use Rattle.clap.specs.Walk.{texts};
ghost use Rattle.rvmon.specs.Starting.{IsWordless};

use crate::ending::Ending;
use rv_cli::WordsFault;
use std::env;
use std::io::ErrorKind;

/// The words after the program's name.
pub fn words_of(rt: &HostRuntime) -> Result<Vec<String>, Ending>
    ensures { IfErr result IsWordless }
{
    let mut words = Vec::new(rt.alloc());
    let all = match env::args(rt) {
        Ok(all) => all,
        Err(error) => {
            return Err(if error.kind() == ErrorKind::InvalidData {
                Ending::NotText
            } else {
                Ending::Words(WordsFault::NoMemory)
            });
        }
    };
    for word in all.skip(1) {
        if words.push(word).is_err() {
            return Err(Ending::Words(WordsFault::NoMemory));
        }
    }
    Ok(words)
}

/// The words as texts, in order.
pub fn texts_of<'a>(rt: &HostRuntime, words: &'a [String]) -> Result<Vec<&'a str>, Ending>
    ensures texts { IfOk result (λ list. texts list.items ≡ map string_bytes words.now) }
    ensures wordless { IfErr result IsWordless }
{
    let mut list = Vec::new(rt.alloc());
    for word in words {
        if list.push(word.as_str()).is_err() {
            return Err(Ending::Words(WordsFault::NoMemory));
        }
    }
    Ok(list)
}
