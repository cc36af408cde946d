// What the words of a command line ask for.
ghost use Rattle.std.specs.Prelude.{◌≡◌, ◌≢◌, Err, IfOk, Some, None, map, string_bytes};
ghost use Rattle.std.specs.Option.{option_map};
ghost use Rattle.clap.specs.Words.{kind_of};
ghost use Rattle.clap.specs.Walk.{texts};
ghost use Rattle.words.specs.Names.{with_slash, with_slashes};
ghost use Rattle.words.specs.Asking.{IsAsked, read_of};

use crate::request::{Request, WordsError};
use crate::scripts::are_scripts;
use crate::taken::matches_of_words;
use clap::error::ErrorKind;
use clap::{ArgMatches, Error};
use slicer_ids::ids::NoMemory;
use slicer_ids::list::List;
use slicer_ids::name::{Name, Text};
use std::alloc::{AllocError, Global};

/// What the words after the program's name ask for. `Usage` comes only where they ask for nothing that can be served.
pub fn read_words(alloc: Global, words: &[String]) -> Result<Request, WordsError>
    ensures asked { IfOk result (IsAsked (map string_bytes words.now)) }
    ensures usage { result ≡ Err WordsError.Usage → (r : Request) → IsAsked (map string_bytes words.now) r → ⊥ }
{
    let matches = match matches_of_words(alloc, words) {
        Ok(matches) => matches,
        Err(error) => return Err(refusal(&error)),
    };
    let request = requested(alloc, &matches)?;
    if are_scripts(request.scripts.items()) {
        Ok(request)
    } else {
        Err(WordsError::Usage)
    }
}

// What an error of the parser is here.
fn refusal(error: &Error) -> WordsError
    ensures { result ≡ WordsError.Usage → kind_of error.now ≢ ErrorKind.OutOfMemory }
{
    match error.kind() {
        ErrorKind::OutOfMemory => WordsError::NoMemory,
        _ => WordsError::Usage,
    }
}

// The request of the matches, where they have a folder and scripts.
fn requested(alloc: Global, matches: &ArgMatches<'_>) -> Result<Request, WordsError>
    ensures asked { IfOk result (λ r. read_of matches.now ≡ Some r) }
    ensures usage { result ≡ Err WordsError.Usage → read_of matches.now ≡ None }
{
    let Some(folder) = matches.get_str("folder") else {
        return Err(WordsError::Usage);
    };
    let Some(scripts) = matches.get_strs("script") else {
        return Err(WordsError::Usage);
    };
    match request(alloc, matches.get_str("main"), folder, scripts) {
        Ok(request) => Ok(request),
        Err(_) => Err(WordsError::NoMemory),
    }
}

fn request(
    alloc: Global,
    main: Option<&str>,
    folder: &str,
    scripts: &[&str],
) -> Result<Request, NoMemory>
    ensures main { IfOk result (λ r. r.main ≡ option_map (λ s. with_slashes s.now) main.entry) }
    ensures folder { IfOk result (λ r. r.folder ≡ folder.now) }
    ensures scripts { IfOk result (λ r. r.scripts ≡ texts scripts.now) }
{
    let main = main_name(alloc, main)?;
    let folder = String::from_str(alloc, folder)?;
    let scripts = owned(alloc, scripts)?;
    Ok(Request {
        main,
        folder: Text::from_string(folder),
        scripts: List::from_vec(scripts),
    })
}

fn main_name(alloc: Global, main: Option<&str>) -> Result<Option<Name>, NoMemory>
    ensures { IfOk result (λ r. r ≡ option_map (λ s. with_slashes s.now) main.entry) }
{
    match main {
        Some(name) => {
            let name = slashed(alloc, name.as_bytes())?;
            Ok(Some(Name::from_vec(name)))
        }
        None => Ok(None),
    }
}

// The bytes with slashes for dots.
fn slashed(alloc: Global, name: &[u8]) -> Result<Vec<u8>, AllocError>
    ensures { IfOk result (λ v. v.items ≡ with_slashes name.now) }
{
    let mut bytes = Vec::new(alloc);
    for byte in name {
        bytes.push(slash_for_dot(*byte))?;
    }
    Ok(bytes)
}

fn slash_for_dot(byte: u8) -> u8
    ensures { result ≡ with_slash byte }
{
    if byte == b'.' { b'/' } else { byte }
}

fn owned(alloc: Global, words: &[&str]) -> Result<Vec<Text>, AllocError>
    ensures { IfOk result (λ v. v.items ≡ texts words.now) }
{
    let mut all = Vec::new(alloc);
    for word in words {
        let text = String::from_str(alloc, word)?;
        all.push(Text::from_string(text))?;
    }
    Ok(all)
}
