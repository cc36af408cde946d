// What the command takes, and what it makes of words.
ghost use Rattle.std.specs.Prelude.{◌≡◌, ◌⊎◌, map, string_bytes, IfOk, IfErr, None};
ghost use Rattle.clap.specs.Words.{app_of, kind_of};
ghost use Rattle.words.specs.Command.{slicer_app};
ghost use Rattle.words.specs.Asking.{asked, read_of};

use clap::error::ErrorKind;
use clap::{Arg, ArgAction, ArgMatches, Command, Error};
use std::alloc::{AllocError, Global};

// What the words after the program's name may be: `[--main NAME] FOLDER SCRIPT...`.
fn command<'a>(alloc: Global) -> Result<Command<'a>, AllocError>
    ensures { IfOk result (λ c. app_of c ≡ slicer_app) }
{
    let main = Arg::new(alloc, "main").long("main").action(ArgAction::Set);
    let folder = Arg::new(alloc, "folder")
        .required(true)
        .action(ArgAction::Set);
    let scripts = Arg::new(alloc, "script")
        .required(true)
        .action(ArgAction::Append);
    let bare = Command::new(alloc, "slicer").no_binary_name(true);
    let with_main = bare.arg(main)?;
    let with_folder = with_main.arg(folder)?;
    let whole = with_folder.arg(scripts)?;
    Ok(whole)
}

/// The matches of the words, where the command takes them. Where it does, no other error than want of memory comes.
pub fn matches_of_words<'a>(alloc: Global, words: &'a [String]) -> Result<ArgMatches<'a>, Error>
    ensures taken { IfOk result (λ m. asked (map string_bytes words.entry.now) ≡ read_of m) }
    ensures untaken { IfErr result (λ e. (kind_of e ≡ ErrorKind.OutOfMemory) ⊎ (asked (map string_bytes words.entry.now) ≡ None)) }
{
    let command = command(alloc)?;
    command.try_get_matches_from(words)
}
