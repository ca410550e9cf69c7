//! The words of a command line, read with `clap`.

ghost use Rattle.std.specs.Prelude.{◌≡◌, false, IfOk, map, string_bytes};
ghost use Rattle.std.specs.Option.{option_map};
ghost use Rattle.clap.specs.Words.{app_of, found_of, rows_of, rule_of};
ghost use Rattle.dis_words.specs.Invoked.{invoked};
ghost use Rattle.dis_words.specs.Words.{asdis_app, asked_by, command_of, intel_rule, invocation_of, is_on, source_of};

use asm_base::NoMemory;
use clap::error::ErrorKind;
use clap::{Arg, ArgAction, ArgMatches, Command};
use std::alloc::{AllocError, Global};

/// What the words ask for. The empty file is standard input.
#[derive(Clone, Copy)]
pub struct Invocation<'a> {
    pub file: &'a str,
    /// Instructions are written in Intel syntax.
    pub intel: bool,
}

/// The flag `--intel`, which is used at most once.
fn intel_flag<'a>(alloc: Global) -> Arg<'a>
    ensures rule { rule_of result ≡ intel_rule }
    ensures local { result.global ≡ false }
{
    Arg::new(alloc, "intel")
        .long("intel")
        .action(ArgAction::SetTrue)
}

/// The command that the words are read as.
fn asdis_command<'a>(alloc: Global) -> Result<Command<'a>, AllocError>
    ensures { IfOk result (λ c. app_of c ≡ asdis_app) }
{
    let intel = intel_flag(alloc);
    let file = Arg::new(alloc, "file");
    Command::new(alloc, "asdis").arg(intel)?.arg(file)
}

/// Whether a flag's value is that of a use.
fn is_on(value: Option<&str>) -> bool
    ensures { result ≡ is_on (option_map (λ text. text.now) value.entry) }
{
    match value {
        Some(text) => text == "true",
        None => false,
    }
}

/// The source that a FILE names.
fn source_of(word: &str) -> &str
    ensures { result.now ≡ source_of word.now }
{
    if word == "-" { "" } else { word }
}

/// What the matches ask for.
#[tactic(auto, unfolding(crate::specs::Words::invocation_of), using(crate::proofs::Reading::first_text))]
fn invocation_of<'a>(matches: &ArgMatches<'a>) -> Invocation<'a>
    ensures { invoked result ≡ invocation_of (rows_of (found_of matches.now)) }
{
    Invocation {
        file: match matches.get_str("file") {
            Some(word) => source_of(word),
            None => "",
        },
        intel: is_on(matches.get_str("intel")),
    }
}

/// What the words ask for, where the command takes them.
fn read_words<'a>(alloc: Global, words: &'a [String]) -> Result<Option<Invocation<'a>>, NoMemory>
    ensures { IfOk result (λ answer.
        option_map invoked answer ≡ asked_by (map string_bytes words.now)) }
{
    let command = asdis_command(alloc)?;
    match command.try_get_matches_from(words) {
        Ok(matches) => Ok(Some(invocation_of(&matches))),
        Err(error) => match error.kind() {
            ErrorKind::OutOfMemory => Err(AllocError),
            _ => Ok(None),
        },
    }
}

/// What the words ask for, where they are a command.
#[tactic(auto, unfolding(crate::specs::Words::command_of))]
pub fn read_command<'a>(
    alloc: Global,
    words: &'a [String],
) -> Result<Option<Invocation<'a>>, NoMemory>
    ensures { IfOk result (λ answer.
        option_map invoked answer ≡ command_of (map string_bytes words.now)) }
{
    match words {
        [] => Ok(None),
        _ => read_words(alloc, words),
    }
}
