//! The words of a command line, read with `clap`.

ghost use Rattle.std.specs.Prelude.{◌≡◌, false, IfOk, map, string_bytes};
ghost use Rattle.std.specs.Option.{option_map};
ghost use Rattle.clap.specs.Words.{app_of, found_of, rows_of, rule_of};
ghost use Rattle.run_words.specs.Invoked.{invoked};
ghost use Rattle.run_words.specs.Words.{as_app, asked_by, command_of, has_values, invocation_of, flag_rule, is_on, is_scfi, scfi_rule, self_load_rule, source_of, taken_of};

use crate::functions::{is_load, load_of};
use asm_base::NoMemory;
use clap::error::ErrorKind;
use clap::{Arg, ArgAction, ArgMatches, Command};
use std::alloc::{AllocError, Global};

/// What the words ask for. The empty file is standard input, and a number of functions stands in place of a file.
#[derive(Clone, Copy)]
pub struct Invocation<'a> {
    pub file: &'a str,
    pub self_load: Option<u32>,
    pub object: &'a str,
    /// Frame tables are to be worked out of functions.
    pub scfi: bool,
    pub no_warn: bool,
    pub fatal_warnings: bool,
}

/// The flag `--name`, which is used at most once.
fn flag<'a>(alloc: Global, name: &'a str) -> Arg<'a>
    ensures rule { rule_of result ≡ flag_rule name.now }
    ensures local { result.global ≡ false }
{
    Arg::new(alloc, name).long(name).action(ArgAction::SetTrue)
}

/// The option `--scfi`, which takes a value.
fn scfi_option<'a>(alloc: Global) -> Arg<'a>
    ensures rule { rule_of result ≡ scfi_rule }
    ensures local { result.global ≡ false }
{
    Arg::new(alloc, "scfi").long("scfi")
}

/// The option `--self-load`, which takes a value.
fn self_load_option<'a>(alloc: Global) -> Arg<'a>
    ensures rule { rule_of result ≡ self_load_rule }
    ensures local { result.global ≡ false }
{
    Arg::new(alloc, "self-load").long("self-load")
}

/// The command that the words are read as.
fn as_command<'a>(alloc: Global) -> Result<Command<'a>, AllocError>
    ensures { IfOk result (λ c. app_of c ≡ as_app) }
{
    let object = Arg::new(alloc, "object").short('o');
    let wide = flag(alloc, "64");
    let scfi = scfi_option(alloc);
    let no_warn = flag(alloc, "no-warn").short('W');
    let fatal_warnings = flag(alloc, "fatal-warnings");
    let self_load = self_load_option(alloc);
    let file = Arg::new(alloc, "file");
    Command::new(alloc, "as")
        .arg(object)?
        .arg(wide)?
        .arg(scfi)?
        .arg(no_warn)?
        .arg(fatal_warnings)?
        .arg(self_load)?
        .arg(file)
}

/// Whether a flag's value is that of a use.
fn is_on(value: Option<&str>) -> bool
    ensures { result ≡ is_on (option_map (λ text. text.now) value.entry) }
{
    match value {
        Some(text) => text == "true",
        None => false,
    }
}

/// The source that a FILE names.
fn source_of(word: &str) -> &str
    ensures { result.now ≡ source_of word.now }
{
    if word == "-" { "" } else { word }
}

/// What the matches ask for.
#[tactic(auto, unfolding(crate::specs::Words::invocation_of), using(crate::proofs::Reading::first_text))]
fn invocation_of<'a>(matches: &ArgMatches<'a>) -> Invocation<'a>
    ensures { invoked result ≡ invocation_of (rows_of (found_of matches.now)) }
{
    Invocation {
        file: match matches.get_str("file") {
            Some(word) => source_of(word),
            None => "",
        },
        self_load: load_of(matches.get_str("self-load")),
        object: matches.get_str("object").unwrap_or("a.out"),
        scfi: matches.get_str("scfi").is_some() || matches.get_str("self-load").is_some(),
        no_warn: is_on(matches.get_str("no-warn")),
        fatal_warnings: is_on(matches.get_str("fatal-warnings")),
    }
}

/// Whether `--scfi` takes the value, if there is one.
fn is_scfi(value: Option<&str>) -> bool
    ensures { result ≡ is_scfi (option_map (λ text. text.now) value.entry) }
{
    match value {
        Some(text) => text == "experimental",
        None => true,
    }
}

/// Whether the options take their values.
#[tactic(auto, using(crate::proofs::Reading::first_text))]
fn has_values(matches: &ArgMatches<'_>) -> bool
    ensures { result ≡ has_values (rows_of (found_of matches.now)) }
{
    is_scfi(matches.get_str("scfi"))
        && is_load(matches.get_str("self-load"), matches.get_str("file"))
}

/// What the matches ask for, where the options take their values.
#[tactic(auto, unfolding(crate::specs::Words::taken_of))]
fn taken_of<'a>(matches: &ArgMatches<'a>) -> Option<Invocation<'a>>
    ensures { option_map invoked result ≡ taken_of (rows_of (found_of matches.now)) }
{
    if has_values(matches) {
        Some(invocation_of(matches))
    } else {
        None
    }
}

/// What the words ask for, where the command takes them.
fn read_words<'a>(alloc: Global, words: &'a [String]) -> Result<Option<Invocation<'a>>, NoMemory>
    ensures { IfOk result (λ answer.
        option_map invoked answer ≡ asked_by (map string_bytes words.now)) }
{
    let command = as_command(alloc)?;
    match command.try_get_matches_from(words) {
        Ok(matches) => Ok(taken_of(&matches)),
        Err(error) => match error.kind() {
            ErrorKind::OutOfMemory => Err(AllocError),
            _ => Ok(None),
        },
    }
}

/// What the words ask for, where they are a command.
#[tactic(auto, unfolding(crate::specs::Words::command_of))]
pub fn read_command<'a>(
    alloc: Global,
    words: &'a [String],
) -> Result<Option<Invocation<'a>>, NoMemory>
    ensures { IfOk result (λ answer.
        option_map invoked answer ≡ command_of (map string_bytes words.now)) }
{
    match words {
        [] => Ok(None),
        _ => read_words(alloc, words),
    }
}
