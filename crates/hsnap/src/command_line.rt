//! The words of the command line, read by `clap`.
ghost use Rattle.std.specs.Prelude.{◌≡◌, true, false, None, Some, Err, IfOk, map, option_and_then};
ghost use Rattle.std.specs.List.{All};
ghost use Rattle.std.specs.Str.{IsUtf8};
ghost use Rattle.clap.specs.Words.{app_of, found_of, kind_of, rows_of, rule_of, new_rule};
ghost use Rattle.hsnap.specs.CommandLine.{Parts, meaning_of_parts, meaning_of_words, mode_of, number_or, page as page_part, seed as seed_part, text_of, workers as workers_part, mode as mode_part};
ghost use Rattle.hsnap.specs.inside.ClapRows.{are_right, command_app, rows};

use clap::builder::ValueParser;
use clap::error::ErrorKind;
use clap::{Arg, ArgMatches, Command, value_parser};
use hs_types::{List, NameText, NoMemory, PageSize};
use std::alloc::{AllocError, Global};

/// What the program does.
#[derive(Clone, Copy, Debug, PartialEq, Eq)]
pub enum Mode {
    /// Runs a script, one command after the other.
    Serial,
    /// Runs a generated script.
    Generated,
}

/// The meaning of a command line.
#[derive(Clone, Copy, Debug, PartialEq, Eq)]
pub struct Words {
    pub mode: Mode,
    /// How many entries a page of a listing or a report has.
    pub page: PageSize,
    /// How many lanes copy for a client.
    pub workers: u32,
    /// What a generated script is drawn from.
    pub seed: u32,
}

/// Why words have no meaning.
#[derive(Clone, Copy, Debug, PartialEq, Eq)]
pub enum WordsFault {
    /// They aren't the command line.
    Usage,
    NoMemory,
}

impl From<NoMemory> for WordsFault {
    ghost use Rattle.std.specs.Prelude.{◌≡◌};
    ghost use Rattle.hsnap.specs.declared.command_line.WordsFault.{WordsFault};

    ghost from_gives = { λ _ fault. fault ≡ WordsFault.NoMemory };

    fn from(_fault: NoMemory) -> WordsFault {
        WordsFault::NoMemory
    }
}

impl From<AllocError> for WordsFault {
    ghost use Rattle.std.specs.Prelude.{◌≡◌};
    ghost use Rattle.hsnap.specs.declared.command_line.WordsFault.{WordsFault};

    ghost from_gives = { λ _ fault. fault ≡ WordsFault.NoMemory };

    fn from(_fault: AllocError) -> WordsFault {
        WordsFault::NoMemory
    }
}

/// The mode that this word names.
fn mode_named(word: &str) -> Option<Mode>
    ensures { result ≡ mode_of word.now }
{
    match word {
        "serial" => Some(Mode::Serial),
        "gen" => Some(Mode::Generated),
        _ => None,
    }
}

/// An option that takes a number.
fn option<'a>(alloc: Global, name: &'a str, numbers: ValueParser<'a>) -> Arg<'a>
    ensures rule { rule_of result ≡ record (new_rule name.entry.now) { long = Some name.entry.now; parser = Some numbers.entry } }
    ensures local { result.global ≡ false }
{
    Arg::new(alloc, name).long(name).value_parser(numbers)
}

/// The words' command: all that isn't an option is the mode.
fn command<'a>(alloc: Global) -> Result<Command<'a>, AllocError>
    ensures { IfOk result (λ made. app_of made ≡ command_app) }
{
    let mode = Arg::new(alloc, "mode").required(true);
    let page = option(alloc, "page", value_parser!(u16).range(1..=1000));
    let workers = option(alloc, "workers", value_parser!(u32).range(1..=8));
    let seed = option(alloc, "seed", value_parser!(u32));
    Command::new(alloc, "hsnap")
        .no_binary_name(true)
        .disable_help_flag(true)
        .disable_version_flag(true)
        .arg(mode)?
        .arg(page)?
        .arg(workers)?
        .arg(seed)
}

/// The mode that was given.
fn mode_in(matches: &ArgMatches<'_>) -> Option<Mode>
    ensures { (given : Parts) → rows_of (found_of matches.now) ≡ rows given → result ≡ option_and_then mode_of (text_of mode_part given) }
{
    match matches.get_str("mode") {
        Some(word) => mode_named(word),
        None => None,
    }
}

/// The size of a page that was given, or the greatest.
fn page_in(matches: &ArgMatches<'_>) -> PageSize
    ensures { (given : Parts) → are_right given ≡ true → rows_of (found_of matches.now) ≡ rows given → result ≡ number_or 1000 (text_of page_part given) }
{
    match matches.get_one::<u16>("page") {
        Some(entries) => PageSize::new(entries).unwrap_or(PageSize::greatest()),
        None => PageSize::greatest(),
    }
}

fn workers_in(matches: &ArgMatches<'_>) -> u32
    ensures { (given : Parts) → are_right given ≡ true → rows_of (found_of matches.now) ≡ rows given → result ≡ number_or 4 (text_of workers_part given) }
{
    matches.get_one::<u32>("workers").unwrap_or(4)
}

fn seed_in(matches: &ArgMatches<'_>) -> u32
    ensures { (given : Parts) → are_right given ≡ true → rows_of (found_of matches.now) ≡ rows given → result ≡ number_or 0 (text_of seed_part given) }
{
    matches.get_one::<u32>("seed").unwrap_or(0)
}

/// What was given, where it names a mode.
fn words_in(matches: &ArgMatches<'_>) -> Option<Words>
    ensures { (given : Parts) → are_right given ≡ true → rows_of (found_of matches.now) ≡ rows given → result ≡ meaning_of_parts given }
{
    let mode = mode_in(matches)?;
    Some(Words {
        mode,
        page: page_in(matches),
        workers: workers_in(matches),
        seed: seed_in(matches),
    })
}

/// The words as `clap` takes them.
fn texts_of<'a>(alloc: Global, words: &'a [NameText]) -> Result<Vec<&'a str>, AllocError>
    ensures same { IfOk result (λ texts. map (λ text. text.now) texts.items ≡ words.entry.now) }
    ensures spelled { IfOk result (λ texts. All IsUtf8 words.entry.now) }
{
    let mut texts = Vec::new(alloc);
    for word in words {
        texts.push(word.text())?;
    }
    Ok(texts)
}

fn fault_of(error: &clap::Error) -> WordsFault
    ensures { result ≡ WordsFault.Usage → kind_of error.now ≡ ErrorKind.OutOfMemory → ⊥ }
{
    match error.kind() {
        ErrorKind::OutOfMemory => WordsFault::NoMemory,
        _ => WordsFault::Usage,
    }
}

/// Reads `MODE [--page N] [--workers N] [--seed N]`, in any order; after `--` no word is an option.
pub fn read_words(alloc: Global, words: &List<NameText>) -> Result<Words, WordsFault>
    ensures ok { IfOk result (λ read. meaning_of_words words.now ≡ Some read) }
    ensures usage { result ≡ Err WordsFault.Usage → meaning_of_words words.now ≡ None }
{
    let texts = texts_of(alloc, words.items())?;
    let command = command(alloc)?;
    match command.try_get_matches_from(texts.as_slice()) {
        Ok(matches) => words_in(&matches).ok_or(WordsFault::Usage),
        Err(error) => Err(fault_of(&error)),
    }
}
