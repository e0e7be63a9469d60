//! Which command words ask for.

ghost use Rattle.std.specs.Prelude.{◌≡◌, ◌↔◌, IfOk, IfSome, IfNone, IsTrue, None, Ok, map, option_map};
ghost use Rattle.pw_time.specs.declared.zone.Clock.{Clock};
ghost use Rattle.clap.specs.Values.{kind_of};
ghost use Rattle.pw_words.specs.Words.{AsksToPipe, IsClockWord, IsKindWord, IsLimit, IsRefusal, IsSound, NamesFiles, StatesClock};
ghost use Rattle.pw_words.specs.declared.commands.Command.TheVariants as asks;
ghost use Rattle.pw_words.specs.inner.Told.{IsMonthWord, IsTableWord};

use crate::commands::{
    Adoption, Carriage, Command, Exported, Loading, Renamed, Source, Target, Verification,
};
use crate::fault::{WordsFault, fault_of};
use crate::parser::parser;
use clap::error::ErrorKind;
use clap::{ArgMatches, Error};
use pw_model::MOST_RECORDS;
use pw_record::UploadKind;
use pw_report::{MonthPage, Table};
use pw_time::Clock;
use std::alloc::{AllocError, Global};

// The most records of a book, where the words don't state it.
const USUAL_LIMIT: u32 = 1_000_000;

// Told where a word stands as an origin and is none.
const ORIGIN_FORM: &str = "an origin is http:// or https://, a host, and its port, if any";

// Told where a meter is named beside another export.
const METER_ALONE: &str = "the argument '--meter <ID>' goes with 'readings' alone";

/// The command that the words behind the program's name ask for. No word asks for `pipe`.
///
/// Else `Help` with the text of help or of the version, where they ask for it; `Words` with a text that tells why they ask
/// for no command; `Memory`.
pub fn command<'a>(alloc: Global, words: &'a [&'a str]) -> Result<Command<'a>, WordsFault>
    ensures sound { IfOk result IsSound }
    ensures read { (clock : Clock) → StatesClock (map (λ word. word.now) words.now) clock
        → result ≡ Ok (asks.Read clock) }
    ensures pipe { AsksToPipe (map (λ word. word.now) words.now)
        → result ≡ Ok (asks.Pipe None 1_000_000) }
{
    if asks_to_pipe(words) {
        return Ok(Command::Pipe {
            office: None,
            limit: USUAL_LIMIT,
        });
    }
    if let Some(clock) = stated_clock(words) {
        return Ok(Command::Read { clock });
    }
    parsed(alloc, words)
}

// The command that the parser finds in the words.
fn parsed<'a>(alloc: Global, words: &'a [&'a str]) -> Result<Command<'a>, WordsFault>
    ensures { IfOk result IsSound }
{
    let matches = match parser(alloc)?
        .no_binary_name(true)
        .try_get_matches_from(words)
    {
        Ok(matches) => matches,
        Err(error) => return Err(fault_of(alloc, &error)),
    };
    let given = Given {
        loaded: words_at(alloc, &matches, "load", "FILE")?,
        verified: words_at(alloc, &matches, "verify", "FILE")?,
        origins: words_at(alloc, &matches, "serve", "origin")?,
        renamed: renamed_in(alloc, words_at(alloc, &matches, "adopt", "rename")?)?,
    };
    match command_of(&matches, given) {
        Some(command) => Ok(command),
        None => Err(no_command(alloc, &matches)?),
    }
}

/// What is told of a word of `--origin` that is no origin: `Words`, or `Memory`.
pub fn no_origin(alloc: Global, url: &str) -> WordsFault
    ensures { IsRefusal result }
{
    match wrong_origin(alloc, url) {
        Ok(error) => fault_of(alloc, &error),
        Err(_) => WordsFault::Memory,
    }
}

fn wrong_origin(alloc: Global, url: &str) -> Result<Error, AllocError>
    ensures { IfOk result (λ e. kind_of e ≡ ErrorKind.ValueValidation) }
{
    let why = format!(in alloc; "invalid value '{url}' for '--origin <URL>': {ORIGIN_FORM}")?;
    parser(alloc)?.error(ErrorKind::ValueValidation, why.as_str())
}

// Why words that the parser takes ask for no command: a meter stands beside another table than the readings; or it asked
// for no word which a command needs, and the text is its own.
fn no_command(alloc: Global, matches: &ArgMatches<'_>) -> Result<WordsFault, AllocError> {
    let (kind, why) = match matches.subcommand() {
        Some(("export", words)) if words.get_str("meter").is_some() => {
            (ErrorKind::ArgumentConflict, METER_ALONE)
        }
        _ => (ErrorKind::MissingRequiredArgument, "a word is missing"),
    };
    let error = parser(alloc)?.error(kind, why)?;
    Ok(fault_of(alloc, &error))
}

// Whether the words are those of a conversation with nothing else stated.
fn asks_to_pipe(words: &[&str]) -> bool
    ensures { IsTrue result ↔ AsksToPipe (map (λ word. word.now) words.now) }
{
    match words {
        [] => true,
        [command] => is_word(command, "pipe"),
        _ => false,
    }
}

fn is_word(word: &str, text: &str) -> bool
    ensures { IsTrue result ↔ (word.now ≡ text.now) }
{
    word == text
}

// The clock of readouts, where the words are those of `read` and state no more than it.
fn stated_clock(words: &[&str]) -> Option<Clock>
    ensures some { IfSome result (λ clock. StatesClock (map (λ word. word.now) words.now) clock) }
    ensures none { IfNone result ((clock : Clock)
        → StatesClock (map (λ word. word.now) words.now) clock → ⊥) }
{
    match words {
        [command] if is_word(command, "read") => Some(Clock::Winter),
        [command, flag, name] if is_word(command, "read") && is_word(flag, "--clock") => {
            clock_named(name)
        }
        _ => None,
    }
}

// The words at a place of a command that takes any number there; none of other commands.
fn words_at<'a>(
    alloc: Global,
    matches: &ArgMatches<'a>,
    command: &str,
    place: &str,
) -> Result<Vec<&'a str>, AllocError> {
    let mut found = Vec::new(alloc);
    if let Some((name, words)) = matches.subcommand() {
        if name == command {
            if let Some(given) = words.get_strs(place) {
                found.extend_from_slice(given)?;
            }
        }
    }
    Ok(found)
}

// Words of which a command takes any number.
#[derive(Drop)]
struct Given<'a> {
    loaded: Vec<&'a str>,
    verified: Vec<&'a str>,
    origins: Vec<&'a str>,
    renamed: Vec<Renamed<'a>>,
}

// The names that stand in pairs: the old one, then the new one.
fn renamed_in<'a>(alloc: Global, names: Vec<&'a str>) -> Result<Vec<Renamed<'a>>, AllocError> {
    let mut renamed = Vec::new(alloc);
    for pair in names.chunks_exact(2) {
        if let [old, new] = pair {
            renamed.push(Renamed { old, new })?;
        }
    }
    Ok(renamed)
}

fn command_of<'a>(matches: &ArgMatches<'a>, given: Given<'a>) -> Option<Command<'a>>
    ensures { IfSome result IsSound }
{
    match matches.subcommand() {
        None => Some(Command::Pipe {
            office: None,
            limit: USUAL_LIMIT,
        }),
        Some(("read", words)) => Some(Command::Read {
            clock: clock_named(words.get_str("clock")?)?,
        }),
        Some(("check", words)) => Some(Command::Check {
            office: words.get_str("OFFICE")?,
            verbose: words.get_flag("verbose"),
        }),
        Some(("pipe", words)) => Some(Command::Pipe {
            office: words.get_str("OFFICE"),
            limit: limit_of(words)?,
        }),
        Some(("load", words)) => load_of(words, given.loaded),
        Some(("statement", words)) => statement_of(words),
        Some(("export", words)) => export_of(words),
        Some(("serve", words)) => serve_of(words, given.origins),
        Some(("adopt", words)) => adopt_of(words, given.renamed),
        Some(("carry", words)) => carry_of(words),
        Some(("verify", words)) => verify_of(words, given.verified),
        Some((name, words)) => month_of(month_page_named(name)?, words),
    }
}

fn load_of<'a>(words: &ArgMatches<'a>, files: Vec<&'a str>) -> Option<Command<'a>>
    ensures { IfSome result IsSound }
{
    let target = Target {
        office: words.get_str("OFFICE")?,
        store: words.get_str("STORE")?,
        limit: limit_of(words)?,
    };
    let source = source_of(words, files)?;
    Some(Command::Load(Loading { target, source }))
}

fn source_of<'a>(words: &ArgMatches<'a>, files: Vec<&'a str>) -> Option<Source<'a>>
    ensures { IfSome result NamesFiles }
{
    if let Some(list) = words.get_str("list") {
        return Some(Source::List { list });
    }
    if files.is_empty() {
        return None;
    }
    let kind = kind_named(words.get_str("KIND")?, words.get_str("meter"))?;
    Some(Source::Files { kind, files })
}

fn statement_of<'a>(words: &ArgMatches<'a>) -> Option<Command<'a>>
    ensures { IfSome result IsSound }
{
    Some(Command::Statement {
        office: words.get_str("OFFICE")?,
        store: words.get_str("STORE")?,
        account: words.get_str("ACCOUNT")?,
    })
}

fn month_of<'a>(what: MonthPage, words: &ArgMatches<'a>) -> Option<Command<'a>>
    ensures { IfSome result IsSound }
{
    Some(Command::Month {
        what,
        office: words.get_str("OFFICE")?,
        store: words.get_str("STORE")?,
        account: words.get_str("ACCOUNT")?,
        month: words.get_str("MONTH")?,
    })
}

fn export_of<'a>(words: &ArgMatches<'a>) -> Option<Command<'a>>
    ensures { IfSome result IsSound }
{
    Some(Command::Export {
        office: words.get_str("OFFICE")?,
        store: words.get_str("STORE")?,
        what: exported(table_named(words.get_str("WHAT")?)?, words.get_str("meter"))?,
    })
}

// A table, or of the readings those of a meter.
fn exported(table: Table, meter: Option<&str>) -> Option<Exported<'_>> {
    match meter {
        None => Some(Exported::Table(table)),
        Some(id) if table == Table::Readings => Some(Exported::MeterReadings(id)),
        Some(_) => None,
    }
}

fn serve_of<'a>(words: &ArgMatches<'a>, origins: Vec<&'a str>) -> Option<Command<'a>>
    ensures { IfSome result IsSound }
{
    let port = words.get_one::<u16>("port")?;
    if port == 0 {
        return None;
    }
    Some(Command::Serve {
        office: words.get_str("OFFICE")?,
        store: words.get_str("STORE")?,
        count: words.get_one::<u32>("count"),
        until_input_ends: words.get_flag("until-input-ends"),
        port,
        limit: limit_of(words)?,
        origins,
        tells: words.get_flag("tell"),
    })
}

fn adopt_of<'a>(words: &ArgMatches<'a>, renamed: Vec<Renamed<'a>>) -> Option<Command<'a>>
    ensures { IfSome result IsSound }
{
    Some(Command::Adopt(Adoption {
        office: words.get_str("OFFICE")?,
        store: words.get_str("STORE")?,
        new_office: words.get_str("NEW_OFFICE")?,
        renamed,
        dry: words.get_flag("dry-run"),
    }))
}

fn carry_of<'a>(words: &ArgMatches<'a>) -> Option<Command<'a>>
    ensures { IfSome result IsSound }
{
    Some(Command::Carry(Carriage {
        office: words.get_str("OFFICE")?,
        store: words.get_str("STORE")?,
        new_office: words.get_str("NEW_OFFICE")?,
        new_store: words.get_str("NEW_STORE")?,
    }))
}

fn verify_of<'a>(words: &ArgMatches<'a>, files: Vec<&'a str>) -> Option<Command<'a>>
    ensures { IfSome result IsSound }
{
    Some(Command::Verify(Verification {
        office: words.get_str("OFFICE")?,
        store: words.get_str("STORE")?,
        source: source_of(words, files)?,
        all: words.get_flag("all"),
    }))
}

fn limit_of(words: &ArgMatches<'_>) -> Option<u32>
    ensures { IfSome result IsLimit }
{
    let limit = words.get_one::<u32>("limit")?;
    if 1 <= limit && limit <= MOST_RECORDS {
        Some(limit)
    } else {
        None
    }
}

fn clock_named(name: &str) -> Option<Clock>
    ensures some { IfSome result (λ clock. IsClockWord clock name.now) }
    ensures none { IfNone result ((clock : Clock) → IsClockWord clock name.now → ⊥) }
{
    match name {
        "winter" => Some(Clock::Winter),
        "local" => Some(Clock::Local),
        _ => None,
    }
}

/// The kind of upload that a word names: `telegrams`, `readouts` of a meter with this id, `assignments`, `topups` or
/// `withdrawals`. None where it names none, or readouts without a meter.
pub fn kind_named<'a>(name: &str, meter: Option<&'a str>) -> Option<UploadKind<'a>>
    ensures some { IfSome result (λ kind. IsKindWord kind name.now
        (option_map (λ id. id.now) meter.entry)) }
    ensures none { IfNone result ((kind : UploadKind)
        → IsKindWord kind name.now (option_map (λ id. id.now) meter.entry) → ⊥) }
{
    match name {
        "telegrams" => Some(UploadKind::Telegrams),
        "readouts" => Some(UploadKind::Readouts(meter?.as_bytes())),
        "assignments" => Some(UploadKind::Assignments),
        "topups" => Some(UploadKind::TopUps),
        "withdrawals" => Some(UploadKind::Withdrawals),
        _ => None,
    }
}

fn table_named(name: &str) -> Option<Table>
    ensures { IfSome result (λ what. IsTableWord what name.now) }
{
    match name {
        "readings" => Some(Table::Readings),
        "energy" => Some(Table::Energies),
        "assignments" => Some(Table::Assignments),
        "topups" => Some(Table::TopUps),
        "withdrawals" => Some(Table::Withdrawals),
        "accounts" => Some(Table::Accounts),
        "falls" => Some(Table::Falls),
        "disputes" => Some(Table::Disputes),
        _ => None,
    }
}

fn month_page_named(name: &str) -> Option<MonthPage>
    ensures { IfSome result (λ what. IsMonthWord what name.now) }
{
    match name {
        "bill" => Some(MonthPage::Bill),
        "days" => Some(MonthPage::Days),
        "why" => Some(MonthPage::Why),
        _ => None,
    }
}
