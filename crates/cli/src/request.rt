//! What a command line asks for.

ghost use Rattle.std.specs.Prelude.{◌≡◌, ◌≢◌, IfErr, IfOk, [], codes, map, option_map, string_bytes};
ghost use Rattle.clap.specs.Words.{first_of, found_of, kind_of, rows_of, subcommand_rows_of};
ghost use Rattle.cli.specs.Asks.{AsksBy, AsksFor, AsksIn, Explains, Gives, GivesOrder, HasForm, HasNumber, IsInRange, IsRefusal, MayHaveForm, MayHaveState, is_set, order_of};

use crate::command::{BUDGET, sblog};
use crate::option_words::below_words;
use crate::refusal::{Usage, UsageRefusal};
use clap::error::ErrorKind;
use clap::{ArgMatches, Error};
use limits::{STATE_BYTES, WORKERS};
use std::alloc::{AllocError, Global};
use std::convert::AsStr;
use verifier::FileForm;

/// How an image is asked for. Each may be missing: the length of its state, at most 1,024, its form, and the name of an object file's
/// function.
#[derive(Clone, Copy, Debug, PartialEq, Eq)]
pub struct Packing<'a> {
    pub state: Option<u16>,
    pub form: Option<FileForm>,
    pub function: Option<&'a str>,
}

/// What a command line asks for, a variant for each command. Paths are as given.
#[derive(Clone, Copy, Debug, PartialEq, Eq)]
pub enum Request<'a> {
    /// `run SCENARIO`.
    Run {
        scenario: &'a str,
    },
    /// `run [--json] [--names] SCENARIO`, with at least one option.
    Tell {
        scenario: &'a str,
        json: bool,
        names: bool,
    },
    /// `live SCENARIO --workers N --budget B`, with N from 1 to 16 and B from 1 to 1,000,000.
    Live {
        scenario: &'a str,
        workers: u8,
        budget: u32,
    },
    /// `draw [--messages] SCENARIO OUT`.
    Draw {
        scenario: &'a str,
        picture: &'a str,
        only_messages: bool,
    },
    /// `check IMAGE`.
    Check {
        image: &'a str,
    },
    /// `explain IMAGE`.
    Explain {
        image: &'a str,
    },
    /// `explain --why RULE`.
    Why {
        rule: &'a str,
    },
    /// `asm SRC OUT --state N --form F`, with N at most 1,024; form 1 if no form is given.
    Asm {
        source: &'a str,
        image: &'a str,
        state: u16,
        form: FileForm,
    },
    /// `pack CODE OUT --state N --form F --function NAME`.
    Pack {
        code: &'a str,
        image: &'a str,
        asked: Packing<'a>,
    },
    /// `dis IMAGE`.
    Dis {
        image: &'a str,
    },
    /// `native IMAGE OUT`.
    Native {
        image: &'a str,
        code: &'a str,
    },
    /// `migrate IMAGE STATE OUT`.
    Migrate {
        image: &'a str,
        state: &'a str,
        converted: &'a str,
    },
}

/// The path of an argument.
fn path_in<'a>(matches: &ArgMatches<'a>, id: &str) -> Option<&'a str>
    ensures { option_map (λ s. s.now) result ≡ first_of id.now (rows_of (found_of matches.now)) }
{
    matches.get_str(id)
}

/// The number of an argument. Its rule refuses every number out of range; the test here makes that a fact.
fn number_in(matches: &ArgMatches<'_>, id: &str, low: u64, high: u64) -> Option<u64>
    ensures { Gives (HasNumber id.now low high (rows_of (found_of matches.now))) result }
{
    let number = matches.get_one::<u64>(id)?;
    if low <= number && number <= high {
        Some(number)
    } else {
        None
    }
}

/// Whether an option without a value was given.
fn is_set(matches: &ArgMatches<'_>, id: &str) -> bool
    ensures { result ≡ is_set id.now (rows_of (found_of matches.now)) }
{
    match path_in(matches, id) {
        Some(word) => word == "true",
        None => false,
    }
}

/// The length of the state, if it was given.
fn state_in(matches: &ArgMatches<'_>) -> Option<Option<u16>>
    ensures { Gives (MayHaveState (rows_of (found_of matches.now))) result }
{
    match path_in(matches, "state") {
        None => Some(None),
        Some(_) => {
            let number = number_in(matches, "state", 0, STATE_BYTES as u64)?;
            Some(Some(number as u16))
        }
    }
}

/// The form of the image to write, if it was given.
fn given_form_in(matches: &ArgMatches<'_>) -> Option<Option<FileForm>>
    ensures { Gives (MayHaveForm (rows_of (found_of matches.now))) result }
{
    match path_in(matches, "form") {
        None => Some(None),
        Some(_) => {
            let number = number_in(matches, "form", 1, 3)?;
            if number == 1 {
                Some(Some(FileForm::Sbi1))
            } else if number == 2 {
                Some(Some(FileForm::Sbi2))
            } else {
                Some(Some(FileForm::Sbi3))
            }
        }
    }
}

/// The form of the image to write.
fn form_in(matches: &ArgMatches<'_>) -> Option<FileForm>
    ensures { Gives (HasForm (rows_of (found_of matches.now))) result }
{
    match given_form_in(matches) {
        Some(Some(form)) => Some(form),
        Some(None) => Some(FileForm::Sbi1),
        None => None,
    }
}

fn run_in<'a>(matches: &ArgMatches<'a>) -> Option<Request<'a>>
    ensures { GivesOrder (AsksIn (codes "run") (rows_of (found_of matches.now))) result }
{
    let scenario = path_in(matches, "SCENARIO")?;
    let json = is_set(matches, "json");
    let names = is_set(matches, "names");
    if json || names {
        Some(Request::Tell {
            scenario,
            json,
            names,
        })
    } else {
        Some(Request::Run { scenario })
    }
}

fn live_in<'a>(matches: &ArgMatches<'a>) -> Option<Request<'a>>
    ensures { GivesOrder (AsksIn (codes "live") (rows_of (found_of matches.now))) result }
{
    let scenario = path_in(matches, "SCENARIO")?;
    let workers = number_in(matches, "workers", 1, WORKERS as u64)? as u8;
    let budget = number_in(matches, "budget", 1, BUDGET)? as u32;
    Some(Request::Live {
        scenario,
        workers,
        budget,
    })
}

fn draw_in<'a>(matches: &ArgMatches<'a>) -> Option<Request<'a>>
    ensures { GivesOrder (AsksIn (codes "draw") (rows_of (found_of matches.now))) result }
{
    let scenario = path_in(matches, "SCENARIO")?;
    let picture = path_in(matches, "OUT")?;
    let only_messages = is_set(matches, "messages");
    Some(Request::Draw {
        scenario,
        picture,
        only_messages,
    })
}

fn check_in<'a>(matches: &ArgMatches<'a>) -> Option<Request<'a>>
    ensures { GivesOrder (AsksIn (codes "check") (rows_of (found_of matches.now))) result }
{
    let image = path_in(matches, "IMAGE")?;
    Some(Request::Check { image })
}

fn explain_in<'a>(matches: &ArgMatches<'a>) -> Option<Request<'a>>
    ensures { GivesOrder (AsksIn (codes "explain") (rows_of (found_of matches.now))) result }
{
    let image = path_in(matches, "IMAGE")?;
    if is_set(matches, "why") {
        Some(Request::Why { rule: image })
    } else {
        Some(Request::Explain { image })
    }
}

fn asm_in<'a>(matches: &ArgMatches<'a>) -> Option<Request<'a>>
    ensures { GivesOrder (AsksIn (codes "asm") (rows_of (found_of matches.now))) result }
{
    let source = path_in(matches, "SRC")?;
    let image = path_in(matches, "OUT")?;
    let state = number_in(matches, "state", 0, STATE_BYTES as u64)? as u16;
    let form = form_in(matches)?;
    Some(Request::Asm {
        source,
        image,
        state,
        form,
    })
}

fn pack_in<'a>(matches: &ArgMatches<'a>) -> Option<Request<'a>>
    ensures { GivesOrder (AsksIn (codes "pack") (rows_of (found_of matches.now))) result }
{
    let code = path_in(matches, "CODE")?;
    let image = path_in(matches, "OUT")?;
    let state = state_in(matches)?;
    let form = given_form_in(matches)?;
    let function = path_in(matches, "function");
    let asked = Packing {
        state,
        form,
        function,
    };
    Some(Request::Pack { code, image, asked })
}

fn dis_in<'a>(matches: &ArgMatches<'a>) -> Option<Request<'a>>
    ensures { GivesOrder (AsksIn (codes "dis") (rows_of (found_of matches.now))) result }
{
    let image = path_in(matches, "IMAGE")?;
    Some(Request::Dis { image })
}

fn native_in<'a>(matches: &ArgMatches<'a>) -> Option<Request<'a>>
    ensures { GivesOrder (AsksIn (codes "native") (rows_of (found_of matches.now))) result }
{
    let image = path_in(matches, "IMAGE")?;
    let code = path_in(matches, "OUT")?;
    Some(Request::Native { image, code })
}

fn migrate_in<'a>(matches: &ArgMatches<'a>) -> Option<Request<'a>>
    ensures { GivesOrder (AsksIn (codes "migrate") (rows_of (found_of matches.now))) result }
{
    let image = path_in(matches, "IMAGE")?;
    let state = path_in(matches, "STATE")?;
    let converted = path_in(matches, "OUT")?;
    Some(Request::Migrate {
        image,
        state,
        converted,
    })
}

/// What the command `name` asks for with these matches.
fn request_in<'a>(name: &str, matches: &ArgMatches<'a>) -> Option<Request<'a>>
    ensures { GivesOrder (AsksIn name.now (rows_of (found_of matches.now))) result }
{
    match name {
        "run" => run_in(matches),
        "live" => live_in(matches),
        "draw" => draw_in(matches),
        "check" => check_in(matches),
        "explain" => explain_in(matches),
        "asm" => asm_in(matches),
        "pack" => pack_in(matches),
        "dis" => dis_in(matches),
        "native" => native_in(matches),
        "migrate" => migrate_in(matches),
        _ => None,
    }
}

/// What the matches of a whole command line ask for.
fn request_of<'a>(matches: &ArgMatches<'a>) -> Option<Request<'a>>
    ensures { GivesOrder (AsksBy (subcommand_rows_of matches.now)) result }
{
    let (name, inner) = matches.subcommand()?;
    request_in(name, inner)
}

/// The text of an error of `clap`, or a line in its place if it is empty, and further words below it.
fn text_of(alloc: Global, error: &Error, below: &str) -> Result<String, AllocError>
    ensures { IfOk result (λ text. string_bytes text ≢ []) }
{
    let mut text = error.to_string(alloc)?;
    text.push_str(below)?;
    if text.is_empty() {
        return String::from_str(alloc, "error: the command line is not taken\n");
    }
    Ok(text)
}

/// The refusal of a command line by `clap`, with further words below the error.
fn refusal_of(alloc: Global, error: &Error, below: &str) -> UsageRefusal
    ensures { Explains (kind_of error.now) result }
{
    let kind = error.kind();
    if kind == ErrorKind::OutOfMemory {
        return UsageRefusal::Memory;
    }
    match text_of(alloc, error, below) {
        Ok(text) => UsageRefusal::Usage(Usage { kind, text }),
        Err(_) => UsageRefusal::Memory,
    }
}

/// Reads the words of a command line, without the program's own name.
///
/// A refusal for usage carries the text of `clap`: what was wrong, or the help that was asked for.
pub fn parse_words<'a, S: AsStr>(alloc: Global, words: &'a [S]) -> Result<Request<'a>, UsageRefusal>
    ensures request { IfOk result (λ r. AsksFor (map S.text words.entry.now) (order_of r)) }
    ensures range { IfOk result (λ r. IsInRange (order_of r)) }
    ensures usage { IfErr result (IsRefusal (map S.text words.entry.now)) }
{
    let command = sblog(alloc)?;
    match command.try_get_matches_from(words) {
        Ok(matches) => match request_of(&matches) {
            Some(request) => Ok(request),
            None => unreachable!(),
        },
        Err(error) => Err(refusal_of(alloc, &error, below_words(words))),
    }
}
