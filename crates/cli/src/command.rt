//! The command line for `clap`.

ghost use Rattle.std.specs.Prelude.{◌≡◌, IfOk, codes, false, true};
ghost use Rattle.clap.specs.Words.{App, Rule, app_of, rule_of, with_rule, with_subcommand};
ghost use Rattle.clap.specs.declared.builder.Command.TheViews.{out-Command as fields_of};
ghost use Rattle.cli.specs.Program.{asm_app, check_app, dis_app, draw_app, explain_app, flag_rule, live_app, migrate_app, native_app, number_rule, pack_app, required_rule, run_app, sblog_app, text_rule, top_app};

use clap::builder::ValueParser;
use clap::{Arg, ArgAction, Command};
use limits::{STATE_BYTES, WORKERS};
use std::alloc::{AllocError, Global};

/// The greatest budget of a worker, in calls.
pub const BUDGET: u64 = 1_000_000;

/// The help of a scenario.
const ORDERS: &str = "Text that declares processes and gives orders";

/// The help of an image.
const IMAGE: &str = "Image file";

/// The help of an image that is made.
const WRITTEN: &str = "Image file to write";

/// A required argument with one value.
fn required<'a>(alloc: Global, id: &'a str, help: &'a str) -> Arg<'a>
    ensures rule { rule_of result ≡ required_rule id.entry.now }
    ensures local { result.global ≡ false }
{
    Arg::new(alloc, id)
        .required(true)
        .action(ArgAction::Set)
        .help(help)
}

/// An option whose value is a number from `low` to `high`.
fn number<'a>(
    alloc: Global,
    id: &'a str,
    name: &'a str,
    low: u64,
    high: u64,
    help: &'a str,
) -> Arg<'a>
    ensures rule { rule_of result ≡ number_rule id.entry.now true low high }
    ensures local { result.global ≡ false }
{
    required(alloc, id, help)
        .long(id)
        .value_name(name)
        .value_parser(ValueParser::Unsigned(low, high))
}

/// An option without a value.
fn flag<'a>(alloc: Global, id: &'a str, help: &'a str) -> Arg<'a>
    ensures rule { rule_of result ≡ flag_rule id.entry.now }
    ensures local { result.global ≡ false }
{
    Arg::new(alloc, id)
        .long(id)
        .action(ArgAction::SetTrue)
        .help(help)
}

/// An option whose value is a text.
fn text<'a>(alloc: Global, id: &'a str, name: &'a str, help: &'a str) -> Arg<'a>
    ensures rule { rule_of result ≡ text_rule id.entry.now }
    ensures local { result.global ≡ false }
{
    required(alloc, id, help)
        .required(false)
        .long(id)
        .value_name(name)
}

/// The option `--state` of an image that may have a length without it.
fn state<'a>(alloc: Global, help: &'a str) -> Arg<'a>
    ensures rule { rule_of result ≡ number_rule (codes "state") false 0 STATE_BYTES }
    ensures local { result.global ≡ false }
{
    number(alloc, "state", "N", 0, STATE_BYTES as u64, help).required(false)
}

/// The option `--form` of an image: 1, 2 or 3.
fn form<'a>(alloc: Global, help: &'a str) -> Arg<'a>
    ensures rule { rule_of result ≡ number_rule (codes "form") false 1 3 }
    ensures local { result.global ≡ false }
{
    number(alloc, "form", "F", 1, 3, help).required(false)
}

/// Adds an argument to a command, unless the command failed before.
fn with<'a>(to: Result<Command<'a>, AllocError>, arg: Arg<'a>) -> Result<Command<'a>, AllocError>
    ensures shape { (app : App) (rule : Rule) → arg.entry.global ≡ false → rule_of arg.entry ≡ rule
        → IfOk to.entry (λ c. app_of c ≡ app) → IfOk result (λ c. app_of c ≡ with_rule app rule) }
    ensures local { arg.entry.global ≡ false → IfOk to.entry (λ c. (fields_of c).has_globals ≡ false)
        → IfOk result (λ c. (fields_of c).has_globals ≡ false) }
{
    match to {
        Ok(command) => command.arg(arg),
        Err(e) => Err(e),
    }
}

/// Adds a command below another, unless either failed before.
fn joined<'a>(
    to: Result<Command<'a>, AllocError>,
    one: Result<Command<'a>, AllocError>,
) -> Result<Command<'a>, AllocError>
    ensures { (app below : App) → IfOk one.entry (λ c. (fields_of c).has_globals ≡ false)
        → IfOk one.entry (λ c. app_of c ≡ below) → IfOk to.entry (λ c. app_of c ≡ app)
        → IfOk result (λ c. app_of c ≡ with_subcommand app below.top) }
{
    match to {
        Ok(to) => match one {
            Ok(one) => to.subcommand(one),
            Err(e) => Err(e),
        },
        Err(e) => Err(e),
    }
}

fn run<'a>(alloc: Global) -> Result<Command<'a>, AllocError>
    ensures shape { IfOk result (λ c. app_of c ≡ run_app) }
    ensures local { IfOk result (λ c. (fields_of c).has_globals ≡ false) }
{
    let bare = Ok(Command::new(alloc, "run").about(
        "Carries out a scenario, and prints its trace and report",
    ));
    let scenario = with(bare, required(alloc, "SCENARIO", ORDERS));
    let json = with(scenario, flag(alloc, "json", "Prints lines of JSON"));
    let help = "Prints the names of processes in place of their numbers";
    with(json, flag(alloc, "names", help))
}

fn live<'a>(alloc: Global) -> Result<Command<'a>, AllocError>
    ensures shape { IfOk result (λ c. app_of c ≡ live_app) }
    ensures local { IfOk result (λ c. (fields_of c).has_globals ≡ false) }
{
    let bare = Ok(Command::new(alloc, "live").about(
        "Has N workers carry out the inputs of a scenario, each at most about B calls",
    ));
    let inputs = "Text that declares processes and hands in inputs";
    let scenario = with(bare, required(alloc, "SCENARIO", inputs));
    let count = "Workers, 1 to 16";
    let workers = with(
        scenario,
        number(alloc, "workers", "N", 1, WORKERS as u64, count),
    );
    let calls = "Calls of each worker, 1 to 1000000";
    with(workers, number(alloc, "budget", "B", 1, BUDGET, calls))
}

fn draw<'a>(alloc: Global) -> Result<Command<'a>, AllocError>
    ensures shape { IfOk result (λ c. app_of c ≡ draw_app) }
    ensures local { IfOk result (λ c. (fields_of c).has_globals ≡ false) }
{
    let bare = Ok(Command::new(alloc, "draw").about(
        "Carries out a scenario, and writes its picture as an SVG file",
    ));
    let scenario = with(bare, required(alloc, "SCENARIO", ORDERS));
    let picture = with(scenario, required(alloc, "OUT", "SVG file to write"));
    let help = "Leaves out packets of numbers and acknowledgements, and their columns";
    with(picture, flag(alloc, "messages", help))
}

fn check<'a>(alloc: Global) -> Result<Command<'a>, AllocError>
    ensures shape { IfOk result (λ c. app_of c ≡ check_app) }
    ensures local { IfOk result (λ c. (fields_of c).has_globals ≡ false) }
{
    Command::new(alloc, "check")
        .about("Verifies an image and prints how many instructions it has")
        .arg(required(alloc, "IMAGE", IMAGE))
}

fn explain<'a>(alloc: Global) -> Result<Command<'a>, AllocError>
    ensures shape { IfOk result (λ c. app_of c ≡ explain_app) }
    ensures local { IfOk result (λ c. (fields_of c).has_globals ≡ false) }
{
    let bare = Ok(Command::new(alloc, "explain").about(
        "Lists an image with what is known of its registers, and why it is refused",
    ));
    let help = "Image file; with --why a rule, V1 to V10";
    let image = with(bare, required(alloc, "IMAGE", help));
    let help = "Prints what a rule means, and C that breaks it with the lines that mend that";
    with(image, flag(alloc, "why", help))
}

fn asm<'a>(alloc: Global) -> Result<Command<'a>, AllocError>
    ensures shape { IfOk result (λ c. app_of c ≡ asm_app) }
    ensures local { IfOk result (λ c. (fields_of c).has_globals ≡ false) }
{
    let bare = Ok(Command::new(alloc, "asm").about(
        "Writes the image of an assembler text, with N bytes of state",
    ));
    let source = with(bare, required(alloc, "SRC", "Assembler text"));
    let image = with(source, required(alloc, "OUT", WRITTEN));
    let bytes = "Bytes of state, 0 to 1024";
    let state = with(
        image,
        number(alloc, "state", "N", 0, STATE_BYTES as u64, bytes),
    );
    let help = "Form of the image, 1, 2 or 3 [default: 1]";
    with(state, form(alloc, help))
}

fn pack<'a>(alloc: Global) -> Result<Command<'a>, AllocError>
    ensures shape { IfOk result (λ c. app_of c ≡ pack_app) }
    ensures local { IfOk result (λ c. (fields_of c).has_globals ≡ false) }
{
    let bare = Ok(Command::new(alloc, "pack").about(
        "Writes the image of a function of an object file, or of the bytes of its code",
    ));
    let help = "Object file (clang --target=bpf -c), or bytes of the code alone";
    let code = with(bare, required(alloc, "CODE", help));
    let image = with(code, required(alloc, "OUT", WRITTEN));
    let help =
        "Bytes of state, 0 to 1024 [default: those of the type that the second argument points to]";
    let with_state = with(image, state(alloc, help));
    let help = "Form of the image, 1, 2 or 3 [default: 3 of an object file, else 1]";
    let with_form = with(with_state, form(alloc, help));
    let help = "Function of the object file, if it has several";
    with(with_form, text(alloc, "function", "NAME", help))
}

fn dis<'a>(alloc: Global) -> Result<Command<'a>, AllocError>
    ensures shape { IfOk result (λ c. app_of c ≡ dis_app) }
    ensures local { IfOk result (λ c. (fields_of c).has_globals ≡ false) }
{
    Command::new(alloc, "dis")
        .about("Prints the assembler text of an image")
        .arg(required(alloc, "IMAGE", IMAGE))
}

fn native<'a>(alloc: Global) -> Result<Command<'a>, AllocError>
    ensures shape { IfOk result (λ c. app_of c ≡ native_app) }
    ensures local { IfOk result (λ c. (fields_of c).has_globals ≡ false) }
{
    let bare = Ok(Command::new(alloc, "native").about(
        "Writes the x86-64 machine code of an image",
    ));
    let image = with(bare, required(alloc, "IMAGE", IMAGE));
    with(
        image,
        required(alloc, "OUT", "File to write the machine code to"),
    )
}

fn migrate<'a>(alloc: Global) -> Result<Command<'a>, AllocError>
    ensures shape { IfOk result (λ c. app_of c ≡ migrate_app) }
    ensures local { IfOk result (λ c. (fields_of c).has_globals ≡ false) }
{
    let bare = Ok(Command::new(alloc, "migrate").about(
        "Calls a handler on the bytes of a state, and writes the state that it leaves",
    ));
    let image = with(bare, required(alloc, "IMAGE", IMAGE));
    let help = "File of the state to convert, at most 1024 bytes";
    let state = with(image, required(alloc, "STATE", help));
    with(state, required(alloc, "OUT", "File to write the state to"))
}

/// The program without its commands. Its own name is not among the words.
fn program<'a>(alloc: Global) -> Result<Command<'a>, AllocError>
    ensures { IfOk result (λ c. app_of c ≡ top_app) }
{
    Command::new(alloc, "sblog")
        .about("Runs verified message handlers")
        .no_binary_name(true)
        .subcommand_required(true)
        .bin_name("sblog")
}

/// The whole command line.
pub(crate) fn sblog<'a>(alloc: Global) -> Result<Command<'a>, AllocError>
    ensures { IfOk result (λ c. app_of c ≡ sblog_app) }
{
    let with_run = joined(program(alloc), run(alloc));
    let with_live = joined(with_run, live(alloc));
    let with_draw = joined(with_live, draw(alloc));
    let with_check = joined(with_draw, check(alloc));
    let with_explain = joined(with_check, explain(alloc));
    let with_asm = joined(with_explain, asm(alloc));
    let with_pack = joined(with_asm, pack(alloc));
    let with_dis = joined(with_pack, dis(alloc));
    let with_native = joined(with_dis, native(alloc));
    joined(with_native, migrate(alloc))
}
