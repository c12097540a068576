//! The program as a function of its words, its files and two streams.

ghost use Rattle.std.specs.Prelude.{◌≡◌, ◌≢◌, ◌≤◌, ◌⊎◌, ◌||◌, true, [], IfErr, OnErr, OnOk, map, string_bytes};
ghost use Rattle.cli.specs.Asks.{IsInRange, Run, order_of};
ghost use Rattle.image_commands.specs.Hints.{AreHints, has_hints};
ghost use Rattle.image_commands.specs.declared.fault.Fault.TheVariants.{Memory};
ghost use Rattle.tracer.specs.Inside.{EndsShort, IsWriteFault};
ghost use Rattle.tracer.specs.Program.{IsAnswer, IsAnswered, IsCause, IsDone, IsFault, IsHalfPrinted, IsShort, IsTold, Leaves};

use crate::draw::draw_scenario;
use crate::live_runs::live_scenario;
use crate::styled_runs::tell_scenario;
use cli::{Request, parse_words};
use hints::command_words;
use image_commands::{
    Fault, Files, Loaded, Site, Stream, check_image, disassemble_image, explain_image, hints_in,
    load_scenario, print_or_tell, write_converted, write_image, write_machine_code, write_packed,
};
use listing::page_of;
use runner::run;
use scenario::Allowed;
use std::alloc::Global;
use std::convert::AsStr;
use std::sync::Wait;
use std::thread::Threads;

/// Carries out the orders of a scenario, and writes the refused lines, the trace and the report into an empty text. If memory
/// runs out, the text may have refused lines.
fn run_scenario<F: Files>(
    alloc: Global,
    path: &str,
    files: &mut F,
    site: &mut Site,
    text: &mut String,
) -> Result<(), Fault>
    requires { string_bytes text.old ≡ [] }
    ensures report { OnOk result (IsAnswer (F.content files.old) (Run path.now) (string_bytes text.new)) }
    ensures same { F.content files.new ≡ F.content files.old }
    ensures fault { IfErr result (IsFault (F.content files.old) (F.failed files.new) (Run path.now)) }
    ensures short { IfErr result (λ f. (string_bytes text.new ≡ [])
        ⊎ ((f ≡ Memory) × IsShort (F.content files.old) (Run path.now) (string_bytes text.new))) }
{
    let Loaded { scenario, images } = load_scenario(alloc, path, Allowed::All, files, site)?;
    run(alloc, &scenario, images, text, &mut site.note)?;
    Ok(())
}

/// Carries out a request without a thread, and writes what is to be printed into an empty text.
fn answer_alone<F: Files>(
    alloc: Global,
    request: Request<'_>,
    files: &mut F,
    site: &mut Site,
    text: &mut String,
) -> Result<(), Fault>
    requires range { IsInRange (order_of request) }
    requires empty { string_bytes text.old ≡ [] }
    ensures report { OnOk result (IsAnswer (F.content files.old) (order_of request.entry) (string_bytes text.new)) }
    ensures left { OnOk result (Leaves (order_of request.entry)
        (F.content files.old) (F.content files.new)) }
    ensures fault { IfErr result (IsWriteFault F.may_be_one (F.content files.old) (F.failed files.new) (order_of request.entry)) }
    ensures kept { OnErr result (F.content files.new ≡ F.content files.old) }
    ensures short { IfErr result (λ f. (string_bytes text.new ≡ [])
        ⊎ ((f ≡ Memory) × IsShort (F.content files.old) (order_of request.entry) (string_bytes text.new))) }
    ensures either { (F.content files.new ≡ F.content files.old) ⊎ (string_bytes text.new ≡ []) }
{
    match request {
        Request::Run { scenario } => run_scenario(alloc, scenario, files, site, text),
        Request::Tell {
            scenario,
            json,
            names,
        } => {
            *text = tell_scenario(alloc, scenario, json, names, files, site)?;
            Ok(())
        }
        // No thread can be started.
        Request::Live { .. } => Err(Fault::Memory),
        Request::Draw {
            scenario,
            picture,
            only_messages,
        } => draw_scenario(alloc, scenario, picture, only_messages, files, site),
        Request::Check { image } => {
            let accepted = check_image(alloc, image, files, site)?;
            *text = accepted.to_string(alloc)?;
            Ok(())
        }
        Request::Asm {
            source,
            image,
            state,
            form,
        } => write_image(alloc, source, image, state, form, files, site),
        Request::Explain { image } => {
            *text = explain_image(alloc, image, files, site)?;
            Ok(())
        }
        Request::Why { rule } => {
            *text = String::from_str(alloc, page_of(rule))?;
            Ok(())
        }
        Request::Pack { code, image, asked } => write_packed(
            alloc, code, image, asked, files, site,
        ),
        Request::Dis { image } => {
            *text = disassemble_image(alloc, image, files, site)?;
            Ok(())
        }
        Request::Native { image, code } => write_machine_code(alloc, image, code, files, site),
        Request::Migrate {
            image,
            state,
            converted,
        } => write_converted(alloc, image, state, converted, files, site),
    }
}

/// Carries out a request, and writes what is to be printed into an empty text.
fn answer<R: Threads + Wait + Sync, F: Files>(
    rt: &R,
    alloc: Global,
    request: Request<'_>,
    files: &mut F,
    site: &mut Site,
    text: &mut String,
) -> Result<(), Fault>
    requires range { IsInRange (order_of request) }
    requires empty { string_bytes text.old ≡ [] }
    ensures report { OnOk result (IsAnswer (F.content files.old) (order_of request.entry) (string_bytes text.new)) }
    ensures left { OnOk result (Leaves (order_of request.entry)
        (F.content files.old) (F.content files.new)) }
    ensures fault { IfErr result (IsWriteFault F.may_be_one (F.content files.old) (F.failed files.new) (order_of request.entry)) }
    ensures kept { OnErr result (F.content files.new ≡ F.content files.old) }
    ensures short { IfErr result (λ f. (string_bytes text.new ≡ [])
        ⊎ ((f ≡ Memory) × IsShort (F.content files.old) (order_of request.entry) (string_bytes text.new))) }
    ensures either { (F.content files.new ≡ F.content files.old) ⊎ (string_bytes text.new ≡ []) }
{
    match request {
        Request::Live {
            scenario,
            workers,
            budget,
        } => live_scenario(rt, alloc, scenario, workers, budget, files, site, text),
        request => answer_alone(alloc, request, files, site, text),
    }
}

/// Carries out what the words ask for without a thread, and writes what is to be printed into an empty text.
fn run_command_alone<S: AsStr, F: Files>(
    alloc: Global,
    words: &[S],
    files: &mut F,
    site: &mut Site,
    text: &mut String,
) -> Result<(), Fault>
    requires empty { string_bytes text.old ≡ [] }
    ensures report { OnOk result (IsAnswered (map S.text words.now)
        (F.content files.old) (F.content files.new) (string_bytes text.new)) }
    ensures fault { IfErr result (IsCause (map S.text words.now) (F.content files.old) F.may_be_one (F.failed files.new)) }
    ensures kept { OnErr result (F.content files.new ≡ F.content files.old) }
    ensures short { IfErr result (λ f. (string_bytes text.new ≡ [])
        ⊎ ((f ≡ Memory) × EndsShort (map S.text words.now) (F.content files.old) (string_bytes text.new))) }
    ensures either { (F.content files.new ≡ F.content files.old) ⊎ (string_bytes text.new ≡ []) }
{
    let request = parse_words(alloc, words)?;
    answer_alone(alloc, request, files, site, text)
}

/// Carries out what the words ask for, and writes what is to be printed into an empty text.
fn run_command<R: Threads + Wait + Sync, S: AsStr, F: Files>(
    rt: &R,
    alloc: Global,
    words: &[S],
    files: &mut F,
    site: &mut Site,
    text: &mut String,
) -> Result<(), Fault>
    requires empty { string_bytes text.old ≡ [] }
    ensures report { OnOk result (IsAnswered (map S.text words.now)
        (F.content files.old) (F.content files.new) (string_bytes text.new)) }
    ensures fault { IfErr result (IsCause (map S.text words.now) (F.content files.old) F.may_be_one (F.failed files.new)) }
    ensures kept { OnErr result (F.content files.new ≡ F.content files.old) }
    ensures short { IfErr result (λ f. (string_bytes text.new ≡ [])
        ⊎ ((f ≡ Memory) × EndsShort (map S.text words.now) (F.content files.old) (string_bytes text.new))) }
    ensures either { (F.content files.new ≡ F.content files.old) ⊎ (string_bytes text.new ≡ []) }
{
    let request = parse_words(alloc, words)?;
    answer(rt, alloc, request, files, site, text)
}

/// Carries out one command line, without the program's own name, and answers the exit status: 0; 2 for
/// usage; 3 for a refused image or text; 4 for a refused scenario; 5 if memory ran out; 6 for input or
/// output.
///
/// A report goes to `out`, the line of a fault to `err`. With the word `--hints` before the command `err` also gets hints for
/// people, below that line, or alone if the command was carried out.
pub fn sblog<R: Threads + Wait + Sync, S: AsStr, F: Files, O: Stream, E: Stream>(
    rt: &R,
    alloc: Global,
    words: &[S],
    files: &mut F,
    out: &mut O,
    err: &mut E,
) -> u8
    // With status 0 the words ask for an order that was carried out, its text was printed, and `err` got nothing but hints, if
    // the words ask for them.
    ensures done { result ≡ 0 → IsDone (map S.text words.now) (F.content files.old) (F.content files.new)
        (O.contents out.old) (O.contents out.new) × AreHints E.contents E.failed (has_hints (map S.text words.now)) err.old err.new }
    // With any other status the words come to a fault of this status, which was told, alone or with hints below it, unless `err`
    // has failed.
    ensures told { result ≢ 0 → IsTold (map S.text words.now) (F.content files.old) F.may_be_one
        (F.failed files.new || O.failed out.new) (E.failed err.new) (E.contents err.old) (E.contents err.new) result }
    // Then no file changed, and nothing was printed, except by a run that memory ended or if `out` has failed.
    ensures kept { result ≢ 0 → F.content files.new ≡ F.content files.old }
    ensures silent { result ≢ 0 → (out.new ≡ out.old) ⊎ IsHalfPrinted (map S.text words.now) (F.content files.old)
        (O.failed out.new) (E.failed err.new) (O.contents out.old) (O.contents out.new) result }
    ensures status { (result ≡ 0) ⊎ ((2 ≤ result) × (result ≤ 6)) }
{
    let (hints, command) = hints_in(words);
    let (mut text, mut site) = (String::new(alloc), Site::new(alloc));
    site.expect(command_words(command));
    let ended = run_command(rt, alloc, command, files, &mut site, &mut text);
    print_or_tell(alloc, ended, text.as_str(), hints, &site, out, err)
}

/// As [`sblog`], if no thread can be started: `live` ends as if memory ran out.
pub fn sblog_alone<S: AsStr, F: Files, O: Stream, E: Stream>(
    alloc: Global,
    words: &[S],
    files: &mut F,
    out: &mut O,
    err: &mut E,
) -> u8
    // With status 0 the words ask for an order that was carried out, its text was printed, and `err` got nothing but hints, if
    // the words ask for them.
    ensures done { result ≡ 0 → IsDone (map S.text words.now) (F.content files.old) (F.content files.new)
        (O.contents out.old) (O.contents out.new) × AreHints E.contents E.failed (has_hints (map S.text words.now)) err.old err.new }
    // With any other status the words come to a fault of this status, which was told, alone or with hints below it, unless `err`
    // has failed.
    ensures told { result ≢ 0 → IsTold (map S.text words.now) (F.content files.old) F.may_be_one
        (F.failed files.new || O.failed out.new) (E.failed err.new) (E.contents err.old) (E.contents err.new) result }
    // Then no file changed, and nothing was printed, except by a run that memory ended or if `out` has failed.
    ensures kept { result ≢ 0 → F.content files.new ≡ F.content files.old }
    ensures silent { result ≢ 0 → (out.new ≡ out.old) ⊎ IsHalfPrinted (map S.text words.now) (F.content files.old)
        (O.failed out.new) (E.failed err.new) (O.contents out.old) (O.contents out.new) result }
    ensures status { (result ≡ 0) ⊎ ((2 ≤ result) × (result ≤ 6)) }
{
    let (hints, command) = hints_in(words);
    let (mut text, mut site) = (String::new(alloc), Site::new(alloc));
    site.expect(command_words(command));
    let ended = run_command_alone(alloc, command, files, &mut site, &mut text);
    print_or_tell(alloc, ended, text.as_str(), hints, &site, out, err)
}
