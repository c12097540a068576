//! Scenarios, and the images of their processes.

ghost use Rattle.std.specs.Prelude.{◌≡◌, IfErr, IfOk, map};
ghost use Rattle.interp.specs.Image.{image_in, the_image};
ghost use Rattle.image_commands.specs.Check.{HasImage};
ghost use Rattle.image_commands.specs.Fault.{IsFaultOfScenario, FaultOf};
ghost use Rattle.image_commands.specs.Inside.{HandlerFault, ImagesFault};
ghost use Rattle.image_commands.specs.Loads.{IsReadAs, IsLoadedAs, AreLoaded, IsUnloadable};

use crate::check::IMAGE_LIMIT;
use crate::fault::Fault;
use crate::files::Files;
use crate::look::broken_line;
use crate::site::Site;
use hints::scenario_words;
use indexmap::IndexMap;
use interp::Handler;
use scenario::{Allowed, NamedProcess, Scenario, ScenarioError, parse};
use std::alloc::Global;
use std::sync::Arc;

/// A scenario, and the handlers of its processes in their order.
#[derive(Drop)]
pub struct Loaded {
    pub scenario: Scenario,
    pub images: Vec<Arc<Handler>>,
}

/// Reads a scenario. A file that is not UTF-8 is `Fault::InputOutput`.
fn read<F: Files>(
    alloc: Global,
    path: &str,
    allowed: Allowed,
    files: &mut F,
    site: &mut Site,
) -> Result<Scenario, Fault>
    ensures read { IfOk result (IsReadAs (F.content files.old) allowed path.now) }
    ensures same { F.content files.new ≡ F.content files.old }
    ensures fault { IfErr result (FaultOf (F.content files.old) (F.failed files.new) path.now
        (IsUnloadable (F.content files.old) allowed)) }
{
    let bytes = site.read(alloc, path, None, files)?;
    let Ok(text) = str::from_utf8(bytes.as_slice()) else {
        site.words = broken_line(alloc, bytes.as_slice(), site.kind)?;
        return Err(Fault::InputOutput);
    };
    match parse(alloc, text, allowed) {
        Ok(scenario) => Ok(scenario),
        Err(error) => Err(refusal(alloc, text, allowed, error, site)),
    }
}

/// Why a text is no scenario. The site keeps what is wrong with the line that the fault names.
fn refusal(
    alloc: Global,
    text: &str,
    allowed: Allowed,
    error: ScenarioError,
    site: &mut Site,
) -> Fault
    ensures { IsFaultOfScenario error result }
{
    match error {
        ScenarioError::Memory => Fault::Memory,
        ScenarioError::Line(line) => match scenario_words(alloc, text, line, allowed) {
            Ok(words) => {
                site.words = words;
                Fault::Scenario { line }
            }
            Err(_) => Fault::Memory,
        },
    }
}

/// The handler of the image in a file, of any form.
pub fn load_handler<F: Files>(
    alloc: Global,
    path: &str,
    files: &mut F,
    site: &mut Site,
) -> Result<Handler, Fault>
    ensures loaded { IfOk result (λ h. HasImage (F.content files.old) path.now (the_image h)) }
    ensures same { F.content files.new ≡ F.content files.old }
    ensures fault { IfErr result (HandlerFault (F.content files.old) (F.failed files.new) path.now) }
{
    let bytes = site.read(alloc, path, Some(IMAGE_LIMIT), files)?;
    let handler = Handler::load(alloc, bytes.as_slice())?;
    Ok(handler)
}

/// Loads the images of processes in their order.
fn load_images<F: Files>(
    alloc: Global,
    processes: &IndexMap<String, NamedProcess>,
    files: &mut F,
    site: &mut Site,
) -> Result<Vec<Arc<Handler>>, Fault>
    ensures loaded { IfOk result (λ v. AreLoaded (F.content files.old) processes.now.entries (map image_in v.items)) }
    ensures same { F.content files.new ≡ F.content files.old }
    ensures fault { IfErr result (ImagesFault (F.content files.old) (F.failed files.new) processes.now.entries) }
{
    let mut images = Vec::new(alloc);
    for index in 0..processes.len() {
        let Some((name, process)) = processes.get_index(index) else {
            unreachable!();
        };
        site.enter(alloc, name.as_str())?;
        let image = load_handler(alloc, process.path.as_str(), files, site)?;
        images.push(Arc::new(alloc, image)?)?;
    }
    Ok(images)
}

/// Reads a scenario, and loads the images of its processes.
pub fn load_scenario<F: Files>(
    alloc: Global,
    path: &str,
    allowed: Allowed,
    files: &mut F,
    site: &mut Site,
) -> Result<Loaded, Fault>
    ensures loaded { IfOk result (λ s. IsLoadedAs (F.content files.old) allowed path.now s.scenario (map image_in s.images.items)) }
    ensures same { F.content files.new ≡ F.content files.old }
    ensures fault { IfErr result (FaultOf (F.content files.old) (F.failed files.new) path.now
        (IsUnloadable (F.content files.old) allowed)) }
{
    let scenario = read(alloc, path, allowed, files, site)?;
    let images = load_images(alloc, &scenario.processes, files, site)?;
    Ok(Loaded { scenario, images })
}
