//! The program `sblog`: the library's function over the real files, streams and arguments.
#![tactic(auto)]

use image_commands::{Faults, Reports, SystemFiles};
use std::alloc::Global;
use std::cell::Cell;
use std::process::ExitCode;
use std::{env, io, process};
use tracer::{Fault, Usage, Written, sblog};

/// The words of the command line, without the program's own name.
fn arguments(rt: &HostRuntime) -> io::Result<Vec<String>> {
    let mut words: Vec<String> = env::args(rt)?.collect(rt.alloc())?;
    if !words.is_empty() {
        let _program = words.remove(0);
    }
    Ok(words)
}

/// The fault of arguments that could not be read: memory ran out, or one is not UTF-8.
fn argument_fault(alloc: Global, e: io::Error) -> Fault {
    if e.kind() == io::ErrorKind::OutOfMemory {
        return Fault::Memory;
    }
    match Usage::not_utf8(alloc) {
        Ok(usage) => Fault::Usage(usage),
        Err(_) => Fault::Memory,
    }
}

fn main(rt: HostRuntime) -> ExitCode {
    let alloc = rt.alloc();
    let broken = Cell::new(false);
    let mut reports = Reports {
        stream: rt.stdout(),
        broken: &broken,
    };
    let mut faults = Faults {
        stream: rt.stderr(),
        broken: &broken,
    };
    let (mut out, mut err) = (Written::new(&mut reports), Written::new(&mut faults));
    let status = match arguments(&rt) {
        Ok(words) => {
            let process = process::id(rt.process());
            let mut files = SystemFiles {
                rt: &rt,
                process,
                broken: &broken,
            };
            sblog(&rt, alloc, words.as_slice(), &mut files, &mut out, &mut err)
        }
        Err(e) => argument_fault(alloc, e).tell(&mut err),
    };
    ExitCode::from(status)
}
