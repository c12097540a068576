//! A command line over files in memory.

ghost use Rattle.std.specs.Prelude.{◌≡◌, ◌≤◌, map, string_bytes};
ghost use Rattle.page_calls.specs.Calls.{IsAnswer};

use crate::answer::PageAnswer;
use crate::sheet::Sheet;
use crate::shelf::{Shelf, Stock};
use std::alloc::Global;
use std::marker::{Brand, PhantomData};
use tracer::sblog_alone;

/// Carries out a command line over the files of `S`.
fn carry_out_in<S: Stock>(
    alloc: Global,
    words: Vec<String>,
    names: Vec<String>,
    files: Vec<Vec<u8>>,
) -> PageAnswer
    requires names { map string_bytes names.items ≡ S.names }
    requires files { map (λ v. v.items) files.items ≡ S.files }
    ensures answer { IsAnswer (map string_bytes words.items) (map string_bytes names.items) (map (λ v. v.items) files.items) result }
    ensures status { result.status ≤ 6 }
{
    let mut shelf: Shelf<S> = Shelf {
        alloc,
        names,
        files,
        written: None,
        failed: false,
        stock: PhantomData,
    };
    let mut out = Sheet::new(alloc);
    let mut err = Sheet::new(alloc);
    let status = sblog_alone(alloc, words.as_slice(), &mut shelf, &mut out, &mut err);
    PageAnswer {
        status,
        printed: out.text,
        told: err.text,
        written: shelf.written,
    }
}

/// Carries out a command line.
pub fn carry_out(
    alloc: Global,
    words: Vec<String>,
    names: Vec<String>,
    files: Vec<Vec<u8>>,
) -> PageAnswer
    ensures answer { IsAnswer (map string_bytes words.items) (map string_bytes names.items) (map (λ v. v.items) files.items) result }
    ensures status { result.status ≤ 6 }
{
    carry_out_in::<Brand>(alloc, words, names, files)
}
