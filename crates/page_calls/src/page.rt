//! A call as bytes, and its answer in a buffer.

ghost use Rattle.std.specs.Prelude.{◌≤◌, IfErr, IfOk, MatchResult};
ghost use Rattle.page_calls.specs.Calls.{Answers, IsAnswered, IsNotCall, IsPut, IsNotPut, the_call};

use crate::answer::PageAnswer;
use crate::calls::carry_out;
use crate::misfit::Misfit;
use crate::parts::{cut_bytes, cut_texts};
use std::alloc::Global;

/// How many bytes the parts of an answer have.
#[repr(C)]
#[derive(Drop)]
pub struct Sizes {
    pub printed: usize,
    pub told: usize,
    pub written: usize,
}

/// The answer to a call.
fn answer(
    alloc: Global,
    words: &[u8],
    word_lengths: &[u32],
    names: &[u8],
    name_lengths: &[u32],
    files: &[u8],
    file_lengths: &[u32],
) -> Result<PageAnswer, Misfit>
    ensures answered { IfOk result (IsAnswered (the_call words.now word_lengths.now names.now name_lengths.now files.now file_lengths.now)) }
    ensures status { IfOk result (λ a. a.status ≤ 6) }
    ensures misfit { IfErr result (IsNotCall (the_call words.now word_lengths.now names.now name_lengths.now files.now file_lengths.now)) }
{
    if name_lengths.len() != file_lengths.len() {
        return Err(Misfit::Shape);
    }
    let mut all_words = Vec::new(alloc);
    if let Err(misfit) = cut_texts(alloc, words, word_lengths, &mut all_words) {
        return Err(misfit);
    }
    let mut all_names = Vec::new(alloc);
    if let Err(misfit) = cut_texts(alloc, names, name_lengths, &mut all_names) {
        return Err(misfit);
    }
    let mut all_files = Vec::new(alloc);
    if let Err(misfit) = cut_bytes(alloc, files, file_lengths, &mut all_files) {
        return Err(misfit);
    }
    Ok(carry_out(alloc, all_words, all_names, all_files))
}

/// Writes an answer to the front of a buffer, and the lengths of its parts. A buffer that is too short stays as it was.
fn put(alloc: Global, answer: &PageAnswer, out: &mut [u8], sizes: &mut Sizes) -> Result<(), Misfit>
    ensures { MatchResult result (λ _. IsPut answer.now out.old out.new sizes.new) (IsNotPut answer.now out.old out.new sizes.old sizes.new) }
{
    let whole = answer.whole(alloc)?;
    sizes.printed = answer.printed.len();
    sizes.told = answer.told.len();
    sizes.written = answer.file().len();
    if whole.len() > out.len() {
        return Err(Misfit::Room);
    }
    out[..whole.len()].copy_from_slice(whole.as_slice());
    Ok(())
}

/// Carries out a command line, without the program's own name, over files in memory. Words, names and
/// files come one after the other, each as long as its length says. Answers the status of the program,
/// and writes what went to standard output, to standard error and into a file, one after the other. If
/// there is no room (18), `sizes` says how much is needed.
pub fn answer_call(
    alloc: Global,
    words: &[u8],
    word_lengths: &[u32],
    names: &[u8],
    name_lengths: &[u32],
    files: &[u8],
    file_lengths: &[u32],
    out: &mut [u8],
    sizes: &mut Sizes,
) -> u32
    ensures { Answers result (the_call words.now word_lengths.now names.now name_lengths.now files.now file_lengths.now) out.old out.new sizes.old sizes.new }
{
    let answered = match answer(
        alloc,
        words,
        word_lengths,
        names,
        name_lengths,
        files,
        file_lengths,
    ) {
        Ok(answer) => answer,
        Err(misfit) => return misfit.number(),
    };
    match put(alloc, &answered, out, sizes) {
        Ok(()) => u32::from(answered.status),
        Err(misfit) => misfit.number(),
    }
}
