//! The answer to a command line.

ghost use Rattle.std.specs.Prelude.{◌≡◌, IfErr, IfOk};
ghost use Rattle.page_calls.specs.Calls.{written_bytes, whole_of};
ghost use Rattle.page_calls.specs.declared.misfit.Misfit.TheVariants.{Memory};

use crate::misfit::Misfit;
use crate::shelf::ShelvedFile;
use std::alloc::Global;

/// The status, what went to the two streams, and the file that was written.
#[derive(Drop)]
pub struct PageAnswer {
    pub status: u8,
    pub printed: String,
    pub told: String,
    /// The file that was written, if one was.
    pub written: Option<ShelvedFile>,
}

impl PageAnswer {
    /// The bytes of the file that was written, or none.
    pub fn file(&self) -> &[u8]
        ensures { result.now ≡ written_bytes self.now.written }
    {
        match &self.written {
            Some(file) => file.bytes.as_slice(),
            None => b"".as_slice(),
        }
    }

    /// What was printed, what was told and the file, one after the other.
    pub fn whole(&self, alloc: Global) -> Result<Vec<u8>, Misfit>
        ensures whole { IfOk result (λ v. v.items ≡ whole_of self.now) }
        ensures fault { IfErr result (λ e. e ≡ Memory) }
    {
        let mut whole = self.printed.as_bytes().to_vec(alloc)?;
        whole.extend_from_slice(self.told.as_bytes())?;
        whole.extend_from_slice(self.file())?;
        Ok(whole)
    }
}
