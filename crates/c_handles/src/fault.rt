//! Codes, by which a function of C says why it did nothing.

ghost use Rattle.std.specs.Prelude.{◌≡◌, ℕ, IfErr, IfOk};

/// Why a function did nothing.
pub trait Coded: Drop {
    /// Its number.
    ghost number_of: { Self → ℕ };

    /// Its number.
    fn number(&self) -> u32
        ensures { result ≡ number_of self.now };
}

/// The code of a result: 0, or the number of the fault.
pub fn code<F: Coded>(done: Result<(), F>) -> u32
    ensures done { IfOk done (λ _. result ≡ 0) }
    ensures fault { IfErr done (λ why. result ≡ F.number_of why) }
{
    match done {
        Ok(()) => 0,
        Err(fault) => fault.number(),
    }
}
