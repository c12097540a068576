//! What every call keeps.

ghost use Rattle.std.specs.Prelude.{ℕ, List};
ghost use Rattle.world.specs.declared.entry.Entry.{Entry};
ghost use Rattle.world.specs.Handlers.{Handlers};
ghost use Rattle.world.specs.Legal.{Legal, world_of};
ghost use Rattle.theorems.specs.Invariants.Exact.{Exact};
ghost use Rattle.theorems.specs.Invariants.Gated.{Gated};
ghost use Rattle.theorems.specs.Growth.{Grows, Starts};
ghost use Rattle.theorems.specs.Single.{IsSingle};
ghost use Rattle.theorems.specs.Invariants.Sound.{Sound};
ghost use Rattle.theorems.specs.Invariants.Tidy.{Tidy};

/// Whatever fails, and however failures overlap, the world is sound.
pub fn always_sound()
    ensures { (n : ℕ) (f : Handlers) (es : List Entry) → Grows f → Legal n f es → Sound (world_of n f es) }
{}

/// Whatever fails, the world is tidy: logs and gates hold no more than was sent, and a process that
/// isn't up has those of its checkpoint.
pub fn always_tidy()
    ensures { (n : ℕ) (f : Handlers) (es : List Entry) → Grows f → Legal n f es → Tidy (world_of n f es) }
{}

/// Whatever fails, the gates have released exactly what was sent by the messages of the
/// acknowledged run.
pub fn always_gated()
    ensures { (n : ℕ) (f : Handlers) (es : List Entry) → Grows f → Starts f → Legal n f es → Gated (world_of n f es) }
{}

/// If failures come one at a time, the world is exact: what is sent, recorded and acknowledged
/// agrees.
pub fn always_exact()
    ensures { (n : ℕ) (f : Handlers) (es : List Entry) → IsSingle n f es → Exact (world_of n f es) }
{}
