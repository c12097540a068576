//! What a recovery keeps.

ghost use Rattle.std.specs.Prelude.{ℕ, List, ◌∷◌, ◌++◌};
ghost use Rattle.world.specs.declared.entry.Entry.{Entry};
ghost use Rattle.world.specs.Handlers.{Handlers};
ghost use Rattle.world.specs.Legal.{Legal, world_of};
ghost use Rattle.theorems.specs.Growth.{Grows};
ghost use Rattle.theorems.specs.Kept.{HasKept, KeptIsOne};
ghost use Rattle.theorems.specs.Recovery.{ComesBackExactly, RecoversKept, RunIsKept, StateIsKept, recovery};
ghost use Rattle.theorems.specs.Single.{IsSingle};

/// A recovery keeps the longest unbroken run of numbers that checkpoint and logs hold. Whatever
/// fails, there is exactly one such run.
pub fn recovers()
    ensures kept { (n : ℕ) (f : Handlers) (es : List Entry) → IsSingle n f es → RecoversKept (world_of n f es) }
    ensures some { (n : ℕ) (f : Handlers) (es : List Entry) → Grows f → Legal n f es → HasKept (world_of n f es) }
    ensures one { (n : ℕ) (f : Handlers) (es : List Entry) → KeptIsOne (world_of n f es) }
{}

/// Messages that were acknowledged without a gap before the crash are kept.
pub fn run_is_kept()
    ensures { (n : ℕ) (f : Handlers) (es more : List Entry) → IsSingle n f (es ++ more) → RunIsKept (world_of n f es) (world_of n f (es ++ more)) }
{}

/// A process that has as many messages as were kept of it has the state that it had then.
pub fn state_is_kept()
    ensures { (n : ℕ) (f : Handlers) (es more : List Entry) → IsSingle n f (es ++ more) → StateIsKept (world_of n f es) (world_of n f (es ++ more)) }
{}

/// A recovered process has exactly the state that it had after the longest unbroken run of messages
/// that its checkpoint and the senders' logs held with their numbers. Each replayed call brings it
/// one message further, and after the last one it is as long as that run.
pub fn recovers_exactly()
    ensures { (n : ℕ) (f : Handlers) (es more : List Entry) (worker p k : ℕ) → IsSingle n f (es ++ recovery worker p k ∷ more)
        → ComesBackExactly n f es more worker p k }
{}
