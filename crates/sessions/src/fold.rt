//! What the handlers of images make of a history.

ghost use Rattle.std.specs.Prelude.{List};
ghost use Rattle.theorems.specs.Growth.{Grows, Starts};
ghost use Rattle.sessions.specs.Fold.{TheImage, handlers_of};

/// A handler's later messages take back nothing that it sent or put out. It sends and puts out
/// nothing before its first message.
pub fn handlers_grow()
    ensures grow { (images : List TheImage) → Grows (handlers_of images) }
    ensures start { (images : List TheImage) → Starts (handlers_of images) }
{}
