//! Worked runs in which a node dies, by the moment of its death.

ghost use Rattle.cluster.specs.WorkedDeaths.{AllHaveToAnswer, DiesAtCheckpoint, DiesWhileCollecting, NumberIsLost};

/// A node dies before the RSN of its first message is recorded, and after that of its second is. It
/// comes back with neither message, nothing that it sent since was released, and both messages are
/// sent again.
pub fn number_is_lost()
    ensures { NumberIsLost }
{}

/// A node dies again while it collects. What it was told before no longer counts.
pub fn dies_while_collecting()
    ensures { DiesWhileCollecting }
{}

/// A node dies after the bytes of its checkpoint are made: once before they are durable, once
/// after.
pub fn dies_at_checkpoint()
    ensures { DiesAtCheckpoint }
{}

/// A node isn't up until all its peers have answered its Resume.
pub fn all_have_to_answer()
    ensures { AllHaveToAnswer }
{}
