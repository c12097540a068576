//! Laws of reading the bytes of instructions.

ghost use Rattle.x86.specs.Readings.{ReadsBack, TellOne};
ghost use Rattle.x86.specs.Runs.{RunOneWay};

/// From the bytes of an instruction the instruction is read, and the bytes after it are left.
pub fn bytes_are_read_back()
    ensures { ReadsBack }
{}

/// No bytes begin with those of two instructions.
pub fn bytes_tell_one_instruction()
    ensures { TellOne }
{}

/// For any bytes as code, two runs from one place and state return in one state.
pub fn code_runs_one_way()
    ensures { RunOneWay }
{}
