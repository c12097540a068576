//! Rows of what instructions did on a processor. The proof checks them by computing.

ghost use Rattle.x86.specs.Worked.{AreAsked, AreDone, AreUnsaid, IsRun, long_jump, short_jump, unsaid};
ghost use Rattle.x86.specs.WorkedAccesses as accessed;
ghost use Rattle.x86.specs.WorkedComparisons as compared;
ghost use Rattle.x86.specs.WorkedForms as observed;
ghost use Rattle.x86.specs.WorkedForms.{begin};
ghost use Rattle.x86.specs.WorkedShifts as shifted;

/// For each row the definitions give the bytes that an assembler gave, and the result that a processor gave.
pub fn forms_are_as_observed()
    ensures moves { AreDone begin observed.moves }
    ensures arithmetic { AreDone begin observed.arithmetic }
    ensures comparisons { AreDone begin compared.comparisons }
    ensures shifts { AreDone begin shifted.shifts }
    ensures quotients { AreDone begin shifted.quotients }
    ensures signs { AreDone begin shifted.signs }
    ensures memory { AreDone begin accessed.memory }
    ensures jumps { AreAsked long_jump accessed.jumps }
    ensures short_jumps { AreAsked short_jump accessed.short_jumps }
    ensures program { IsRun begin accessed.program accessed.program_answer }
    ensures short_program { IsRun begin accessed.short_program accessed.short_program_answer }
{}

/// The definitions say nothing where they should say nothing.
pub fn the_rest_is_unsaid()
    ensures { AreUnsaid begin unsaid }
{}
