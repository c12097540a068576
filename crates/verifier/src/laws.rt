//! Laws of all verdicts.

ghost use Rattle.verifier.specs.declared.header.Forms.TheVariants.{Flat};
ghost use Rattle.verifier.specs.ImageFile.{IsOneFileRefusal};
ghost use Rattle.verifier.specs.Least.{AreTypings};
ghost use Rattle.verifier.specs.Verdict.{IsOneRefusal};

/// A typing by the form of the pass is a typing of forms 1 and 2.
pub fn flat_typings_are_typings()
    ensures { AreTypings }
{}

/// Refused code has one rule and one slot that can be named.
pub fn refusals_are_one()
    ensures { IsOneRefusal }
{}

/// A refused file has one cause that can be named, if memory doesn't run out.
pub fn file_refusals_are_one()
    ensures { IsOneFileRefusal Flat }
{}
