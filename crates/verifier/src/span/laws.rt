//! Laws of typings of form 3 and of each verdict.

ghost use Rattle.verifier.specs.declared.header.Forms.TheVariants.{Span};
ghost use Rattle.verifier.specs.ImageFile.{IsOneFileRefusal};
ghost use Rattle.verifier.specs.Span.Laws.{AreTypings, IsOneRefusal, KeepsLaws};

/// Form 3 keeps the laws that let one pass decide: frames are ordered, and a frame that says more is allowed wherever
/// one that says less is.
pub fn form_3_keeps_laws()
    ensures { KeepsLaws }
{}

/// A typing of form 3 is one that `spans` requires, and under its frames V1, V2 and V4 are kept.
pub fn typings_are_typings()
    ensures { AreTypings }
{}

/// Refused code has one rule and one slot that can be named.
pub fn span_refusals_are_one()
    ensures { IsOneRefusal }
{}

/// A refused file of form 3 has one cause that can be named, if memory doesn't run out.
pub fn span_file_refusals_are_one()
    ensures { IsOneFileRefusal Span }
{}
