//! The form of an image file.

ghost use Rattle.std.specs.Prelude.{◌≡◌};
ghost use Rattle.verifier.specs.FileForm.{file_form_of};

use regtypes::ImageForm;

/// The form of an image, by whose rules it is verified. `Sbi1` and `Sbi2` are the forms of `regtypes`; `Sbi3` takes
/// what a C compiler makes of ordinary C.
#[derive(Clone, Copy, Debug, PartialEq, Eq)]
pub enum FileForm {
    Sbi1,
    Sbi2,
    Sbi3,
}

impl FileForm {
    ghost use Rattle.std.specs.Prelude.{◌≡◌};
    ghost use Rattle.verifier.specs.FileForm.{file_form_number};

    /// Its number, 1 to 3.
    pub fn number(self) -> u8
        ensures { result ≡ file_form_number self }
    {
        match self {
            FileForm::Sbi1 => 1,
            FileForm::Sbi2 => 2,
            FileForm::Sbi3 => 3,
        }
    }
}

impl From<ImageForm> for FileForm {
    ghost from_gives = { λ form f. f ≡ file_form_of form };

    fn from(form: ImageForm) -> FileForm {
        match form {
            ImageForm::Sbi1 => FileForm::Sbi1,
            ImageForm::Sbi2 => FileForm::Sbi2,
        }
    }
}
