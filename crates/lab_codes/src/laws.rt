//! The laws of codes: each is found by its own text, and by what is printed of each refusal and each
//! cause of the kernel.

ghost use Rattle.lab_codes.specs.Printed.{CodesAreFound, LinesAreFound, CallsAreFound};
ghost use Rattle.lab_codes.specs.Printed.{DropsAreFound, ImagesAreFound, AssemblerIsFound};
ghost use Rattle.lab_codes.specs.Printed.{LanguageIsFound, RewriterIsFound};

/// Each code is found by its own text.
pub fn codes_are_found()
    ensures { CodesAreFound }
{}

/// The code of a refused line of a script is found by what is printed of it.
pub fn script_lines_are_found()
    ensures { LinesAreFound }
{}

/// The code of a refused call is found by what is printed of it.
pub fn calls_are_found()
    ensures { CallsAreFound }
{}

/// The code of a dropped graft is found by what is printed of it.
pub fn drops_are_found()
    ensures { DropsAreFound }
{}

/// The code of a refused image is found by what is printed of it.
pub fn images_are_found()
    ensures { ImagesAreFound }
{}

/// The code of a refused line of assembler text is found by what is printed of it.
pub fn assembler_is_found()
    ensures { AssemblerIsFound }
{}

/// The code of a refused line of the graft language is found by what is printed of it.
pub fn language_is_found()
    ensures { LanguageIsFound }
{}

/// The code of raw code that can't be boxed is found by what is printed of it.
pub fn rewriter_is_found()
    ensures { RewriterIsFound }
{}
