//! Laws of laid-out code and of what is answered.

ghost use Rattle.codegen.specs.Laws.{LaidOutCodeBegins, LaidOutCodeIsBounded, LaidOutCodeMeans};
ghost use Rattle.codegen.specs.Answers.{RefusalsAreAnswered, SomeAnswerIsThere};

/// A law: code that is laid out as a program's means the program, where functions with bodies alone are called, there is no
/// `switch`, and no more values are pending anywhere than may be.
pub fn laid_out_code_means_its_program()
    ensures { LaidOutCodeMeans }
{}

/// A law: it begins with the call of `main`, with 1 and the segment's start as many as `main` has parameters, and goes on from there.
pub fn laid_out_code_begins_with_main()
    ensures { LaidOutCodeBegins }
{}

/// A law: in instructions that are laid out as a program's each jump that doesn't lead forward leads to a tick point.
pub fn laid_out_code_is_bounded()
    ensures { LaidOutCodeIsBounded }
{}

/// A law: a refusal that is true of a program is what is answered, unless memory runs out.
pub fn refusals_are_answered()
    ensures { RefusalsAreAnswered }
{}

/// A law: to each program there is an answer that doesn't tell of memory.
pub fn some_answer_is_there()
    ensures { SomeAnswerIsThere }
{}
