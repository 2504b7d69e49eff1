// Small programs and what they mean, as laws.
ghost use Rattle.al_meaning.specs.Examples.{CallsReturn, ExceptionsHaveLines, LoopsEnd, ObjectsHold, OperatorsGive, TestsGive};

/// Loops end at their bounds and by exits, also out of the outer loop; a case statement executes the alternative that covers the value.
pub fn loops_end()
    ensures { LoopsEnd }
{}

/// A function calls itself. A variable that is passed is named twice: what is copied back goes to the component that was named before the other actual
/// was evaluated.
pub fn calls_return()
    ensures { CallsReturn }
{}

/// Exceptions are raised at the lines of their statements.
pub fn exceptions_have_lines()
    ensures { ExceptionsHaveLines }
{}

/// Division goes to zero, `rem` has the sign of the left operand and `mod` that of the right one; a result out of the base range is no value.
pub fn operators_give()
    ensures { OperatorsGive }
{}

/// Records and arrays are copied and compared as a whole; aggregates fill them; the objects of a block begin with their values or with zeros.
pub fn objects_hold()
    ensures { ObjectsHold }
{}

/// Membership tests, short-circuit forms and conversions give their values or raise Constraint_Error; what is left in an `out` parameter is checked when
/// it is copied back.
pub fn tests_give()
    ensures { TestsGive }
{}
