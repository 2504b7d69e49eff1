// Laws of the code, each a function that does nothing and whose contract is the law.
ghost use Rattle.al_meaning_code.specs.Example.{PremisesAreMet};
ghost use Rattle.al_meaning_code.specs.Laws.{CallsAreDone, ExceptionsAreMeant, OperatorsAgree, PartitionsAreDone, PiecesStand, StatementsAreDone, ValuesAreGiven};

use al_code::trees_tell_code;

/// The machine's operators give what those of the language give, or raise its exceptions (ARM 4.5).
pub fn operators_agree()
    ensures { OperatorsAgree }
{}

/// Pieces whose jumps have their ends stand in the code that is made of them.
pub fn pieces_stand()
    ensures { PiecesStand }
{}

/// The code of a scalar expression pushes its value, or raises its exception at its line (ARM 4).
pub fn values_are_given()
    ensures { ValuesAreGiven }
{}

/// The code of statements, which may call procedures of library level without parameters, does what these mean (ARM 5): it leads to their end, to the
/// exit of a loop or to the end of the body, and the variables hold what they hold in the state then; or it raises their exception at its line; or it
/// goes on as they do. Or the stack words run out, where those that the statements need don't fit.
pub fn statements_are_done()
    ensures { StatementsAreDone }
{
    trees_tell_code();
}

/// A call of a procedure of library level without parameters, whose objects are of one word and which calls others like it, does what its body means over
/// new words (ARM 6.4), so many calls deep.
pub fn calls_are_done()
    ensures { CallsAreDone }
{
    trees_tell_code();
}

/// What the laws require is met: by `X := X + 1` in the frame of a main procedure, before a machine whose words are 0.
pub fn premises_are_met()
    ensures { PremisesAreMet }
{}

/// Conversely, an exception that a run of such a call comes to, other than Storage_Error, is what the call means, at that line.
pub fn exceptions_are_meant()
    ensures { ExceptionsAreMeant }
{
    trees_tell_code();
}

/// A partition of such procedures, whose items elaborate nothing, is run as it means (ARM 10.2).
pub fn partitions_are_done()
    ensures { PartitionsAreDone }
{
    trees_tell_code();
}
