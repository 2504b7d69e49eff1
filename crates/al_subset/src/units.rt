// Names of Ada and of Standard that this subset doesn't have.
use std::alloc::AllocError;

/// A name that Ada has and the subset doesn't.
#[derive(Clone, Copy)]
pub struct Unknown {
    pub name: &'static str,
    /// What a program does instead.
    pub instead: &'static str,
}

/// Names, a line each: the name, what is written instead.
pub const NAMES: &str = "String|string literals and 'Image, joined by &, in Put and Put_Line
Wide_String|string literals and 'Image, joined by &, in Put and Put_Line
Wide_Wide_String|string literals and 'Image, joined by &, in Put and Put_Line
ASCII|string literals and 'Image, joined by &, in Put and Put_Line
Character|string literals of one character
Wide_Character|string literals of one character
Wide_Wide_Character|string literals of one character
Float|integers, scaled: thousandths in a type with a range
Long_Float|integers, scaled: thousandths in a type with a range
Short_Float|integers, scaled: thousandths in a type with a range
Long_Long_Float|integers, scaled: thousandths in a type with a range
Duration|Time_Span of Ada.Real_Time
Long_Integer|type T is range A .. B; of up to 64 bits
Long_Long_Integer|type T is range A .. B; of up to 64 bits
Short_Integer|type T is range A .. B; of up to 64 bits
Short_Short_Integer|type T is range A .. B; of up to 64 bits
Constraint_Error|a test before what would raise; an exception ends the run
Program_Error|a test before what would raise; an exception ends the run
Storage_Error|a test before what would raise; an exception ends the run
Tasking_Error|a test before what would raise; an exception ends the run
Numeric_Error|a test before what would raise; an exception ends the run
Get_Line|Put, Put_Line and New_Line without parameters but the string
Get|Put, Put_Line and New_Line without parameters but the string
New_Page|Put, Put_Line and New_Line without parameters but the string
Set_Col|Put, Put_Line and New_Line without parameters but the string
Set_Output|Put, Put_Line and New_Line without parameters but the string
File_Type|Put, Put_Line and New_Line without parameters but the string
Skip_Line|Put, Put_Line and New_Line without parameters but the string
Open|Put, Put_Line and New_Line without parameters but the string
Create|Put, Put_Line and New_Line without parameters but the string
Close|Put, Put_Line and New_Line without parameters but the string
End_Of_File|Put, Put_Line and New_Line without parameters but the string
Integer_IO|Put, Put_Line and New_Line without parameters but the string
Enumeration_IO|Put, Put_Line and New_Line without parameters but the string
Flush|Put, Put_Line and New_Line without parameters but the string
Seconds|Time, Time_Span, Clock, Milliseconds, and Time + Time_Span
Microseconds|Time, Time_Span, Clock, Milliseconds, and Time + Time_Span
Nanoseconds|Time, Time_Span, Clock, Milliseconds, and Time + Time_Span
To_Time_Span|Time, Time_Span, Clock, Milliseconds, and Time + Time_Span
To_Duration|Time, Time_Span, Clock, Milliseconds, and Time + Time_Span
Time_First|Time, Time_Span, Clock, Milliseconds, and Time + Time_Span
Time_Span_Zero|Time, Time_Span, Clock, Milliseconds, and Time + Time_Span
Time_Span_Unit|Time, Time_Span, Clock, Milliseconds, and Time + Time_Span
Minutes|Time, Time_Span, Clock, Milliseconds, and Time + Time_Span
Tick|Time, Time_Span, Clock, Milliseconds, and Time + Time_Span
Split|Time, Time_Span, Clock, Milliseconds, and Time + Time_Span
Time_Of|Time, Time_Span, Clock, Milliseconds, and Time + Time_Span
Time_Last|Time, Time_Span, Clock, Milliseconds, and Time + Time_Span
";

/// Library units, in the same form; the units below them too.
pub const UNITS: &str = "ada.integer_text_io|Ada.Text_IO.Put (Integer'Image (N))
ada.long_integer_text_io|Ada.Text_IO.Put with 'Image
ada.float_text_io|Ada.Text_IO.Put with 'Image of scaled integers
ada.text_io|Ada.Text_IO itself: Put, Put_Line and New_Line
ada.command_line|constants in a package of their own
ada.calendar|Ada.Real_Time
ada.real_time.timing_events|a task, and delay until
ada.real_time|Ada.Real_Time itself: Clock, Milliseconds and delay until
ada.exceptions|nothing: an exception that is raised ends the run, and is printed then
ada.strings|string literals and 'Image, joined by &
ada.characters|string literals
ada.containers|arrays, with a count of what is in use
ada.numerics|arithmetic of integers; a function of your own for random numbers
ada.synchronous_task_control|a protected object with an entry
ada.task_identification|constants in a package of their own
ada.dispatching|the priorities of tasks
ada.execution_time|Ada.Real_Time
ada.interrupts|a task, and a protected object
ada.finalization|a procedure that is called at the end
ada.io_exceptions|a test before what would raise
ada.sequential_io|Ada.Text_IO
ada.direct_io|Ada.Text_IO
ada.streams|Ada.Text_IO
ada.tags|an enumeration and a case statement
ada.directories|constants in a package of their own
ada.environment_variables|constants in a package of their own
ada.unchecked_conversion|arithmetic, or a case statement
ada.unchecked_deallocation|arrays, with a count of what is in use
ada.assertions|an if statement
ada|the units Ada.Text_IO and Ada.Real_Time
system|numbers: priorities are 0 to 30
interfaces|type T is range 0 .. 255; and the like
gnat|packages of your own
text_io|Ada.Text_IO
calendar|Ada.Real_Time
unchecked_conversion|arithmetic, or a case statement
";

/// Reads a table of names.
///
/// # Errors
///
/// `AllocError` if memory runs out.
pub fn add_names(table: &'static str, names: &mut Vec<Unknown>) -> Result<(), AllocError> {
    for line in table.split('\n') {
        if let Some((name, instead)) = line.split_once('|') {
            names.push(Unknown { name, instead })?;
        }
    }
    Ok(())
}

/// The entry of a name, in any case of letters.
pub fn named(names: &[Unknown], name: &[u8]) -> Option<Unknown> {
    for unknown in names {
        if name.eq_ignore_ascii_case(unknown.name.as_bytes()) {
            return Some(*unknown);
        }
    }
    None
}

/// The entry of a unit, or else of one above it.
pub fn unit_named(units: &[Unknown], name: &[u8]) -> Option<Unknown> {
    for unknown in units {
        if is_at_or_below(name, unknown.name.as_bytes()) {
            return Some(*unknown);
        }
    }
    None
}

// Whether a unit is that one or a descendant of it.
fn is_at_or_below(name: &[u8], above: &[u8]) -> bool {
    match name.get(..above.len()) {
        Some(front) => {
            front.eq_ignore_ascii_case(above)
                && matches!(name.get(above.len()).copied(), None | Some(b'.'))
        }
        None => false,
    }
}
