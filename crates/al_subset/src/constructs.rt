// Constructs of Ada 2012 that aren't in this subset, and what is written instead.
use std::alloc::AllocError;

/// A construct of Ada that the subset doesn't have.
#[derive(Clone, Copy)]
pub struct Construct {
    /// Its name in the patterns.
    pub key: &'static str,
    /// What it is called, with its article.
    pub name: &'static str,
    /// What a program does instead.
    pub instead: &'static str,
}

/// All of them that are known, a line each: its key, what it is called, what is written instead, with `|` between them.
pub const CONSTRUCTS: &str =
    "generic-units|a generic unit|write the unit out for each type that it serves
generic-instances|a generic instance|write the unit out for the type that it serves
exception-handlers|an exception handler|an exception ends the run; test for what would raise it
exceptions|an exception of your own|give the outcome back by a Boolean or an enumeration
raise|a raise statement|an exception ends the run; give the outcome back by an out parameter
access-types|an access type|use an array, and indexes into it
null-access|an access value (null)|use an array, and an index that means none, as 0
dereference|an access value (.all)|use an array, and indexes into it
allocators|an allocator (new)|declare an array that is large enough, and count what is in use
tagged-types|a tagged type|use a record with an enumeration component, and a case statement
abstract|an abstract type or subprogram|use a record with an enumeration component, and a case statement
interfaces|an interface|use packages with the same operations
limited-types|a limited type|leave the word limited out; a private type is enough
derived-types|a derived type|type T is range A .. B; or a subtype of the parent
modular-types|a modular type|type T is range 0 .. N - 1; and mod after each operation
floating-point|a floating-point type or real literal|scale to integers, as thousandths in a type with a range
real-literals|a real literal|scale to integers, as thousandths in a type with a range
fixed-point|a fixed-point type|scale to integers, as thousandths in a type with a range
component-defaults|a default value of a component|give the value where an object is declared: X : T := (0, 0);
parameter-defaults|a default value of a parameter|pass each parameter in the call
entry-parameters|an entry with parameters|a simple entry, and a protected procedure or function that takes or gives the values
entry-families|an entry family|an entry of a protected object of its own for each index
named-parameters|named parameter association|pass the parameters by position
named-aggregates|an aggregate with names|list the components by position: (1, 2); an array may have (others => 0)
array-aggregates|an aggregate with others after values|list all values, or (others => 0), and assign the rest
renaming|a renaming declaration|use the full name, a use clause, or a constant
nested-packages|a package inside another unit|make it a library package, in files of its own
use-all-type|a use all type clause|use type T; or a use clause for the package
extended-return|an extended return statement|declare a local object, fill it, and return it
character-literals|a character literal|a string literal of one character, where it is printed
for-of|a loop over elements (for .. of)|for I in A'Range loop, and A (I)
expression-functions|an expression function|function F return T; and a body that has a return statement
aspects|an aspect other than Priority of a task or a protected object|leave the aspect out; a precondition can be an if statement
aggregate-ranges|a choice in an aggregate|list all values, or (others => 0)
slices|a slice|a loop over the indexes
discriminants|a discriminant|a component of the record that says the same
variant-parts|a variant part of a record|plain components, and an enumeration that says which of them count
overriding|an overriding indicator|leave the word out; types aren't tagged
goto|a label or goto statement|a loop with exit, or a subprogram with return
rendezvous|an accept statement|a protected object with an entry
select|a select statement|an entry with a barrier, and delay until
abort|an abort statement|a Boolean component of a protected object, that the task asks for
requeue|a requeue statement|a second protected object
terminate|a terminate alternative|tasks of the Ravenscar profile never end
task-types|a task type|declare each task: task T;
protected-types|a protected type|declare each protected object: protected P is
task-entries|a task with entries or pragmas|task T; or task T with Priority => 10; and a protected object for what tasks say to each other
package-stubs|a stub of a package, a task or a protected body|a child package; subprograms may be separate
null-procedures|a null procedure|a body with null;
if-expressions|an if expression|an if statement
case-expressions|a case expression|a case statement
quantified|a quantified expression|a loop with exit, or a function
declare-expressions|a declare expression|a local constant
relative-delays|a delay for a while (delay D)|delay until Clock + Milliseconds (100); of Ada.Real_Time
aliased|an aliased object|leave the word out; there are no access types
unconstrained-arrays|an array type whose bounds are left open|array (1 .. N) of T, with a length beside it where less is in use
multi-dimensional|an array of several dimensions|an array of arrays: A (I) (J)
index-constraints|a constraint in parentheses|a constrained array type of its own for each length
operator-functions|an operator of your own|a function with a name, as Plus
operator-calls|an operator called by its name|the operator between its operands
pragma-arguments|a pragma argument that is no name|Elaborate, Elaborate_All and Elaborate_Body take units; a priority is an aspect: task T with Priority => 10;
pragma-priority|pragma Priority|the aspect: task T with Priority => 10; or protected P with Priority => 12 is
pragmas-inside|a pragma among statements or operations|leave it out; a check can be an if statement
interrupts|an interrupt handler|a task, and a protected object
text-io-instances|an instance of a package of Ada.Text_IO|Ada.Text_IO.Put (T'Image (X)), for a value of the type T; nothing is read
representation|a representation clause|leave it out; the layout is the compiler's
attribute-access|the attribute Access|name the object or the subprogram itself; there are no access types
incomplete-types|an incomplete type|declare the type whole; there are no access types
membership-choices|a membership test with several choices|X in A .. B or else X = C
limited-with|a limited or private with clause|a with clause, and packages that don't depend on each other
entries-outside|an entry outside a protected object|declare it in a protected object
nested-objects|an object in a protected body|declare them in the private part of the protected object
attribute-dimensions|an attribute with a dimension|arrays have one dimension: A'Length
record-representation|a bit layout of a record|leave it out; the layout is the compiler's
formal-subprograms|a subprogram as a parameter|a case statement over an enumeration that says which
raise-expressions|a raise expression|an if statement
wide-units|a second unit in one file|each unit in a file of its own (gnatchop parts them)
string-types|a string as an object, a parameter or a result|string literals and 'Image, joined by &, where they are printed
long-integers|a predefined integer type but Integer|Integer, or type T is range A .. B; of up to 64 bits
duration|the type Duration|Time_Span of Ada.Real_Time
text-io|input, files and formats of Ada.Text_IO|Put, Put_Line and New_Line, with no parameter but the string
real-time|other subprograms of Ada.Real_Time|Time, Time_Span, Clock, Milliseconds, and Time + Time_Span
predefined-units|other predefined units|Ada, Ada.Text_IO, Ada.Real_Time and Standard
null-aggregates|an aggregate (null record)|an object without a value: a null record has just one
nested-aggregates|an aggregate inside another one, as an operand, an argument or a result|assign it alone, or qualify it with its type and an apostrophe
";

// The construct that a line has.
fn construct_in(line: &'static str) -> Option<Construct> {
    let (key, rest) = line.split_once('|')?;
    let (name, instead) = rest.split_once('|')?;
    Some(Construct { key, name, instead })
}

/// Reads the table of constructs.
///
/// # Errors
///
/// `AllocError` if memory runs out.
pub fn add_constructs(constructs: &mut Vec<Construct>) -> Result<(), AllocError> {
    for line in CONSTRUCTS.split('\n') {
        if let Some(construct) = construct_in(line) {
            constructs.push(construct)?;
        }
    }
    Ok(())
}
