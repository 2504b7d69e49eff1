// What is wrong with a specification (ARM 6.1).
ghost use Rattle.std.specs.Prelude.{◌≡◌, IfOk};
ghost use Rattle.al_base_fault.specs.Judging.{fault_in};
ghost use Rattle.al_decl_judged.specs.Headings.{formal_fault, formal_names, formals_fault, heading_fault, is_function, returned_fault};

use crate::{DefiningName, dotted_name_fault, mode_fault, repeated};
use al_base::{Name, NoMemory};
use al_base_fault::{CheckResult, Fault, earlier};
use al_view::{Mode, Seq, SubtypeView};
use std::alloc::Global;

/// A formal parameter with its judged mark. Each identifier of a list has one of its own.
#[derive(Drop)]
pub struct FormalPart {
    /// The defining name.
    pub name: DefiningName,
    /// The mode.
    pub mode: Mode,
    /// The subtype of its mark, or the mark's fault.
    pub of: CheckResult<SubtypeView>,
}

/// What a subprogram returns.
#[derive(Drop)]
pub enum ReturnedPart {
    /// Nothing: it is a procedure.
    NoValue,
    /// A value of this judged mark: it is a function.
    Value(CheckResult<SubtypeView>),
}

/// A specification with its parts, each checked by itself.
#[derive(Drop)]
pub struct Heading {
    /// The defining name.
    pub name: DefiningName,
    /// Whether its name has dots, which only a unit's name may have.
    pub is_dotted: bool,
    /// The formal parameters, in source order.
    pub formals: Seq<FormalPart>,
    /// What it returns.
    pub returned: ReturnedPart,
}

/// Whether it is a function, by what it returns.
pub fn is_function(returned: &ReturnedPart) -> bool
    ensures { result ≡ is_function returned.now }
{
    match returned {
        ReturnedPart::NoValue => false,
        ReturnedPart::Value(_) => true,
    }
}

fn mark_fault(of: &CheckResult<SubtypeView>) -> Option<Fault>
    ensures { result ≡ fault_in of.now }
{
    match of {
        Ok(_) => None,
        Err(fault) => Some(*fault),
    }
}

fn formal_fault(of_function: bool, formal: &FormalPart) -> Option<Fault>
    ensures { result ≡ formal_fault of_function formal.now }
{
    earlier(
        mode_fault(formal.name.place, of_function, formal.mode),
        mark_fault(&formal.of),
    )
}

fn formals_fault(of_function: bool, formals: &[FormalPart]) -> Option<Fault>
    ensures { result ≡ formals_fault of_function formals.now }
{
    let mut found = None;
    for formal in formals {
        found = earlier(found, formal_fault(of_function, formal));
    }
    found
}

fn returned_fault(returned: &ReturnedPart) -> Option<Fault>
    ensures { result ≡ returned_fault returned.now }
{
    match returned {
        ReturnedPart::NoValue => None,
        ReturnedPart::Value(of) => mark_fault(of),
    }
}

fn formal_names(alloc: Global, formals: &[FormalPart]) -> Result<Seq<DefiningName>, NoMemory>
    ensures { IfOk result (λ names. names ≡ formal_names formals.now) }
{
    let mut names = Seq::empty(alloc);
    for formal in formals {
        let name = Name::from_slice(alloc, formal.name.name.as_slice())?;
        names.push(DefiningName {
            name,
            place: formal.name.place,
        })?;
    }
    Ok(names)
}

/// The first fault of a specification that isn't a unit's: E306 at a dotted name and at a formal of a function that isn't of mode `in`,
/// E301 at a formal that has the name of one before it, and the faults of the marks.
/// # Errors
/// `NoMemory` if the allocator refuses memory.
pub fn heading_fault(alloc: Global, heading: &Heading) -> Result<Option<Fault>, NoMemory>
    ensures { IfOk result (λ fault. fault ≡ heading_fault heading.now) }
{
    let names = formal_names(alloc, heading.formals.as_slice())?;
    let twice = repeated(alloc, names.as_slice())?;
    let dotted = dotted_name_fault(heading.name.place, heading.is_dotted, false);
    let of_function = is_function(&heading.returned);
    let formals = formals_fault(of_function, heading.formals.as_slice());
    Ok(earlier(
        earlier(dotted, twice),
        earlier(formals, returned_fault(&heading.returned)),
    ))
}
