// What is printed of builds and runs.
use al_base::{Diagnostic, NoMemory, UnitKey, UnitKind};
use al_bind::{BindFault, Line, MissingItem, Reason};
use al_engine::Compiled;
use al_machine::Exception;
use al_tasks::{RunEnd, RunReport};
use std::alloc::Global;

fn push_number(alloc: Global, text: &mut Vec<u8>, number: u64) -> Result<(), NoMemory> {
    let digits = format!(in alloc; "{number}")?;
    text.extend_from_slice(digits.as_bytes())?;
    Ok(())
}

fn kind_text(kind: UnitKind) -> &'static str {
    match kind {
        UnitKind::Decl => " decl",
        UnitKind::Body => " body",
        UnitKind::Sub => " sub",
    }
}

fn push_unit(text: &mut Vec<u8>, unit: &UnitKey) -> Result<(), NoMemory> {
    text.extend_from_slice(unit.name.as_slice())?;
    text.extend_from_slice(kind_text(unit.kind).as_bytes())?;
    Ok(())
}

/// Appends a list of units, with a blank before each.
pub(crate) fn push_keys(text: &mut Vec<u8>, units: &[UnitKey]) -> Result<(), NoMemory> {
    for unit in units {
        text.push(b' ')?;
        push_unit(text, unit)?;
    }
    Ok(())
}

fn push_finding(alloc: Global, text: &mut Vec<u8>, found: &Diagnostic) -> Result<(), NoMemory> {
    text.push(b' ')?;
    text.extend_from_slice(found.file.as_slice())?;
    text.extend_from_slice(b":E")?;
    push_number(alloc, text, u64::from(found.code))
}

fn push_findings(alloc: Global, text: &mut Vec<u8>, found: &[Diagnostic]) -> Result<(), NoMemory> {
    text.extend_from_slice(b"failed")?;
    for one in found {
        push_finding(alloc, text, one)?;
    }
    Ok(())
}

fn lack_text(lack: &MissingItem) -> &'static str {
    match lack {
        MissingItem::Main => "failed B1 main ",
        MissingItem::Body(_) => "failed B2 body ",
        MissingItem::Subunit(_) => "failed B3 subunit ",
    }
}

/// The name of what is missing in a program with this main unit.
fn name_lacked<'a>(main: &'a [u8], lack: &'a MissingItem) -> &'a [u8] {
    match lack {
        MissingItem::Main => main,
        MissingItem::Body(name) => name.as_slice(),
        MissingItem::Subunit(name) => name.as_slice(),
    }
}

fn push_lack(text: &mut Vec<u8>, main: &[u8], lack: &MissingItem) -> Result<(), NoMemory> {
    text.extend_from_slice(lack_text(lack).as_bytes())?;
    text.extend_from_slice(name_lacked(main, lack))?;
    Ok(())
}

/// Appends how many more checks were made, and how many stored answers a build compared.
pub(crate) fn push_counts(
    alloc: Global,
    text: &mut Vec<u8>,
    more: u64,
    compared: usize,
) -> Result<(), NoMemory> {
    text.extend_from_slice(b", ")?;
    push_number(alloc, text, more)?;
    text.extend_from_slice(b" more checks, ")?;
    push_number(alloc, text, compared as u64)?;
    text.extend_from_slice(b" compared\n")?;
    Ok(())
}

/// Appends what a library holds of a build: how many units it checked, how many checks were ever made, the number of errors, and the image's size.
pub(crate) fn push_told(
    alloc: Global,
    text: &mut Vec<u8>,
    checks: (usize, u64),
    found: usize,
    bytes: usize,
) -> Result<(), NoMemory> {
    let (last, ever) = checks;
    let told = format!(in alloc;
        "{last} checked, {ever} ever, {found} found, {bytes} bytes of an image\n"
    )?;
    text.extend_from_slice(told.as_bytes())?;
    Ok(())
}

fn reason_text(reason: Reason) -> &'static str {
    match reason {
        Reason::Depends => " by depends",
        Reason::Elaborate => " by elaborate",
        Reason::ElaborateAll => " by elaborate_all",
    }
}

fn push_lines(text: &mut Vec<u8>, lines: &[Line]) -> Result<(), NoMemory> {
    text.extend_from_slice(b"failed B4 cycle")?;
    for line in lines {
        text.extend_from_slice(b", ")?;
        push_unit(text, &line.after)?;
        text.extend_from_slice(b" after ")?;
        push_unit(text, &line.before)?;
        text.extend_from_slice(reason_text(line.reason).as_bytes())?;
    }
    Ok(())
}

/// Appends the result of compiling for a main unit, on one line.
pub(crate) fn push_gave(
    alloc: Global,
    text: &mut Vec<u8>,
    main: &[u8],
    compiled: &Compiled,
) -> Result<(), NoMemory> {
    match compiled {
        Compiled::Faulty(found) => push_findings(alloc, text, found.as_slice())?,
        Compiled::Unbound(BindFault::Lacks(lack)) => push_lack(text, main, lack)?,
        Compiled::Unbound(BindFault::Cycle(lines)) => push_lines(text, lines.as_slice())?,
        Compiled::TooLarge(_) => text.extend_from_slice(b"failed L1 image too large")?,
        Compiled::Made(program) => {
            text.extend_from_slice(b"built")?;
            push_keys(text, program.order.as_slice())?;
        }
    }
    text.push(b'\n')?;
    Ok(())
}

fn exception_text(exception: Exception) -> &'static str {
    match exception {
        Exception::Constraint => "constraint_error ",
        Exception::Program => "program_error ",
        Exception::Storage => "storage_error ",
    }
}

fn push_line(alloc: Global, text: &mut Vec<u8>, line: Option<u32>) -> Result<(), NoMemory> {
    let Some(line) = line else {
        return Ok(());
    };
    text.push(b' ')?;
    push_number(alloc, text, u64::from(line))
}

/// Appends the output of a run, and how it ended.
pub(crate) fn push_ran(alloc: Global, text: &mut Vec<u8>, ran: &RunReport) -> Result<(), NoMemory> {
    text.extend_from_slice(ran.output.as_slice())?;
    text.extend_from_slice(b"end ")?;
    match &ran.ended {
        RunEnd::Finished => text.extend_from_slice(b"finished")?,
        RunEnd::Idle => text.extend_from_slice(b"idle")?,
        RunEnd::Spent => text.extend_from_slice(b"spent")?,
        RunEnd::Stuck => text.extend_from_slice(b"stuck")?,
        RunEnd::Raised {
            exception,
            unit,
            line,
        } => {
            text.extend_from_slice(b"raised ")?;
            text.extend_from_slice(exception_text(*exception).as_bytes())?;
            push_unit(text, unit)?;
            push_line(alloc, text, *line)?;
        }
    }
    text.push(b'\n')?;
    Ok(())
}
