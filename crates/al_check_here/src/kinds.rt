// The kind of each body, as the code generator needs it.
ghost use Rattle.std.specs.Prelude.{◌≡◌, IfOk};
ghost use Rattle.al_check_here.specs.BodiesHere.{entry_in, entry_kind, kind_of, operation_in, operation_kind, subprogram_kind};

use crate::state::{BodyRole, OpenObject};
use al_base::NoMemory;
use al_stmts::{EnclosingBody, ReturnContext};
use al_view_typed::{BodyKind, EntryOf};
use std::alloc::Global;

/// The kind of a subprogram's body, from what it returns.
fn subprogram_kind(returns: ReturnContext, copied: u32, end: usize) -> BodyKind
    ensures { result ≡ subprogram_kind returns.body returns copied end }
{
    match returns.body {
        EnclosingBody::Function => BodyKind::Function {
            words: returns.words,
            end,
        },
        _ => BodyKind::Procedure { copied },
    }
}

fn copied_entry(alloc: Global, entry: &EntryOf) -> Result<EntryOf, NoMemory>
    ensures { IfOk result (λ copy. copy ≡ entry.now) }
{
    let symbol = entry.entry.copy(alloc)?;
    let barrier = entry.barrier.copy(alloc)?;
    Ok(EntryOf {
        entry: symbol,
        barrier,
    })
}

fn copied_if_any(alloc: Global, entry: &Option<EntryOf>) -> Result<Option<EntryOf>, NoMemory>
    ensures { IfOk result (λ copy. copy ≡ entry.now) }
{
    match entry {
        Some(entry) => {
            let copy = copied_entry(alloc, entry)?;
            Ok(Some(copy))
        }
        None => Ok(None),
    }
}

/// The kind of the body of a protected subprogram. A procedure may open the object's entry.
fn operation_kind(
    alloc: Global,
    object: &OpenObject,
    returns: ReturnContext,
    copied: u32,
    end: usize,
) -> Result<BodyKind, NoMemory>
    ensures { IfOk result (λ kind. kind ≡ operation_kind object.now returns.body returns copied end) }
{
    let symbol = object.symbol.copy(alloc)?;
    match returns.body {
        EnclosingBody::Function => Ok(BodyKind::ProtectedFunction {
            object: symbol,
            words: returns.words,
            end,
        }),
        _ => {
            let entry = copied_if_any(alloc, &object.entry)?;
            Ok(BodyKind::ProtectedProcedure {
                object: symbol,
                entry,
                copied,
            })
        }
    }
}

/// The kind of an entry's body, with its barrier.
fn entry_kind(alloc: Global, object: &OpenObject) -> Result<BodyKind, NoMemory>
    ensures { IfOk result (λ kind. kind ≡ entry_kind object.now object.now.entry) }
{
    match &object.entry {
        Some(entry) => {
            let symbol = object.symbol.copy(alloc)?;
            let barrier = entry.barrier.copy(alloc)?;
            Ok(BodyKind::Entry {
                object: symbol,
                barrier,
            })
        }
        None => Ok(BodyKind::Procedure { copied: 0 }),
    }
}

/// The kind of the body of an operation: that of a protected subprogram, or of a plain subprogram if no protected object is open.
fn operation_in(
    alloc: Global,
    object: &Option<OpenObject>,
    returns: ReturnContext,
    copied: u32,
    end: usize,
) -> Result<BodyKind, NoMemory>
    ensures { IfOk result (λ kind. kind ≡ operation_in object.now returns copied end) }
{
    match object {
        Some(object) => operation_kind(alloc, object, returns, copied, end),
        None => Ok(subprogram_kind(returns, copied, end)),
    }
}

fn entry_in(alloc: Global, object: &Option<OpenObject>) -> Result<BodyKind, NoMemory>
    ensures { IfOk result (λ kind. kind ≡ entry_in object.now) }
{
    match object {
        Some(object) => entry_kind(alloc, object),
        None => Ok(BodyKind::Procedure { copied: 0 }),
    }
}

/// The kind of a body, from its role, what it returns and the number of words it copies back. Its `end` is on line `end`.
pub(crate) fn kind_of(
    alloc: Global,
    object: &Option<OpenObject>,
    role: BodyRole,
    returns: ReturnContext,
    copied: u32,
    end: usize,
) -> Result<BodyKind, NoMemory>
    ensures { IfOk result (λ kind. kind ≡ kind_of object.now role returns copied end) }
{
    match role {
        BodyRole::Subprogram => Ok(subprogram_kind(returns, copied, end)),
        BodyRole::Task => Ok(BodyKind::Task),
        BodyRole::Operation => operation_in(alloc, object, returns, copied, end),
        BodyRole::Entry => entry_in(alloc, object),
    }
}
