// Return statements and the bodies that they are in.
ghost use Rattle.std.specs.Prelude.{◌≡◌};
ghost use Rattle.al_stmts.specs.Returns.{lacks_return, may_return, no_return_fault, return_fault};

use al_base::Place;
use al_base_fault::{CheckRule, Fault};

/// The innermost body that a statement is in, apart from blocks and loops (ARM 6.5(5)).
#[derive(Clone, Copy)]
pub enum EnclosingBody {
    /// The body of a function, also of a protected object.
    Function,
    /// The body of a procedure, also of a protected object.
    Procedure,
    /// The body of an entry.
    Entry,
    /// The statements of a package.
    Package,
    /// The body of a task.
    Task,
}

fn may_return(body: EnclosingBody, has_value: bool) -> bool
    ensures { result ≡ may_return body has_value }
{
    match body {
        EnclosingBody::Function => has_value,
        EnclosingBody::Procedure => !has_value,
        EnclosingBody::Entry => !has_value,
        EnclosingBody::Package => false,
        EnclosingBody::Task => false,
    }
}

/// E501 at the first token of a return statement that isn't allowed in the body: its value is missing or not wanted, or the body allows
/// none.
pub fn return_fault(place: Place, body: EnclosingBody, has_value: bool) -> Option<Fault>
    ensures { result ≡ return_fault place body has_value }
{
    if may_return(body, has_value) {
        return None;
    }
    let rule = CheckRule::BadReturn;
    Some(Fault { place, rule })
}

fn lacks_return(body: EnclosingBody, has_return: bool) -> bool
    ensures { result ≡ lacks_return body has_return }
{
    match body {
        EnclosingBody::Function => !has_return,
        EnclosingBody::Procedure => false,
        EnclosingBody::Entry => false,
        EnclosingBody::Package => false,
        EnclosingBody::Task => false,
    }
}

/// E504 at the `end` of a function's body that has no return statement.
pub fn no_return_fault(place: Place, body: EnclosingBody, has_return: bool) -> Option<Fault>
    ensures { result ≡ no_return_fault place body has_return }
{
    if lacks_return(body, has_return) {
        let rule = CheckRule::NoReturn;
        return Some(Fault { place, rule });
    }
    None
}
