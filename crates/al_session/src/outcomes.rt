// The results of builds and runs, in the types of a session.
ghost use Rattle.std.specs.Prelude.{◌≡◌};
ghost use Rattle.al_session_served.specs.Outcomes.{outcome_model};
ghost use Rattle.al_session.specs.Results.{end_of, exception_of, fault_result, result_of};

use al_bind::{BindFault, MissingItem};
use al_engine::Compiled;
use al_machine::Exception as Raising;
use al_session_served::{Exception, Outcome, RunEnd};
use al_tasks::RunEnd as ImageEnd;

/// The outcome of a build, as the library holds it.
pub(crate) fn outcome_of(compiled: &Compiled) -> Outcome<'_>
    ensures { outcome_model result ≡ result_of compiled.now }
{
    match compiled {
        Compiled::Faulty(diagnostics) => Outcome::Faulty(diagnostics.as_slice()),
        Compiled::Unbound(fault) => fault_of(fault),
        Compiled::TooLarge(order) => Outcome::TooLarge(order.as_slice()),
        Compiled::Made(program) => { Outcome::Made(program.order.as_slice(), program.bytes()) }
    }
}

// The outcome of a build whose partition has no order.
fn fault_of(fault: &BindFault) -> Outcome<'_>
    ensures { outcome_model result ≡ fault_result fault.now }
{
    match fault {
        BindFault::Lacks(MissingItem::Main) => Outcome::NoMain,
        BindFault::Lacks(MissingItem::Body(name)) => Outcome::NoBody(name.as_slice()),
        BindFault::Lacks(MissingItem::Subunit(name)) => Outcome::NoSubunit(name.as_slice()),
        BindFault::Cycle(lines) => Outcome::Cycle(lines.as_slice()),
    }
}

fn exception_of(exception: Raising) -> Exception
    ensures { result ≡ exception_of exception }
{
    match exception {
        Raising::Constraint => Exception::Constraint,
        Raising::Program => Exception::Program,
        Raising::Storage => Exception::Storage,
    }
}

/// How a run ended.
pub(crate) fn end_of(ended: ImageEnd) -> RunEnd
    ensures { result ≡ end_of ended }
{
    match ended {
        ImageEnd::Finished => RunEnd::Finished,
        ImageEnd::Idle => RunEnd::Idle,
        ImageEnd::Spent => RunEnd::Spent,
        ImageEnd::Stuck => RunEnd::Stuck,
        ImageEnd::Raised {
            exception,
            unit,
            line,
        } => RunEnd::Raised {
            exception: exception_of(exception),
            unit,
            line,
        },
    }
}
