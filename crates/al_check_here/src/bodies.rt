// Bodies of subprograms, tasks and entries: how the check enters and leaves them.
ghost use Rattle.std.specs.Prelude.{◌≡◌, ◌<◌, Some, None, length, map, IfOk, OnOk};
ghost use Rattle.al_decl_judged.specs.TypeObjects.{is_input};
ghost use Rattle.al_view_typed.specs.StatementViews.{statement_model};
ghost use Rattle.al_view_typed.specs.UnitTrees.{body_model, elaboration_model};
ghost use Rattle.al_stmts.specs.Views.{effects_model};
ghost use Rattle.al_check_here.specs.BodiesHere.{body_opened, copied_words, frame_words, labelled, labelled_body, left_open, nested_entered, out_of_body, own_region_left, result_subtype, return_context, returns_in, role_context, whole_entered, with_body, with_copied};
ghost use Rattle.al_check_here.specs.Stacks.{innermost};

use crate::kinds::kind_of;
use crate::regions::leave_region;
use crate::state::{AnalyzedHeading, BodyRole, CheckState, OpenBody};
use al_base::NoMemory;
use al_decl::{OuterFrame, Outside, declare_all_formals, enter_subprogram, set_aside, take_back};
use al_decl_judged::{Heading, ReturnedPart, enter_body, leave_body, words_of};
use al_stmts::{BodyExtent, EnclosingBody, ReturnContext};
use al_view::{Mode, Seq, SubtypeView};
use al_view_predefined::StandardTypes;
use al_view_typed::{
    BodyKind, Elaboration, FormalWords, TypedBody, TypedDeclaration, TypedStatement,
};
use std::alloc::Global;

/// The context of return statements in a body with this result.
fn return_context(standard: &StandardTypes, returned: &ReturnedPart) -> ReturnContext
    ensures { result ≡ return_context returned.now }
{
    match returned {
        ReturnedPart::NoValue => ReturnContext {
            body: EnclosingBody::Procedure,
            words: 0,
            bounds: None,
        },
        ReturnedPart::Value(Ok(of)) => ReturnContext {
            body: EnclosingBody::Function,
            words: words_of(standard, of),
            bounds: of.subtype.bounds,
        },
        ReturnedPart::Value(Err(_)) => ReturnContext {
            body: EnclosingBody::Function,
            words: 0,
            bounds: None,
        },
    }
}

/// The context of return statements in a body of this role.
fn role_context(standard: &StandardTypes, role: BodyRole, returned: &ReturnedPart) -> ReturnContext
    ensures { result ≡ role_context role returned.now }
{
    match role {
        BodyRole::Subprogram => return_context(standard, returned),
        BodyRole::Task => ReturnContext {
            body: EnclosingBody::Task,
            words: 0,
            bounds: None,
        },
        BodyRole::Operation => return_context(standard, returned),
        BodyRole::Entry => ReturnContext {
            body: EnclosingBody::Entry,
            words: 0,
            bounds: None,
        },
    }
}

/// The subtype of a function's result, if its mark is right.
fn result_subtype(returned: ReturnedPart) -> Option<SubtypeView>
    ensures { result ≡ result_subtype returned }
{
    match returned {
        ReturnedPart::NoValue => None,
        ReturnedPart::Value(Ok(of)) => Some(of),
        ReturnedPart::Value(Err(_)) => None,
    }
}

/// The subtype of the result that a head names; the head is dropped.
fn result_in(heading: Heading) -> Option<SubtypeView>
    ensures { result ≡ result_subtype heading.returned }
{
    let Heading { returned, .. } = heading;
    result_subtype(returned)
}

/// The context of return statements at the place, from the innermost body; that of a package's body if no body is open.
pub fn returns_in(state: &CheckState) -> ReturnContext
    ensures { result ≡ returns_in state.now }
{
    match state.bodies.innermost() {
        Some(body) => body.returns,
        None => ReturnContext {
            body: EnclosingBody::Package,
            words: 0,
            bounds: None,
        },
    }
}

/// Opens one more body round the place, after its formals have been declared.
fn push_body(
    state: &mut CheckState,
    read: AnalyzedHeading,
    outer: OuterFrame,
    outside: Outside,
    formals: Seq<FormalWords>,
) -> Result<(), NoMemory>
    ensures { OnOk result (state.new ≡ with_body state.old read outer outside formals) }
{
    let (role, heading, symbol) = read.into_parts();
    let standard = &state.unit.labeller.predefined.standard;
    let returns = role_context(standard, role, &heading.returned);
    let result = result_in(heading);
    let body = OpenBody {
        role,
        symbol,
        formals,
        returns,
        result,
        after: state.env.progress.words.frame,
        outer,
        outside,
    };
    state.bodies.push(body)?;
    state.pending = None;
    Ok(())
}

/// Opens a body whose region and frame have just begun: declares its formals, and keeps what is outside of it.
fn open_body(
    alloc: Global,
    state: &mut CheckState,
    read: AnalyzedHeading,
    outer: OuterFrame,
    outside: Outside,
) -> Result<(), NoMemory>
    requires { 0 < length state.old.env.scope.regions }
    ensures { OnOk result (state.new ≡ body_opened state.old read outer outside) }
{
    let standard = &state.unit.labeller.predefined.standard;
    let formals = declare_all_formals(alloc, standard, &mut state.env, &read.heading)?;
    push_body(state, read, outer, outside, formals)
}

/// Enters a body in a region of its own, after its head has been read (ARM 6.3, 8.1).
///
/// # Errors
/// `NoMemory` if the allocator refuses memory.
pub fn enter_nested(
    alloc: Global,
    state: &mut CheckState,
    read: AnalyzedHeading,
) -> Result<(), NoMemory>
    ensures { OnOk result (state.new ≡ nested_entered state.old read) }
{
    let symbol = read.symbol.copy(alloc)?;
    let (outer, outside) = enter_subprogram(alloc, &mut state.env, symbol)?;
    open_body(alloc, state, read, outer, outside)
}

/// Enters the body of a unit that is one subprogram, in the unit's own region.
///
/// # Errors
/// `NoMemory` if the allocator refuses memory.
pub fn enter_whole(
    alloc: Global,
    state: &mut CheckState,
    read: AnalyzedHeading,
) -> Result<(), NoMemory>
    requires { 0 < length state.old.env.scope.regions }
    ensures { OnOk result (state.new ≡ whole_entered state.old read) }
{
    let (depth, word) = enter_body(&mut state.env.progress);
    let outside = set_aside(alloc, &mut state.env);
    open_body(alloc, state, read, OuterFrame { depth, word }, outside)
}

/// Leaves the region of a body that has been popped, unless that region is the unit's own.
fn leave_own_region(state: &mut CheckState)
    ensures { state.new ≡ own_region_left state.old }
{
    if state.is_whole() {
        return;
    }
    leave_region(&mut state.env.scope);
}

/// Leaves the frame and the region of a body that has been popped; what was declared and uncompleted outside of it is back.
fn leave_open(state: &mut CheckState, body: OpenBody)
    ensures { state.new ≡ left_open state.old body }
{
    leave_own_region(state);
    leave_body(&mut state.env.progress, (body.outer.depth, body.outer.word));
    take_back(&mut state.env, body.into_outside());
}

/// Leaves the innermost body, if one is open: the frame outside of it goes on, with its declarations and its uncompleted ones.
pub fn leave_innermost(state: &mut CheckState)
    ensures { state.new ≡ out_of_body state.old }
{
    match state.bodies.pop() {
        Some(body) => leave_open(state, body),
        None => {}
    }
}

fn is_input(mode: &Mode) -> bool
    ensures { result ≡ is_input mode.now }
{
    match mode {
        Mode::In => true,
        Mode::InOut => false,
        Mode::Out => false,
    }
}

fn with_copied(words: u32, formal: &FormalWords) -> u32
    ensures { result ≡ with_copied words formal.now }
{
    if is_input(&formal.mode) {
        return words;
    }
    words.saturating_add(formal.words)
}

/// The number of words that a procedure with these formals copies back (ARM 6.4.1(17)).
fn copied_words(formals: &[FormalWords]) -> u32
    ensures { result ≡ copied_words formals.now }
{
    let mut words = 0;
    for formal in formals {
        words = with_copied(words, formal);
    }
    words
}

fn copied_formals(alloc: Global, formals: &[FormalWords]) -> Result<Seq<FormalWords>, NoMemory>
    ensures { IfOk result (λ copy. copy ≡ formals.now) }
{
    let mut copy = Seq::empty(alloc);
    for formal in formals {
        copy.push(*formal)?;
    }
    Ok(copy)
}

/// The labelled form of an open body with these contents. Its `end` is on line `end`.
fn open_labelled(
    alloc: Global,
    state: &CheckState,
    body: &OpenBody,
    end: usize,
    inside: Elaboration,
) -> Result<TypedBody, NoMemory>
    ensures { IfOk result (λ made. body_model made ≡ labelled_body state.now end (elaboration_model inside) (Some body.now)) }
{
    let formals = copied_formals(alloc, body.formals.as_slice())?;
    let symbol = body.symbol.copy(alloc)?;
    let copied = copied_words(body.formals.as_slice());
    let kind = kind_of(alloc, &state.object, body.role, body.returns, copied, end)?;
    Ok(TypedBody {
        symbol,
        kind,
        depth: state.env.progress.depth,
        formals,
        inside,
    })
}

fn none_labelled(
    alloc: Global,
    state: &CheckState,
    inside: Elaboration,
) -> Result<TypedBody, NoMemory>
    ensures { IfOk result (λ made. body_model made ≡ labelled_body state.now 0 (elaboration_model inside) None) }
{
    let symbol = state.unit.own.symbol.copy(alloc)?;
    Ok(TypedBody {
        symbol,
        kind: BodyKind::Procedure { copied: 0 },
        depth: state.env.progress.depth,
        formals: Seq::empty(alloc),
        inside,
    })
}

/// The number of words of the innermost body's frame that come after its formals.
fn frame_words(state: &CheckState) -> u32
    ensures { result ≡ frame_words state.now (innermost state.now.bodies) }
{
    match state.bodies.innermost() {
        Some(body) => state.env.progress.words.frame.saturating_sub(body.after),
        None => 0,
    }
}

/// The labelled form of the innermost body with these contents. Its `end` is on line `end`.
fn labelled_inside(
    alloc: Global,
    state: &CheckState,
    end: usize,
    inside: Elaboration,
) -> Result<TypedBody, NoMemory>
    ensures { IfOk result (λ made. body_model made ≡ labelled_body state.now end (elaboration_model inside) (innermost state.now.bodies)) }
{
    match state.bodies.innermost() {
        Some(body) => open_labelled(alloc, state, body, end, inside),
        None => none_labelled(alloc, state, inside),
    }
}

/// The labelled form of the innermost body with its declarations and statements.
///
/// # Errors
/// `NoMemory` if the allocator refuses memory.
pub fn labelled(
    alloc: Global,
    state: &CheckState,
    extent: BodyExtent,
    declarations: Vec<TypedDeclaration>,
    statements: Vec<TypedStatement>,
) -> Result<TypedBody, NoMemory>
    ensures { IfOk result (λ body. body_model body ≡ labelled state.now extent (effects_model declarations) (map statement_model statements.items)) }
{
    let inside = Elaboration {
        line: extent.line,
        frame: frame_words(state),
        declarations,
        statements,
    };
    labelled_inside(alloc, state, extent.end.line as usize, inside)
}
