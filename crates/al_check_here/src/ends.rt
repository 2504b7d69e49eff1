// What the walk over a unit leaves at its end.
ghost use Rattle.std.specs.Prelude.{◌≡◌, ◌++◌, ◌∷◌, [], drop, map, IfOk, OnOk};
ghost use Rattle.al_scope.specs.Hidden.{hidden, hidden_in};
ghost use Rattle.al_check_here.specs.Ends.{ends_of, ends_told, hidden_by, hidden_declaration, hidden_own, parts_ended, stub_names, use_inside, uses_inside};

use crate::state::{CheckState, UnitText, UseHere};
use al_base::{Name, NoMemory};
use al_decl_judged::{Declaration, Progress};
use al_query::{Completion, UseInPart};
use al_query_outcome::{Parts, StubDeclarations};
use al_scope::{OwnText, PrivateName, hidden, hidden_in};
use al_view::{Interface, Part, Seq};
use std::alloc::Global;
use std::mem;

/// What the walk over a unit leaves at its end.
pub struct Ends {
    /// The words, objects and flags that the unit takes.
    pub progress: Progress,
    /// The declarations that the unit leaves to its body to complete.
    pub completions: Seq<Completion>,
    /// What the unit's parts declare, and its stubs.
    pub parts: Parts,
    /// The use clauses that are immediately in the unit's parts.
    pub uses: Seq<UseInPart>,
    /// The unit's own name and view, if it is a library subprogram's declaration, or a body that acts as one.
    pub own: Seq<Declaration>,
    /// The unit that was walked, with what was known of it before.
    pub unit: UnitText,
}

impl Drop for Ends {
    fn drop(self) {
        let Ends {
            progress: _,
            completions: _,
            parts: _,
            uses: _,
            own: _,
            unit: _,
        } = self;
    }
}

impl Ends {
    /// The unit's own header, and what the walk left. It takes no memory.
    pub fn into_parts(
        self,
    ) -> (
        OwnText,
        Progress,
        Seq<Completion>,
        Parts,
        Seq<UseInPart>,
        Seq<Declaration>,
    )
        ensures { result ≡ (self.unit.own, self.progress, self.completions, self.parts, self.uses, self.own) }
    {
        let Ends {
            progress,
            completions,
            parts,
            uses,
            own: declared,
            unit,
        } = self;
        (
            unit.into_own(),
            progress,
            completions,
            parts,
            uses,
            declared,
        )
    }
}

fn add_name(alloc: Global, names: &mut Seq<Name>, stub: &StubDeclarations) -> Result<(), NoMemory>
    ensures { OnOk result (names.new ≡ names.old ++ stub.now.stub ∷ []) }
{
    let name = Name::from_slice(alloc, stub.stub.as_slice())?;
    names.push(name)?;
    Ok(())
}

/// The names of the stubs, in their order.
///
/// # Errors
/// `NoMemory` if the allocator refuses memory.
pub fn stub_names(alloc: Global, stubs: &[StubDeclarations]) -> Result<Seq<Name>, NoMemory>
    ensures { IfOk result (λ names. names ≡ stub_names stubs.now) }
{
    let mut names = Seq::empty(alloc);
    for stub in stubs {
        add_name(alloc, &mut names, stub)?;
    }
    Ok(names)
}

/// The stubs after the first `number` of them.
fn stubs_after(stubs: &[StubDeclarations], number: usize) -> &[StubDeclarations]
    ensures { result.now ≡ drop number stubs.now }
{
    if number < stubs.len() {
        return &stubs[number..];
    }
    &[]
}

fn use_inside(
    alloc: Global,
    stubs: &[StubDeclarations],
    found: &UseHere,
) -> Result<UseInPart, NoMemory>
    ensures { IfOk result (λ made. made ≡ use_inside stubs.now found.now) }
{
    let before = stub_names(alloc, stubs_after(stubs, found.stubs))?;
    let part = found.part.copy(alloc)?;
    let clause = found.clause.copy(alloc)?;
    Ok(UseInPart {
        part,
        clause,
        before,
    })
}

fn add_use(
    alloc: Global,
    made: &mut Seq<UseInPart>,
    stubs: &[StubDeclarations],
    found: &UseHere,
) -> Result<(), NoMemory>
    ensures { OnOk result (made.new ≡ made.old ++ use_inside stubs.now found.now ∷ []) }
{
    let one = use_inside(alloc, stubs, found)?;
    made.push(one)?;
    Ok(())
}

fn uses_inside(
    alloc: Global,
    stubs: &[StubDeclarations],
    uses: &[UseHere],
) -> Result<Seq<UseInPart>, NoMemory>
    ensures { IfOk result (λ made. made ≡ uses_inside stubs.now uses.now) }
{
    let mut made = Seq::empty(alloc);
    for found in uses {
        add_use(alloc, &mut made, stubs, found)?;
    }
    Ok(made)
}

pub(crate) fn parts_ended(
    alloc: Global,
    part: &Part,
    visible: Interface,
    declared: Interface,
    stubs: Seq<StubDeclarations>,
) -> Parts
    ensures { result ≡ parts_ended part.now visible declared stubs }
{
    let none = Interface::new(alloc);
    match part {
        Part::Visible => Parts {
            visible: declared,
            private_part: none,
            body: Interface::new(alloc),
            stubs,
        },
        Part::Private => Parts {
            visible,
            private_part: declared,
            body: none,
            stubs,
        },
        _ => Parts {
            visible: none,
            private_part: Interface::new(alloc),
            body: declared,
            stubs,
        },
    }
}

/// What the private part declares, if the unit ends in it; else nothing.
pub fn into_private_part(alloc: Global, state: CheckState) -> Interface
    ensures { result ≡ (ends_of state).parts.private_part }
{
    match state.part {
        Part::Private => state.into_declared(),
        _ => {
            drop(state);
            Interface::new(alloc)
        }
    }
}

/// Replaces each declared view by what other units may see of it.
fn hide(alloc: Global, names: &[PrivateName], declared: &mut Interface) -> Result<(), NoMemory>
    ensures { OnOk result (declared.new ≡ hidden_in names.now declared.old) }
{
    let all = mem::replace(declared, Interface::new(alloc));
    *declared = hidden_in(alloc, names, all)?;
    Ok(())
}

/// Hides the private types of ancestors in what the visible part shows: only their partial views are left (ARM 7.3(5)).
fn hide_visible(alloc: Global, state: &mut CheckState) -> Result<(), NoMemory>
    ensures { OnOk result (state.new ≡ hidden_by state.old.part state.old) }
{
    let names = state.unit.hidden.as_slice();
    match state.part {
        Part::Visible => hide(alloc, names, &mut state.env.declared),
        Part::Private => hide(alloc, names, &mut state.visible),
        _ => Ok(()),
    }
}

fn hidden_declaration(
    alloc: Global,
    names: &[PrivateName],
    of: &Declaration,
) -> Result<Declaration, NoMemory>
    ensures { IfOk result (λ answered. answered ≡ hidden_declaration names.now of.now) }
{
    let name = Name::from_slice(alloc, of.name.as_slice())?;
    let view = hidden(alloc, names, &of.view)?;
    Ok(Declaration { name, view })
}

fn hidden_declarations(
    alloc: Global,
    names: &[PrivateName],
    declarations: &[Declaration],
) -> Result<Seq<Declaration>, NoMemory>
    ensures { IfOk result (λ answered. answered ≡ map (hidden_declaration names.now) declarations.now) }
{
    let mut answered = Seq::empty(alloc);
    for of in declarations {
        answered.push(hidden_declaration(alloc, names, of)?)?;
    }
    Ok(answered)
}

/// Hides the private types of ancestors in the unit's own view.
fn hide_own(alloc: Global, state: &mut CheckState) -> Result<(), NoMemory>
    ensures { OnOk result (state.new ≡ hidden_own state.old) }
{
    let names = state.unit.hidden.as_slice();
    state.own = hidden_declarations(alloc, names, state.own.as_slice())?;
    Ok(())
}

/// What the walk leaves at the end of a unit, with private types of ancestors hidden.
///
/// # Errors
/// `NoMemory` if the allocator refuses memory.
pub fn into_ends(alloc: Global, state: CheckState) -> Result<Ends, NoMemory>
    ensures { IfOk result (λ ends. ends ≡ ends_told state) }
{
    let mut state = state;
    hide_visible(alloc, &mut state)?;
    hide_own(alloc, &mut state)?;
    let uses = uses_inside(alloc, state.stubs.as_slice(), state.uses.as_slice())?;
    Ok(state.ended(alloc, uses))
}
