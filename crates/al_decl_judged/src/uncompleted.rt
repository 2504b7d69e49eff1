// Declarations that wait for their bodies.
ghost use Rattle.std.specs.Prelude.{◌≡◌, ◌<◌, [], length, IfOk, OnOk, OnErr, MatchOption, slice_get, Some};
ghost use Rattle.std.specs.List.{All, remove};
ghost use Rattle.al_decl_judged.specs.Uncompleted.{missing_fault, wants_body, with_declared};
ghost use Rattle.al_decl_judged.specs.Completing.{Completes, IsFirst};

use crate::completion::completed_of;
use crate::specification::BodyHead;
use al_base::{Name, NoMemory, Place};
use al_base_fault::{CheckRule, Fault};
use al_query::Completion;
use al_view::{Seq, View, ViewKind};
use std::alloc::Global;
use std::marker::Model;

/// The declarations of a part, and of the package's declaration that it completes, that have no body yet, in source order.
pub struct Uncompleted {
    alloc: Global,
    declared: Vec<Completion>,
}

impl Drop for Uncompleted {
    fn drop(self) {
        let Uncompleted {
            alloc: _,
            declared: _,
        } = self;
    }
}

impl Model for Uncompleted {
    ghost use Rattle.std.specs.Prelude.{List};
    ghost use Rattle.al_query.specs.declared.answer.Completion.{Completion};

    ghost Value = { List Completion };

    ghost view = { λ a. a.declared.items };
}

fn wants_body(view: &View) -> bool
    ensures { result ≡ wants_body view.now }
{
    match view.kind() {
        ViewKind::OfSubprogram(subprogram) => subprogram.flag.is_some(),
        ViewKind::OfTask(_) => true,
        ViewKind::OfProtected(_) => true,
        _ => false,
    }
}

fn copied(alloc: Global, name: &[u8], view: &View) -> Result<Completion, NoMemory>
    ensures { IfOk result (λ c. c ≡ record { name = name.now; view = view.now }) }
{
    let name = Name::from_slice(alloc, name)?;
    let view = view.share()?;
    Ok(Completion { name, view })
}

impl Uncompleted {
    /// No declarations.
    pub fn new(alloc: Global) -> Self
        ensures { result ≡ [] }
    {
        Uncompleted {
            alloc,
            declared: Vec::new(alloc),
        }
    }

    /// What a package's declaration leaves to its body.
    /// # Errors
    /// `NoMemory` if the allocator refuses memory.
    pub fn of(alloc: Global, completions: &[Completion]) -> Result<Self, NoMemory>
        ensures { IfOk result (λ uncompleted. uncompleted ≡ completions.now) }
    {
        let mut declared = Vec::new(alloc);
        for completion in completions {
            let copy = copied(alloc, completion.name.as_slice(), &completion.view)?;
            declared.push(copy)?;
        }
        Ok(Uncompleted { alloc, declared })
    }

    /// Records that something is declared under a name: it waits if it needs a body.
    /// # Errors
    /// `NoMemory` if the allocator refuses memory; the list is unchanged then.
    pub fn declare(&mut self, name: &[u8], view: &View) -> Result<(), NoMemory>
        ensures ok { OnOk result (self.new ≡ with_declared self.old name.now view.now) }
        ensures err { OnErr result (self.new ≡ self.old) }
    {
        if wants_body(view) {
            let completion = copied(self.alloc, name, view)?;
            self.declared.push(completion)?;
        }
        Ok(())
    }

    /// The index of the declaration that a body with that name completes; `None` if it completes none.
    pub fn completed_by(&self, name: &[u8], head: &BodyHead) -> Option<usize>
        ensures { MatchOption result (All (λ c. Completes name.now head.now c → ⊥) self.now) (IsFirst (Completes name.now head.now) self.now) }
    {
        completed_of(self.declared.as_slice(), name, head)
    }

    /// The declaration at this index.
    pub fn at(&self, i: usize) -> &Completion
        requires { i < length self.now }
        ensures { slice_get self.now i ≡ Some result.now }
    {
        &self.declared[i]
    }

    /// Removes the declaration at this index, which has its body now.
    pub fn complete(&mut self, i: usize)
        requires { i < length self.old }
        ensures { self.new ≡ remove self.old i }
    {
        let _ = self.declared.remove(i);
    }

    /// E302 at the end of the part, which is the place of its `begin` or `end`, if a declaration still waits.
    pub fn missing_fault(&self, place: Place) -> Option<Fault>
        ensures { result ≡ missing_fault place self.now }
    {
        if self.declared.is_empty() {
            return None;
        }
        let rule = CheckRule::MissingCompletion;
        Some(Fault { place, rule })
    }

    /// What the body of a package's declaration must complete, in the form in which the unit answers other units.
    pub fn into_completions(self) -> Seq<Completion>
        ensures { result ≡ self }
    {
        let Uncompleted { alloc: _, declared } = self;
        Seq::new(declared)
    }
}
