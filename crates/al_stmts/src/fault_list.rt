// What is wrong with a piece of source.
ghost use Rattle.std.specs.Prelude.{◌≡◌, ◌++◌, Some, is_some, OnOk, IfOk, IsTrue, ◌↔◌};
ghost use Rattle.al_stmts.specs.FaultLists.{all_faults, followed, is_after, is_cut, no_fault, of_declaration, of_statement, round};

use al_base::{NoMemory, Place};
use al_base_fault::Fault;
use al_view::Seq;
use std::alloc::{AllocError, Global};

/// What is wrong with a piece of source.
pub struct FaultList {
    /// The faults of its statements: for each statement the first rule that it breaks, apart from the statements inside it, which follow.
    pub faults: Seq<Fault>,
    /// The fault of a declaration, pragma or use clause, or of the end of a body or of its declarations. It ends the list, as nothing after
    /// it is checked.
    pub end: Option<Fault>,
}

impl Drop for FaultList {
    fn drop(self) {
        let FaultList { faults: _, end: _ } = self;
    }
}

/// Whether one place is after another one.
fn is_after(place: Place, other: Place) -> bool
    ensures { result ≡ is_after place other }
{
    other.line < place.line || (place.line == other.line && other.col < place.col)
}

/// Whether a fault is after the end of a list.
fn is_cut(fault: &Fault, end: Option<Fault>) -> bool
    ensures { result ≡ is_cut fault.now end }
{
    match end {
        Some(last) => is_after(fault.place, last.place),
        None => false,
    }
}

/// Appends faults.
#[tactic(auto, using(std::proofs::lemmas::Grind::common_steps))]
fn append(faults: &mut Seq<Fault>, more: &[Fault]) -> Result<(), AllocError>
    ensures { OnOk result (faults.new ≡ faults.old ++ more.now) }
{
    for fault in more {
        faults.push(*fault)?;
    }
    Ok(())
}

impl FaultList {
    /// The list of source in which nothing is wrong. It takes no memory.
    pub fn none(alloc: Global) -> Self
        ensures { result ≡ no_fault }
    {
        FaultList {
            faults: Seq::empty(alloc),
            end: None,
        }
    }

    /// The list of a declaration's fault, with nothing before it. It takes no memory.
    pub fn ended(alloc: Global, fault: Fault) -> Self
        ensures { result ≡ of_declaration (Some fault) }
    {
        FaultList {
            faults: Seq::empty(alloc),
            end: Some(fault),
        }
    }

    /// Whether the list has ended, so that nothing after it is checked.
    pub fn is_ended(&self) -> bool
        ensures { result ≡ is_some self.now.end }
    {
        self.end.is_some()
    }

    /// Adds what is wrong with the source that follows.
    /// # Errors
    /// `NoMemory` if the allocator refuses memory.
    pub fn follow(&mut self, after: FaultList) -> Result<(), NoMemory>
        ensures { OnOk result (self.new ≡ followed self.old after) }
    {
        match self.end {
            Some(_) => Ok(()),
            None => self.extend(after),
        }
    }

    fn extend(&mut self, after: FaultList) -> Result<(), NoMemory>
        ensures { OnOk result ((self.new.faults ≡ self.old.faults ++ after.faults) × (self.new.end ≡ after.end)) }
    {
        append(&mut self.faults, after.faults.as_slice())?;
        self.end = after.end;
        Ok(())
    }

    /// Adds the fault of the next statement, if it has one.
    /// # Errors
    /// `NoMemory` if the allocator refuses memory.
    pub fn add_statement(&mut self, fault: Option<Fault>) -> Result<(), NoMemory>
        ensures { OnOk result (self.new ≡ followed self.old (of_statement fault)) }
    {
        match (self.end, fault) {
            (None, Some(fault)) => self.faults.push(fault)?,
            (None, None) => {}
            (Some(_), _) => {}
        }
        Ok(())
    }

    /// Adds the fault of the next declaration or of an end, if it has one.
    pub fn add_declaration(&mut self, fault: Option<Fault>)
        ensures { self.new ≡ followed self.old (of_declaration fault) }
    {
        if self.end.is_none() {
            self.end = fault;
        }
    }

    /// The list of a statement's fault, if it has one, and then of what is wrong inside it.
    /// # Errors
    /// `NoMemory` if the allocator refuses memory.
    pub fn round(alloc: Global, own: Option<Fault>, inner: FaultList) -> Result<Self, NoMemory>
        ensures { IfOk result (λ list. list ≡ round own inner) }
    {
        match own {
            Some(fault) => inner.in_front(alloc, fault),
            None => Ok(inner),
        }
    }

    fn in_front(self, alloc: Global, own: Fault) -> Result<Self, NoMemory>
        ensures { IfOk result (λ list. list ≡ round (Some own) self) }
    {
        if is_cut(&own, self.end) {
            return Ok(self);
        }
        let mut faults = Seq::empty(alloc);
        faults.push(own)?;
        append(&mut faults, self.faults.as_slice())?;
        Ok(FaultList {
            faults,
            end: self.end,
        })
    }

    /// All faults, in source order.
    /// # Errors
    /// `NoMemory` if the allocator refuses memory.
    pub fn into_faults(self) -> Result<Seq<Fault>, NoMemory>
        ensures { IfOk result (λ faults. faults ≡ all_faults self) }
    {
        let FaultList { mut faults, end } = self;
        match end {
            Some(fault) => faults.push(fault)?,
            None => {}
        }
        Ok(faults)
    }
}
