// The loops round a statement.
ghost use Rattle.std.specs.Prelude.{◌≡◌, ◌<◌, ◌^◌, ℕ, List, [], ◌∷◌, length, reverse, OnOk, OnErr, Some, None, Option, IfSome};
ghost use Rattle.std.specs.List.{position};
ghost use Rattle.std.specs.Option.{option_map};
ghost use Rattle.al_stmts.specs.Exits.{exit_checked, loops_between, may_leave, without_innermost};

use al_base::{Name, NoMemory, Place};
use al_base_fault::{CheckResult, CheckRule, Fault};
use std::alloc::Global;
use std::marker::Model;

/// The loops round a statement, within the body that it is in, with their names in lower case.
pub struct Loops {
    names: Vec<Option<Name>>,
}

impl Drop for Loops {
    fn drop(self) {
        let Loops { names: _ } = self;
    }
}

impl Model for Loops {
    ghost use Rattle.std.specs.Prelude.{ℕ, List, Option, reverse, ◌<◌, ◌^◌, length};

    ghost Value = { List (Option (List ℕ)) };

    ghost view = { λ l. reverse l.names.items };

    ghost invariant = { λ l. length l.names.items < 2 ^ 32 };
}

/// Whether an exit statement with this name may leave the loop.
fn may_leave(name: Option<&[u8]>, label: &Option<Name>) -> bool
    ensures { result ≡ may_leave (option_map (λ n. n.now) name.entry) label.now }
{
    match (name, label) {
        (None, _) => true,
        (Some(name), Some(label)) => name == label.as_slice(),
        (Some(_), None) => false,
    }
}

/// How many labels come after that of the last loop that may be left.
fn innermost(labels: &[Option<Name>], name: Option<&[u8]>) -> Option<usize>
    ensures value { result ≡ position (may_leave (option_map (λ n. n.now) name.entry)) (reverse labels.now) }
    ensures within { IfSome result (λ i. i < length labels.now) }
{
    labels.iter().rev().position(|label| may_leave(name, label))
}

impl Loops {
    /// No loops, as for the statements of a body.
    pub fn new(alloc: Global) -> Self
        ensures { result ≡ [] }
    {
        Loops {
            names: Vec::new(alloc),
        }
    }

    /// Enters a loop, with its name if it has one; it is the innermost one then.
    /// # Errors
    /// `NoMemory` if the allocator refuses memory; the loops are unchanged then.
    #[tactic(auto, using(std::proofs::lemmas::Grind::common_steps, crate::proofs::LoopLemmas::reverse_push))]
    pub fn enter(&mut self, name: Option<Name>) -> Result<(), NoMemory>
        ensures ok { OnOk result (self.new ≡ name ∷ self.old) }
        ensures err { OnErr result (self.new ≡ self.old) }
    {
        if self.names.len() >= 0xffff_ffff {
            return Err(NoMemory);
        }
        self.names.push(name)?;
        Ok(())
    }

    /// Leaves the innermost loop.
    pub fn leave(&mut self)
        ensures { self.new ≡ without_innermost self.old }
    {
        let _ = self.names.pop();
    }

    /// How many loops are between an exit statement, with this name or with none, and the loop that it leaves; `None` if there is no such
    /// loop.
    pub fn between(&self, name: Option<&[u8]>) -> Option<u32>
        ensures { result ≡ loops_between self.now (option_map (λ n. n.now) name.entry) }
    {
        match innermost(self.names.as_slice(), name) {
            Some(loops) => Some(loops as u32),
            None => None,
        }
    }

    /// How many loops are between an exit statement and the loop that it leaves.
    /// # Errors
    /// E502 at the word `exit` if there is no such loop.
    pub fn checked_exit(&self, place: Place, name: Option<&[u8]>) -> CheckResult<u32>
        ensures { result ≡ exit_checked place self.now (option_map (λ n. n.now) name.entry) }
    {
        let rule = CheckRule::BadExit;
        match self.between(name) {
            Some(loops) => Ok(loops),
            None => Err(Fault { place, rule }),
        }
    }
}
