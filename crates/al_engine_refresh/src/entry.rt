// The entry that is kept of a checked unit.
ghost use Rattle.std.specs.Prelude.{◌≡◌, IfOk};
ghost use Rattle.al_query_outcome.specs.Results.{table_entry};
ghost use Rattle.al_engine_refresh.specs.Stored.{outcome_of};

use al_base::NoMemory;
use al_query::{Answer, Query, ReadLog};
use al_query_outcome::Checked;
use al_query_store::Logged;
use std::alloc::Global;
use std::marker::Model;
use std::rc::Rc;

/// The contents of an entry.
struct Kept {
    text: Rc<Vec<u8>>,
    log: ReadLog,
    checked: Checked,
}

impl Drop for Kept {
    fn drop(self) {
        let Kept {
            text: _,
            log: _,
            checked: _,
        } = self;
    }
}

/// The source of a unit as it was checked, each question that the check asked with its answer, and the result. Entries are shared: a copy only
/// raises a count.
pub struct Entry {
    kept: Rc<Kept>,
}

// Written out: a crate above then drops an entry by this call, and needn't prove again how each kind of tree is dropped.
impl Drop for Entry {
    fn drop(self) {
        let Entry { kept } = self;
        drop(kept);
    }
}

impl Model for Entry {
    ghost use Rattle.std.specs.Coded.{codes};
    ghost use Rattle.al_view_typed.specs.contracts.expression.Typed as expression;
    ghost use Rattle.al_view_typed.specs.contracts.statement.TypedStatement as statement;
    ghost use Rattle.al_engine_refresh.specs.Stored.{Stored};

    ghost Value = { Stored };

    ghost coded = { Prim.hlevel (codes, expression.the_row.coded, statement.the_row.coded) };

    ghost view = { λ e. record { text = e.kept.value.text.value.items; log = e.kept.value.log; checked = e.kept.value.checked } };
}

impl Logged for Entry {
    ghost log = { λ e. e.log };

    fn log(&self) -> &ReadLog {
        &self.kept.log
    }
}

impl Entry {
    /// The entry of a source that was checked, with what was asked and the result. The source is shared.
    ///
    /// # Errors
    /// `NoMemory` if the allocator refuses memory.
    pub fn new(
        alloc: Global,
        text: Rc<Vec<u8>>,
        log: ReadLog,
        checked: Checked,
    ) -> Result<Entry, NoMemory>
        ensures { IfOk result (λ entry. entry ≡ record { text = text.value.items; log = log; checked = checked }) }
    {
        let kept = Rc::new(alloc, Kept { text, log, checked })?;
        Ok(Entry { kept })
    }

    /// Another reference to the same entry.
    ///
    /// # Errors
    /// `NoMemory` if the allocator refuses memory.
    pub fn share(&self) -> Result<Entry, NoMemory>
        ensures { IfOk result (λ entry. entry ≡ self.now) }
    {
        let kept = self.kept.clone()?;
        Ok(Entry { kept })
    }

    /// The source that was checked.
    pub fn text(&self) -> &[u8]
        ensures { result.now ≡ self.now.text }
    {
        self.kept.text.as_slice()
    }

    /// The questions that the check asked, with their answers.
    pub fn log(&self) -> &ReadLog
        ensures { result.now ≡ self.now.log }
    {
        &self.kept.log
    }

    /// The result of the check.
    pub fn checked(&self) -> &Checked
        ensures { result.now ≡ self.now.checked }
    {
        &self.kept.checked
    }

    /// The answer to a question of the unit.
    ///
    /// # Errors
    /// `NoMemory` if the allocator refuses memory.
    pub fn answer(&self, alloc: Global, query: &Query) -> Result<Answer, NoMemory>
        ensures { IfOk result (λ answer. answer ≡ table_entry (outcome_of self.now) query.now) }
    {
        self.checked().answer(alloc, query)
    }
}
