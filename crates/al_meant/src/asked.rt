// A table that several recorders ask.
use al_base::NoMemory;
use al_query::{Answer, Answers, Query};

/// The answers of a table that is lent.
pub struct Asked<'a, A: Answers> {
    pub table: &'a A,
}

impl<A: Answers> Drop for Asked<'_, A> {
    fn drop(self) {
        let Asked { table: _ } = self;
    }
}

impl<A: Answers> Answers for Asked<'_, A> {
    ghost table = { λ a. A.table a.table.now };

    fn ask(&self, query: &Query) -> Result<Answer, NoMemory> {
        self.table.ask(query)
    }
}
