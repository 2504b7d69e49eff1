// The files that a unit asks for, and whether a file has changed (ARM 10.1.4(5, 7)).
ghost use Rattle.std.specs.Prelude.{◌≡◌, IfOk};
ghost use Rattle.std.specs.Option.{option_map};
ghost use Rattle.al_unit_graph.specs.Traces.{wants, is_same_text, is_changed};

use crate::source::Sources;
use al_base::{Name, NoMemory};

fn is_same_text(a: Option<&[u8]>, b: Option<&[u8]>) -> bool
    ensures { result ≡ is_same_text (option_map (λ t. t.now) a.entry) (option_map (λ t. t.now) b.entry) }
{
    match (a, b) {
        (None, None) => true,
        (Some(a), Some(b)) => a == b,
        (None, Some(_)) | (Some(_), None) => false,
    }
}

impl Sources {
    /// The files that the unit of a file asks for; none if it holds no unit.
    ///
    /// # Errors
    ///
    /// `NoMemory` if the allocator refuses memory.
    pub fn wants(&self, file: &[u8]) -> Result<Vec<Name>, NoMemory>
        ensures { IfOk result (λ files. files.items ≡ wants self.now file.now) }
    {
        match self.unit_in(file) {
            Some(header) => self.wanted_files(header),
            None => Ok(Vec::new(self.alloc)),
        }
    }

    /// Whether a file has another source in an older library, or is there in one of the two alone.
    pub fn is_changed(&self, old: &Sources, file: &[u8]) -> bool
        ensures { result ≡ is_changed old.now self.now file.now }
    {
        !is_same_text(old.text_at(file), self.text_at(file))
    }
}
