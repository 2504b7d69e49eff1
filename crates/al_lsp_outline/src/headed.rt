// The unit of a source.
ghost use Rattle.std.specs.Prelude.{◌≡◌, ◌≤◌, IfOk, length, option_map};
ghost use Rattle.al_lsp_outline.specs.Heads.{heading_of, text_heading};
ghost use Rattle.al_tree.specs.UnitViews.{unit_model};

use al_base::{Name, NoMemory, Place};
use al_tree::CompilationUnit;
use al_unit::read;
use al_unit_graph::UnitForm;
use al_unit_header::header_of;
use std::alloc::Global;

/// What a unit is called, and what it is.
pub struct Heading {
    /// Its full name in lower case; of a subunit with that of its parent body before it (ARM 10.1.3(8)).
    pub name: Name,
    /// The place of the name in the source.
    pub place: Place,
    pub form: UnitForm,
}

impl Drop for Heading {
    fn drop(self) {
        let Heading {
            name: _,
            place: _,
            form: _,
        } = self;
    }
}

fn heading_of(alloc: Global, unit: &CompilationUnit) -> Result<Heading, NoMemory>
    ensures { IfOk result (λ heading. heading ≡ heading_of (unit_model unit.now)) }
{
    let header = header_of(alloc, unit)?;
    Ok(Heading {
        name: header.name.copy(alloc)?,
        place: header.place,
        form: header.form,
    })
}

/// The unit of a source; none where it is no unit.
///
/// # Errors
///
/// `NoMemory` if the allocator refuses memory.
pub fn heading_in(alloc: Global, text: &[u8]) -> Result<Option<Heading>, NoMemory>
    requires { length text.now ≤ 4294967294 }
    ensures { IfOk result (λ heading. heading ≡ text_heading text.now) }
{
    match read(alloc, text)?.into_unit() {
        Some(unit) => Ok(Some(heading_of(alloc, &unit)?)),
        None => Ok(None),
    }
}
