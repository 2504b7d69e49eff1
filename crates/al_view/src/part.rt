// Parts of a unit.
ghost use Rattle.std.specs.Prelude.{◌≡◌, IfOk};
ghost use Rattle.al_view.specs.Symbols.{same_part};

use al_base::{Name, NoMemory};
use std::alloc::Global;

/// A part of a unit, whose declarations can be asked for.
#[derive(Drop)]
pub enum Part {
    /// The visible part (ARM 7.1(6), 8.2(5)); of a subprogram its profile.
    Visible,
    /// The private part of a package (ARM 7.1(6)).
    Private,
    /// The declarative part of a body.
    Body,
    /// What comes before the stub of that name in a body (ARM 10.1.3(8)), with the regions round it.
    Stub(Name),
}

impl Part {
    /// Whether two parts of a unit are one.
    pub fn is(&self, other: &Part) -> bool
        ensures { result ≡ same_part self.now other.now }
    {
        match (self, other) {
            (Part::Visible, Part::Visible) => true,
            (Part::Private, Part::Private) => true,
            (Part::Body, Part::Body) => true,
            (Part::Stub(name), Part::Stub(other)) => name.as_slice() == other.as_slice(),
            _ => false,
        }
    }

    /// A copy of the part.
    ///
    /// # Errors
    ///
    /// `NoMemory` if the allocator refuses memory.
    pub fn copy(&self, alloc: Global) -> Result<Part, NoMemory>
        ensures { IfOk result (λ copy. copy ≡ self.now) }
    {
        match self {
            Part::Visible => Ok(Part::Visible),
            Part::Private => Ok(Part::Private),
            Part::Body => Ok(Part::Body),
            Part::Stub(name) => {
                let name = Name::from_slice(alloc, name.as_slice())?;
                Ok(Part::Stub(name))
            }
        }
    }
}
