// A place in a unit's source with what is declared there so far.
ghost use Rattle.std.specs.Prelude.{◌≡◌, ◌<◌, length, OnOk};
ghost use Rattle.al_decl.specs.Declaring.{begun, begun_one, with_declaration, with_declarations};

use al_base::NoMemory;
use al_decl_judged::{Declaration, DefiningName, Progress, Uncompleted};
use al_scope::Scope;
use al_view::Interface;

/// A place in a unit's source, and how far its check has come there.
#[derive(Drop)]
pub struct Environment {
    /// The regions round the place.
    pub scope: Scope,
    /// What the declarations before it have taken.
    pub progress: Progress,
    /// What waits for a body in the innermost part.
    pub uncompleted: Uncompleted,
    /// What the innermost part declares so far.
    pub declared: Interface,
}

/// Begins the declaration of a name, which may not be overloaded: until the region is left it hides what is outside (ARM 8.3(15, 16)).
/// # Errors
/// `NoMemory` if the allocator refuses memory.
pub fn begin_one(scope: &mut Scope, name: &DefiningName) -> Result<(), NoMemory>
    requires { 0 < length scope.old.regions }
    ensures begun { OnOk result (scope.new ≡ begun_one scope.old name.now) }
    ensures depth { length scope.new.regions ≡ length scope.old.regions }
{
    scope.start(name.name.as_slice())
}

/// Begins the declaration of these names.
/// # Errors
/// `NoMemory` if the allocator refuses memory.
pub fn begin(scope: &mut Scope, names: &[DefiningName]) -> Result<(), NoMemory>
    requires { 0 < length scope.old.regions }
    ensures begun { OnOk result (scope.new ≡ begun scope.old names.now) }
    ensures depth { length scope.new.regions ≡ length scope.old.regions }
{
    for name in names {
        begin_one(scope, name)?;
    }
    Ok(())
}

impl Environment {
    /// Adds a declaration to the innermost region.
    fn declare_one(&mut self, declaration: &Declaration) -> Result<(), NoMemory>
        requires { 0 < length self.old.scope.regions }
        ensures declared { OnOk result (self.new ≡ with_declaration self.old declaration.now) }
        ensures depth { length self.new.scope.regions ≡ length self.old.scope.regions }
    {
        let name = declaration.name.as_slice();
        self.scope.add(name, declaration.view.share()?)?;
        self.declared.declare(name, declaration.view.share()?)?;
        Ok(())
    }

    /// Makes these declarations visible in the innermost region, in their order. Homographs were asked for before.
    /// # Errors
    /// `NoMemory` if the allocator refuses memory.
    pub fn declare(&mut self, declarations: &[Declaration]) -> Result<(), NoMemory>
        requires { 0 < length self.old.scope.regions }
        ensures declared { OnOk result (self.new ≡ with_declarations self.old declarations.now) }
        ensures depth { length self.new.scope.regions ≡ length self.old.scope.regions }
    {
        for declaration in declarations {
            self.declare_one(declaration)?;
        }
        Ok(())
    }
}
