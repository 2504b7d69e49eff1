// The operators of a type whose package isn't mentioned, as its view has them.
ghost use Rattle.std.specs.Prelude.{◌≡◌, IfOk};
ghost use Rattle.al_view.specs.Interfaces.{views_of};
ghost use Rattle.al_scope.specs.UseClauses.{operators_in};

use al_base::NoMemory;
use al_view::{Interface, Symbol, Types, View};
use al_view_predefined::declare_operators;
use std::alloc::Global;
use std::marker::Model;
use std::rc::Rc;

/// The operators of a type, by their signs. They are shared: a copy costs no more than a count.
pub struct TypeOperators {
    declared: Rc<Interface>,
}

impl Drop for TypeOperators {
    fn drop(self) {
        let TypeOperators { declared: _ } = self;
    }
}

impl Model for TypeOperators {
    ghost use Rattle.al_view.specs.Named.{Declarations};

    ghost Value = { Declarations };

    ghost view = { λ o. o.declared.value };
}

/// The operators that the declaration of the type declares (ARM 3.2.3(6)), if the type is one of these.
fn operators_in(alloc: Global, symbol: &Symbol, types: &Types) -> Result<Interface, NoMemory>
    ensures { IfOk result (λ declared. declared ≡ operators_in symbol.now types.now) }
{
    let mut declared = Interface::new(alloc);
    if let Some(of) = types.find(symbol) {
        let elsewhere = Interface::new(alloc);
        let definition = &of.definition;
        declare_operators(alloc, &elsewhere, &mut declared, symbol, types, definition)?;
    }
    Ok(declared)
}

impl TypeOperators {
    /// The operators of the type with this symbol, if it is one of these.
    /// # Errors
    /// `NoMemory` if the allocator refuses memory.
    pub fn new(alloc: Global, symbol: &Symbol, types: &Types) -> Result<Self, NoMemory>
        ensures { IfOk result (λ made. made ≡ operators_in symbol.now types.now) }
    {
        let declared = operators_in(alloc, symbol, types)?;
        let declared = Rc::new(alloc, declared)?;
        Ok(TypeOperators { declared })
    }

    /// The same operators, shared.
    /// # Errors
    /// `NoMemory` if the allocator refuses memory.
    pub fn share(&self) -> Result<Self, NoMemory>
        ensures { IfOk result (λ shared. shared ≡ self.now) }
    {
        let declared = self.declared.clone()?;
        Ok(TypeOperators { declared })
    }

    /// The operators with a sign.
    pub fn views(&self, name: &[u8]) -> &[View]
        ensures { result.now ≡ views_of self.now name.now }
    {
        self.declared.views(name)
    }
}
