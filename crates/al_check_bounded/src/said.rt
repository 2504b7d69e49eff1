// What a unit says of itself.
ghost use Rattle.std.specs.Prelude.{◌≡◌, IfOk};
ghost use Rattle.al_view.specs.declared.view.ViewKind.TheVariants.{OfPackage};
ghost use Rattle.al_check_bounded.specs.Said.{own_view, said, view_of_subprogram};

use al_base::{Name, NoMemory, UnitKey};
use al_decl_judged::Declaration;
use al_query::{Completion, ContextView, UseInPart};
use al_query_outcome::Properties;
use al_scope::OwnText;
use al_view::{Seq, Symbol, View, ViewKind};
use std::alloc::Global;

fn package_view(alloc: Global, symbol: &Symbol) -> Result<View, NoMemory>
    ensures { IfOk result (λ view. view ≡ OfPackage symbol.now) }
{
    let symbol = symbol.copy(alloc)?;
    Ok(View::new(alloc, ViewKind::OfPackage(symbol))?)
}

/// The own view of a subprogram: that which its own declaration gives, or else that of the declaration which its body completes.
fn view_of_subprogram(
    declared: &[Declaration],
    completed: &Option<View>,
) -> Result<Option<View>, NoMemory>
    ensures { IfOk result (λ view. view ≡ view_of_subprogram declared.now completed.now) }
{
    match declared.first() {
        Some(declaration) => Ok(Some(declaration.view.share()?)),
        None => match completed {
            Some(view) => Ok(Some(view.share()?)),
            None => Ok(None),
        },
    }
}

/// The own view of a unit: a package, or a subprogram as its own declaration gives it or else as its body completes it. None if it has neither.
///
/// # Errors
/// `NoMemory` if the allocator refuses memory.
pub fn own_view(
    alloc: Global,
    own: &OwnText,
    declared: &[Declaration],
    completed: &Option<View>,
) -> Result<Option<View>, NoMemory>
    ensures { IfOk result (λ view. view ≡ own_view own.now declared.now completed.now) }
{
    if own.is_package {
        return Ok(Some(package_view(alloc, &own.symbol)?));
    }
    view_of_subprogram(declared, completed)
}

/// What a unit says of itself, before it is put together.
pub struct SaidUnit {
    /// The unit's own header.
    pub own: OwnText,
    /// Its own view.
    pub kind: View,
    /// Its parent, if it has one.
    pub parent: Option<UnitKey>,
    /// Whether it is a declaration that needs a body.
    pub needs_body: bool,
    /// The units that its with clauses name.
    pub withs: Seq<UnitKey>,
    /// The use clauses that are immediately in its parts.
    pub uses_inside: Seq<UseInPart>,
    /// The private types that its visible part declares.
    pub private_types: Seq<Name>,
    /// The declarations that it leaves to its body to complete.
    pub completions: Seq<Completion>,
}

impl Drop for SaidUnit {
    fn drop(self) {
        let SaidUnit {
            own: _,
            kind: _,
            parent: _,
            needs_body: _,
            withs: _,
            uses_inside: _,
            private_types: _,
            completions: _,
        } = self;
    }
}

impl SaidUnit {
    /// The properties of a unit: what it says of itself. It takes no memory.
    pub fn into_properties(self) -> Properties
        ensures { result ≡ said self }
    {
        let SaidUnit {
            own,
            kind,
            parent,
            needs_body,
            withs,
            uses_inside,
            private_types,
            completions,
        } = self;
        let OwnText {
            is_private,
            uses,
            ..
        } = own;
        Properties {
            kind,
            parent,
            is_private,
            context: ContextView {
                withs,
                uses,
                uses_inside,
                private_types,
            },
            needs_body,
            completions,
        }
    }
}
