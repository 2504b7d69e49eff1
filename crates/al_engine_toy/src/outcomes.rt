// The outcomes of the toy checker.
ghost use Rattle.std.specs.Prelude.{◌≡◌, ◌∷◌, [], IfOk};
ghost use Rattle.al_view_typed.specs.UnitTrees.{body_model, elaboration_model, unit_model};
ghost use Rattle.al_view.specs.declared.view.ViewKind.TheVariants.{OfPackage};
ghost use Rattle.al_query_outcome.specs.Results.{checked_model};
ghost use Rattle.al_query_outcome.specs.Tables.{interface_of};
ghost use Rattle.al_engine_toy.specs.Outcomes.{does, faulty, no_parts, own_body, own_symbol, plain, properties, puts_name, tree};

use al_base::{Diagnostic, Name, NoMemory, Place, UnitKey, file_name_of};
use al_query::ContextView;
use al_query_outcome::{Checked, Parts, Properties, UnitInterface, last_of};
use al_view::{Interface, Seq, Symbol, View, ViewKind, copied_unit};
use al_view_typed::{
    BodyKind, Elaboration, Piece, StatementForm, TypedBody, TypedStatement, TypedUnit,
};
use std::alloc::Global;

/// A unit's own symbol.
fn own_symbol(alloc: Global, unit: &UnitKey) -> Result<Symbol, NoMemory>
    ensures { IfOk result (λ symbol. symbol ≡ own_symbol unit.now) }
{
    Ok(Symbol {
        unit: copied_unit(alloc, unit)?,
        name: Name::from_slice(alloc, last_of(unit.name.as_slice()))?,
        number: 0,
    })
}

/// A unit's own view.
pub(crate) fn own_view(alloc: Global, unit: &UnitKey) -> Result<View, NoMemory>
    ensures { IfOk result (λ view. view ≡ OfPackage (own_symbol unit.now)) }
{
    let symbol = own_symbol(alloc, unit)?;
    let view = View::new(alloc, ViewKind::OfPackage(symbol))?;
    Ok(view)
}

/// The properties of a unit without errors.
fn properties(
    alloc: Global,
    unit: &UnitKey,
    parent: Option<UnitKey>,
    marked: bool,
) -> Result<Properties, NoMemory>
    ensures { IfOk result (λ p. p ≡ properties unit.now parent marked) }
{
    let kind = own_view(alloc, unit)?;
    let context = ContextView {
        withs: Seq::empty(alloc),
        uses: Seq::empty(alloc),
        uses_inside: Seq::empty(alloc),
        private_types: Seq::empty(alloc),
    };
    Ok(Properties {
        kind,
        parent,
        is_private: marked,
        context,
        needs_body: false,
        completions: Seq::empty(alloc),
    })
}

/// No declarations.
fn no_parts(alloc: Global) -> Parts
    ensures { result ≡ no_parts }
{
    Parts {
        visible: Interface::new(alloc),
        private_part: Interface::new(alloc),
        body: Interface::new(alloc),
        stubs: Seq::empty(alloc),
    }
}

/// An elaboration that puts a line with a unit's name.
fn puts_name(alloc: Global, unit: &UnitKey) -> Result<Elaboration, NoMemory>
    ensures { IfOk result (λ e. elaboration_model e ≡ does (puts_name unit.now ∷ [])) }
{
    let bytes = Vec::from_slice(alloc, unit.name.as_slice())?;
    let mut pieces = Vec::new(alloc);
    pieces.push(Piece::Text(Seq::new(bytes)))?;
    let mut statements = Vec::new(alloc);
    statements.push(TypedStatement::new(1, StatementForm::put(pieces, true)))?;
    Ok(Elaboration::new(1, 0, Vec::new(alloc), statements))
}

/// A procedure with the unit's last name that does nothing.
fn own_body(alloc: Global, unit: &UnitKey) -> Result<TypedBody, NoMemory>
    ensures { IfOk result (λ body. body_model body ≡ own_body unit.now) }
{
    let symbol = own_symbol(alloc, unit)?;
    let inside = Elaboration::new(1, 0, Vec::new(alloc), Vec::new(alloc));
    let kind = BodyKind::Procedure { copied: 0 };
    Ok(TypedBody::new(symbol, kind, 1, Seq::empty(alloc), inside))
}

/// The labelled tree of a unit.
fn tree(alloc: Global, unit: &UnitKey) -> Result<TypedUnit, NoMemory>
    ensures { IfOk result (λ u. unit_model u ≡ tree unit.now) }
{
    let key = copied_unit(alloc, unit)?;
    let elaboration = puts_name(alloc, unit)?;
    let mut bodies = Vec::new(alloc);
    bodies.push(own_body(alloc, unit)?)?;
    Ok(TypedUnit::new(
        key,
        Some(elaboration),
        bodies,
        0,
        Seq::empty(alloc),
        Seq::empty(alloc),
        Seq::empty(alloc),
    ))
}

/// A unit without errors, with this parent.
#[tactic(auto, unfolding(crate::specs::Outcomes::plain))]
pub(crate) fn plain(
    alloc: Global,
    unit: &UnitKey,
    parent: Option<UnitKey>,
    marked: bool,
) -> Result<Checked, NoMemory>
    ensures { IfOk result (λ checked. checked_model checked ≡ plain unit.now parent marked) }
{
    let properties = properties(alloc, unit, parent, marked)?;
    let interface = UnitInterface::new(alloc, properties, no_parts(alloc))?;
    let tree = tree(alloc, unit)?;
    Ok(Checked::Sound(interface, tree))
}

/// An error at the first place of the unit's file.
#[tactic(auto, unfolding(crate::specs::Outcomes::faulty))]
pub(crate) fn faulty(alloc: Global, unit: &UnitKey) -> Result<Checked, NoMemory>
    ensures { IfOk result (λ checked. checked_model checked ≡ faulty unit.now) }
{
    let file = file_name_of(alloc, unit)?;
    let place = Place { line: 1, col: 1 };
    let mut faults = Seq::empty(alloc);
    faults.push(Diagnostic {
        file,
        place,
        code: 401,
    })?;
    Ok(Checked::Faulty(faults))
}
