// The place at which the item of a unit begins.
ghost use Rattle.std.specs.Prelude.{◌≡◌, IfOk};
ghost use Rattle.al_tree.specs.UnitViews.{unit_model};
ghost use Rattle.al_check.specs.Ada.{round_of, standing_of, text_of, without_withs};

use al_base::{NoMemory, UnitKey};
use al_check_bounded::{UnitFacts, item_line, predefined_everywhere};
use al_check_here::{CheckState, UnitText};
use al_check_start::UnitStart;
use al_overload_nodes::Labeller;
use al_scope::{OwnText, PrivateName};
use al_tree::CompilationUnit;
use al_unit_header::{private_types, unit_needs_body};
use al_view::{Interface, Seq, copied_unit};
use std::alloc::Global;

/// What stays the same during the check of a unit.
fn text_of(
    alloc: Global,
    packages: Seq<UnitKey>,
    own: OwnText,
    hidden: Seq<PrivateName>,
    private_part: Interface,
) -> Result<UnitText, NoMemory>
    ensures { IfOk result (λ text. text ≡ text_of packages own hidden private_part) }
{
    let predefined = predefined_everywhere(alloc)?;
    let labeller = Labeller {
        alloc,
        predefined,
        own: None,
    };
    Ok(UnitText {
        labeller,
        packages,
        own,
        hidden,
        private_part,
    })
}

/// A unit's own header without the units that its with clauses name, and these units.
fn withs_apart(alloc: Global, own: OwnText) -> (OwnText, Seq<UnitKey>)
    ensures { result ≡ (without_withs own, own.withs) }
{
    let OwnText {
        unit,
        symbol,
        is_package,
        is_private,
        stubs,
        withs,
        uses,
    } = own;
    let own = OwnText {
        unit,
        symbol,
        is_package,
        is_private,
        stubs,
        withs: Seq::empty(alloc),
        uses,
    };
    (own, withs)
}

/// The place at which the item of a unit begins, and what is known of the unit before.
pub(crate) struct Begun {
    pub(crate) unit_facts: UnitFacts,
    pub(crate) state: CheckState,
}

/// The place at which the item of a unit with this start begins. `private_part` is what its private part declares.
#[tactic(auto, unfolding(al_tree::specs::UnitViews::unit_model))]
pub(crate) fn begun_at(
    alloc: Global,
    tree: &CompilationUnit,
    start: UnitStart,
    private_part: Interface,
) -> Result<Begun, NoMemory>
    ensures unit_facts { IfOk result (λ begun. begun.unit_facts ≡ round_of (unit_model tree.now) start) }
    ensures state { IfOk result (λ begun. begun.state ≡ standing_of private_part (unit_model tree.now) start) }
{
    let needs_body = unit_needs_body(tree);
    let unit = copied_unit(alloc, &start.own.unit)?;
    let private_types = Seq::new(private_types(alloc, &tree.item)?);
    let parts = start.into_parts();
    let (text, place, parent_view) = parts;
    let (own, packages, hidden) = text;
    let (scope, progress, uncompleted) = place;
    let (parent, view) = parent_view;
    let apart = withs_apart(alloc, own);
    let (own, withs) = apart;
    let text = text_of(alloc, packages, own, hidden, private_part)?;
    let line = item_line(&tree.item);
    let unit_facts = UnitFacts {
        unit,
        needs_body,
        line,
        parent,
        withs,
        view,
        private_types,
    };
    let state = CheckState::new(text, scope, progress, uncompleted);
    Ok(Begun { unit_facts, state })
}
