// Declarations at the place that the check of a unit has reached (ARM 3.1, 8.4).
ghost use Rattle.std.specs.Prelude.{◌≡◌, ◌<◌, length, IfOk};
ghost use Rattle.std.specs.Option.{option_copied};
ghost use Rattle.al_check_here.specs.Faulty.{effect_settled};
ghost use Rattle.al_decl.specs.Items.{object_checked, subtype_item_checked, type_checked};
ghost use Rattle.al_base_fault.specs.Judging.{map_ok};
ghost use Rattle.al_query.specs.Reads.{FromAnswers};
ghost use Rattle.al_tree.specs.DeclarationViews.{common_model, object_model, pragma_model, specification_model, subtype_model, type_model, use_model};
ghost use Rattle.al_scope_context.specs.Pragmas.{pragma_fault};
ghost use Rattle.al_scope_context.specs.UsesAt.{uses_at};
ghost use Rattle.al_stmts.specs.Views.{effects_model};
ghost use Rattle.al_check_declared.specs.DeclarationsHere.{declared_here, is_at_head, nested_declared, open_declared, package_name, parts_here, pragma_settled, private_words, type_words, uses_read};

use crate::settled::{Effects, no_place, settle_pragma, settle_uses};
use al_base::{NoMemory, UnitKind};
use al_check_here::{CheckState, settle_effect};
use al_decl::{check_object_item, check_subprogram, check_subtype_item, check_type_item};
use al_decl_ada::AdaPartAnalyzer;
use al_query::{Answers, Recorder};
use al_scope::declared_type;
use al_scope_context::{pragma_fault, use_at};
use al_stmts::first_line;
use al_tree::{
    CommonDeclaration, ObjectDeclaration, Pragma, Specification, SubtypeDeclaration,
    TypeDeclaration, UseClause,
};
use al_view::{Part, View};

/// An object or number declaration, `names : ..;` (ARM 3.3.1, 3.3.2).
fn object<A: Answers>(
    state: &mut CheckState,
    declaration: &ObjectDeclaration,
    recorder: &mut Recorder<A>,
) -> Result<Effects, NoMemory>
    requires { 0 < length state.old.env.scope.regions }
    ensures asked { recorder.new.asked ≡ recorder.old.asked }
    ensures answered { IfOk result (λ checked. FromAnswers recorder.old.log recorder.new.log (λ t. (state.new, map_ok effects_model checked) ≡ effect_settled state.old (object_checked (parts_here t state.old) t state.old.env (object_model declaration.now)))) }
{
    let labeller = &state.unit.labeller;
    let packages = state.unit.packages.as_slice();
    let unit = &state.unit.own.unit;
    let parts = AdaPartAnalyzer {
        labeller,
        packages,
        unit,
    };
    let checked = check_object_item(
        labeller.alloc,
        &labeller.predefined.standard,
        &parts,
        &mut state.env,
        declaration,
        recorder,
    )?;
    settle_effect(state.unit.labeller.alloc, state, checked)
}

/// The number of words of a value of the type that the first view shows.
fn type_words(views: &[View]) -> u32
    ensures { result ≡ type_words views.now }
{
    match views {
        [] => 0,
        [view, ..] => match declared_type(view) {
            Some(of) => of.layout.words(),
            None => 0,
        },
    }
}

/// The number of words of a value of the private type with this name, if its declaration is allowed here (ARM 7.3(4)).
fn private_words(state: &CheckState, name: &[u8]) -> Option<u32>
    ensures { result ≡ private_words state.now name.now }
{
    if state.unit.own.is_package && state.part.is(&Part::Visible) {
        return Some(type_words(state.unit.private_part.views(name)));
    }
    None
}

/// A type declaration, `type name is ..;` (ARM 3.2.1, 7.3).
fn type_declaration<A: Answers>(
    state: &mut CheckState,
    declaration: &TypeDeclaration,
    recorder: &mut Recorder<A>,
) -> Result<Effects, NoMemory>
    requires { 0 < length state.old.env.scope.regions }
    ensures asked { recorder.new.asked ≡ recorder.old.asked }
    ensures answered { IfOk result (λ checked. FromAnswers recorder.old.log recorder.new.log (λ t. (state.new, map_ok effects_model checked) ≡ effect_settled state.old (type_checked (parts_here t state.old) t state.old.env (private_words state.old (type_model declaration.now).name.text) (type_model declaration.now)))) }
{
    let words = private_words(state, declaration.name.name.as_slice());
    let labeller = &state.unit.labeller;
    let packages = state.unit.packages.as_slice();
    let unit = &state.unit.own.unit;
    let parts = AdaPartAnalyzer {
        labeller,
        packages,
        unit,
    };
    let checked = check_type_item(
        labeller.alloc,
        &labeller.predefined.standard,
        &parts,
        &mut state.env,
        words,
        declaration,
        recorder,
    )?;
    settle_effect(state.unit.labeller.alloc, state, checked)
}

/// A subtype declaration, `subtype name is indication;` (ARM 3.2.2).
fn subtype<A: Answers>(
    state: &mut CheckState,
    declaration: &SubtypeDeclaration,
    recorder: &mut Recorder<A>,
) -> Result<Effects, NoMemory>
    requires { 0 < length state.old.env.scope.regions }
    ensures asked { recorder.new.asked ≡ recorder.old.asked }
    ensures answered { IfOk result (λ checked. FromAnswers recorder.old.log recorder.new.log (λ t. (state.new, map_ok effects_model checked) ≡ effect_settled state.old (subtype_item_checked (parts_here t state.old) t state.old.env (subtype_model declaration.now)))) }
{
    let labeller = &state.unit.labeller;
    let packages = state.unit.packages.as_slice();
    let unit = &state.unit.own.unit;
    let parts = AdaPartAnalyzer {
        labeller,
        packages,
        unit,
    };
    let checked = check_subtype_item(
        labeller.alloc,
        &parts,
        &mut state.env,
        declaration,
        recorder,
    )?;
    settle_effect(state.unit.labeller.alloc, state, checked)
}

/// Judges the declaration of a subprogram inside a unit (ARM 6.1).
///
/// # Errors
/// `NoMemory` if the allocator refuses memory.
pub fn nested_subprogram<A: Answers>(
    state: &mut CheckState,
    specification: &Specification,
    recorder: &mut Recorder<A>,
) -> Result<Effects, NoMemory>
    requires { 0 < length state.old.env.scope.regions }
    ensures asked { recorder.new.asked ≡ recorder.old.asked }
    ensures answered { IfOk result (λ checked. FromAnswers recorder.old.log recorder.new.log (λ t. (state.new, map_ok effects_model checked) ≡ nested_declared t state.old (specification_model specification.now))) }
{
    let labeller = &state.unit.labeller;
    let packages = state.unit.packages.as_slice();
    let unit = &state.unit.own.unit;
    let parts = AdaPartAnalyzer {
        labeller,
        packages,
        unit,
    };
    let checked = check_subprogram(
        labeller.alloc,
        &labeller.predefined.standard,
        &parts,
        &mut state.env,
        first_line(specification),
        specification,
        recorder,
    )?;
    settle_effect(state.unit.labeller.alloc, state, checked)
}

/// A use clause (ARM 8.4).
fn use_clause<A: Answers>(
    state: &mut CheckState,
    clause: &UseClause,
    recorder: &mut Recorder<A>,
) -> Result<Effects, NoMemory>
    requires { 0 < length state.old.env.scope.regions }
    ensures asked { recorder.new.asked ≡ recorder.old.asked }
    ensures answered { IfOk result (λ checked. FromAnswers recorder.old.log recorder.new.log (λ t. (state.new, map_ok effects_model checked) ≡ uses_read state.old (uses_at t state.old.env.scope state.old.unit.packages (use_model clause.now)))) }
{
    let labeller = &state.unit.labeller;
    let checked = use_at(
        labeller.alloc,
        &mut state.env.scope,
        state.unit.packages.as_slice(),
        clause,
        recorder,
    )?;
    settle_uses(state, checked)
}

/// Whether the place is in the visible part of a package's declaration, and nothing is declared there so far.
fn is_at_head(state: &CheckState) -> bool
    ensures { result ≡ is_at_head state.now }
{
    let own = &state.unit.own;
    own.is_package
        && matches!(own.unit.kind, UnitKind::Decl)
        && state.visible.len() == 0
        && state.env.declared.len() == 0
}

/// The name of the package, if a pragma about the package is allowed here.
fn package_name(state: &CheckState) -> Option<&[u8]>
    ensures { option_copied result ≡ package_name state.now }
{
    if is_at_head(state) {
        return Some(state.unit.own.symbol.name.as_slice());
    }
    None
}

/// A pragma among declarations (ARM 2.8).
fn pragma(state: &mut CheckState, pragma: &Pragma) -> Result<Effects, NoMemory>
    ensures { IfOk result (λ effects. (state.new, map_ok effects_model effects) ≡ pragma_settled state.old (pragma_fault (package_name state.old) (pragma_model pragma.now))) }
{
    let wrong = pragma_fault(package_name(state), pragma);
    settle_pragma(state, wrong)
}

/// Judges a declaration if a region is open.
fn open_declared<A: Answers>(
    state: &mut CheckState,
    declaration: &CommonDeclaration,
    recorder: &mut Recorder<A>,
) -> Result<Effects, NoMemory>
    requires { 0 < length state.old.env.scope.regions }
    ensures asked { recorder.new.asked ≡ recorder.old.asked }
    ensures answered { IfOk result (λ checked. FromAnswers recorder.old.log recorder.new.log (λ t. (state.new, map_ok effects_model checked) ≡ open_declared t state.old (common_model declaration.now))) }
{
    match declaration {
        CommonDeclaration::Object(declaration) => object(state, declaration, recorder),
        CommonDeclaration::Type(declaration) => type_declaration(state, declaration, recorder),
        CommonDeclaration::Subtype(declaration) => subtype(state, declaration, recorder),
        CommonDeclaration::Use(clause) => use_clause(state, clause, recorder),
        CommonDeclaration::Pragma(item) => pragma(state, item),
    }
}

/// Judges a declaration that is allowed in packages and in bodies, and gives what it does at run time.
///
/// # Errors
/// `NoMemory` if the allocator refuses memory.
pub fn declared<A: Answers>(
    state: &mut CheckState,
    declaration: &CommonDeclaration,
    recorder: &mut Recorder<A>,
) -> Result<Effects, NoMemory>
    ensures asked { recorder.new.asked ≡ recorder.old.asked }
    ensures answered { IfOk result (λ checked. FromAnswers recorder.old.log recorder.new.log (λ t. (state.new, map_ok effects_model checked) ≡ declared_here t state.old (common_model declaration.now))) }
{
    if state.is_nowhere() {
        return no_place(state);
    }
    open_declared(state, declaration, recorder)
}
