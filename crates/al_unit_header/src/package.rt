// Whether a package needs a body.
ghost use Rattle.std.specs.Prelude.{◌≡◌, map};
ghost use Rattle.std.specs.List.{list_all, list_any, take_while};
ghost use Rattle.std.specs.Option.{option_map};
ghost use Rattle.al_tree.specs.DeclarationViews.{compound_model, declaration_model, pragma_arguments_model, pragma_model};
ghost use Rattle.al_tree.specs.Lexemes.{identifier_label};
ghost use Rattle.al_tree.specs.UnitViews.{package_model, private_part_model};
ghost use Rattle.al_unit_header.specs.Units.{asks_for_body, declares_nothing, has_elaborate_body, is_completed_by_body, is_elaborate_body, is_only, last_identifier, names_only, package_needs_body, arguments_in, private_declarations};

use al_tree::{
    CommonDeclaration, CompoundName, Declaration, Identifier, PackageDeclaration, Pragma,
    PragmaArguments, PrivatePart,
};

/// Whether something in the package is completed by a body, or it has the pragma Elaborate_Body (ARM 7.2(4), 10.2.1(22)).
#[tactic(auto, using(crate::proofs::PackageLemmas::completed_in_parts))]
pub(crate) fn package_needs_body(library_package: &PackageDeclaration) -> bool
    ensures { result ≡ package_needs_body (package_model library_package.now) }
{
    are_completed(library_package.visible.as_slice())
        || are_completed(private_declarations(&library_package.private_part))
        || has_elaborate_body(library_package)
}

/// The declarations in a private part, if there is one.
fn private_declarations(part: &Option<PrivatePart>) -> &[Declaration]
    ensures { map declaration_model result.now ≡ private_declarations (option_map private_part_model part.now) }
{
    match part {
        Some(part) => part.declarations.as_slice(),
        None => &[],
    }
}

/// Whether a body completes one of the declarations.
fn are_completed(declarations: &[Declaration]) -> bool
    ensures { result ≡ list_any is_completed_by_body (map declaration_model declarations.now) }
{
    for declaration in declarations {
        if is_completed_by_body(declaration) {
            return true;
        }
    }
    false
}

/// Whether the pragma Elaborate_Body comes before every declaration of the package, in its visible part or, if that declares
/// nothing, in its private part (ARM 10.1.5(4), 10.2.1(20)).
pub(crate) fn has_elaborate_body(library_package: &PackageDeclaration) -> bool
    ensures { result ≡ has_elaborate_body (package_model library_package.now) }
{
    let visible = library_package.visible.as_slice();
    let private = private_declarations(&library_package.private_part);
    ask_in_front(&library_package.name, visible)
        || declare_nothing(visible) && ask_in_front(&library_package.name, private)
}

/// Whether a pragma Elaborate_Body for the package of the name is among these before every declaration.
fn ask_in_front(name: &CompoundName, declarations: &[Declaration]) -> bool
    ensures { result ≡ list_any (asks_for_body (compound_model name.now)) (take_while declares_nothing (map declaration_model declarations.now)) }
{
    for declaration in declarations {
        if !declares_nothing(declaration) {
            return false;
        }
        if asks_for_body(name, declaration) {
            return true;
        }
    }
    false
}

/// Whether these are use clauses and pragmas alone.
fn declare_nothing(declarations: &[Declaration]) -> bool
    ensures { result ≡ list_all declares_nothing (map declaration_model declarations.now) }
{
    for declaration in declarations {
        if !declares_nothing(declaration) {
            return false;
        }
    }
    true
}

/// Whether a body completes the declaration: a subprogram's, a task's or a protected object's (ARM 6.1(20), 9.1(7), 9.4(10)).
fn is_completed_by_body(declaration: &Declaration) -> bool
    ensures { result ≡ is_completed_by_body (declaration_model declaration.now) }
{
    match declaration {
        Declaration::Common(_) => false,
        Declaration::Subprogram(_) => true,
        Declaration::Task(_) => true,
        Declaration::Protected(_, _) => true,
    }
}

/// Whether the declaration is a use clause or a pragma, which declares nothing (ARM 3.1).
fn declares_nothing(declaration: &Declaration) -> bool
    ensures { result ≡ declares_nothing (declaration_model declaration.now) }
{
    match declaration {
        Declaration::Common(CommonDeclaration::Use(_)) => true,
        Declaration::Common(CommonDeclaration::Pragma(_)) => true,
        Declaration::Common(CommonDeclaration::Object(_)) => false,
        Declaration::Common(CommonDeclaration::Type(_)) => false,
        Declaration::Common(CommonDeclaration::Subtype(_)) => false,
        Declaration::Subprogram(_) => false,
        Declaration::Task(_) => false,
        Declaration::Protected(_, _) => false,
    }
}

/// Whether the declaration is a pragma Elaborate_Body for the package of the name.
fn asks_for_body(name: &CompoundName, declaration: &Declaration) -> bool
    ensures { result ≡ asks_for_body (compound_model name.now) (declaration_model declaration.now) }
{
    match declaration {
        Declaration::Common(CommonDeclaration::Pragma(pragma)) => is_elaborate_body(name, pragma),
        Declaration::Common(CommonDeclaration::Use(_)) => false,
        Declaration::Common(CommonDeclaration::Object(_)) => false,
        Declaration::Common(CommonDeclaration::Type(_)) => false,
        Declaration::Common(CommonDeclaration::Subtype(_)) => false,
        Declaration::Subprogram(_) => false,
        Declaration::Task(_) => false,
        Declaration::Protected(_, _) => false,
    }
}

/// Whether the pragma is `pragma Elaborate_Body;` or has the last identifier of the package's name as its argument (ARM
/// 10.2.1(20)).
fn is_elaborate_body(name: &CompoundName, pragma: &Pragma) -> bool
    ensures { result ≡ is_elaborate_body (compound_model name.now) (pragma_model pragma.now) }
{
    pragma.name.name.as_slice() == b"elaborate_body".as_slice()
        && names_only(last_identifier(name), &pragma.arguments)
}

/// The last identifier of a compound name.
fn last_identifier(name: &CompoundName) -> &Identifier
    ensures { identifier_label result.now ≡ last_identifier (compound_model name.now) }
{
    match name.selectors.as_slice() {
        [.., last] => last,
        [] => &name.first,
    }
}

/// Whether there is no argument, or this identifier alone.
fn names_only(identifier: &Identifier, arguments: &Option<PragmaArguments>) -> bool
    ensures { result ≡ names_only (identifier_label identifier.now) (arguments_in (option_map pragma_arguments_model arguments.now)) }
{
    match arguments {
        None => true,
        Some(arguments) => match arguments.names.others.as_slice() {
            [] => is_only(identifier, &arguments.names.first),
            [_, ..] => false,
        },
    }
}

/// Whether the name is this identifier alone.
fn is_only(identifier: &Identifier, name: &CompoundName) -> bool
    ensures { result ≡ is_only (identifier_label identifier.now).text (compound_model name.now).first (compound_model name.now).selectors }
{
    match name.selectors.as_slice() {
        [] => name.first.name.as_slice() == identifier.name.as_slice(),
        [_, ..] => false,
    }
}
