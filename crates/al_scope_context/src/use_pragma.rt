// Pragmas (ARM 2.8, 10.2.1).
ghost use Rattle.std.specs.Prelude.{◌≡◌, map};
ghost use Rattle.std.specs.Option.{option_copied, option_map};
ghost use Rattle.al_tree.specs.DeclarationViews.{pragma_arguments_model, pragma_model};
ghost use Rattle.al_tree.specs.Lexemes.{identifier_label};
ghost use Rattle.al_scope_context.specs.Pragmas.{is_alone, is_elaborate_body, names_only, pragma_fault, unless_right};

use al_base_fault::{CheckRule, Fault};
use al_tree::{Identifier, Pragma, PragmaArguments};

/// E307 at the pragma's identifier, unless it is right.
pub fn unless_right(right: bool, pragma: &Pragma) -> Option<Fault>
    ensures { result ≡ unless_right right (pragma_model pragma.now) }
{
    if right {
        return None;
    }
    Some(Fault {
        place: pragma.name.place,
        rule: CheckRule::BadPragma,
    })
}

/// Whether a name is this one identifier.
fn is_alone(first: &Identifier, selectors: &[Identifier], name: &[u8]) -> bool
    ensures { result ≡ is_alone (identifier_label first.now).text (map identifier_label selectors.now) name.now }
{
    match selectors {
        [] => first.name.as_slice() == name,
        [_, ..] => false,
    }
}

/// Whether there is no argument, or the name alone.
fn names_only(name: &[u8], arguments: &Option<PragmaArguments>) -> bool
    ensures { result ≡ names_only name.now (option_map pragma_arguments_model arguments.now) }
{
    match arguments {
        None => true,
        Some(arguments) => match arguments.names.others.as_slice() {
            [] => {
                let argument = &arguments.names.first;
                is_alone(&argument.first, argument.selectors.as_slice(), name)
            }
            [_, ..] => false,
        },
    }
}

/// Whether it is a pragma Elaborate_Body at its place, with the right argument.
fn is_elaborate_body(package_name: Option<&[u8]>, pragma: &Pragma) -> bool
    ensures { result ≡ is_elaborate_body (option_copied package_name.entry) (pragma_model pragma.now) }
{
    match package_name {
        Some(name) => {
            pragma.name.name.as_slice() == b"elaborate_body".as_slice()
                && names_only(name, &pragma.arguments)
        }
        None => false,
    }
}

/// The fault of a pragma among declarations. The name is the last identifier of a library package's name, if the pragma is in the
/// declaration of that package and before all that it declares: there Elaborate_Body is right (ARM 10.2.1(20)). Anywhere else each pragma
/// has E307.
pub fn pragma_fault(package_name: Option<&[u8]>, pragma: &Pragma) -> Option<Fault>
    ensures { result ≡ pragma_fault (option_copied package_name.entry) (pragma_model pragma.now) }
{
    unless_right(is_elaborate_body(package_name, pragma), pragma)
}
