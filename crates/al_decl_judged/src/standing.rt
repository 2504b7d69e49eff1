// What a body, a stub or a name may be at its place.
ghost use Rattle.std.specs.Prelude.{◌≡◌, Some};
ghost use Rattle.std.specs.List.{list_any};
ghost use Rattle.std.specs.Str.{bytes_eq};
ghost use Rattle.al_base_fault.specs.Faults.{fault_at};
ghost use Rattle.al_decl_judged.specs.LoneBodies.{dotted_name_fault, is_in, lone_body_fault, mode_fault, stub_fault};

use al_base::{Name, Place};
use al_base_fault::{CheckRule, Fault};
use al_view::Mode;

fn fault_of(place: Place, rule: CheckRule) -> Option<Fault>
    ensures { result ≡ Some (fault_at place rule) }
{
    Some(Fault { place, rule })
}

/// The fault of a body that completes no declaration, at its defining name.
pub fn lone_body_fault(place: Place, has_homograph: bool, may_declare: bool) -> Option<Fault>
    ensures { result ≡ lone_body_fault place has_homograph may_declare }
{
    if has_homograph {
        return fault_of(place, CheckRule::Duplicate);
    }
    if may_declare {
        return None;
    }
    fault_of(place, CheckRule::NotConformant)
}

fn is_among(names: &[Name], name: &[u8]) -> bool
    ensures { result ≡ list_any (λ n. bytes_eq n name.now) names.now }
{
    names.iter().any(|other| other.as_slice() == name)
}

/// The fault of a stub, at its defining name, after these stubs in its body.
pub fn stub_fault(place: Place, may_stand: bool, stubs: &[Name], name: &[u8]) -> Option<Fault>
    ensures { result ≡ stub_fault place may_stand stubs.now name.now }
{
    if !may_stand {
        return fault_of(place, CheckRule::NotAllowedHere);
    }
    if is_among(stubs, name) {
        return fault_of(place, CheckRule::Duplicate);
    }
    None
}

/// The fault of a defining name that has dots or none, at its first identifier, where a library unit or a subunit is declared or something
/// within one.
pub fn dotted_name_fault(place: Place, is_dotted: bool, is_unit: bool) -> Option<Fault>
    ensures { result ≡ dotted_name_fault place is_dotted is_unit }
{
    if is_dotted && !is_unit {
        return fault_of(place, CheckRule::NotAllowedHere);
    }
    None
}

fn is_in(mode: Mode) -> bool
    ensures { result ≡ is_in mode }
{
    matches!(mode, Mode::In)
}

/// The fault of the mode of formals, at the first of their identifiers.
pub fn mode_fault(place: Place, of_function: bool, mode: Mode) -> Option<Fault>
    ensures { result ≡ mode_fault place of_function mode }
{
    if of_function && !is_in(mode) {
        return fault_of(place, CheckRule::NotAllowedHere);
    }
    None
}
