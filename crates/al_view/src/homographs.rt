// Homographs.
ghost use Rattle.std.specs.Prelude.{◌≡◌, IsTrue, ◌↔◌, zip};
ghost use Rattle.std.specs.Option.{option_map, option_copied};
ghost use Rattle.std.specs.List.{list_all};
ghost use Rattle.al_view.specs.Symbols.{same_symbol};
ghost use Rattle.al_view.specs.Homographs.{Homographs, homographs, may_be_overloaded, same_parameters, same_result, signature_of};

use crate::symbol::Symbol;
use crate::view::{Parameter, View, ViewKind};

impl View {
    /// Whether the declaration may be overloaded (ARM 8.3(7)).
    pub fn may_be_overloaded(&self) -> bool
        ensures { result ≡ may_be_overloaded self.now }
    {
        signature(self.kind()).is_some()
    }

    /// Whether two declarations of one name are homographs (ARM 8.3(8)).
    pub fn is_homograph_of(&self, other: &View) -> bool
        ensures test { result ≡ homographs self.now other.now }
        ensures exactly { IsTrue result ↔ Homographs self.now other.now }
    {
        are_homographs(self.kind(), other.kind())
    }
}

fn are_homographs(kind: &ViewKind, other: &ViewKind) -> bool
    ensures { result ≡ homographs kind.now other.now }
{
    match (signature(kind), signature(other)) {
        (Some((parameters, result_type)), Some((others, other_type))) => {
            are_parameters(parameters, others) && is_result(result_type, other_type)
        }
        _ => true,
    }
}

/// The parameters and the result's type of what may be overloaded.
fn signature(kind: &ViewKind) -> Option<(&[Parameter], Option<&Symbol>)>
    ensures { option_map (λ s. (s.0.now, option_copied s.1)) result ≡ signature_of kind.now }
{
    match kind {
        ViewKind::OfSubprogram(subprogram) => {
            let profile = &subprogram.profile;
            let parameters = profile.parameters.as_slice();
            match &profile.result {
                Some(subtype) => Some((parameters, Some(&subtype.base))),
                None => Some((parameters, None)),
            }
        }
        ViewKind::OfLiteral(literal) => Some((&[], Some(&literal.base))),
        _ => None,
    }
}

fn are_parameters(parameters: &[Parameter], others: &[Parameter]) -> bool
    ensures { result ≡ same_parameters parameters.now others.now }
{
    parameters.len() == others.len() && are_types(parameters, others)
}

/// Whether the types are the same as far as both lists go.
fn are_types(parameters: &[Parameter], others: &[Parameter]) -> bool
    ensures { result ≡ list_all (λ e. same_symbol e.0.subtype.base e.1.subtype.base) (zip parameters.now others.now) }
{
    parameters.iter().zip(others.iter()).all(|(parameter, other)| parameter
        .subtype
        .base
        .is(&other.subtype.base))
}

fn is_result(symbol: Option<&Symbol>, other: Option<&Symbol>) -> bool
    ensures { result ≡ same_result (option_copied symbol.entry) (option_copied other.entry) }
{
    match (symbol, other) {
        (Some(symbol), Some(other)) => symbol.is(other),
        (None, None) => true,
        _ => false,
    }
}
