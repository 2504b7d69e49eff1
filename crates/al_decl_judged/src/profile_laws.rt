// Laws of completions.
ghost use Rattle.std.specs.Prelude.{◌≡◌, Some};
ghost use Rattle.al_view.specs.declared.view.SubprogramView.{SubprogramView};
ghost use Rattle.al_view.specs.declared.view.ViewKind.TheVariants.{OfSubprogram};
ghost use Rattle.al_view.specs.Homographs.{signature_of, types_of, Signature};
ghost use Rattle.al_decl_judged.specs.Conformance.{HasTypesOf};
ghost use Rattle.al_decl_judged.specs.declared.specification.Specification.{Specification};

/// If one specification has the types of two profiles, these have the same types: with one name they are homographs (ARM 8.3(8)). So a body
/// completes at most one declaration of a region, which has no two homographs.
pub fn a_specification_has_the_types_of_one_signature()
    ensures { (s : Specification) (v w : SubprogramView) (a b : Signature) → HasTypesOf s v.profile → HasTypesOf s w.profile → signature_of (OfSubprogram v) ≡ Some a → signature_of (OfSubprogram w) ≡ Some b → types_of a ≡ types_of b }
{}
