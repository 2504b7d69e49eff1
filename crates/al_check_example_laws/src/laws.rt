//! Examples, each for every answer and every label.
ghost use Rattle.std.specs.Prelude.{codes};
ghost use Rattle.al_query.specs.Known.{Grounded, body};
ghost use Rattle.al_query.specs.declared.answer.AnswerKind.{AnswerKind};
ghost use Rattle.al_query_outcome.specs.Excluded.{asks_a_body};
ghost use Rattle.al_query_outcome.specs.ReadsLaw.{named_by};
ghost use Rattle.al_check_example_laws.specs.Examples.{TypesAreNotUsed, asks_form, child_body, inner_subunit};
ghost use Rattle.al_check_example_laws.specs.LabelledUnits.{LiteralsHaveValues, RegionsLieInside};
ghost use Rattle.al_check_example_laws.specs.NominalSubtypes.{AssignmentsCheckNominalSubtypes, CasesCoverNominalSubtypes};
ghost use Rattle.al_check_example_laws.specs.Stubs.{StubsDeclarationIsTold, SubunitDefinesStubsOwn};

/// `1 in 0 .. 2` uses no link, whatever types it and its operands are labelled with.
pub fn types_are_not_used()
    ensures { TypesAreNotUsed }
{}

/// The body of a child P.C may not ask for the body of its parent P, even if it asked what P is.
pub fn a_child_names_no_body_of_its_parent()
    ensures { Grounded (named_by child_body) asks_a_body → ⊥ }
{}

/// Of the bodies that enclose it, a subunit with `separate (P.Q)` names only that of P.Q, its parent body, and not that of P.
pub fn a_subunit_names_its_parent_body_alone()
    ensures parent { (answer : AnswerKind) → Grounded (named_by inner_subunit) (asks_form (body (codes "p.q")) answer) }
    ensures other { (answer : AnswerKind) → Grounded (named_by inner_subunit) (asks_form (body (codes "p")) answer) → ⊥ }
{}

/// If two procedures have one name, and parameters of two types, a stub completes the one that has its types. The code that is left to its subunit
/// is that one's.
pub fn the_declaration_of_a_stub_is_told()
    ensures declaration { StubsDeclarationIsTold }
    ensures code { SubunitDefinesStubsOwn }
{}

/// The protected objects of a well-formed labelled unit are inside its words, and each literal has a value.
pub fn labelled_units_are_well_formed()
    ensures regions { RegionsLieInside }
    ensures literals { LiteralsHaveValues }
{}

/// A case statement covers the values of its selector's nominal subtype, and an assignment is checked against that of its target.
pub fn nominal_subtypes_decide()
    ensures cases { CasesCoverNominalSubtypes }
    ensures assignments { AssignmentsCheckNominalSubtypes }
{}
