//! What a look-up costs, and what a use type clause needs.
ghost use Rattle.al_scope.specs.Searches.{LocalNamesAskNothing};
ghost use Rattle.al_scope.specs.UseTypes.{NeedsNoMention, OpensAllOperators};

/// A name that the innermost region decides alone, as a local variable's, costs no question.
pub fn local_names_ask_nothing()
    ensures { LocalNamesAskNothing }
{}

/// A use type clause of a type whose package isn't mentioned opens all operators of the type and asks no package. It opens the same
/// operators as if the package were mentioned (ARM 8.4(8)).
pub fn use_types_need_no_mention()
    ensures all { OpensAllOperators }
    ensures same { NeedsNoMention }
{}
