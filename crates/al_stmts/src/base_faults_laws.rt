// Which faults end a list.
ghost use Rattle.al_stmts.specs.BaseFaultsLaws.{DeclarationsEndTheList, PartsFollow, StatementsEndNoList};

/// After a faulty statement the list of faults continues.
pub fn a_faulty_statement_ends_no_list()
    ensures { StatementsEndNoList }
{}

/// After a faulty declaration nothing is reported.
pub fn a_faulty_declaration_ends_the_list()
    ensures { DeclarationsEndTheList }
{}

/// The faults are the same wherever a piece of source is divided.
pub fn parts_follow()
    ensures { PartsFollow }
{}
