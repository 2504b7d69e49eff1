// What a walk gives, over any reading.
ghost use Rattle.al_stmts.specs.Laws.{FaultsFollow, ItemsFollow, OperationsFollow};

/// What is wrong with statements is what is wrong with the first one, and then with those after it, unless that one ended the list.
pub fn faults_of_statements_follow<H>()
    ensures { FaultsFollow H }
{}

/// What is wrong with the items of a part is what is wrong with the first one, and then with those after it, unless that one ended
/// the list.
pub fn faults_of_items_follow<H>()
    ensures { ItemsFollow H }
{}

/// What is wrong with the bodies of a protected object's operations is what is wrong with the first one, and then with those after it,
/// unless that one ended the list.
pub fn faults_of_operations_follow<H>()
    ensures { OperationsFollow H }
{}
