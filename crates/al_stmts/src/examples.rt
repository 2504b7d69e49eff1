// The walk over short examples whose faults are known.
ghost use Rattle.al_stmts.specs.Examples.{FaultsBeforeADeclarationStay, FaultyConditionsHideNothing, FaultyDeclarationsCutOffEnds, FaultyDeclarationsEndTheList, FaultyLoopRangesEndTheList, FaultyStatementsEndNoList, FunctionsReturn, NamesAtEndsAreOfTheLoop, NoValueIsReturnedInATask, OneFaultOfAllConditions, OperationsStandOneAfterAnother, ReturnsAreOfTheInnermostBody, WhatIsMissingEndsAProtectedBody, WhatWaitsEndsTheList};

/// Faults of statements: each is reported before those of the statements inside it.
pub fn faults_of_statements()
    ensures goes_on { FaultyStatementsEndNoList }
    ensures inside { FaultyConditionsHideNothing }
    ensures end_name { NamesAtEndsAreOfTheLoop }
    ensures conditions { OneFaultOfAllConditions }
{}

/// Faults of declarations inside statements: they end the list at their places.
pub fn faults_of_declarations_inside()
    ensures range { FaultyLoopRangesEndTheList }
    ensures cut_off { FaultyDeclarationsCutOffEnds }
    ensures stays { FaultsBeforeADeclarationStay }
{}

/// Faults of bodies: of their parts, of their statements, and at their ends.
pub fn faults_of_bodies()
    ensures part { FaultyDeclarationsEndTheList }
    ensures waits { WhatWaitsEndsTheList }
    ensures returns { FunctionsReturn }
    ensures innermost { ReturnsAreOfTheInnermostBody }
{}

/// Faults of the bodies of tasks, and of protected objects with their operations.
pub fn faults_of_tasks()
    ensures value { NoValueIsReturnedInATask }
    ensures missing { WhatIsMissingEndsAProtectedBody }
    ensures operations { OperationsStandOneAfterAnother }
{}
