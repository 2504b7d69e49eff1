// Laws of the definitions. The functions do nothing: their contracts are the laws.
ghost use Rattle.al_unit_faults.specs.Units.{UnitsAreHeld};
ghost use Rattle.al_unit_faults.specs.Obsolete.{ObsoleteAreListed, ObsoleteAscend};

/// The units that are listed by file are exactly those that the library has.
pub fn units_are_held()
    ensures { UnitsAreHeld }
{}

/// The obsolete units that are listed are exactly those that are obsolete: units of the library that weren't sound in the older
/// one, had a diagnostic there, or have another trace. Each is there once, in the order of the keys.
pub fn obsolete_are_listed()
    ensures listed { ObsoleteAreListed }
    ensures ascend { ObsoleteAscend }
{}
