//! A law of the predefined units, as the contract of a function without code.
ghost use Rattle.al_engine_refresh.specs.Settings.{ArePredefined};
ghost use Rattle.al_engine_files.specs.PredefinedUnits.{predefined_answer};

/// The predefined units exist, and their answers name no other units.
pub fn units_are_predefined()
    ensures { ArePredefined predefined_answer }
{}
