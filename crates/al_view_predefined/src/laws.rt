//! What holds of the predefined declarations.
ghost use Rattle.std.specs.Prelude.{◌≡◌, true};
ghost use Rattle.al_view_predefined.specs.Standard.{standard};
ghost use Rattle.al_view_predefined.specs.Predefined.{real_time, text_io};
ghost use Rattle.al_view_predefined.specs.PredefinedNames.{names, no_homographs, real_time_names, standard_names, text_io_names};

/// Standard declares these names, and no two homographs (ARM 8.3(26)).
pub fn standard_is_apart()
    ensures names { names standard ≡ standard_names }
    ensures apart { no_homographs standard ≡ true }
{}

/// The packages below Ada declare these names, and no two homographs.
pub fn children_of_ada_are_apart()
    ensures text_io { names text_io ≡ text_io_names }
    ensures text_io_apart { no_homographs text_io ≡ true }
    ensures real_time { names real_time ≡ real_time_names }
    ensures real_time_apart { no_homographs real_time ≡ true }
{}
