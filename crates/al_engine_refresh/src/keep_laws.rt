//! What is known of the entries that stay. The function does nothing: its contract is the law.
ghost use Rattle.std.specs.Prelude.{ℕ, List, Option};
ghost use Rattle.al_base.specs.declared.unit_key.UnitKey.{UnitKey};
ghost use Rattle.al_unit_graph.specs.Headers.{Header, Library};
ghost use Rattle.al_engine_refresh.specs.EntryLaw.{AllKeepLaw, TextMeaning};
ghost use Rattle.al_engine_refresh.specs.Stored.{Stored};
ghost use Rattle.al_engine_refresh.specs.Staying.{staying};

/// If the entries before a build keep the law, and those that the build made do, so do all entries after it.
pub fn staying_keep_the_law()
    ensures { (meaning : TextMeaning) (header : List ℕ → Header) (lib : Library) (old made : UnitKey → Option Stored) → AllKeepLaw meaning header old → AllKeepLaw meaning header made → AllKeepLaw meaning header (staying lib old made) }
{}
