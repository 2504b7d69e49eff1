// What the operations on files mean, for every map of files, and that no two reserved words have one spelling.
ghost use Rattle.al_base.specs.FileLaws.{PutChangesOne, DeleteChangesOne, RenameMovesOne};
ghost use Rattle.al_base.specs.ReservedPlaces.{PlacesTellApart};

/// A source that is put is under its name, and nothing else changes.
pub fn put_changes_one()
    ensures { PutChangesOne }
{}

/// After a delete there is no source under the name, and nothing else changes.
pub fn delete_changes_one()
    ensures { DeleteChangesOne }
{}

/// After a rename that isn't refused the source is under its new name alone, and nothing else changes.
pub fn rename_moves_one()
    ensures { RenameMovesOne }
{}

/// The place by which a reserved word is looked for (ARM 2.9) is that of no other one.
pub fn places_tell_apart()
    ensures { PlacesTellApart }
{}
