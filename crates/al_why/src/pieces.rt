// Pieces of a text.
ghost use Rattle.std.specs.Prelude.{◌≡◌, ◌++◌, OnOk};

use al_base::NoMemory;

/// Adds a piece.
pub(crate) fn add(text: &mut Vec<u8>, piece: &[u8]) -> Result<(), NoMemory>
    ensures { OnOk result (text.new.items ≡ text.old.items ++ piece.now) }
{
    text.extend_from_slice(piece)?;
    Ok(())
}

/// Adds a piece between two others.
pub(crate) fn add_between(
    text: &mut Vec<u8>,
    front: &[u8],
    piece: &[u8],
    back: &[u8],
) -> Result<(), NoMemory>
    ensures { OnOk result (text.new.items ≡ text.old.items ++ (front.now ++ piece.now ++ back.now)) }
{
    text.extend_from_slice(front)?;
    text.extend_from_slice(piece)?;
    text.extend_from_slice(back)?;
    Ok(())
}
