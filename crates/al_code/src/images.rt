// Output of strings and images (ARM A.10.7).
ghost use Rattle.std.specs.Prelude.{◌≡◌, ◌≤◌, OnOk, map};
ghost use Rattle.std.specs.List.{flat_map};
ghost use Rattle.al_view_typed.specs.StatementViews.{piece_model};
ghost use Rattle.al_code.specs.Written.{written};
ghost use Rattle.al_code.specs.Images.{dropped_code, image_code, images, is_image, line_code, piece_code, pieces_code, emit_code, word_of};

use crate::{Output, emit_plain, emit_sized, emit_value};
use al_base::NoMemory;
use al_instr::{Plain, Sized};
use al_view_typed::Piece;

/// Writes Put, Put_Line or New_Line of pieces, in a body of nesting depth `depth`.
#[tactic(auto, using(crate::proofs::Writing::written_append))]
pub(crate) fn emit_output(
    out: &mut Output,
    depth: u32,
    pieces: &[Piece],
    ends_line: bool,
) -> Result<(), NoMemory>
    ensures { OnOk result (out.new ≡ written out.old (emit_code depth (map piece_model pieces.now) ends_line)) }
{
    emit_images(out, depth, pieces)?;
    emit_pieces(out, pieces)?;
    emit_line(out, ends_line)?;
    emit_dropped(out, image_count(pieces))
}

/// Writes the values whose images are put.
fn emit_images(out: &mut Output, depth: u32, pieces: &[Piece]) -> Result<(), NoMemory>
    ensures { OnOk result (out.new ≡ written out.old (flat_map (image_code depth) (map piece_model pieces.now))) }
{
    for piece in pieces {
        emit_image(out, depth, piece)?;
    }
    Ok(())
}

#[tactic(auto, using(crate::proofs::Writing::written_nothing))]
fn emit_image(out: &mut Output, depth: u32, piece: &Piece) -> Result<(), NoMemory>
    ensures { OnOk result (out.new ≡ written out.old (image_code depth (piece_model piece.now))) }
{
    match piece {
        Piece::Text(_) => Ok(()),
        Piece::IntegerImage(value) => emit_value(out, depth, value),
        Piece::EnumerationImage { value, .. } => emit_value(out, depth, value),
    }
}

/// The number of images.
fn image_count(pieces: &[Piece]) -> usize
    ensures { result ≡ images (map piece_model pieces.now) }
{
    let mut count = 0;
    for piece in pieces {
        count += of_image(piece);
    }
    count
}

fn of_image(piece: &Piece) -> usize
    ensures value { result ≡ is_image (piece_model piece.now) }
    ensures few { result ≤ 1 }
{
    match piece {
        Piece::Text(_) => 0,
        Piece::IntegerImage(_) => 1,
        Piece::EnumerationImage { .. } => 1,
    }
}

/// Writes the output of the pieces, in order.
fn emit_pieces(out: &mut Output, pieces: &[Piece]) -> Result<(), NoMemory>
    ensures { OnOk result (out.new ≡ written out.old (pieces_code (map piece_model pieces.now))) }
{
    let mut above = image_count(pieces);
    for piece in pieces {
        above -= of_image(piece);
        emit_piece(out, above, piece)?;
    }
    Ok(())
}

/// Writes the output of one piece, with `above` values above its own.
fn emit_piece(out: &mut Output, above: usize, piece: &Piece) -> Result<(), NoMemory>
    ensures { OnOk result (out.new ≡ written out.old (piece_code above (piece_model piece.now))) }
{
    match piece {
        Piece::Text(text) => out.emit_text(text.as_slice()),
        Piece::IntegerImage(_) => emit_sized(out, Sized::PutInteger, word_of(above)),
        Piece::EnumerationImage { names, .. } => out.emit_names(word_of(above), names.as_slice()),
    }
}

#[tactic(auto, using(crate::proofs::Writing::written_nothing))]
fn emit_line(out: &mut Output, ends_line: bool) -> Result<(), NoMemory>
    ensures { OnOk result (out.new ≡ written out.old (line_code ends_line)) }
{
    if ends_line {
        return emit_plain(out, Plain::NewLine);
    }
    Ok(())
}

/// Writes that the values are dropped.
#[tactic(auto, using(crate::proofs::Writing::written_nothing))]
fn emit_dropped(out: &mut Output, count: usize) -> Result<(), NoMemory>
    ensures { OnOk result (out.new ≡ written out.old (dropped_code count)) }
{
    match count {
        0 => Ok(()),
        _ => emit_sized(out, Sized::Drop, word_of(count)),
    }
}

/// A count as an operand.
pub(crate) fn word_of(count: usize) -> u32
    ensures { result ≡ word_of count }
{
    count.min(4_294_967_295) as u32
}
