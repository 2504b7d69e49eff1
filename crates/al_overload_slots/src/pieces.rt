// The words that temporaries in what is put take.
ghost use Rattle.std.specs.Prelude.{◌≡◌, map};
ghost use Rattle.al_view_typed.specs.StatementViews.{piece_model};
ghost use Rattle.al_overload_slots.specs.Pieces.{piece_after, piece_numbered, pieces_after, pieces_numbered};

use crate::number::number_slots;
use al_view_typed::Piece;

fn number_piece(piece: &mut Piece, word: u32) -> u32
    ensures tree { piece_model piece.new ≡ piece_numbered word (piece_model piece.old) }
    ensures word { result ≡ piece_after word (piece_model piece.old) }
{
    match piece {
        Piece::Text(_) => word,
        Piece::IntegerImage(value) => number_slots(value, word),
        Piece::EnumerationImage { value, names: _ } => number_slots(value, word),
    }
}

/// Gives each temporary in what is put its word, from this one on, in source order. The result is the next word.
#[tactic(auto, using(crate::proofs::Gathered::pieces_end_word, crate::proofs::Gathered::pieces_end_tree))]
pub fn number_pieces(pieces: &mut Vec<Piece>, word: u32) -> u32
    ensures tree { map piece_model pieces.new.items ≡ pieces_numbered word (map piece_model pieces.old.items) }
    ensures word { result ≡ pieces_after word (map piece_model pieces.old.items) }
{
    let mut after = word;
    for piece in pieces.iter_mut() {
        after = number_piece(piece, after);
    }
    after
}
