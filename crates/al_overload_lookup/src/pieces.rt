// The names in an expression, part after part, looked up at its place as far as something is visible (ARM 4.1.3).
ghost use Rattle.std.specs.Prelude.{◌≡◌, ◌≤◌, false, length, IfOk, OnOk};
ghost use Rattle.al_overload_lookup.specs.Keys.{is_none};
ghost use Rattle.al_overload_lookup.specs.Lookups.{asked_units, looked_up, looked_up_all};
ghost use Rattle.al_overload_lookup.specs.Pieces.{AreShort, is_past, names_of, piece_key, piece_name};
ghost use Rattle.al_query.specs.Asked.{AsksOf, by_some_name};
ghost use Rattle.al_query.specs.Reads.{FromAnswers};
ghost use Rattle.al_view.specs.Interfaces.{views_of};

use crate::lookup::look_up;
use crate::name::TextName;
use crate::piece::Piece;
use crate::selectors::nothing_found;
use crate::{Names, is_none};
use al_base::{Name, NoMemory, UnitKey};
use al_query::{Answers, Recorder};
use al_scope::Scope;
use std::alloc::Global;

/// The name that a part is, after the name that the key is.
fn piece_name(alloc: Global, key: &[u8], piece: &Piece) -> Result<TextName, NoMemory>
    ensures { IfOk result (λ of. of ≡ piece_name key.now piece.now) }
{
    match piece {
        Piece::Alone(name) => {
            let name = Name::from_slice(alloc, name.as_slice())?;
            Ok(TextName::Simple(name))
        }
        Piece::After(name) => {
            let prefix = Name::from_slice(alloc, key)?;
            let name = Name::from_slice(alloc, name.as_slice())?;
            Ok(TextName::Selected { prefix, name })
        }
    }
}

/// Makes the key the whole name that ends with a part.
fn add_to_key(key: &mut Vec<u8>, piece: &Piece) -> Result<(), NoMemory>
    ensures { OnOk result (key.new.items ≡ piece_key key.old.items piece.now) }
{
    match piece {
        Piece::Alone(name) => {
            key.clear();
            key.extend_from_slice(name.as_slice())?;
            Ok(())
        }
        Piece::After(name) => {
            key.push(b'.')?;
            key.extend_from_slice(name.as_slice())?;
            Ok(())
        }
    }
}

/// Whether a part is a selector after a name of more than this many bytes.
fn is_past(key: &[u8], longest: usize, piece: &Piece) -> bool
    ensures { result ≡ is_past key.now longest piece.now }
{
    match piece {
        Piece::Alone(_) => false,
        Piece::After(_) => longest < key.len(),
    }
}

/// The most bytes that a name has under which something is visible, after this one was looked up last.
fn longest_with(names: &Names, key: &[u8], longest: usize) -> usize
    ensures before { longest ≤ result }
    ensures found { is_none (views_of names.now.visible key.now) ≡ false → length key.now ≤ result }
{
    if is_none(names.visible.views(key)) || key.len() <= longest {
        return longest;
    }
    key.len()
}

/// Looks up the name that a part is, after the name that the key is.
fn look_up_one<A: Answers>(
    alloc: Global,
    scope: &Scope,
    packages: &[UnitKey],
    names: &mut Names,
    key: &[u8],
    piece: &Piece,
    recorder: &mut Recorder<A>,
) -> Result<(), NoMemory>
    ensures asked { recorder.new.asked ≡ recorder.old.asked }
    ensures answered { OnOk result (FromAnswers recorder.old.log recorder.new.log (λ t. names.new ≡ looked_up t scope.now packages.now names.old (piece_name key.now piece.now))) }
    ensures asks { OnOk result (AsksOf (asked_units scope.now packages.now) by_some_name recorder.old.log recorder.new.log) }
{
    let of = piece_name(alloc, key, piece)?;
    look_up(alloc, scope, packages, names, &of, recorder)?;
    Ok(())
}

/// Looks up the name that a part is, and makes the key that name. If nothing is visible under a name of more than `longest` bytes, nothing
/// is selected after it. The result is the new limit.
fn look_up_piece<A: Answers>(
    alloc: Global,
    scope: &Scope,
    packages: &[UnitKey],
    names: &mut Names,
    key: &mut Vec<u8>,
    longest: usize,
    piece: &Piece,
    recorder: &mut Recorder<A>,
) -> Result<usize, NoMemory>
    ensures asked { recorder.new.asked ≡ recorder.old.asked }
    ensures key { OnOk result (key.new.items ≡ piece_key key.old.items piece.now) }
    ensures answered { IfOk result (λ n. FromAnswers recorder.old.log recorder.new.log (λ t. AreShort names.old longest → (names.new ≡ looked_up t scope.now packages.now names.old (piece_name key.old.items piece.now)) × AreShort names.new n)) }
    ensures asks { OnOk result (AsksOf (asked_units scope.now packages.now) by_some_name recorder.old.log recorder.new.log) }
{
    let front = key.as_slice();
    if is_past(front, longest, piece) {
        add_to_key(key, piece)?;
        return Ok(longest);
    }
    let before = key.as_slice();
    look_up_one(alloc, scope, packages, names, before, piece, recorder)?;
    add_to_key(key, piece)?;
    let after = key.as_slice();
    Ok(longest_with(names, after, longest))
}

/// What the names that these parts are denote at a place.
pub(crate) fn look_up_pieces<A: Answers>(
    alloc: Global,
    scope: &Scope,
    packages: &[UnitKey],
    pieces: &[Piece],
    recorder: &mut Recorder<A>,
) -> Result<Names, NoMemory>
    ensures asked { recorder.new.asked ≡ recorder.old.asked }
    ensures answered { IfOk result (λ names. FromAnswers recorder.old.log recorder.new.log (λ t. names ≡ looked_up_all t scope.now packages.now (names_of pieces.now))) }
    ensures asks { IfOk result (λ _. AsksOf (asked_units scope.now packages.now) by_some_name recorder.old.log recorder.new.log) }
{
    let mut names = nothing_found(alloc);
    let mut key = Vec::new(alloc);
    let mut longest = 0;
    for piece in pieces {
        let next = look_up_piece(
            alloc, scope, packages, &mut names, &mut key, longest, piece, recorder,
        )?;
        longest = next;
    }
    Ok(names)
}
