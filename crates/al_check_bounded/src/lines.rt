// The lines of first tokens.
ghost use Rattle.std.specs.Prelude.{◌≡◌, option_map};
ghost use Rattle.al_tree.specs.DeclarationViews.{specification_model};
ghost use Rattle.al_tree.specs.Lexemes.{place_label};
ghost use Rattle.al_tree.specs.UnitViews.{library_item_model};
ghost use Rattle.al_check_bounded.specs.Lines.{item_line, private_line, specification_line};

use al_base::Place;
use al_tree::{LibraryItem, Specification};

fn specification_line(specification: &Specification) -> usize
    ensures { result ≡ specification_line (specification_model specification.now) }
{
    match specification {
        Specification::Procedure(place, _, _) => place.line as usize,
        Specification::Function(place, _, _, _, _) => place.line as usize,
    }
}

/// The line of the word `private`, or else `line`.
fn private_line(opening: &Option<Place>, line: usize) -> usize
    ensures { result ≡ private_line (option_map place_label opening.now) line }
{
    match opening {
        Some(place) => place.line as usize,
        None => line,
    }
}

/// The line of the first token of a unit's item, after its context clause.
pub fn item_line(item: &LibraryItem) -> usize
    ensures { result ≡ item_line (library_item_model item.now) }
{
    match item {
        LibraryItem::Subprogram(opening, specification) => {
            private_line(opening, specification_line(specification))
        }
        LibraryItem::Package(opening, place, _) => private_line(opening, place.line as usize),
        LibraryItem::Body(specification, _) => specification_line(specification),
        LibraryItem::PackageBody(place, _) => place.line as usize,
        LibraryItem::Subunit(place, _, _, _, _) => place.line as usize,
    }
}
