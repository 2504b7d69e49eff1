// The unit of a source.
ghost use Rattle.std.specs.Prelude.{◌≡◌, IfOk, IfSome, option_map};
ghost use Rattle.al_tree.specs.UnitViews.{unit_model};
ghost use Rattle.al_unit_graph.specs.Views.{header_model};
ghost use Rattle.al_unit_header.specs.Units as headers;
ghost use Rattle.al_unit.specs.Texts.{unit_in};

use crate::read;
use al_base::NoMemory;
use al_tree::CompilationUnit;
use al_unit_graph::Header;
use al_unit_header::header_of;
use std::alloc::Global;

/// The unit that a source is read as, and what it says of itself.
pub struct ReadUnit {
    /// The tree of the compilation unit.
    pub tree: CompilationUnit,
    /// What the unit says of itself.
    pub header: Header,
}

impl Drop for ReadUnit {
    fn drop(self) {
        let ReadUnit { tree: _, header: _ } = self;
    }
}

/// A unit with what it says of itself.
fn headed(alloc: Global, tree: CompilationUnit) -> Result<ReadUnit, NoMemory>
    ensures tree { IfOk result (λ unit. unit.tree ≡ tree) }
    ensures header { IfOk result (λ unit. header_model unit.header ≡ headers.header_of (unit_model unit.tree)) }
{
    match header_of(alloc, &tree) {
        Ok(header) => Ok(ReadUnit { tree, header }),
        Err(error) => {
            drop(tree);
            Err(error)
        }
    }
}

/// The unit of a tree with its header, if there is a tree.
fn headed_if(alloc: Global, tree: Option<CompilationUnit>) -> Result<Option<ReadUnit>, NoMemory>
    ensures tree { IfOk result (λ unit. option_map (λ u. unit_model u.tree) unit ≡ option_map (λ u. unit_model u) tree) }
    ensures header { IfOk result (λ unit. IfSome unit (λ u. header_model u.header ≡ headers.header_of (unit_model u.tree))) }
{
    match tree {
        Some(tree) => {
            let unit = headed(alloc, tree)?;
            Ok(Some(unit))
        }
        None => Ok(None),
    }
}

/// The unit that a source is read as; none if it is no unit, or has more bytes than can be read.
#[tactic(auto, using(crate::proofs::CheckTextReading::fits, crate::proofs::CheckTextReading::is_long))]
pub(crate) fn unit_in(alloc: Global, text: &[u8]) -> Result<Option<ReadUnit>, NoMemory>
    ensures tree { IfOk result (λ unit. option_map (λ u. unit_model u.tree) unit ≡ unit_in text.now) }
    ensures header { IfOk result (λ unit. IfSome unit (λ u. header_model u.header ≡ headers.header_of (unit_model u.tree))) }
{
    if text.len() > 4294967294 {
        return Ok(None);
    }
    let reading = read(alloc, text)?;
    let tree = reading.into_unit();
    let unit = headed_if(alloc, tree)?;
    Ok(unit)
}
