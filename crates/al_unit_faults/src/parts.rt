// The library unit of which a unit is part.
ghost use Rattle.std.specs.Prelude.{◌≡◌, ℕ, suc, length, map};
ghost use Rattle.std.specs.Option.{option_map};
ghost use Rattle.al_unit_graph.specs.Views.{header_model};
ghost use Rattle.al_unit_faults.specs.Parts.{part_within, part_of};

use al_base::UnitKind;
use al_unit_graph::{Header, Sources};

/// The library unit of which a unit is part, through so many parent bodies at most (ARM 10.1.3(8)).
fn part_within<'a>(sources: &'a Sources, count: usize, header: &'a Header) -> Option<&'a [u8]>
    ensures { option_map (λ n. n.now) result ≡ part_within (suc count) sources.now (header_model header.now) }
{
    let mut inner = header;
    let mut left = count;
    loop {
        let Some(parent) = &inner.parent_body else {
            return Some(inner.name.as_slice());
        };
        let name = parent.name.as_slice();
        let Some(outer) = sources.unit_at(name, UnitKind::Sub) else {
            return Some(name);
        };
        if left == 0 {
            return None;
        }
        left -= 1;
        inner = outer;
    }
}

/// The library unit of which a unit is part: itself, or the one of the body with a subunit's stub (ARM 10.1.3(8)); none if subunits
/// go round in a cycle.
#[tactic(auto, unfolding(crate::specs::Parts::part_of))]
pub(crate) fn part_of<'a>(
    sources: &'a Sources,
    count: usize,
    header: &'a Header,
) -> Option<&'a [u8]>
    requires { count ≡ length sources.now }
    ensures { option_map (λ n. n.now) result ≡ part_of sources.now (header_model header.now) }
{
    part_within(sources, count, header)
}
