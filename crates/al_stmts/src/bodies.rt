// Bodies inside statements and declarations, in the order of their first tokens.
ghost use Rattle.std.specs.Prelude.{◌≡◌, ◌++◌, OnOk, map};
ghost use Rattle.al_view_typed.specs.UnitTrees.{body_model};

use al_base::NoMemory;
use al_view_typed::TypedBody;

/// Appends bodies.
#[tactic(auto, using(std::proofs::lemmas::Grind::common_steps))]
pub(crate) fn append(bodies: &mut Vec<TypedBody>, more: Vec<TypedBody>) -> Result<(), NoMemory>
    ensures { OnOk result (map body_model bodies.new.items ≡ map body_model bodies.old.items ++ map body_model more.items) }
{
    let mut more = more;
    match bodies.append(&mut more) {
        Ok(()) => Ok(()),
        Err(_) => Err(NoMemory),
    }
}
