// What precedes an object in an image.
ghost use Rattle.std.specs.Prelude.{◌≡◌, ◌+◌, ◌≤◌, ◌<◌, length, MatchOption};
ghost use Rattle.al_link.specs.Bases.{AreSmall, base_of, next_bases};

use al_code_object::Compiled;
use al_link_image::{MAX_CODE, MAX_DATA_WORDS, MAX_PROTECTED, MAX_TASKS};
use al_view::LinkKind;

/// How many bytes of code, data words, protected objects and tasks precede an object.
#[derive(Clone, Copy)]
pub(crate) struct Bases {
    pub(crate) code: u32,
    pub(crate) words: u32,
    pub(crate) objects: u32,
    pub(crate) tasks: u32,
}

// The sum, if it is within the limit.
fn sum_within(sum: u32, more: usize, limit: u32) -> Option<u32>
    requires { sum ≤ limit }
    ensures { MatchOption result (limit < sum + more) (λ s. (s ≡ sum + more) × (s ≤ limit)) }
{
    if more > (limit - sum) as usize {
        return None;
    }
    Some(sum + more as u32)
}

// What precedes the next object, if that is within the limits of images.
pub(crate) fn next_bases(bases: Bases, object: &Compiled) -> Option<Bases>
    requires { AreSmall bases }
    ensures { MatchOption result (AreSmall (next_bases bases object.now) → ⊥) (λ next. (next ≡ next_bases bases object.now) × AreSmall next) }
{
    let code = sum_within(bases.code, object.code().len(), MAX_CODE)?;
    let words = sum_within(bases.words, object.data_words() as usize, MAX_DATA_WORDS)?;
    let objects = sum_within(bases.objects, object.protected().len(), MAX_PROTECTED)?;
    let tasks = sum_within(bases.tasks, object.tasks() as usize, MAX_TASKS)?;
    Some(Bases {
        code,
        words,
        objects,
        tasks,
    })
}

// The base from which symbols of this kind are counted.
pub(crate) fn base_of(bases: Bases, kind: LinkKind) -> u32
    ensures { result ≡ base_of bases kind }
{
    match kind {
        LinkKind::Code | LinkKind::Gate | LinkKind::EntryBody => bases.code,
        LinkKind::Flag | LinkKind::Data => bases.words,
        LinkKind::Protected => bases.objects,
    }
}
