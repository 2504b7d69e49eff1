// Names at ends.
ghost use Rattle.std.specs.Prelude.{◌≡◌};
ghost use Rattle.std.specs.Option.{option_map};
ghost use Rattle.std.specs.Str.{str_eq_ignore_ascii_case};
ghost use Rattle.al_stmts.specs.Ends.{end_fault, ends};

use al_base::Place;
use al_base_fault::{CheckRule, Fault};

/// A name after `end`: the place of its first token, and its spelling with dots between its identifiers.
#[derive(Clone, Copy)]
pub struct NameAtEnd<'a> {
    /// The place of its first token.
    pub place: Place,
    /// Its spelling, with dots between its identifiers.
    pub spelled: &'a [u8],
}

/// Whether the name is that one, whatever the case of its letters.
fn is_end_of(name: Option<&[u8]>, spelled: &[u8]) -> bool
    ensures { result ≡ ends (option_map (λ n. n.now) name.entry) spelled.now }
{
    match name {
        Some(name) => is_same_name(name, spelled),
        None => false,
    }
}

fn is_same_name(name: &[u8], spelled: &[u8]) -> bool
    ensures { result ≡ str_eq_ignore_ascii_case name.now spelled.now }
{
    name.eq_ignore_ascii_case(spelled)
}

/// E308 at the name after the `end` of something that has another name, with dots between its identifiers, or has none.
pub fn end_fault(name: Option<&[u8]>, end: Option<NameAtEnd>) -> Option<Fault>
    ensures { result ≡ end_fault (option_map (λ n. n.now) name.entry) (option_map (λ e. (e.place, e.spelled.now)) end.entry) }
{
    let end = end?;
    if is_end_of(name, end.spelled) {
        return None;
    }
    let rule = CheckRule::EndName;
    Some(Fault {
        place: end.place,
        rule,
    })
}
