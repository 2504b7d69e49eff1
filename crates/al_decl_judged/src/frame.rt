// The frame of a body, and its formal parameters in it (ARM 6.1, 6.4).
ghost use Rattle.std.specs.Prelude.{◌≡◌, ◌++◌, ◌∷◌, [], IfOk, OnOk};
ghost use Rattle.std.specs.List.{filter_map};
ghost use Rattle.al_decl_judged.specs.TypeObjects.{formal_view};
ghost use Rattle.al_decl_judged.specs.TypeDeclarations.{declared_as};
ghost use Rattle.al_decl_judged.specs.Types.{words_of};
ghost use Rattle.al_decl_judged.specs.Frames.{entered, formal_declarations, formal_place, formal_words, left_body, new_formal, with_formal, with_formals};

use crate::heading::FormalPart;
use crate::{Declaration, Progress, copied_subtype, formal_view, words_of};
use al_base::{Name, NoMemory};
use al_view::{Mode, ObjectPlace, Seq, SubtypeView};
use al_view_predefined::StandardTypes;
use al_view_typed::FormalWords;
use std::alloc::Global;

/// A formal parameter that is right: its name in lower case, its mode and its subtype.
#[derive(Drop)]
pub struct NewFormal {
    /// The name in lower case.
    pub name: Name,
    /// The mode.
    pub mode: Mode,
    /// The subtype.
    pub of: SubtypeView,
}

/// Formal parameters in their body: what they declare there, and their words.
#[derive(Drop)]
pub struct Formals {
    /// What they declare in their body.
    pub declarations: Seq<Declaration>,
    /// Their words in the frame.
    pub words: Seq<FormalWords>,
}

/// Enters a body: the depth grows by one, and the body has a frame of its own, whose words begin at 3. The result is the outer depth and
/// the next word of the outer frame, for `leave_body`.
pub fn enter_body(progress: &mut Progress) -> (u32, u32)
    ensures entered { progress.new ≡ entered progress.old }
    ensures outer { result ≡ (progress.old.depth, progress.old.words.frame) }
{
    let outer = (progress.depth, progress.words.frame);
    progress.depth = progress.depth.saturating_add(1);
    progress.words.frame = 3;
    outer
}

/// Leaves a body: the outer frame is continued; the unit's words and names are kept.
pub fn leave_body(progress: &mut Progress, outer: (u32, u32))
    ensures { progress.new ≡ left_body outer.0 outer.1 progress.old }
{
    progress.depth = outer.0;
    progress.words.frame = outer.1;
}

fn new_formal(alloc: Global, formal: &FormalPart) -> Result<Option<NewFormal>, NoMemory>
    ensures { IfOk result (λ made. made ≡ new_formal formal.now) }
{
    match &formal.of {
        Ok(of) => {
            let of = copied_subtype(alloc, of)?;
            let name = Name::from_slice(alloc, formal.name.name.as_slice())?;
            Ok(Some(NewFormal {
                name,
                mode: formal.mode,
                of,
            }))
        }
        Err(_) => Ok(None),
    }
}

/// Adds a formal whose mark is right.
fn add_formal(alloc: Global, made: &mut Seq<NewFormal>, formal: &FormalPart) -> Result<(), NoMemory>
    ensures { OnOk result (made.new ≡ made.old ++ filter_map new_formal (formal.now ∷ [])) }
{
    match new_formal(alloc, formal)? {
        Some(right) => {
            made.push(right)?;
            Ok(())
        }
        None => Ok(()),
    }
}

/// The formals whose marks are right.
/// # Errors
/// `NoMemory` if the allocator refuses memory.
pub fn new_formals(alloc: Global, formals: &[FormalPart]) -> Result<Seq<NewFormal>, NoMemory>
    ensures { IfOk result (λ made. made ≡ filter_map new_formal formals.now) }
{
    let mut made = Seq::empty(alloc);
    for formal in formals {
        add_formal(alloc, &mut made, formal)?;
    }
    Ok(made)
}

fn formal_declaration(
    alloc: Global,
    progress: &Progress,
    formal: &NewFormal,
) -> Result<Declaration, NoMemory>
    ensures { IfOk result (λ declared. declared ≡ declared_as formal.now.name (formal_view formal.now.of formal.now.mode (formal_place progress.now))) }
{
    let place = ObjectPlace::Frame {
        depth: progress.depth,
        word: progress.words.frame,
    };
    let view = formal_view(alloc, &formal.of, formal.mode, place)?;
    let name = Name::from_slice(alloc, formal.name.as_slice())?;
    Ok(Declaration { name, view })
}

/// A formal takes its words.
fn declare_formal(
    alloc: Global,
    standard: &StandardTypes,
    progress: &mut Progress,
    formal: &NewFormal,
    formals: &mut Formals,
) -> Result<(), NoMemory>
    ensures taken { OnOk result (progress.new ≡ with_formal progress.old formal.now) }
    ensures declared { OnOk result (formals.new.declarations ≡ formals.old.declarations ++ declared_as formal.now.name (formal_view formal.now.of formal.now.mode (formal_place progress.old)) ∷ []) }
    ensures words { OnOk result (formals.new.words ≡ formals.old.words ++ record { mode = formal.now.mode; word = progress.old.words.frame; words = words_of formal.now.of } ∷ []) }
{
    let declared = formal_declaration(alloc, progress, formal)?;
    formals.declarations.push(declared)?;
    progress.count(formal.name.as_slice())?;
    let words = words_of(standard, &formal.of);
    let word = progress.words.take_frame(words);
    formals.words.push(FormalWords {
        mode: formal.mode,
        word,
        words,
    })?;
    Ok(())
}

/// Declares the formals of a body that was just entered, in order: each gets its words in the body's frame.
/// # Errors
/// `NoMemory` if the allocator refuses memory.
pub fn declare_formals(
    alloc: Global,
    standard: &StandardTypes,
    progress: &mut Progress,
    formals: &[NewFormal],
) -> Result<Formals, NoMemory>
    ensures taken { OnOk result (progress.new ≡ with_formals progress.old formals.now) }
    ensures declared { IfOk result (λ made. made ≡ record { declarations = formal_declarations progress.old formals.now; words = formal_words progress.old formals.now }) }
{
    let mut made = Formals {
        declarations: Seq::empty(alloc),
        words: Seq::empty(alloc),
    };
    for formal in formals {
        declare_formal(alloc, standard, progress, formal, &mut made)?;
    }
    Ok(made)
}
