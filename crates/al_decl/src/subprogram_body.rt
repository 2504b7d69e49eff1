// Bodies of subprograms at a place (ARM 6.3, 8.1).
ghost use Rattle.std.specs.Prelude.{◌≡◌, ◌<◌, length, IfOk, OnOk};
ghost use Rattle.std.specs.List.{filter_map};
ghost use Rattle.al_decl.specs.Declaring.{with_declarations};
ghost use Rattle.al_decl.specs.Regions.{outside_of, subprogram_entered, with_formals_declared};
ghost use Rattle.al_decl_judged.specs.Frames.{formal_words, new_formal};

use crate::Environment;
use crate::block::{Outside, set_aside};
use al_base::NoMemory;
use al_decl_judged::{Formals, Heading, NewFormal, declare_formals, enter_body, new_formals};
use al_view::{Seq, Symbol};
use al_view_predefined::StandardTypes;
use al_view_typed::FormalWords;
use std::alloc::Global;

/// The depth of nesting round a body, and the next word of the frame there.
#[derive(Clone, Copy)]
pub struct OuterFrame {
    /// The depth.
    pub depth: u32,
    /// The next word of the frame.
    pub word: u32,
}

/// Enters the body of a subprogram: a region of its own, one deeper, with a frame of its own in which nothing waits.
/// # Errors
/// `NoMemory` if the allocator refuses memory.
pub fn enter_subprogram(
    alloc: Global,
    env: &mut Environment,
    symbol: Symbol,
) -> Result<(OuterFrame, Outside), NoMemory>
    ensures env { OnOk result (env.new ≡ subprogram_entered env.old symbol) }
    ensures frame { IfOk result (λ left. left.0 ≡ record { depth = env.old.progress.depth; word = env.old.progress.words.frame }) }
    ensures outside { IfOk result (λ left. left.1 ≡ outside_of env.old) }
{
    env.scope.enter_construct(symbol, Seq::empty(alloc))?;
    let (depth, word) = enter_body(&mut env.progress);
    let outside = set_aside(alloc, env);
    Ok((OuterFrame { depth, word }, outside))
}

/// Makes formals with their places visible.
fn make_known(env: &mut Environment, formals: Formals) -> Result<Seq<FormalWords>, NoMemory>
    requires { 0 < length env.old.scope.regions }
    ensures env { OnOk result (env.new ≡ with_declarations env.old formals.declarations) }
    ensures words { IfOk result (λ words. words ≡ formals.words) }
{
    let Formals {
        declarations,
        words,
    } = formals;
    match env.declare(declarations.as_slice()) {
        Ok(()) => Ok(words),
        Err(none) => Err(none),
    }
}

fn declare_each(
    alloc: Global,
    standard: &StandardTypes,
    env: &mut Environment,
    formals: &[NewFormal],
) -> Result<Seq<FormalWords>, NoMemory>
    requires { 0 < length env.old.scope.regions }
    ensures env { OnOk result (env.new ≡ with_formals_declared env.old formals.now) }
    ensures words { IfOk result (λ words. words ≡ formal_words env.old.progress formals.now) }
{
    let made = declare_formals(alloc, standard, &mut env.progress, formals)?;
    make_known(env, made)
}

/// Declares the formals of a body that was just entered: they get their words in its frame, in order.
/// # Errors
/// `NoMemory` if the allocator refuses memory.
pub fn declare_all_formals(
    alloc: Global,
    standard: &StandardTypes,
    env: &mut Environment,
    heading: &Heading,
) -> Result<Seq<FormalWords>, NoMemory>
    requires { 0 < length env.old.scope.regions }
    ensures env { OnOk result (env.new ≡ with_formals_declared env.old (filter_map new_formal heading.now.formals)) }
    ensures words { IfOk result (λ words. words ≡ formal_words env.old.progress (filter_map new_formal heading.now.formals)) }
{
    let formals = new_formals(alloc, heading.formals.as_slice())?;
    declare_each(alloc, standard, env, formals.as_slice())
}
