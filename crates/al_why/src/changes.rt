// Answers that are other ones now, as they are printed.
ghost use Rattle.std.specs.Prelude.{◌≡◌, ◌++◌, IfOk, OnOk};
ghost use Rattle.al_why.specs.Answers.{answer_words};
ghost use Rattle.al_why.specs.Changes.{change_words, was_words};

use crate::answers::add_answer;
use crate::pieces::{add, add_between};
use crate::questions::add_question;
use al_base::NoMemory;
use al_query::{Answer, Query};
use std::alloc::Global;

/// Adds that a question has another answer now, that answer and the one before. If both are printed alike, they differ in what isn't printed.
///
/// # Errors
///
/// `NoMemory` if the allocator refuses memory.
pub fn add_change(
    alloc: Global,
    text: &mut Vec<u8>,
    query: &Query,
    before: &Answer,
    now: &Answer,
) -> Result<(), NoMemory>
    ensures { OnOk result (text.new.items ≡ text.old.items ++ change_words query.now before.now now.now) }
{
    add_question(text, query)?;
    add(text, b" has another answer now: ")?;
    add_both(alloc, text, before, now)?;
    Ok(())
}

// Adds an answer, and the one before.
fn add_both(
    alloc: Global,
    text: &mut Vec<u8>,
    before: &Answer,
    now: &Answer,
) -> Result<(), NoMemory>
    ensures { OnOk result (text.new.items ≡ text.old.items ++ (answer_words now.now ++ was_words (answer_words before.now) (answer_words now.now))) }
{
    let was = answer_text(alloc, before)?;
    let is = answer_text(alloc, now)?;
    add(text, is.as_slice())?;
    add_was(text, was.as_slice(), is.as_slice())
}

fn answer_text(alloc: Global, answer: &Answer) -> Result<Vec<u8>, NoMemory>
    ensures { IfOk result (λ text. text.items ≡ answer_words answer.now) }
{
    let mut text = Vec::new(alloc);
    add_answer(&mut text, answer)?;
    Ok(text)
}

// Adds what was answered before.
fn add_was(text: &mut Vec<u8>, was: &[u8], is: &[u8]) -> Result<(), NoMemory>
    ensures { OnOk result (text.new.items ≡ text.old.items ++ was_words was.now is.now) }
{
    if was == is {
        return add(text, b", but not the same as before");
    }
    add_between(text, b", was ", was, b"")
}
