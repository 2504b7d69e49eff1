// The answer of a library to one command.
ghost use Rattle.std.specs.Prelude.{◌≡◌, ℕ, ◌≤◌, List, length, IsTrue, map, false, true};
ghost use Rattle.std.specs.Char.{to_ascii_lowercase};
ghost use Rattle.al_session_served.specs.Lines.{Put, Delete, Rename, Build, Run, ReportUnits, ReportObsolete, HasFewSteps};
ghost use Rattle.al_session_served.specs.LineSeen.{simple_model};
ghost use Rattle.al_session_served.specs.Library.{Meaning, with_tick};
ghost use Rattle.al_session_served.specs.ReplySeen.{reply_model};
ghost use Rattle.al_session_served.specs.Acting.{Answers, AnswersAndEnds};

use crate::library::UnitLibrary;
use crate::line::OneLine;
use crate::reply::Reply;
use crate::serving::Ended;
use al_base::{Refusal, folded};
use al_session_stream::Text;
use std::alloc::Global;

/// Carries out a command that is one line.
pub fn answer<L: UnitLibrary>(
    alloc: Global,
    library: &mut L,
    tick: u32,
    command: OneLine<'_>,
) -> (Reply, Option<Ended>)
    requires some { 1 ≤ tick }
    requires few { tick ≤ 10000 }
    requires steps { HasFewSteps (simple_model command) }
    ensures { AnswersAndEnds (with_tick L.meaning tick) (L.state library.old) (L.state library.new)
        (reply_model (L.state library.new) result.0) result.1 (simple_model command.entry) }
{
    match command {
        OneLine::Delete(name) => (delete(library, name), None),
        OneLine::Rename(old, new) => (rename(library, old, new), None),
        OneLine::Build(unit) => (build(alloc, library, unit), None),
        OneLine::Run(steps) => (run(library, tick, steps), None),
        OneLine::Report(subject) => (Reply::Report(subject), None),
        OneLine::ReportUnits => (report_units(library), None),
        OneLine::ReportObsolete => (report_obsolete(library), None),
        OneLine::Quit => (Reply::Nothing, Some(Ended::Quit)),
        OneLine::Bad => (Reply::Refused(Refusal::BadCommand), None),
    }
}

/// Puts the bytes that were read, if they were kept.
pub fn put<L: UnitLibrary>(library: &mut L, name: &[u8], len: usize, text: Text) -> Reply
    requires kept { IsTrue text.kept → length text.bytes.items ≡ len }
    ensures { (tick : ℕ) (bytes : List ℕ) → length bytes ≡ len → (IsTrue text.kept → text.bytes.items ≡ bytes)
        → Answers (with_tick L.meaning tick) (L.state library.old) (L.state library.new)
        (reply_model (L.state library.new) result) (Put name.now bytes) }
{
    if let Err(refusal) = library.check_put(name, len) {
        return Reply::Refused(refusal);
    }
    if !text.kept {
        return Reply::Refused(Refusal::NoMemory);
    }
    match library.put(name, text.bytes) {
        Ok(()) => Reply::Done,
        Err(refusal) => Reply::Refused(refusal),
    }
}

fn delete<L: UnitLibrary>(library: &mut L, name: &[u8]) -> Reply
    ensures { (tick : ℕ) → Answers (with_tick L.meaning tick) (L.state library.old) (L.state library.new)
        (reply_model (L.state library.new) result) (Delete name.now) }
{
    match library.delete(name) {
        Ok(()) => Reply::Done,
        Err(refusal) => Reply::Refused(refusal),
    }
}

fn rename<L: UnitLibrary>(library: &mut L, old: &[u8], new: &[u8]) -> Reply
    ensures { (tick : ℕ) → Answers (with_tick L.meaning tick) (L.state library.old) (L.state library.new)
        (reply_model (L.state library.new) result) (Rename old.now new.now) }
{
    match library.rename(old, new) {
        Ok(()) => Reply::Done,
        Err(refusal) => Reply::Refused(refusal),
    }
}

fn build<L: UnitLibrary>(alloc: Global, library: &mut L, unit: &[u8]) -> Reply
    ensures { (tick : ℕ) → Answers (with_tick L.meaning tick) (L.state library.old) (L.state library.new)
        (reply_model (L.state library.new) result) (Build (map to_ascii_lowercase unit.now)) }
{
    let Ok(main) = folded(alloc, unit) else {
        return Reply::Refused(Refusal::NoMemory);
    };
    match library.build(main.as_slice()) {
        Ok(()) => Reply::LastBuild,
        Err(_) => Reply::Refused(Refusal::NoMemory),
    }
}

fn run<L: UnitLibrary>(library: &L, tick: u32, steps: u64) -> Reply
    requires some { 1 ≤ tick }
    requires few { tick ≤ 10000 }
    requires steps { steps ≤ 1000000000 }
    ensures { Answers (with_tick L.meaning tick) (L.state library.now) (L.state library.now)
        (reply_model (L.state library.now) result) (Run steps) }
{
    match library.run(tick, steps) {
        Ok(ran) => Reply::RunReport(ran),
        Err(refusal) => Reply::Refused(refusal),
    }
}

fn report_units<L: UnitLibrary>(library: &L) -> Reply
    ensures { (tick : ℕ) → Answers (with_tick L.meaning tick) (L.state library.now) (L.state library.now)
        (reply_model (L.state library.now) result) ReportUnits }
{
    match library.units() {
        Ok(files) => Reply::Units(files),
        Err(_) => Reply::Refused(Refusal::NoMemory),
    }
}

fn report_obsolete<L: UnitLibrary>(library: &L) -> Reply
    ensures { (tick : ℕ) → Answers (with_tick L.meaning tick) (L.state library.now) (L.state library.now)
        (reply_model (L.state library.now) result) ReportObsolete }
{
    match library.obsolete() {
        Ok(units) => Reply::Obsolete(units),
        Err(refusal) => Reply::Refused(refusal),
    }
}
