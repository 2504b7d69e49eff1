// Declarations as the protocol lists them, in one another.
ghost use Rattle.std.specs.Prelude.{◌≡◌, ◌<◌, IfOk, IfSome, OnOk, length, map, option_map};
ghost use Rattle.serde_json.specs.View.{view};
ghost use Rattle.al_lsp_listing.specs.Extents.{AreMarks};
ghost use Rattle.al_lsp_listing.specs.Listed.{behind, inside, is_inside, listed, nested, number_of, shown, with_symbol, Pops};
ghost use Rattle.al_lsp_listing.specs.Stacks.{stacked};

use crate::extents::{Mark, bytes_of, marks_of, range_of};
use al_base::NoMemory;
use al_lsp::Counting;
use al_lsp_messages::{ListedSymbol, symbol_value};
use al_lsp_outline::{DeclaredKind, Symbol};
use serde_json::{Value, push};
use std::alloc::Global;

/// A declaration that may be inside of one before it, with all that is declared inside of it.
struct Pending {
    depth: u32,
    value: Value,
}

impl Pending {
    fn into_value(self) -> Value
        ensures { result ≡ self.value }
    {
        let Pending { depth: _, value } = self;
        value
    }
}

impl Drop for Pending {
    fn drop(self) {
        let Pending { depth: _, value: _ } = self;
    }
}

// The protocol's number of what is declared.
fn number_of(kind: DeclaredKind) -> u64
    ensures { result ≡ number_of kind }
{
    match kind {
        DeclaredKind::Package => 4,
        DeclaredKind::Task => 5,
        DeclaredKind::Protected => 5,
        DeclaredKind::Component => 8,
        DeclaredKind::Enumeration => 10,
        DeclaredKind::Subprogram => 12,
        DeclaredKind::Variable => 13,
        DeclaredKind::Constant => 14,
        DeclaredKind::Literal => 22,
        DeclaredKind::Type => 23,
        DeclaredKind::Subtype => 23,
        DeclaredKind::Entry => 24,
    }
}

fn value_of(
    alloc: Global,
    counting: Counting,
    text: &[u8],
    marks: &[Mark],
    symbol: &Symbol,
    inside: Vec<Value>,
) -> Result<Value, NoMemory>
    requires { AreMarks counting text.now marks.now }
    ensures { IfOk result (λ value. view value ≡ shown counting text.now symbol.now (map view inside.items)) }
{
    let listed = ListedSymbol {
        name: bytes_of(text, symbol.shown),
        kind: number_of(symbol.declared.kind),
        whole: range_of(counting, text, marks, symbol.whole),
        selection: range_of(counting, text, marks, symbol.name),
    };
    Ok(symbol_value(alloc, &listed, inside)?)
}

// Whether the last of the declarations is deeper.
fn is_inside(pending: &[Pending], depth: u32) -> bool
    ensures { result ≡ is_inside depth (stacked pending.now) }
{
    match pending.last() {
        Some(last) => depth < last.depth,
        None => false,
    }
}

// Takes the last of the declarations, if it is deeper.
fn pop_inside(pending: &mut Vec<Pending>, depth: u32) -> Option<Value>
    ensures fewer { IfSome result (λ value. length pending.new.items < length pending.old.items) }
    ensures pops { Pops depth (stacked pending.old.items) (stacked pending.new.items) (option_map view result) }
{
    if !is_inside(pending.as_slice(), depth) {
        return None;
    }
    match pending.pop() {
        Some(last) => Some(last.into_value()),
        None => None,
    }
}

// Takes the declarations that are deeper from the end of the list, the last first.
fn take_inside(
    alloc: Global,
    pending: &mut Vec<Pending>,
    depth: u32,
) -> Result<Vec<Value>, NoMemory>
    ensures inside { IfOk result (λ values. map view values.items ≡ inside depth (stacked pending.old.items)) }
    ensures behind { OnOk result (stacked pending.new.items ≡ behind depth (stacked pending.old.items)) }
{
    let mut inside = Vec::new(alloc);
    while let Some(value) = pop_inside(pending, depth) {
        push(&mut inside, value)?;
    }
    Ok(inside)
}

// Adds a declaration before those that follow it.
fn add_symbol(
    alloc: Global,
    counting: Counting,
    text: &[u8],
    marks: &[Mark],
    symbol: &Symbol,
    pending: &mut Vec<Pending>,
) -> Result<(), NoMemory>
    requires { AreMarks counting text.now marks.now }
    ensures { OnOk result (stacked pending.new.items ≡ with_symbol counting text.now symbol.now (stacked pending.old.items)) }
{
    let depth = symbol.declared.depth;
    let inside = take_inside(alloc, pending, depth)?;
    let value = value_of(alloc, counting, text, marks, symbol, inside)?;
    pending.push(Pending { depth, value })?;
    Ok(())
}

// The declarations of a list, each with those that are declared inside; the first one last.
fn nested(
    alloc: Global,
    counting: Counting,
    text: &[u8],
    marks: &[Mark],
    symbols: &[Symbol],
) -> Result<Vec<Pending>, NoMemory>
    requires { AreMarks counting text.now marks.now }
    ensures { IfOk result (λ pending. stacked pending.items ≡ nested counting text.now symbols.now) }
{
    let mut pending = Vec::new(alloc);
    let mut at = symbols.len();
    while at > 0 {
        at -= 1;
        add_symbol(alloc, counting, text, marks, &symbols[at], &mut pending)?;
    }
    Ok(pending)
}

fn values_of(alloc: Global, pending: Vec<Pending>) -> Result<Vec<Value>, NoMemory>
    ensures { IfOk result (λ values. map view values.items ≡ map (λ d. d.listed) (stacked pending.items)) }
{
    let mut pending = pending;
    let mut values = Vec::new(alloc);
    while let Some(last) = pending.pop() {
        push(&mut values, last.into_value())?;
    }
    Ok(values)
}

/// A list of declarations, each with those that are declared inside.
///
/// # Errors
///
/// `NoMemory` where memory was wanted and not given.
pub(crate) fn listed(
    alloc: Global,
    counting: Counting,
    text: &[u8],
    symbols: &[Symbol],
) -> Result<Value, NoMemory>
    ensures { IfOk result (λ value. view value ≡ listed counting text.now symbols.now) }
{
    let marks = marks_of(alloc, counting, text)?;
    let pending = nested(alloc, counting, text, marks.as_slice(), symbols)?;
    Ok(Value::Array(values_of(alloc, pending)?))
}
