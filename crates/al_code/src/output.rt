// Code as it is written.
ghost use Rattle.std.specs.Prelude.{◌≡◌, ◌≤◌, [], ◌∷◌, ◌++◌, ◌+◌, ℕ, Some, None, length, map, nat_le, is_none, if◌then◌else◌, IfOk, IfSome, IsSomeAnd, MatchOption, OnErr, OnOk, All};
ghost use Rattle.al_view.specs.ViewUses.{link};
ghost use Rattle.al_instr.specs.declared.instruction.Instr.TheVariants.{PutName, PutText};
ghost use Rattle.al_instr.specs.Codes.{IsInstr, encoded};
ghost use Rattle.al_code_object.specs.Parts.{MayUse};
ghost use Rattle.al_code_object.specs.Objects.{IsCode};
ghost use Rattle.al_code.specs.Kept.{IsCodeKind, StandsWithin};
ghost use Rattle.al_code.specs.Pieces.{back, line_word, printed};
ghost use Rattle.al_code.specs.Pieces.Piece.{Whole, Using, Leaving, Begins, Line};
ghost use Rattle.al_code.specs.Written.{WaitsAt, ended, empty, written};

use crate::filling::{fill_all, others};
use crate::piece::{Construct, ForwardJump, JumpCondition, Target};
use crate::text::printed_names;
use al_base::{Name, NoMemory};
use al_code_object::{Address, Relocation};
use al_instr::{Instr, LineEntry, Text};
use al_view::{LinkKind, LinkSymbol, Symbol};
use std::alloc::Global;
use std::marker::Model;

/// The most bytes of code that an image has.
pub const MAX_CODE: usize = 16_777_216;

/// Code as it is written, up to the limit `MAX_CODE`. Past it nothing more is written.
#[derive(Drop)]
pub struct Output {
    alloc: Global,
    code: Vec<u8>,
    uses: Vec<Relocation>,
    defines: Vec<Address>,
    leaving: Vec<ForwardJump>,
    lines: Vec<LineEntry>,
    /// The bytes of the last instruction.
    bytes: Vec<u8>,
    is_large: bool,
}

/// Code that has been written.
#[derive(Drop)]
pub struct Written {
    /// Its bytes.
    pub code: Vec<u8>,
    /// The symbols that are used, in the order of their places.
    pub uses: Vec<Relocation>,
    /// The symbols that are defined, in the order of their places.
    pub defines: Vec<Address>,
    /// The places from which on the code is of a line, in the order in which they were marked.
    pub lines: Vec<LineEntry>,
}

impl Model for Output {
    ghost use Rattle.std.specs.Prelude.{Option, Some, None, if◌then◌else◌};
    ghost use Rattle.al_code.specs.Written.{Buffer};

    ghost Value = { Option Buffer };

    ghost use Rattle.al_code.specs.Kept.{IsKept};

    ghost view = { λ o. if o.is_large then None else Some (record { code = o.code.items; uses = o.uses.items; defines = o.defines.items; leaving = o.leaving.items; lines = o.lines.items }) };

    ghost invariant = { λ o. IsKept o.code.items o.uses.items o.defines.items o.leaving.items };
}

impl Output {
    /// No code so far. It takes no memory.
    pub fn new(alloc: Global) -> Output
        ensures { result ≡ Some empty }
    {
        Output {
            alloc,
            code: Vec::new(alloc),
            uses: Vec::new(alloc),
            defines: Vec::new(alloc),
            leaving: Vec::new(alloc),
            lines: Vec::new(alloc),
            bytes: Vec::new(alloc),
            is_large: false,
        }
    }

    /// The allocator of the code.
    pub fn alloc(&self) -> Global {
        self.alloc
    }

    /// The number of bytes written.
    pub fn len(&self) -> usize
        ensures { IfSome self.now (λ b. result ≡ length b.code) }
    {
        self.code.len()
    }

    /// Whether the code has passed the limit, so that nothing more is written.
    pub fn is_large(&self) -> bool
        ensures { result ≡ is_none self.now }
    {
        self.is_large
    }

    /// The number of jumps whose ends aren't there yet.
    pub fn leaving(&self) -> usize
        ensures { WaitsAt self.now result }
    {
        self.leaving.len()
    }

    /// What was written, or none if the code has passed the limit.
    pub fn finish(self) -> Option<Written>
        ensures value { MatchOption result (self ≡ None) (λ w. IsSomeAnd self (λ b. (w.code.items ≡ b.code) × (w.uses.items ≡ b.uses) × (w.defines.items ≡ b.defines) × (w.lines.items ≡ b.lines))) }
        ensures code { IfSome result (λ w. IsCode w.code.items w.uses.items) }
        ensures within { IfSome result (λ w. length w.code.items ≤ 16777216) }
        ensures standing { IfSome result (λ w. All (StandsWithin (length w.code.items)) w.defines.items) }
    {
        if self.is_large {
            return None;
        }
        Some(Written {
            code: self.code,
            uses: self.uses,
            defines: self.defines,
            lines: self.lines,
        })
    }

    /// Writes an instruction.
    ///
    /// # Errors
    /// `NoMemory` if the allocator refuses memory.
    #[tactic(auto, using(crate::proofs::Keeping::kept_whole), unfolding(crate::specs::Written::with_piece, crate::specs::Written::written))]
    pub fn put(&mut self, instr: &Instr) -> Result<(), NoMemory>
        requires { IsInstr instr.now }
        ensures { OnOk result (self.new ≡ written self.old (Whole instr.now ∷ [])) }
    {
        if self.is_large {
            return Ok(());
        }
        let fits = append(&mut self.bytes, &mut self.code, instr)?;
        self.is_large = !fits;
        Ok(())
    }

    /// Writes an instruction whose first operand counts from the place of the symbol.
    ///
    /// # Errors
    /// `NoMemory` if the allocator refuses memory.
    #[tactic(auto, using(crate::proofs::Keeping::kept_using), unfolding(crate::specs::Written::with_piece, crate::specs::Written::written))]
    pub fn emit_using(
        &mut self,
        instr: &Instr,
        kind: LinkKind,
        symbol: &Symbol,
    ) -> Result<(), NoMemory>
        requires fits { IsInstr instr.now }
        requires uses { MayUse instr.now kind }
        ensures { OnOk result (self.new ≡ written self.old (Using instr.now (link kind symbol.now) ∷ [])) }
    {
        if self.is_large {
            return Ok(());
        }
        let symbol = symbol.copy(self.alloc)?;
        let place = self.code.len() as u32 + 1;
        let symbol = LinkSymbol { symbol, kind };
        let note = Relocation { place, symbol };
        let fits = append_noted(&mut self.bytes, &mut self.code, instr, &mut self.uses, note)?;
        self.is_large = !fits;
        Ok(())
    }

    /// Writes a jump whose end isn't there yet.
    ///
    /// # Errors
    /// `NoMemory` if the allocator refuses memory.
    #[tactic(auto, using(crate::proofs::Keeping::kept_leaving), unfolding(crate::specs::Written::with_piece, crate::specs::Written::written))]
    pub fn emit_leaving(&mut self, when: JumpCondition, target: Target) -> Result<(), NoMemory>
        ensures { OnOk result (self.new ≡ written self.old (Leaving when target ∷ [])) }
    {
        if self.is_large {
            return Ok(());
        }
        let jump = when.jump(0);
        let place = self.code.len();
        let note = ForwardJump { place, target };
        let fits = append_noted(
            &mut self.bytes,
            &mut self.code,
            &jump,
            &mut self.leaving,
            note,
        )?;
        self.is_large = !fits;
        Ok(())
    }

    /// Notes that the symbol is defined here.
    ///
    /// # Errors
    /// `NoMemory` if the allocator refuses memory.
    #[tactic(auto, using(crate::proofs::Keeping::kept_begins), unfolding(crate::specs::Written::with_piece, crate::specs::Written::written))]
    pub fn begin(&mut self, kind: LinkKind, symbol: &Symbol) -> Result<(), NoMemory>
        requires { IsCodeKind kind }
        ensures { OnOk result (self.new ≡ written self.old (Begins (link kind symbol.now) ∷ [])) }
    {
        if self.is_large {
            return Ok(());
        }
        let symbol = symbol.copy(self.alloc)?;
        let symbol = LinkSymbol { symbol, kind };
        let offset = self.code.len() as u32;
        self.defines.push(Address { symbol, offset })?;
        Ok(())
    }

    /// Notes that from here on the code is of this line.
    ///
    /// # Errors
    /// `NoMemory` if the allocator refuses memory.
    #[tactic(auto, unfolding(crate::specs::Written::with_piece, crate::specs::Written::written))]
    pub fn mark(&mut self, line: usize) -> Result<(), NoMemory>
        ensures { OnOk result (self.new ≡ written self.old (Line line ∷ [])) }
    {
        if self.is_large {
            return Ok(());
        }
        let place = self.code.len() as u32;
        let line = line_word(line);
        self.lines.push(LineEntry { place, line })?;
        Ok(())
    }

    /// Writes a jump back to this place.
    ///
    /// # Errors
    /// `NoMemory` if the allocator refuses memory.
    pub fn emit_back(&mut self, start: usize) -> Result<(), NoMemory>
        ensures { (n : ℕ) → IfSome self.old (λ b. length b.code ≡ start + n) → OnOk result (self.new ≡ written self.old (back n ∷ [])) }
    {
        let distance = self.code.len().saturating_sub(start) + 5;
        self.put(&Instr::Jump(-(distance as i32)))
    }

    /// Ends a construct: fills in the jumps to its end, among those from the `first` on.
    ///
    /// # Errors
    /// `NoMemory` if the allocator refuses memory.
    #[tactic(auto, using(crate::proofs::Keeping::kept_cut, crate::proofs::Keeping::kept_closed), unfolding(crate::specs::Written::ended))]
    pub fn close(&mut self, first: usize, construct: Construct) -> Result<(), NoMemory>
        ensures { OnOk result (self.new ≡ ended self.old first construct) }
    {
        if first > self.leaving.len() {
            return Ok(());
        }
        let kept = others(self.alloc, &self.leaving[first..], construct)?;
        let end = self.code.len();
        fill_all(&mut self.code, &self.leaving[first..], construct, end);
        self.leaving.truncate(first);
        self.leaving.extend_from_slice(&kept)?;
        Ok(())
    }

    /// Writes an instruction that puts these bytes.
    ///
    /// # Errors
    /// `NoMemory` if the allocator refuses memory.
    pub fn emit_text(&mut self, text: &[u8]) -> Result<(), NoMemory>
        ensures { OnOk result (self.new ≡ written self.old (Whole (PutText text.now) ∷ [])) }
    {
        if text.len() > MAX_CODE {
            self.is_large = true;
            return Ok(());
        }
        let text = Text::from_slice(self.alloc, text)?;
        self.put(&Instr::PutText(text))
    }

    /// Writes an instruction that puts one of these names.
    ///
    /// # Errors
    /// `NoMemory` if the allocator refuses memory.
    pub fn emit_names(&mut self, below: u32, names: &[Name]) -> Result<(), NoMemory>
        ensures { OnOk result (self.new ≡ written self.old (Whole (PutName below (map printed names.now)) ∷ [])) }
    {
        if names.len() > MAX_CODE {
            self.is_large = true;
            return Ok(());
        }
        let names = printed_names(self.alloc, names)?;
        self.put(&Instr::PutName { below, names })
    }
}

/// A line number as a word.
fn line_word(line: usize) -> u32
    ensures { result ≡ line_word line }
{
    line.min(4_294_967_295).max(1) as u32
}

/// Appends the bytes of an instruction if they pass no limit. Gives whether it did.
fn append(bytes: &mut Vec<u8>, code: &mut Vec<u8>, instr: &Instr) -> Result<bool, NoMemory>
    requires { length code.old.items ≤ 16777216 }
    ensures fits { IfOk result (λ fits. fits ≡ nat_le (length code.old.items + length (encoded instr.now)) 16777216) }
    ensures bytes { IfOk result (λ fits. code.new.items ≡ (if fits then code.old.items ++ encoded instr.now else code.old.items)) }
    ensures same { OnErr result (code.new.items ≡ code.old.items) }
{
    bytes.clear();
    instr.encode(bytes)?;
    if bytes.len() > MAX_CODE - code.len() {
        return Ok(false);
    }
    code.extend_from_slice(bytes)?;
    Ok(true)
}

/// Appends the bytes of an instruction if they pass no limit, and then a note about it.
fn append_noted<N: Drop>(
    bytes: &mut Vec<u8>,
    code: &mut Vec<u8>,
    instr: &Instr,
    notes: &mut Vec<N>,
    note: N,
) -> Result<bool, NoMemory>
    requires { length code.old.items ≤ 16777216 }
    ensures fits { IfOk result (λ fits. fits ≡ nat_le (length code.old.items + length (encoded instr.now)) 16777216) }
    ensures bytes { IfOk result (λ fits. code.new.items ≡ (if fits then code.old.items ++ encoded instr.now else code.old.items)) }
    ensures notes { IfOk result (λ fits. notes.new.items ≡ (if fits then notes.old.items ++ note ∷ [] else notes.old.items)) }
    ensures same { OnErr result ((code.new.items ≡ code.old.items) × (notes.new.items ≡ notes.old.items)) }
{
    let before = code.len();
    if !append(bytes, code, instr)? {
        return Ok(false);
    }
    if let Err(error) = notes.push(note) {
        code.truncate(before);
        return Err(NoMemory::from(error));
    }
    Ok(true)
}
