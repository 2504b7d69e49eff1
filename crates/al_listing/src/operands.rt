// Instructions as they are listed.
use crate::mnemonics::{plain_word, protected_word, sized_word};
use al_instr::{Instr, Words};
use al_link_image::{ImageObject, Region};
use std::alloc::AllocError;

/// What names operands: the units of the image, and its protected objects.
#[derive(Clone, Copy)]
pub(crate) struct Symbols<'a> {
    pub(crate) objects: &'a [ImageObject],
    pub(crate) regions: &'a [Region],
}

/// The bytes as text; what isn't of ASCII's graphic characters is printed by its number.
pub(crate) fn push_bytes(out: &mut String, bytes: &[u8]) -> Result<(), AllocError> {
    for byte in bytes {
        let byte = *byte;
        let is_plain = byte >= 32 && byte < 127 && byte != b'"' && byte != b'\\';
        if is_plain {
            out.push(char::from(byte))?;
        } else {
            write!(out, "\\x{byte:02x}")?;
        }
    }
    Ok(())
}

/// An instruction with its operands, where the next one begins at a place.
pub(crate) fn push_instruction(
    out: &mut String,
    symbols: Symbols<'_>,
    instruction: &Instr,
    next: u32,
) -> Result<(), AllocError> {
    match instruction {
        Instr::Plain(plain) => out.push_str(plain_word(*plain)),
        Instr::Sized(sized, number) => {
            let word = sized_word(*sized);
            write!(out, "{word} {number}")
        }
        Instr::Protected(action, object) => {
            let word = protected_word(*action);
            write!(out, "{word} {object}")
        }
        Instr::Const(word) => write!(out, "Const {word}"),
        Instr::Frame { depth, word } => write!(out, "Frame {depth} {word}"),
        Instr::Global(address) => push_global(out, symbols, *address),
        Instr::Check { low, high } => write!(out, "Check {low} {high}"),
        Instr::Index { low, high, words } => write!(out, "Index {low} {high} {words}"),
        _ => push_led(out, symbols, instruction, next),
    }
}

// Instructions that lead somewhere, and those of output.
fn push_led(
    out: &mut String,
    symbols: Symbols<'_>,
    instruction: &Instr,
    next: u32,
) -> Result<(), AllocError> {
    match instruction {
        Instr::Jump(distance) => {
            let place = i64::from(next) + i64::from(*distance);
            write!(out, "Jump {place}")
        }
        Instr::JumpZero(distance) => {
            let place = i64::from(next) + i64::from(*distance);
            write!(out, "JumpZero {place}")
        }
        Instr::Call { place, words } => {
            write!(out, "Call {place} {words}")?;
            push_symbol(out, symbols.objects, *place)
        }
        Instr::Task { place, priority } => {
            write!(out, "Task {place} {priority}")?;
            push_symbol(out, symbols.objects, *place)
        }
        Instr::Seed { place, words } => write!(out, "Seed {place} {words}"),
        Instr::PutText(text) => {
            out.push_str("PutText \"")?;
            push_bytes(out, text.as_slice())?;
            out.push_str("\"")
        }
        Instr::PutName { below, names } => push_names(out, *below, names),
        _ => Ok(()),
    }
}

fn push_names(out: &mut String, below: u32, names: &Words) -> Result<(), AllocError> {
    write!(out, "PutName {below}")?;
    for number in 0..names.len() {
        if let Some(name) = names.get(number) {
            out.push_str(" ")?;
            push_bytes(out, name)?;
        }
    }
    Ok(())
}

/// The unit whose code a place is in, and how far after its beginning: UNIT+OFFSET.
fn push_symbol(out: &mut String, objects: &[ImageObject], place: u32) -> Result<(), AllocError> {
    let mut found = None;
    for object in objects {
        if object.place <= place {
            found = Some(object);
        }
    }
    let Some(object) = found else {
        return Ok(());
    };
    let offset = place.saturating_sub(object.place);
    out.push_str("    ; ")?;
    push_bytes(out, object.name.as_slice())?;
    write!(out, "+{offset}")
}

// A data word, and the protected object that it is of.
fn push_global(out: &mut String, symbols: Symbols<'_>, address: u32) -> Result<(), AllocError> {
    write!(out, "Global {address}")?;
    for (number, region) in symbols.regions.iter().enumerate() {
        if region.address <= address && address - region.address < region.words {
            return write!(out, "    ; object {number}");
        }
    }
    Ok(())
}
