// Filling in the operands that depend on the places of symbols.
ghost use Rattle.std.specs.Prelude.{◌≡◌, ◌≤◌};
ghost use Rattle.al_link.specs.Linking.{number_at, patched, with_word};

use crate::places::Places;
use al_code_object::Relocation;

// The number in the four bytes at a place.
#[tactic(auto, unfolding(crate::specs::Linking::number_at))]
fn number_at(code: &[u8], place: usize) -> u32
    ensures { result ≡ number_at code.now place }
{
    if place < code.len() && code.len() - place >= 4 {
        let bytes = &code[place..place + 4];
        return u32::from_be_bytes([bytes[0], bytes[1], bytes[2], bytes[3]]);
    }
    0
}

// Writes a number into the four bytes at a place.
#[tactic(auto, unfolding(crate::specs::Linking::with_word))]
fn write_word(code: &mut [u8], place: usize, number: u32)
    ensures { code.new ≡ with_word code.old place number }
{
    if place < code.len() && code.len() - place >= 4 {
        code[place..place + 4].copy_from_slice(&number.to_be_bytes());
    }
}

// Fills in the operands of an object whose code begins at the base.
pub(crate) fn patch(code: &mut [u8], base: usize, from: &[u8], uses: &[Relocation], places: &Places)
    requires { base ≤ 4294967296 }
    ensures { code.new ≡ patched places.now from.now base code.old uses.now }
{
    for one in uses {
        let place = one.place as usize;
        let value = places.place_of(&one.symbol);
        let number = number_at(from, place).wrapping_add(value);
        write_word(code, base + place, number);
    }
}
