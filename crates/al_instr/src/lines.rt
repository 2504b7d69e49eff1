// The lines of code.
ghost use Rattle.std.specs.Prelude.{◌≡◌, ◌+◌, ◌<◌, ◌^◌, ◌++◌, true, None, All, IfOk, OnOk};
ghost use Rattle.al_instr.specs.Lines.{line_at, line_table, rise, shifted};

use al_base::NoMemory;
use std::alloc::Global;

/// From this byte of the code on, up to the next entry's, it is of this line of its unit's source.
#[derive(Clone, Copy)]
pub struct LineEntry {
    /// The place in the code, in bytes from its beginning.
    pub place: u32,
    /// 1 or more.
    pub line: u32,
}

/// Whether places rise strictly and are below the end of the code, and lines are at least 1.
pub fn are_lines(lines: &[LineEntry], end: usize) -> bool
    ensures { result ≡ rise 0 end lines.now }
{
    let mut lowest = 0;
    for one in lines {
        let place = one.place as usize;
        if place < lowest || place >= end || one.line == 0 {
            return false;
        }
        lowest = place + 1;
    }
    true
}

/// The table of lines that marks in code of this length make: of several at one place the last one stays, and none at its end.
///
/// # Errors
///
/// `NoMemory` if the allocator refuses memory.
pub fn line_table(
    alloc: Global,
    marks: &[LineEntry],
    end: usize,
) -> Result<Vec<LineEntry>, NoMemory>
    ensures { IfOk result (λ lines. lines.items ≡ line_table end marks.now) }
{
    let mut lines = Vec::new(alloc);
    let mut front = end;
    let mut left = marks.len();
    'marks: while left > 0 {
        left -= 1;
        let mark = marks[left];
        if (mark.place as usize) < front {
            lines.push(mark)?;
            front = mark.place as usize;
        }
    }
    lines.reverse();
    Ok(lines)
}

/// The line of the code at a place: that of the last entry whose place isn't after it.
pub fn line_at(lines: &[LineEntry], place: usize) -> Option<u32>
    requires { rise 0 0x1_0000_0000 lines.now ≡ true }
    ensures { result ≡ line_at lines.now place None }
{
    let mut low = 0;
    let mut high = lines.len();
    'halves: while low < high {
        let middle = low + (high - low) / 2;
        if lines[middle].place as usize <= place {
            low = middle + 1;
        } else {
            high = middle;
        }
    }
    if low == 0 {
        return None;
    }
    Some(lines[low - 1].line)
}

/// Appends the lines of an object whose code begins at this place of the image's.
///
/// # Errors
///
/// `NoMemory` if the allocator refuses memory. What `lines` then has isn't specified.
pub fn push_shifted(
    lines: &mut Vec<LineEntry>,
    start: u32,
    more: &[LineEntry],
) -> Result<(), NoMemory>
    requires { All (λ e. start + e.place < 2 ^ 32) more.now }
    ensures { OnOk result (lines.new.items ≡ lines.old.items ++ shifted start more.now) }
{
    for one in more {
        lines.push(LineEntry {
            place: start + one.place,
            line: one.line,
        })?;
    }
    Ok(())
}
