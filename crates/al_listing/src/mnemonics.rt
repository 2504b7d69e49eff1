// The names of instructions, as docs/formats.md has them.
use al_instr::{Plain, Protected, Sized};

/// The name of an instruction without operands.
pub(crate) fn plain_word(plain: Plain) -> &'static str {
    match plain {
        Plain::Add => "Add",
        Plain::Subtract => "Subtract",
        Plain::Multiply => "Multiply",
        Plain::Divide => "Divide",
        Plain::Modulo => "Modulo",
        Plain::Remainder => "Remainder",
        Plain::Power => "Power",
        Plain::Negate => "Negate",
        Plain::Absolute => "Absolute",
        Plain::Not => "Not",
        Plain::And => "And",
        Plain::Or => "Or",
        Plain::Xor => "Xor",
        _ => other_word(plain),
    }
}

// The names of comparisons, and of what concerns frames, output and tasks.
fn other_word(plain: Plain) -> &'static str {
    match plain {
        Plain::Equal => "Equal",
        Plain::NotEqual => "NotEqual",
        Plain::Less => "Less",
        Plain::AtMost => "AtMost",
        Plain::Greater => "Greater",
        Plain::AtLeast => "AtLeast",
        Plain::Root => "Root",
        Plain::Access => "Access",
        Plain::NewLine => "NewLine",
        Plain::Go => "Go",
        Plain::Begun => "Begun",
        Plain::Done => "Done",
        Plain::Now => "Now",
        Plain::Sleep => "Sleep",
        Plain::Leave => "Leave",
        _ => "",
    }
}

/// The name of an instruction with a number.
pub(crate) fn sized_word(sized: Sized) -> &'static str {
    match sized {
        Sized::Load => "Load",
        Sized::Store => "Store",
        Sized::Zero => "Zero",
        Sized::Same => "Same",
        Sized::Drop => "Drop",
        Sized::Field => "Field",
        Sized::Mark => "Mark",
        Sized::Enter => "Enter",
        Sized::Return => "Return",
        Sized::Raise => "Raise",
        Sized::PutInteger => "PutInteger",
    }
}

/// The name of an instruction on a protected object.
pub(crate) fn protected_word(action: Protected) -> &'static str {
    match action {
        Protected::Enter => "Enter object",
        Protected::EnterEntry => "EnterEntry object",
        Protected::Waiting => "Waiting object",
        Protected::Wake => "Wake object",
        Protected::Block => "Block object",
    }
}
