// Pages as they are printed.
use crate::table::Page;
use al_base_words::message_of;
use std::alloc::{AllocError, Global};

/// The page as it is printed: the code with its words, the rule with its clauses, and the two sources, each line four blanks in.
///
/// # Errors
///
/// If out of memory.
pub fn page_text(alloc: Global, page: &Page) -> Result<Vec<u8>, AllocError> {
    let mut text = Vec::new(alloc);
    add_head(&mut text, page)?;
    text.extend_from_slice(b"\n\nWrong:\n\n")?;
    add_lines(&mut text, page.wrong.as_bytes())?;
    text.extend_from_slice(b"\nRight:\n\n")?;
    add_lines(&mut text, page.right.as_bytes())?;
    Ok(text)
}

fn add_head(text: &mut Vec<u8>, page: &Page) -> Result<(), AllocError> {
    let pieces: [&[u8]; 6] = [
        message_of(page.code),
        b"\n\n",
        page.rule.as_bytes(),
        b" (",
        page.clauses.as_bytes(),
        b")",
    ];
    for piece in pieces {
        text.extend_from_slice(piece)?;
    }
    Ok(())
}

// Adds the lines, each four blanks in.
fn add_lines(text: &mut Vec<u8>, lines: &[u8]) -> Result<(), AllocError> {
    let mut is_start = true;
    for byte in lines {
        if is_start {
            text.extend_from_slice(b"    ")?;
        }
        text.push(*byte)?;
        is_start = *byte == b'\n';
    }
    Ok(())
}
