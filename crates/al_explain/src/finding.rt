// Pages by their codes.
ghost use Rattle.std.specs.Prelude.{◌<◌, IfSome};

use crate::table::{PAGES, Page};
use std::alloc::{AllocError, Global};

/// The pages, by their codes.
///
/// # Errors
///
/// If out of memory.
pub fn pages(alloc: Global) -> Result<Vec<Page>, AllocError> {
    let mut found = Vec::new(alloc);
    for subject in PAGES {
        add_pages(subject, &mut found)?;
    }
    Ok(found)
}

// Adds the pages of a subject.
fn add_pages(subject: &'static str, found: &mut Vec<Page>) -> Result<(), AllocError> {
    let mut parts = subject.split('%');
    let _nothing = parts.next();
    for _page in 0..subject.len() {
        let Some(head) = parts.next() else {
            break;
        };
        let wrong = parts.next().unwrap_or("");
        let right = parts.next().unwrap_or("");
        if let Some(page) = page_with(head, wrong, right) {
            found.push(page)?;
        }
    }
    Ok(())
}

fn page_with(head: &'static str, wrong: &'static str, right: &'static str) -> Option<Page> {
    let (code, rest) = head.split_once('|')?;
    let (clauses, rule) = rest.split_once('|')?;
    let code = code.parse::<u16>().ok()?;
    Some(Page {
        code,
        clauses,
        rule,
        wrong,
        right,
    })
}

/// The number of a code as it is printed, as 402 of E402, in either case of its letter; none of another form.
pub fn code_named(word: &[u8]) -> Option<u16> {
    match word {
        [b'E' | b'e', hundreds, tens, ones] => {
            let hundreds = digit(*hundreds)?;
            let tens = digit(*tens)?;
            let ones = digit(*ones)?;
            Some(hundreds * 100 + tens * 10 + ones)
        }
        _ => None,
    }
}

fn digit(byte: u8) -> Option<u16>
    ensures { IfSome result (λ value. value < 10) }
{
    if byte.is_ascii_digit() {
        Some(u16::from(byte - b'0'))
    } else {
        None
    }
}
