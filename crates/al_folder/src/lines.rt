// The lines of a source.
ghost use Rattle.std.specs.Prelude.{◌≡◌, ◌<◌, ◌≤◌, IfSome, length, position};
ghost use Rattle.al_folder.specs.Lines.{is_line_end, end_of, after_end, after_line, after_lines, first_line, without_mark, line_of};

/// Whether a byte ends a line: LF, VT, FF and CR do (ARM 2.2(2)).
fn is_line_end(byte: u8) -> bool
    ensures { result ≡ is_line_end byte }
{
    (10..=13).contains(&byte)
}

/// The place of the first byte that ends a line.
fn line_end(text: &[u8]) -> Option<usize>
    ensures value { result ≡ position is_line_end text.now }
    ensures within { IfSome result (λ end. end < length text.now) }
{
    text.iter().position(|b| is_line_end(*b))
}

/// The end of the first line: the place of the byte that ends it, or the end of the source.
fn end_of(text: &[u8]) -> usize
    ensures value { result ≡ end_of text.now }
    ensures within { result ≤ length text.now }
{
    match line_end(text) {
        Some(end) => end,
        None => text.len(),
    }
}

/// The bytes without the end of a line at their beginning. CR and LF together are one end.
fn after_end(bytes: &[u8]) -> &[u8]
    ensures { result.now ≡ after_end bytes.now }
{
    match bytes {
        [b'\r', b'\n', rest @ ..] => rest,
        [_, rest @ ..] => rest,
        [] => bytes,
    }
}

/// The source without its first line.
fn after_line(text: &[u8]) -> &[u8]
    ensures { result.now ≡ after_line text.now }
{
    after_end(&text[end_of(text)..])
}

/// The source without its first `count` lines.
fn after_lines(count: u32, text: &[u8]) -> &[u8]
    ensures { result.now ≡ after_lines count text.now }
{
    let mut rest = text;
    for _line in 0..count {
        rest = after_line(rest);
    }
    rest
}

/// The first line, without its end.
fn first_line(text: &[u8]) -> &[u8]
    ensures { result.now ≡ first_line text.now }
{
    &text[..end_of(text)]
}

/// The source without the byte order mark EF BB BF at its beginning.
fn without_mark(text: &[u8]) -> &[u8]
    ensures { result.now ≡ without_mark text.now }
{
    match text {
        [0xEF, 0xBB, 0xBF, rest @ ..] => rest,
        _ => text,
    }
}

/// The line of this number, without its end. Lines are counted from 1; after the last line, the result is empty.
pub fn line_at(number: u32, text: &[u8]) -> &[u8]
    ensures { result.now ≡ line_of number text.now }
{
    first_line(after_lines(number.saturating_sub(1), without_mark(text)))
}
