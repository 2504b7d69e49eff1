// The head of a frame: fields, each in a line that ends in CR LF, and then an empty line.
ghost use Rattle.std.specs.Prelude.{◌≡◌, ◌≤◌, IfSome, None, length, option_map};
ghost use Rattle.al_lsp.specs.Heads.{ends_head, is_name, field_value, number_in, length_told};

/// The most bytes of a body.
pub const MAX_BODY: usize = 67_108_864;

/// Whether the bytes end in an empty line.
pub fn ends_head(bytes: &[u8]) -> bool
    ensures { result ≡ ends_head bytes.now }
{
    &bytes[bytes.len().saturating_sub(4)..] == b"\r\n\r\n".as_slice()
}

// Whether the bytes are the name of the field.
fn is_name(bytes: &[u8]) -> bool
    ensures { result ≡ is_name bytes.now }
{
    bytes.eq_ignore_ascii_case(b"content-length:")
}

// What follows the name of the field.
fn field_value(bytes: &[u8]) -> Option<&[u8]>
    ensures { option_map (λ v. v.now) result ≡ field_value bytes.now }
{
    if bytes.len() < 15 {
        return None;
    }
    if is_name(&bytes[..15]) {
        Some(&bytes[15..])
    } else {
        None
    }
}

// The number that stands before a CR.
fn number_in(bytes: &[u8]) -> Option<usize>
    ensures value { result ≡ number_in MAX_BODY None bytes.now }
    ensures small { IfSome result (λ n. n ≤ MAX_BODY) }
{
    let mut so_far: Option<usize> = None;
    for byte in bytes {
        if *byte == b'\r' {
            return so_far;
        }
        if *byte == b' ' && so_far.is_none() {
            continue;
        }
        if !byte.is_ascii_digit() {
            return None;
        }
        let value = so_far.unwrap_or(0) * 10 + usize::from(*byte - b'0');
        if value > MAX_BODY {
            return None;
        }
        so_far = Some(value);
    }
    None
}

/// How many bytes a head says that the body has.
pub fn content_length(head: &[u8]) -> Option<usize>
    ensures value { result ≡ length_told MAX_BODY head.now }
    ensures small { IfSome result (λ n. n ≤ MAX_BODY) }
{
    let mut is_at_start = true;
    for i in 0..head.len() {
        if is_at_start {
            if let Some(value) = field_value(&head[i..]) {
                return number_in(value);
            }
        }
        is_at_start = head[i] == b'\n';
    }
    None
}
