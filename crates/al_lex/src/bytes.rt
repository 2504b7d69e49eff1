// Kinds of bytes.
ghost use Rattle.std.specs.Prelude.{◌≡◌};
ghost use Rattle.al_lex.specs.Bytes.{is_line_end, is_blank, is_printable};

#[inline(always)]
pub(crate) fn is_line_end(b: u8) -> bool
    ensures { result ≡ is_line_end b }
{
    (10..=13).contains(&b)
}

#[inline(always)]
pub(crate) fn is_blank(b: u8) -> bool
    ensures { result ≡ is_blank b }
{
    b == b' ' || b == b'\t'
}

pub(crate) fn is_printable(b: u8) -> bool
    ensures { result ≡ is_printable b }
{
    (32..=126).contains(&b)
}
