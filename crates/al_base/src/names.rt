// Which bytes are names of files.
ghost use Rattle.std.specs.Prelude.{◌≡◌};
ghost use Rattle.std.specs.List.{list_all};
ghost use Rattle.al_base.specs.Names.{is_name_byte, is_file_name};

#[tactic(auto, unfolding(crate::specs::Names::is_file_name))]
/// Whether the bytes are the name of a file.
pub fn is_file_name(bytes: &[u8]) -> bool
    ensures { result ≡ is_file_name bytes.now }
{
    if bytes.len() <= 4 || bytes.len() > 255 {
        return false;
    }
    let (stem, ending) = bytes.split_at(bytes.len() - 4);
    are_name_bytes(stem) && (ending == b".ads".as_slice() || ending == b".adb".as_slice())
}

fn are_name_bytes(bytes: &[u8]) -> bool
    ensures { result ≡ list_all is_name_byte bytes.now }
{
    bytes.iter().all(|b| is_name_byte(*b))
}

fn is_name_byte(b: u8) -> bool
    ensures { result ≡ is_name_byte b }
{
    matches!(b, b'a'..=b'z' | b'0'..=b'9' | b'_' | b'~' | b'-')
}
