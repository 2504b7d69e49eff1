// What replies print for refusals.
ghost use Rattle.std.specs.Prelude.{◌≡◌};
ghost use Rattle.al_base_words.specs.Refusals.{word_of};

use al_base::Refusal;

/// The word that a reply gives for a refusal.
pub fn word_of(refusal: Refusal) -> &'static [u8]
    ensures { result.now ≡ word_of refusal }
{
    match refusal {
        Refusal::BadName => b"bad-name",
        Refusal::NoFile => b"no-file",
        Refusal::FileExists => b"file-exists",
        Refusal::TooManyFiles => b"too-many-files",
        Refusal::TextTooLong => b"text-too-long",
        Refusal::NotBuilt => b"not-built",
        Refusal::NoImage => b"no-image",
        Refusal::BadCommand => b"bad-command",
        Refusal::BadLength => b"bad-length",
        Refusal::NoMemory => b"no-memory",
    }
}
