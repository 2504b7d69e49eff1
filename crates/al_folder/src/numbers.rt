// Numbers as they are written.
ghost use Rattle.std.specs.Prelude.{◌≡◌, ◌≤◌, ◌<◌, IfSome};
ghost use Rattle.al_folder.specs.Numbers.{number_of};

/// The number that the word writes, if it is from 1 to `most`. It has only digits; `parse` would also take a sign.
pub fn number_of(most: u32, word: &str) -> Option<u32>
    ensures value { result ≡ number_of most word.now }
    ensures range { IfSome result (λ number. (1 ≤ number) × (number ≤ most)) }
{
    if word.as_bytes().first() == Some(&b'+') {
        return None;
    }
    let Ok(number) = word.parse::<u32>() else {
        return None;
    };
    if 1 <= number && number <= most {
        Some(number)
    } else {
        None
    }
}
