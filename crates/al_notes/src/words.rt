// Words, and tables of them.

/// Whether these are the same bytes.
pub fn is_same(one: &[u8], other: &[u8]) -> bool {
    one == other
}

/// Whether a word is one of those with spaces between them, in any case of letters.
pub fn is_one_of(word: &[u8], words: &str) -> bool {
    for one in words.split_whitespace() {
        if word.eq_ignore_ascii_case(one.as_bytes()) {
            return true;
        }
    }
    false
}

/// What a table has for a word: each of its lines has words with spaces between them, `|`, and what there is for them.
pub fn entry_for(table: &'static str, word: &[u8]) -> Option<&'static str> {
    for line in table.split('\n') {
        if let Some((words, entry)) = line.split_once('|') {
            if is_one_of(word, words) {
                return Some(entry);
            }
        }
    }
    None
}
