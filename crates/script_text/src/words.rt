//! The words of a line.
ghost use Rattle.std.specs.Prelude.{◌≡◌, ◌≤◌, [], ◌∷◌, length, MatchOption, Some, None};
ghost use Rattle.std.specs.List.{prefix_len, position_or_len};
ghost use Rattle.script_text.specs.Words.{is_space, only_word, words_of};

/// The first word of a text and what comes after it, or `None` where the text has no word.
pub fn next_word(text: &[u8]) -> Option<(&[u8], &[u8])>
    ensures { MatchOption result (words_of text.now ≡ [])
        (λ found. words_of text.now ≡ found.0.now ∷ words_of found.1.now) }
{
    let (_, text) = text.split_at(spaces_before(text));
    if text.is_empty() {
        return None;
    }
    Some(text.split_at(octets_of_word(text)))
}

/// The word of a text that has exactly one; `None` where it has none or several.
pub fn only_word(text: &[u8]) -> Option<&[u8]>
    ensures { MatchOption result (only_word (words_of text.now) ≡ None)
        (λ word. only_word (words_of text.now) ≡ Some word.now) }
{
    let (word, behind) = next_word(text)?;
    match next_word(behind) {
        None => Some(word),
        Some(_) => None,
    }
}

/// How many spaces a text begins with.
fn spaces_before(text: &[u8]) -> usize
    ensures value { result ≡ prefix_len is_space text.now }
    ensures within { result ≤ length text.now }
{
    text.iter().take_while(|c| **c == b' ').count()
}

/// How many octets of a text come before its first space.
fn octets_of_word(text: &[u8]) -> usize
    ensures value { result ≡ position_or_len is_space text.now }
    ensures within { result ≤ length text.now }
{
    text.iter().take_while(|c| **c != b' ').count()
}
