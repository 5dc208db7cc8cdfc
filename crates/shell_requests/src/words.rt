// The words of a line.
ghost use Rattle.std.specs.Prelude.{◌≡◌, ◌≢◌, ◌==◌, ◌↔◌, [], ◌∷◌, IsTrue, slice_index, IfSome, MatchOption};
ghost use Rattle.std.specs.List.{list_all};
ghost use Rattle.std.specs.Option.{option_copied, option_map};
ghost use Rattle.std.specs.Str.{all_ascii_digits};
ghost use Rattle.shell_requests.specs.Words.{after_spaces, begins_comment, behind_word, is_digit, is_silent, number_of, only_word, two_words, with_rest, words_of};

/// Whether a line has no answer: it begins with `%`, or holds no byte but spaces.
pub fn is_silent(line: &[u8]) -> bool
    ensures { result ≡ is_silent line.now }
{
    begins_comment(line) || is_blank(line)
}

/// Whether a line holds no byte but spaces.
fn is_blank(line: &[u8]) -> bool
    ensures { result ≡ list_all (λ b. b == 32) line.now }
{
    line.iter().all(|byte| *byte == b' ')
}

/// Whether a line begins with `%`.
fn begins_comment(line: &[u8]) -> bool
    ensures { result ≡ begins_comment line.now }
{
    match line {
        [first, ..] => *first == b'%',
        [] => false,
    }
}

/// The first word of a text, and what follows it.
pub fn next_word(text: &str) -> Option<(&str, &str)>
    ensures words { MatchOption result (words_of text.now ≡ [])
        (λ it. words_of text.now ≡ it.0.now ∷ words_of it.1.now) }
    ensures behind { IfSome result (λ it. it.1.now ≡ behind_word text.now) }
{
    let text = after_spaces(text);
    if text.is_empty() {
        return None;
    }
    match text.split_once(' ') {
        Some((word, rest)) => {
            let behind = after_spaces(rest);
            Some((word, behind))
        }
        None => Some((text, "")),
    }
}

/// A text without the spaces that it begins with.
fn after_spaces(text: &str) -> &str
    ensures is { result.now ≡ after_spaces text.now }
    ensures words { words_of result.now ≡ words_of text.now }
    ensures begins { slice_index result.now 0 ≢ 32 }
{
    let mut rest = text;
    while let Some(shorter) = rest.strip_prefix(' ') {
        rest = shorter;
    }
    rest
}

/// Whether a text has no word.
pub fn has_no_word(text: &str) -> bool
    ensures { IsTrue result ↔ (words_of text.now ≡ []) }
{
    next_word(text).is_none()
}

/// The word of a text that has one and no other.
pub fn one_word(text: &str) -> Option<&str>
    ensures { option_copied result ≡ only_word (words_of text.now) }
{
    match next_word(text) {
        Some((word, rest)) if has_no_word(rest) => Some(word),
        _ => None,
    }
}

/// The words of a text that has two and no other.
pub fn pair_of_words(text: &str) -> Option<(&str, &str)>
    ensures { option_map (λ it. (it.0.now, it.1.now)) result ≡ two_words (words_of text.now) }
{
    let (first, rest) = next_word(text)?;
    match one_word(rest) {
        Some(second) => Some((first, second)),
        None => None,
    }
}

/// The first word of a text, and what stands behind it, where something does.
pub fn word_and_rest(text: &str) -> Option<(&str, &str)>
    ensures { option_map (λ it. (it.0.now, it.1.now)) result ≡ with_rest (words_of text.now) (behind_word text.now) }
{
    let (word, rest) = next_word(text)?;
    if rest.is_empty() {
        return None;
    }
    Some((word, rest))
}

/// The number that a word of decimal digits writes, where it is below 2^64.
pub fn number(word: &str) -> Option<u64>
    ensures { result ≡ number_of word.now }
{
    if !has_digits_alone(word) {
        return None;
    }
    match word.parse::<u64>() {
        Ok(number) => Some(number),
        Err(_) => None,
    }
}

/// Whether all bytes are decimal digits.
pub fn has_digits_alone(word: &str) -> bool
    ensures { result ≡ all_ascii_digits word.now }
{
    are_digits(word.as_bytes())
}

/// Whether all bytes are decimal digits.
fn are_digits(bytes: &[u8]) -> bool
    ensures { result ≡ list_all is_digit bytes.now }
{
    bytes.iter().all(|byte| is_digit(*byte))
}

/// Whether the byte is a decimal digit.
fn is_digit(byte: u8) -> bool
    ensures { result ≡ is_digit byte }
{
    matches!(byte, b'0'..=b'9')
}
