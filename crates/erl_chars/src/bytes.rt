// Where characters are met as UTF-8.
ghost use Rattle.std.specs.Prelude.{◌≡◌, ◌≤◌, ◌++◌, ◌∷◌, [], ℕ, List, length, MatchOption};
ghost use Rattle.std.specs.Str.{chars};
ghost use Rattle.erl_chars.specs.Cursor.{byte_count, after_first};

/// How many bytes the characters of a text have.
pub(crate) fn byte_len(text: &str) -> usize
    ensures characters { result ≡ byte_count (chars text.now) }
    ensures len { result ≡ length text.now }
{
    text.len()
}

/// The first character of a text and the text behind it, or none where there is none.
#[inline]
pub(crate) fn split_first(text: &str) -> Option<(char, &str)>
    ensures characters { MatchOption result (chars text.now ≡ []) (λ it. chars text.now ≡ it.0 ∷ chars it.1.now) }
    ensures within { MatchOption result (chars text.now ≡ []) (λ it. length it.1.now ≤ length text.now) }
{
    let mut characters = text.chars();
    let first = characters.next()?;
    Some((first, characters.as_str()))
}

/// The text behind the first character, or the empty text where there is none.
pub(crate) fn past_first(text: &str) -> &str
    ensures left { chars result.now ≡ after_first (chars text.now) }
    ensures within { length result.now ≤ length text.now }
{
    let mut characters = text.chars();
    characters.next();
    characters.as_str()
}

/// The characters of a text in front of those that are left of it.
pub(crate) fn in_front<'a>(text: &'a str, left: &str) -> &'a str
    requires { (front : List ℕ) × (chars text.now ≡ front ++ chars left.now) }
    ensures { chars text.now ≡ chars result.now ++ chars left.now }
{
    let (front, _) = text.split_at(text.len() - left.len());
    front
}
