// Which `.rel` is a release's.
ghost use Rattle.std.specs.Prelude.{◌≡◌, ◌++◌, ◌↔◌, ◌⊎◌, ◌≢◌, IsTrue, MatchOption, None, Some, map, string_bytes};
ghost use Rattle.release_files.specs.Files.{paths_of};
ghost use Rattle.release_files.specs.Paths.{HasNoRel, IsBefore, IsRelName, IsRelPath, rel_path};

/// The first path, in the order of their bytes, that is `releases/VSN/NAME.rel`, where no `/` stands in NAME. Looks at each
/// path once.
pub fn first_rel<'a>(paths: &'a [String], vsn: &str) -> Option<&'a str>
    ensures { MatchOption result (HasNoRel (map (λ path. string_bytes path) paths.now) vsn.now)
        (λ path. IsRelPath (map (λ path. string_bytes path) paths.now) vsn.now path.now) }
{
    let mut first: Option<&str> = None;
    for path in paths {
        if is_rel_name(path.as_str().as_bytes(), vsn.as_bytes()) {
            first = Some(lesser(first, path.as_str()));
        }
    }
    first
}

/// The lesser of two paths, where there is another.
fn lesser<'a>(first: Option<&'a str>, path: &'a str) -> &'a str
    ensures { MatchOption first.entry (result.now ≡ path.now)
        (λ other. ((result.now ≡ path.now) × IsBefore path.now other.now) ⊎
        ((result.now ≡ other.now) × (IsBefore path.now other.now → ⊥))) }
{
    match first {
        Some(other) => { if path < other { path } else { other } }
        None => path,
    }
}

/// Whether a path is `releases/VSN/NAME.rel`, where no `/` stands in NAME.
pub fn is_rel_name(path: &[u8], vsn: &[u8]) -> bool
    ensures { IsTrue result ↔ IsRelName vsn.now path.now }
{
    match rel_name(path, vsn) {
        Some(name) => !name.contains(&b'/'),
        None => false,
    }
}

/// The NAME of a path that is `releases/VSN/NAME.rel`.
fn rel_name<'a>(path: &'a [u8], vsn: &[u8]) -> Option<&'a [u8]>
    ensures { MatchOption result ((name : _) → path.now ≡ rel_path vsn.now name →
        ⊥) (λ name. path.now ≡ rel_path vsn.now name.now) }
{
    let versioned = behind(path, b"releases/")?;
    let rest = behind(versioned, vsn)?;
    let file = behind(rest, b"/")?;
    in_front(file, b".rel")
}

/// What stands behind these bytes.
fn behind<'a>(bytes: &'a [u8], front: &[u8]) -> Option<&'a [u8]>
    ensures { MatchOption result ((rest : _) → bytes.now ≡ front.now ++ rest → ⊥) (λ rest. bytes.now ≡ front.now ++ rest.now) }
{
    bytes.strip_prefix(front)
}

/// What stands in front of these bytes.
fn in_front<'a>(bytes: &'a [u8], ending: &[u8]) -> Option<&'a [u8]>
    ensures { MatchOption result ((rest : _) → bytes.now ≡ rest ++ ending.now → ⊥) (λ rest. bytes.now ≡ rest.now ++ ending.now) }
{
    bytes.strip_suffix(ending)
}
