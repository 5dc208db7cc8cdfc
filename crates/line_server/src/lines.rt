// Lines of bytes.
ghost use Rattle.std.specs.Prelude.{◌≡◌, ◌++◌, false, All};
ghost use Rattle.line_server.specs.Lines.{whole_lines, rest_of, closed, has_newline};

/// A law: the lines of bytes, each ended by a newline, and then the rest, are the bytes, and no newline stands in a
/// line or in the rest. So there are no other lines and no other rest of which this holds.
pub fn lines_make_the_bytes(bytes: &[u8])
    ensures made { closed (whole_lines bytes.now) ++ rest_of bytes.now ≡ bytes.now }
    ensures lines { All (λ line. has_newline line ≡ false) (whole_lines bytes.now) }
    ensures rest { has_newline (rest_of bytes.now) ≡ false }
{
    let _ = bytes;
}
