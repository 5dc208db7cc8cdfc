// Lines and columns.
ghost use Rattle.std.specs.Prelude.{◌<◌, List, ℕ, ◌++◌, ◌∷◌, [], ◌≤◌, ◌+◌, take};
ghost use Rattle.diagnostics.specs.Positions.{StandsBehind};

/// Where something stands in a text.
#[derive(Clone, Copy, Debug, PartialEq, Eq)]
pub struct Position {
    /// The line, from 1. A newline ends a line.
    pub line: usize,
    /// The column in characters, from 1.
    pub column: usize,
}

/// The position of the byte at an offset of a text, counted from 0. Past the end it is that of the end.
pub fn position_of(text: &[u8], at: usize) -> Position
    ensures { StandsBehind (take at text.now) result }
{
    let mut position = Position { line: 1, column: 1 };
    for byte in &text[..at.min(text.len())] {
        position = position.behind(*byte);
    }
    position
}

impl Position {
    /// The position behind a byte that stands here.
    fn behind(self, byte: u8) -> Position
        requires line { self.line < 18446744073709551615 }
        requires column { self.column < 18446744073709551615 }
        ensures behind { (before : List ℕ) → StandsBehind before self → StandsBehind (before ++ byte ∷ []) result }
        ensures line_bound { result.line ≤ self.line + 1 }
        ensures column_bound { result.column ≤ self.column + 1 }
    {
        if byte == b'\n' {
            return Position {
                line: self.line + 1,
                column: 1,
            };
        }
        let width = usize::from(!(128..192).contains(&byte));
        Position {
            line: self.line,
            column: self.column + width,
        }
    }
}
