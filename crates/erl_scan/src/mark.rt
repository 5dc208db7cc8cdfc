// Punctuation.

/// A separator, an operator or a bracket that is written with signs (Erlang Reference Manual; `erl_scan` of OTP 25).
#[derive(Clone, Copy, Debug, PartialEq, Eq)]
pub enum Mark {
    /// `=:=`
    ExactlyEqual,
    /// `=/=`
    ExactlyUnequal,
    /// `...`
    Ellipsis,
    /// `<<`
    OpenBinary,
    /// `<-`
    LeftArrow,
    /// `<=`
    BinaryArrow,
    /// `>>`
    CloseBinary,
    /// `>=`
    GreaterOrEqual,
    /// `->`
    Arrow,
    /// `--`
    Subtract,
    /// `++`
    Append,
    /// `=<`
    LessOrEqual,
    /// `=>`
    MapArrow,
    /// `==`
    Equal,
    /// `/=`
    Unequal,
    /// `||`
    BarBar,
    /// `:=`
    MapMatch,
    /// `::`
    ColonColon,
    /// `..`
    DotDot,
    /// `?=`
    MaybeMatch,
    /// `(`
    OpenParen,
    /// `)`
    CloseParen,
    /// `{`
    OpenBrace,
    /// `}`
    CloseBrace,
    /// `[`
    OpenBracket,
    /// `]`
    CloseBracket,
    /// `,`
    Comma,
    /// `;`
    Semicolon,
    /// `:`
    Colon,
    /// `.`, where it is not the dot that ends a form
    Period,
    /// `|`
    Bar,
    /// `!`
    Send,
    /// `#`
    Hash,
    /// `*`
    Times,
    /// `+`
    Plus,
    /// `-`
    Minus,
    /// `/`
    Divide,
    /// `<`
    Less,
    /// `=`
    Match,
    /// `>`
    Greater,
    /// `?`
    Question,
}
