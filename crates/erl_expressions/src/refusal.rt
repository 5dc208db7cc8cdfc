// Why tokens are refused, and at which of them.
ghost use Rattle.std.specs.Prelude.{◌≡◌, ◌≤◌, length};
ghost use Rattle.erl_expressions.specs.Refusing.{IsToldOf, Leaves};

use erl_ast::{Infix, Prefix, Role, Shape, SyntaxTree};
use erl_scan::{Mark, Spot, Token, Word};

/// What clauses belong to.
#[derive(Clone, Copy, PartialEq, Eq)]
pub(crate) enum Choice {
    /// A `case`.
    Case,
    /// A `receive`, which Erlang has with `after`.
    Receive,
}

/// Why tokens are no expression, pattern or guard.
#[derive(Clone, Copy, Debug, PartialEq, Eq)]
pub enum Reason {
    /// No text goes on so.
    Syntax,
    /// Erlang has this, but it is not read here.
    Unsupported,
    /// An integer is below -2^63 or above 2^63 - 1.
    IntegerRange,
    /// The tree would be nested too deep.
    TooDeep,
}

/// Why tokens are no expression, pattern or guard, and at which of them that is told.
#[derive(Clone, Copy, Debug, PartialEq, Eq)]
pub struct Refusal {
    /// Why. Where the tokens end too soon, it says nothing.
    pub reason: Reason,
    /// How many tokens there are from the one on at which it is told; none where the tokens end too soon.
    pub left: usize,
}

impl Refusal {
    /// The refusal of the token that these begin with, or of the end where there is none.
    #[tactic(auto, using(crate::proofs::Dots::from_dot_most))]
    pub fn at(reason: Reason, tokens: &[Spot]) -> Refusal
        ensures is { result ≡ record { reason = reason; left = length tokens.now } }
        ensures told { IsToldOf tokens.now result }
    {
        Refusal {
            reason,
            left: tokens.len(),
        }
    }

    /// The refusal of tokens that end too soon.
    pub fn end() -> Refusal
        ensures { result.left ≡ 0 }
    {
        Refusal {
            reason: Reason::Syntax,
            left: 0,
        }
    }

    /// The refusal of a token where an expression should begin.
    pub(crate) fn at_start(tokens: &[Spot]) -> Refusal
        ensures { IsToldOf tokens.now result }
    {
        let Some(first) = tokens.first() else {
            return Refusal::at(Reason::Syntax, tokens);
        };
        match &first.what {
            Token::Float => Refusal::at(Reason::Unsupported, tokens),
            Token::Word(
                Word::BitNot | Word::Catch | Word::Fun | Word::If | Word::Receive | Word::Try,
            ) => Refusal::at(Reason::Unsupported, tokens),
            Token::Mark(Mark::OpenBinary | Mark::Hash | Mark::Plus | Mark::Question) => {
                Refusal::at(Reason::Unsupported, tokens)
            }
            _ => Refusal::at(Reason::Syntax, tokens),
        }
    }

    /// The refusal of a sign where an expression should begin, and of the tokens behind it: a float is told at itself.
    pub(crate) fn at_sign(tokens: &[Spot], rest: &[Spot]) -> Refusal
        requires { Leaves tokens.now rest.now }
        ensures { IsToldOf tokens.now result }
    {
        match (tokens.first(), rest.first()) {
            (Some(sign), Some(number))
                if matches!(sign.what, Token::Mark(Mark::Plus))
                    && matches!(number.what, Token::Float) => {
                Refusal::at(Reason::Unsupported, rest)
            }
            (Some(sign), None) if matches!(sign.what, Token::Mark(Mark::Plus)) => {
                Refusal::at(Reason::Syntax, rest)
            }
            (_, _) => Refusal::at_start(tokens),
        }
    }

    /// The refusal of an operator, which tokens begin with, before what should be a pattern: `-` before a float is its sign.
    pub(crate) fn before_pattern(op: Prefix, tokens: &[Spot], rest: &[Spot]) -> Refusal
        requires { Leaves tokens.now rest.now }
        ensures { IsToldOf tokens.now result }
    {
        match (op, rest.first()) {
            (Prefix::Negate, Some(first)) if matches!(first.what, Token::Float) => {
                Refusal::at(Reason::Unsupported, rest)
            }
            (Prefix::Negate, None) => Refusal::at(Reason::Syntax, rest),
            (_, _) => Refusal::at(Reason::Syntax, tokens),
        }
    }

    /// The refusal of a call, which a pattern hasn't: there it is told at the sign behind the name, which tokens begin with.
    pub(crate) fn of_call(self, role: Role, sign: &[Spot]) -> Refusal
        requires { IsToldOf sign.now self }
        ensures { IsToldOf sign.now result }
    {
        match role {
            Role::Pattern => Refusal::at(Reason::Syntax, sign),
            Role::Expression | Role::Test => self,
        }
    }

    /// The refusal of a token that can't stand where it stands, whatever Erlang has.
    pub fn misplaced(tokens: &[Spot]) -> Refusal
        ensures { IsToldOf tokens.now result }
    {
        let Some(first) = tokens.first() else {
            return Refusal::at(Reason::Syntax, tokens);
        };
        match &first.what {
            Token::Integer(n) if *n > 9223372036854775807 => {
                Refusal::at(Reason::IntegerRange, tokens)
            }
            Token::Float => Refusal::at(Reason::Unsupported, tokens),
            _ => Refusal::at(Reason::Syntax, tokens),
        }
    }

    /// The refusal of tokens behind whole clauses.
    pub(crate) fn behind_clauses(choice: Choice, tokens: &[Spot]) -> Refusal
        ensures { IsToldOf tokens.now result }
    {
        match choice {
            Choice::Case => Refusal::behind(tokens),
            Choice::Receive => Refusal::behind(tokens).of_receive(tokens),
        }
    }

    /// The refusal of tokens where the clauses of a `receive` begin or end: `after` is not read.
    pub(crate) fn of_receive(self, tokens: &[Spot]) -> Refusal
        requires { IsToldOf tokens.now self }
        ensures { IsToldOf tokens.now result }
    {
        match tokens.first() {
            Some(first) if matches!(first.what, Token::Word(Word::After)) => {
                Refusal::at(Reason::Unsupported, tokens)
            }
            _ => self,
        }
    }

    /// The refusal of tokens behind a whole expression, where no text goes on so.
    pub fn behind(tokens: &[Spot]) -> Refusal
        ensures { IsToldOf tokens.now result }
    {
        let Some(first) = tokens.first() else {
            return Refusal::at(Reason::Syntax, tokens);
        };
        match &first.what {
            Token::Word(
                Word::BitAnd
                | Word::BitOr
                | Word::BitXor
                | Word::ShiftLeft
                | Word::ShiftRight
                | Word::Xor,
            ) => Refusal::at(Reason::Unsupported, tokens),
            Token::Mark(
                Mark::BarBar
                | Mark::Colon
                | Mark::Divide
                | Mark::Hash
                | Mark::Match
                | Mark::MaybeMatch
                | Mark::OpenParen
                | Mark::Subtract,
            ) => Refusal::at(Reason::Unsupported, tokens),
            _ => Refusal::misplaced(tokens),
        }
    }

    /// The refusal of `=`, which tokens begin with, behind what is no pattern: right of `!` Erlang has a match.
    pub(crate) fn no_pattern(left: &SyntaxTree, tokens: &[Spot]) -> Refusal
        ensures { IsToldOf tokens.now result }
    {
        match left {
            SyntaxTree::Node(Shape::Infix(Infix::Send), _) => {
                Refusal::at(Reason::Unsupported, tokens)
            }
            _ => Refusal::at(Reason::Syntax, tokens),
        }
    }

    /// The refusal of what should be a function's name.
    pub(crate) fn no_remote(tokens: &[Spot]) -> Refusal
        ensures { IsToldOf tokens.now result }
    {
        let Some(name) = tokens.first() else {
            return Refusal::at(Reason::Syntax, tokens);
        };
        match &name.what {
            Token::Integer(n) if *n > 9223372036854775807 => {
                Refusal::at(Reason::IntegerRange, tokens)
            }
            _ => Refusal::at(Reason::Unsupported, tokens),
        }
    }

    /// The refusal of tokens that begin with no leaf, where only a leaf could stand.
    pub(crate) fn too_deep(tokens: &[Spot]) -> Refusal
        ensures { IsToldOf tokens.now result }
    {
        let Some(first) = tokens.first() else {
            return Refusal::at(Reason::Syntax, tokens);
        };
        match &first.what {
            Token::Mark(Mark::OpenBrace | Mark::OpenBracket | Mark::OpenParen | Mark::Minus) => {
                Refusal::at(Reason::TooDeep, tokens)
            }
            Token::Word(Word::Not | Word::Begin | Word::Case) => {
                Refusal::at(Reason::TooDeep, tokens)
            }
            Token::Atom(_) | Token::Mark(Mark::Question) => Refusal::call_too_deep(tokens),
            _ => Refusal::at_start(tokens),
        }
    }

    /// The refusal of a call, at its bracket.
    fn call_too_deep(tokens: &[Spot]) -> Refusal
        ensures { IsToldOf tokens.now result }
    {
        let mut left = tokens;
        for _turn in 0..5 {
            let Some((first, rest)) = left.split_first() else {
                return Refusal::at_start(tokens);
            };
            match &first.what {
                Token::Mark(Mark::OpenParen) => return Refusal::at(Reason::TooDeep, left),
                Token::Dot => return Refusal::at_start(tokens),
                _ => left = rest,
            }
        }
        Refusal::at_start(tokens)
    }
}
