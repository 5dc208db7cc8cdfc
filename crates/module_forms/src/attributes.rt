// Attributes of a module.
ghost use Rattle.std.specs.Prelude.{◌≡◌, ℕ, false, ◌≤◌, length, IfNone, IfOk, IfSome, MatchOption, MatchResult, Some, None};
ghost use Rattle.std.specs.Bool.{OnFalse};
ghost use Rattle.erl_ast.specs.Forms.{Attribute, attribute as attribute_in, is_term as is_term_in, are_terms as are_terms_in};
ghost use Rattle.erl_ast.specs.Forms.{ends_with_list as ends_with_list_in, is_list as is_list_in, after_dot as after_dot_in, is_dot as is_dot_in};
ghost use Rattle.erl_ast.specs.Terminal.{terminals, terminal_at};
ghost use Rattle.erl_ast.specs.TreeForms.{tree as tree_of, trees as trees_of};
ghost use Rattle.erl_expressions.specs.Delimiters.{after as after_in};
ghost use Rattle.erl_expressions.specs.Refusing.{Leaves, IsToldOf, from_dot, ends_form, begins_with_dot};
ghost use Rattle.module_forms.specs.FormReading.{entry as entry_in, some_entries as some_entries_in, entries_by};
ghost use Rattle.module_forms.specs.FormReading.{exported as exported_in, versioned as versioned_in, version_form as version_in};
ghost use Rattle.module_forms.specs.FormReading.{arity_ahead as arity_in, closed_entries as closed_entries_in};
ghost use Rattle.erl_expressions.specs.declared.delimiter.Delimiter.TheVariants.{CloseBracket as close_bracket};

use crate::opening::Opening;
use crate::tokens::{closed_form, expected, named_ahead};
use erl_ast::{Exported, FormTree, Leaf, Named, Shape, SyntaxTree, SyntaxTrees};
use erl_expressions::{Delimiter, Reading, Reason, Refusal, after, read_pattern};
use erl_scan::{Mark, Spot, Token, Word};
use std::alloc::Global;
use values::Row;

/// How many arguments a function has, by the integer that tokens begin with.
fn arity_ahead<'a>(function: Named, tokens: &'a [Spot]) -> Result<(Exported, &'a [Spot]), Refusal>
    ensures read { MatchResult result
        (λ f. arity_in function (terminals tokens.now) ≡ Some (f.0, terminals f.1.now))
        (λ _. arity_in function (terminals tokens.now) ≡ None) }
    ensures told { MatchResult result (λ f. Leaves tokens.now f.1.now) (λ r. IsToldOf tokens.now r) }
{
    let Some((first, rest)) = tokens.split_first() else {
        return Err(Refusal::at(Reason::Syntax, tokens));
    };
    match &first.what {
        Token::Integer(n) => {
            if *n <= 9223372036854775807 {
                Ok((
                    Exported {
                        function,
                        arity: *n,
                    },
                    rest,
                ))
            } else {
                Err(Refusal::at(Reason::IntegerRange, tokens))
            }
        }
        Token::Float => Err(Refusal::at(Reason::Unsupported, tokens)),
        _ => Err(Refusal::at(Reason::Syntax, tokens)),
    }
}

/// An entry `F/A` of `-export`.
#[tactic(auto, unfolding(crate::specs::FormReading::entry))]
fn entry<'a>(tokens: &'a [Spot]) -> Reading<'a, Exported>
    ensures read { IfOk result (λ answer. MatchResult answer
        (λ f. entry_in (terminals tokens.now) ≡ Some (f.0, terminals f.1.now))
        (λ _. entry_in (terminals tokens.now) ≡ None)) }
    ensures told { IfOk result (λ answer. MatchResult answer (λ f. Leaves tokens.now f.1.now) (λ r. IsToldOf tokens.now r)) }
{
    let (function, rest) = match named_ahead(tokens)? {
        Ok(found) => found,
        Err(refusal) => return Ok(Err(refusal)),
    };
    match expected(Opening::Slash, rest) {
        Ok(behind) => Ok(arity_ahead(function, behind)),
        Err(refusal) => Ok(Err(refusal)),
    }
}

/// Entries with commas between them, and the bracket behind them.
#[tactic(auto, using(crate::proofs::Rows::entries_begin, crate::proofs::Rows::entries_more, crate::proofs::Rows::entries_last, crate::proofs::Rows::entries_not, crate::proofs::Rows::entries_out))]
fn some_entries<'a>(alloc: Global, tokens: &'a [Spot]) -> Reading<'a, Row<Exported>>
    ensures read { IfOk result (λ answer. MatchResult answer
        (λ f. some_entries_in (terminals tokens.now) ≡ Some (f.0, terminals f.1.now))
        (λ _. some_entries_in (terminals tokens.now) ≡ None)) }
    ensures told { IfOk result (λ answer. MatchResult answer (λ f. Leaves tokens.now f.1.now) (λ r. IsToldOf tokens.now r)) }
{
    let mut entries = Vec::new(alloc);
    let mut left = tokens;
    for _turn in 0..tokens.len() {
        let rest = match entry(left)? {
            Ok((it, rest)) => {
                entries.push(it)?;
                rest
            }
            Err(refusal) => return Ok(Err(refusal)),
        };
        match after(Delimiter::Comma, rest) {
            Some(behind) => left = behind,
            None => return Ok(closed_entries(entries, rest)),
        }
    }
    Ok(Err(Refusal::at(Reason::Syntax, left)))
}

/// Entries, where the bracket stands behind them.
fn closed_entries<'a>(
    entries: Vec<Exported>,
    tokens: &'a [Spot],
) -> Result<(Row<Exported>, &'a [Spot]), Refusal>
    ensures read { MatchResult result
        (λ f. closed_entries_in entries.items (terminals tokens.now) ≡ Some (f.0, terminals f.1.now))
        (λ _. closed_entries_in entries.items (terminals tokens.now) ≡ None) }
    ensures told { MatchResult result (λ f. Leaves tokens.now f.1.now) (λ r. IsToldOf tokens.now r) }
{
    match after(Delimiter::CloseBracket, tokens) {
        Some(rest) => Ok((Row::new(entries), rest)),
        None => Err(Refusal::misplaced(tokens)),
    }
}

/// Entries up to the bracket behind them, which may be none.
fn entries<'a>(alloc: Global, tokens: &'a [Spot]) -> Reading<'a, Row<Exported>>
    ensures read { IfOk result (λ answer. MatchResult answer
        (λ f. entries_by (after_in close_bracket (terminals tokens.now)) (terminals tokens.now) ≡ Some (f.0, terminals f.1.now))
        (λ _. entries_by (after_in close_bracket (terminals tokens.now)) (terminals tokens.now) ≡ None)) }
    ensures told { IfOk result (λ answer. MatchResult answer (λ f. Leaves tokens.now f.1.now) (λ r. IsToldOf tokens.now r)) }
{
    match after(Delimiter::CloseBracket, tokens) {
        Some(rest) => Ok(Ok((Row::new(Vec::new(alloc)), rest))),
        None => some_entries(alloc, tokens),
    }
}

/// `-export`, behind its name.
#[tactic(auto, unfolding(crate::specs::FormReading::exported))]
pub(crate) fn exported<'a>(alloc: Global, tokens: &'a [Spot]) -> Reading<'a, FormTree>
    ensures read { IfOk result (λ answer. MatchResult answer
        (λ f. exported_in (terminals tokens.now) ≡ Some (f.0, terminals f.1.now))
        (λ _. exported_in (terminals tokens.now) ≡ None)) }
    ensures told { IfOk result (λ answer. MatchResult answer
        (λ f. length f.1.now ≤ length tokens.now)
        (λ r. IsToldOf tokens.now r)) }
{
    let open = match expected(Opening::OpenParen, tokens) {
        Ok(rest) => rest,
        Err(refusal) => return Ok(Err(refusal)),
    };
    let bracket = match expected(Opening::OpenBracket, open) {
        Ok(rest) => rest,
        Err(refusal) => return Ok(Err(refusal)),
    };
    let (listed, rest) = match entries(alloc, bracket)? {
        Ok(found) => found,
        Err(refusal) => return Ok(Err(refusal)),
    };
    match closed_form(rest) {
        Ok(behind) => Ok(Ok((FormTree::Export(listed), behind))),
        Err(refusal) => Ok(Err(refusal)),
    }
}

/// `-vsn`, behind its name.
#[tactic(auto, unfolding(crate::specs::FormReading::versioned))]
pub(crate) fn versioned<'a>(alloc: Global, tokens: &'a [Spot]) -> Reading<'a, FormTree>
    ensures read { IfOk result (λ answer. MatchResult answer
        (λ f. versioned_in (terminals tokens.now) ≡ Some (f.0, terminals f.1.now))
        (λ _. versioned_in (terminals tokens.now) ≡ None)) }
    ensures told { IfOk result (λ answer. MatchResult answer
        (λ f. length f.1.now ≤ length tokens.now)
        (λ r. IsToldOf tokens.now r)) }
{
    let open = match expected(Opening::OpenParen, tokens) {
        Ok(rest) => rest,
        Err(refusal) => return Ok(Err(refusal)),
    };
    let (tree, rest) = match read_pattern(alloc, 256, open)? {
        Ok(found) => found,
        Err(refusal) => return Ok(Err(no_term(open, refusal))),
    };
    if !is_term(&tree) {
        return Ok(Err(no_term(open, Refusal::behind(rest))));
    }
    match closed_form(rest) {
        Ok(behind) => {
            let mut row = Vec::with_capacity(alloc, 1)?;
            row.push(tree)?;
            Ok(Ok((FormTree::Version(SyntaxTrees::new(row)), behind)))
        }
        Err(refusal) => Ok(Err(refusal)),
    }
}

/// The refusal of what should be a term, where something is refused there anyway: the first token is told that no term has, or
/// the bar before what is no list.
#[tactic(auto, using(erl_expressions::proofs::Dots::from_dot_most))]
fn no_term(tokens: &[Spot], refusal: Refusal) -> Refusal
    requires { IsToldOf tokens.now refusal }
    ensures { IsToldOf tokens.now result }
{
    let mut before = tokens;
    let mut left = tokens;
    for _turn in 0..tokens.len() {
        if left.len() < refusal.left {
            return refusal;
        }
        if let Some(fault) = fault_in_term(before, left) {
            return fault;
        }
        before = left;
        left = behind_first(left);
    }
    refusal
}

/// The refusal of the token that some begin with in a term, where those from the token before it on are given too.
fn fault_in_term(before: &[Spot], tokens: &[Spot]) -> Option<Refusal>
    requires { length tokens.now ≤ length before.now }
    ensures told { IfSome result (λ r. (length tokens.now ≤ r.left) × (r.left ≤ length before.now)) }
    ensures none { IfNone result (begins_with_dot tokens.now ≡ false) }
{
    let first = tokens.first()?;
    match (&first.what, is_bar(before)) {
        (Token::String(_) | Token::Mark(Mark::OpenBracket), _) => None,
        (
            Token::Integer(_)
            | Token::Atom(_)
            | Token::Mark(
                Mark::OpenBrace
                | Mark::CloseBrace
                | Mark::CloseBracket
                | Mark::Comma
                | Mark::Bar
                | Mark::Plus
                | Mark::Minus,
            ),
            false,
        ) => None,
        (Token::Integer(_) | Token::Atom(_), true) => Some(Refusal::at(
            Reason::Unsupported,
            before,
        )),
        (Token::Mark(Mark::OpenBrace | Mark::Plus | Mark::Minus), true) => {
            Some(Refusal::at(Reason::Unsupported, before))
        }
        (Token::Float | Token::Word(Word::Fun), _)
        | (Token::Mark(Mark::OpenBinary | Mark::Hash), _) => {
            Some(Refusal::at(Reason::Unsupported, tokens))
        }
        (_, _) => Some(Refusal::at(Reason::Syntax, tokens)),
    }
}

/// Whether tokens begin with a bar.
fn is_bar(tokens: &[Spot]) -> bool {
    match tokens.first() {
        Some(first) => matches!(first.what, Token::Mark(Mark::Bar)),
        None => false,
    }
}

/// The tokens behind the first.
fn behind_first(tokens: &[Spot]) -> &[Spot]
    ensures { begins_with_dot tokens.now ≡ false → Leaves tokens.now result.now }
{
    match tokens.split_first() {
        Some((_, rest)) => rest,
        None => tokens,
    }
}

/// Whether a tree is a term as it is written.
#[cycle(term)]
fn is_term(tree: &SyntaxTree) -> bool
    ensures { result ≡ is_term_in (tree_of tree.now) }
{
    match tree {
        SyntaxTree::Leaf(Leaf::Variable(_, _) | Leaf::ModuleName(_)) => false,
        SyntaxTree::Leaf(_) => true,
        SyntaxTree::Node(Shape::Tuple | Shape::List, parts) => are_terms(parts.as_slice()),
        SyntaxTree::Node(Shape::Cons, parts) => {
            are_terms(parts.as_slice()) && ends_with_list(parts.as_slice())
        }
        SyntaxTree::Node(_, _) => false,
        SyntaxTree::Case(_, _) => false,
    }
}

/// Whether trees are terms as they are written.
#[cycle(term)]
fn are_terms(parts: &[SyntaxTree]) -> bool
    ensures { result ≡ are_terms_in (trees_of parts.now) }
{
    for part in parts {
        if !is_term(part) {
            return false;
        }
    }
    true
}

/// Whether the last of some trees is a list as it is written.
#[tactic(auto, using(crate::proofs::Terms::list_more, crate::proofs::Terms::list_end))]
fn ends_with_list(parts: &[SyntaxTree]) -> bool
    ensures { result ≡ ends_with_list_in (trees_of parts.now) }
{
    let mut ends = true;
    for part in parts {
        ends = is_list(part);
    }
    ends
}

/// Whether a tree is a list as it is written.
fn is_list(tree: &SyntaxTree) -> bool
    ensures { result ≡ is_list_in (tree_of tree.now) }
{
    matches!(
        tree,
        SyntaxTree::Leaf(Leaf::Strings(_)) | SyntaxTree::Node(Shape::List | Shape::Cons, _)
    )
}

/// The tokens behind the next dot.
#[tactic(auto, using(erl_expressions::proofs::Dots::from_dot_most))]
pub(crate) fn after_dot<'a>(tokens: &'a [Spot]) -> Option<&'a [Spot]>
    ensures is { MatchOption result (after_dot_in (terminals tokens.now) ≡ None)
        (λ rest. after_dot_in (terminals tokens.now) ≡ Some (terminals rest.now)) }
    ensures told { MatchOption result (from_dot tokens.now ≡ 0) (λ rest. length rest.now ≤ length tokens.now) }
{
    let mut left = tokens;
    for _turn in 0..tokens.len() {
        let (first, rest) = left.split_first()?;
        if is_dot(&first.what) {
            return Some(rest);
        }
        left = rest;
    }
    None
}

/// Whether a token is a dot.
fn is_dot(token: &Token) -> bool
    ensures is { (at : ℕ) → result ≡ is_dot_in (terminal_at token.now at) }
    ensures dot { OnFalse result (ends_form token.now ≡ false) }
{
    matches!(token, Token::Dot)
}
