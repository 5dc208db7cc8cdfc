//! What is proved of modules as they are read, lowered and evaluated, taken together.
//!
//! The crate has no code. `erl_parse` says which module a source means, `erl_lower` that variables are numbered as they are
//! bound, and `erl_semantics` what comes of expressions. Each defines what it needs of scopes and numbers by a recursion of its
//! own. Here it is proved that these fit: evaluation of code that comes of sources finds at each point what the rules expect
//! there.
//!
//! # What is proved
//!
//! - Each module of a source is sound ([`sources_are_sound`]): variables are read where they are bound, each clause has as many
//!   patterns as its function has arguments, or as a `case` has subjects, each body has an expression, operations have as many
//!   operands as they are of, calls of the same module are of functions that it has, and in guards stand guard expressions
//!   alone.
//! - Evaluation of sound code is regular ([`evaluation_of_sources_is_regular`]): whatever call is made from outside of all
//!   modules, and whatever job is taken, each variable that is read has a value, and none of the rules is used that say what
//!   comes of what no source says (`bound_to` nothing, `Body.empty`, `no_operator`, `no_function`, `no_guard`), nor is a call
//!   of the same module ever `undef`.
//! - Of as many operands as an operation is of it never gives the `undef` that these rules give ([`operations_have_rules`]): so
//!   each has a rule of its own.
//!
//! # What it rules out
//!
//! One wrong recursion on scopes that reading, lowering and evaluation have in common. If what a clause binds were numbered
//! behind what another clause binds, or what the right side of `andalso` binds were bound behind the whole, each crate could be
//! proved by itself, and `undef` would come of a variable that Erlang has bound. And an operation that the grammar takes and no
//! rule of evaluation is for.
#![tactic(auto)]

ghost use Rattle.source_laws.specs.Laws.{CallsAreRegular, JobsAreRegular, SourcesAreSound};
ghost use Rattle.source_laws.specs.Rules.{FunctionsHaveRules, GuardOperatorsHaveRules, ListsHaveRules, NamingHasRules, OperatorsHaveRules};

/// Each module of a source is sound: variables are read where they are bound, and what stands in it is formed as the language
/// asks.
pub fn sources_are_sound()
    ensures { SourcesAreSound }
{}

/// In code that comes of sources each call from outside of all modules, and each job, is evaluated by the rules that speak of
/// sources: each variable that is read is bound, each body has an expression, each operation as many operands as it is of, and
/// each guard tests.
pub fn evaluation_of_sources_is_regular()
    ensures calls { CallsAreRegular }
    ensures jobs { JobsAreRegular }
{}

/// Each operation has a rule of its own: of as many operands as it is of it gives a value or a reason that is its own, and
/// never the `undef` of what no source says.
pub fn operations_have_rules()
    ensures operators { OperatorsHaveRules }
    ensures guards { GuardOperatorsHaveRules }
    ensures lists { ListsHaveRules }
    ensures functions { FunctionsHaveRules }
    ensures naming { NamingHasRules }
{}
