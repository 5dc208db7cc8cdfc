//! What evaluating a callback is: the rules, and that one outcome comes of them; and the values that it is about, jobs,
//! places, acts and outcomes. Whoever keeps processes stands on this, and not on the machine that evaluates.
//!
//! The definitions are in `specs`: what is evaluated and what it leaves behind (`State`), matching (`Matching`), operators and
//! functions that are built in (`Operators`, `BuiltIns`), guards and the selection of a clause (`Guards`), starting a process
//! (`Starting`), expressions (`Evaluation`), jobs and calls from outside (`Jobs`). What is a function of values or of the tree
//! is written as one; expressions, which call, are a relation: `Eval` has one constructor for each form, and the families
//! beside it one for each thing that may come of a part. `docs/EVALUATION.md` tells the rules in prose.
//!
//! # Which rule says what
//!
//! | Sentence | Constructor or function |
//! |---|---|
//! | A literal is its own value; a variable's is what it is bound to | `Eval.literal`, `Eval.variable`, `bound_to` |
//! | Operands are evaluated from left to right, before the operation; the first that ends, ends the whole | `Eval.apply`, `Operands`, `Others` |
//! | A tuple and a list are made of the values, within the limits | `Applied.tuple`, `Applied.list`, `made` |
//! | `[E1,..,En\|E]` needs a list behind the bar, else `not_in_profile` | `Applied.cons`, `consed` |
//! | `P = E` binds behind it, or is `{badmatch,V}` | `Eval.match`, `Bound`, `bound` |
//! | A bound variable compares, an unbound one is bound; `_` matches anything, a literal what is equal | `matched`, `matched_variable` |
//! | Tuples and lists match element by element, `[..\|P]` the rest too; `P1 = P2` matches what both match | `matched_each`, `matched_front`, `matched_all` |
//! | `begin B end` groups, and its bindings stay; a body gives its last value | `Eval.block`, `Body`, `Onward` |
//! | `case` takes the first clause whose pattern matches and whose guard is true, else `{case_clause,V}` | `Eval.case`, `Cased`, `selected`, `Taken` |
//! | What a clause binds is bound in it alone | `Taken.taken` |
//! | `andalso` and `orelse` evaluate the right side only where it is needed, in tail position; it may be anything, and binds nothing behind | `Eval.short_circuit`, `Decided`, `decisive` |
//! | A left side that is no boolean is `{badarg,V}` | `Decided.no_truth` |
//! | A guard sequence is true if one alternative is, an alternative if each test gives `true`; what fails is false, a breach of a limit too | `guarded`, `one_holds`, `all_hold`, `holds` |
//! | Calls in guards count, those of clauses that are passed over too | `tested`, `selected` (the number beside) |
//! | Arithmetic: `badarith` for other operands and a zero divisor; past 64 bits `system_limit`; `div` truncates toward zero, `rem` has the dividend's sign | `operated`, `arithmetic`, `divided` (of `int_div`, `int_rem`), `integer` |
//! | Guards have all operators but `++` and `!`, and some of the functions | `guard_operated`, `is_guard_bif`, `no_guard` |
//! | `not`, `and`, `or` want booleans (`badarg`); comparisons go by the order of terms | `operated`, `logical`, `compared` |
//! | `++`: the left is a list (`badarg`); behind `[]` anything stands as it is, else a list (`not_in_profile`) | `appended` |
//! | `Dest ! M` sends to a name or a process (`badarg`), and gives `M` | `operated`, `sends`, `receiver_of` |
//! | What each function that is built in gives and does, `self()`, `exit/1` and `error/1` among them | `given`, `does` |
//! | What is made is within the limits: tuples, lists, `++`, `setelement/3`, `lists:reverse/1`, errors of `start_link` | `made` in `Applied`, `consed`, `appended_to`, `made_or_badarg`, `reversed`, `linked_by` |
//! | A local call stays in its instance; a remote one goes to the current instance and an export (`undef`) | `Applied.local`, `Applied.remote`, `local_function`, `remote_function` |
//! | A call counts behind its arguments and before all else of it, one that is built in too; 10,000 are within the limits | `may_call`, `counted`, `Called.too_many`, `BuiltInCalled` |
//! | A call in tail position takes its caller's place; any other is one deeper, 200 are within the limits | `callee`, `may_nest`, `Entered.too_deep`, `loop_too_deep` |
//! | No clause takes the arguments: `function_clause` | `Entered.clauses`, `Taken.no_clause` |
//! | A loop function rests its process where that may rest here; its head is matched first (`function_clause`) | `Entered.loop`, `rested` |
//! | Every other call of a loop function is `not_in_profile` | `Entered.loop_elsewhere` |
//! | Starts and names: only in a start function; then the arguments; then whether it is the first | `asked`, `in_start_mode`, `first_start`, `register_in_mode` |
//! | A first argument of `start_link/4` that isn't `{local,Name}` is `not_in_profile` | `local_name`, `named_asked` |
//! | `register/2` names the process that is started, once | `register_in`, `registered_as` |
//! | What is spawned is evaluated to its rest; without one the start ends with its reason, or `normal` | `Started`, `spawned` |
//! | `init` gives `{ok,S}`, `ignore`, `{stop,R}`, `{error,R}` or another value; without `{ok,S}` nothing was started | `initialized`, `linked_by`, `unstarted` |
//! | What is started goes on with the counts, one deeper | `begun_by`, `first_activation` |
//! | The start and its name stand before the acts of what is started | `all_acts` |
//! | A call from outside needs an exported function (`undef`); both counts begin at 0 | `FromOutside`, `Evaluates`, `fresh`, `outermost` |
//! | `'$gen_call'` goes to `handle_call/3`, `'$gen_cast'` to `handle_cast/2`, all else to `handle_info/2` | `callback_of`, `arguments_of` |
//! | A callback that isn't exported is `undef`; a message without `handle_info/2` is dropped; without current code all are `undef` | `Handles.not_exported`, `unexported`, `GivesAt`, `nowhere` |
//! | A job's code begins with the instance that is entered; remote calls look among the others | `entered_in`, `reached_in`, `world_of` |
//! | What a callback's value means, else `{bad_return_value,V}`; its own reply is its last act | `answer_of`, `served` |
//! | A message selects the first clause of the `receive` that takes it; a value there ends the process with `normal` | `heard`, `Receives`, `looped` |
//! | A place takes every message in a callback module, in a loop function one that a clause takes | `accepts` |
//!
//! # What is proved
//!
//! [`operate`] gives what the rules say of an operator and the values of its operands ([`of_two`] of two), and
//! [`call_built_in`] of a function that is built in and its arguments, but of those that start or name a process; [`sends`]
//! and [`does`] give what they do. [`match_pattern`] tells whether a term matches a pattern, and binds what the rules say.
//! [`select`] selects the clause that the rules select, with what it binds, and counts the calls in guards; [`try_clause`]
//! tries one clause.
//!
//! By the rules one result and one state come of an expression ([`expressions_have_one_result`]), and one outcome of a job
//! and of a call from outside ([`evaluation_has_one_outcome`]). What a place accepts is what its callback or a clause of its
//! `receive` takes ([`messages_are_accepted_where_they_are_taken`]). They give what is expected of small modules
//! ([`rules_hold_of_examples`]).
//!
//! What the definitions give is also held against the manual's own words: `div` and `rem` divide integers, truncated toward zero
//! ([`quotients_are_truncated_toward_zero`]); an element is read where it was set, and the others are kept
//! ([`elements_are_read_where_they_are_set`]); `lists:reverse/1` gives the reverse order, and twice the list itself
//! ([`lists_are_reversed`]); `lists:member/2` tells whether a term is an element ([`members_are_elements`]); and a guard
//! expression gives what it gives elsewhere, and does nothing ([`guards_are_expressions`]).
//!
//! A call from outside never ends in a rest ([`calls_from_outside_never_rest`]). A job, and such a call in mode `plain`, starts
//! no process and names none; in mode `start` a call starts at most one, and its name stands right behind the start
//! ([`at_most_one_process_is_started`]). Where a process rests in a loop function behind a job, or behind its start, the code
//! that was given holds an instance of that name and serial ([`processes_rest_in_code_that_was_given`]).
//!
//! A [`Done`] is a job with what it gives (`GivesJob`): who makes one owes the proof, and the type keeps it. [`matches`] is
//! `accepts` of the rules: whether a process takes a message where it rests.
//!
//! [`Place`], [`Receiver`], [`Act`], [`Instance`], [`End`], [`Outcome`], [`Job`] and [`Done`] are compared and copied by
//! value; a copy shares its terms and its modules.
//!
//! # What no contract says
//!
//! That there is memory, and what a call costs: `tl` shares what it holds with its list; what makes a tuple or a list costs its
//! own elements, each by sharing, and the look at its depth and size costs the same whatever they are. Matching recurses as deep
//! as the pattern is nested, and a guard as deep as its expressions are.
#![tactic(auto)]

mod acts;
mod arity;
mod built_ins;
mod given;
mod guards;
mod instance;
mod jobs;
mod matching;
mod operators;
mod outcome;

ghost use Rattle.erl_semantics.specs.CallbackReturns.{ReturnsMeanOneThing};
ghost use Rattle.erl_semantics.specs.Laws.{OneResult, OneOutcome, OneJobOutcome};
ghost use Rattle.erl_semantics.specs.Laws.{ServersAcceptEach, LoopsAcceptWhatTheyHear, TakenWhereAccepted, RefusedGiveUndef};
ghost use Rattle.erl_semantics.specs.OperatorLaws.{QuotientAndRemainder, RemainderIsSmaller, RemainderHasTheSign, ZeroIsBadarith};
ghost use Rattle.erl_semantics.specs.OperatorLaws.{RemainderIsThere, QuotientIsThere, LeastByMinusOneIsPastTheLimits};
ghost use Rattle.erl_semantics.specs.OperatorLaws.{ElementsAreNumberedFromOne, NoOtherElements, SetElementReplaces};
ghost use Rattle.erl_semantics.specs.OperatorLaws.{SetElementIsRead, OtherElementsAreKept, TupleSizeIsKept};
ghost use Rattle.erl_semantics.specs.OperatorLaws.{SetElementFailsWhereElementDoes};
ghost use Rattle.erl_semantics.specs.OperatorLaws.{ReverseOrder, ReversedTwice, LengthIsKept, MembersAreElements};
ghost use Rattle.erl_semantics.specs.OperatorLaws.{GuardsAreExpressions, GuardValuesAreValues};
ghost use Rattle.erl_semantics.specs.OutcomeLaws.{CallsNeverRest, PlainCallsStartNothing, JobsStartNothing, CallsStartAtMostOne};
ghost use Rattle.erl_semantics.specs.OutcomeLaws.{JobsRestInTheirCode, CallsStartInTheirCode};
ghost use Rattle.erl_semantics.specs.Examples.{CallsAreAdded, ZeroDividesNothing, IntegersEnd, OneIsNoTruth, NoClauseFits};
ghost use Rattle.erl_semantics.specs.Examples.{GuardsThatFailAreFalse, VariablesCompare, OtherMessagesAreDropped, StartStandsBeforeItsActs};
ghost use Rattle.erl_semantics.specs.Examples.{SendsBeforeItsReply, RestsWithItsArguments, StartsWithAName};
ghost use Rattle.erl_semantics.specs.Examples.{StopsWithAReply, OddValueIsBad, RestsWithoutReply, StopsByItself};

pub use acts::{Act, Place, Receiver, does, reply_to, sends};
pub use arity::arity_of;
pub use built_ins::call_built_in;
pub use given::{Given, exit_by, exit_by_pair, made, truth_term};
pub use guards::{MOST_CALLS, Selected, Setting, decisive, select, try_clause};
pub use instance::{Instance, Mode};
pub use jobs::{Done, Heard, Job, hear, matches};
pub use matching::{bound, match_each, match_pattern};
pub use operators::{cons, of_two, operate, truth_of};
pub use outcome::{End, Outcome};

/// One result comes of an expression, and one state is left behind.
pub fn expressions_have_one_result()
    ensures { OneResult }
{}

/// One outcome comes of a call from outside of all modules, and one of a job.
pub fn evaluation_has_one_outcome()
    ensures call { OneOutcome }
    ensures job { OneJobOutcome }
{}

/// By the forms of gen_server(3) each value that a callback returns means one thing: what is replied, and where the process
/// rests or by which reason it ends; it is what a job gives.
pub fn returns_mean_one_thing()
    ensures { ReturnsMeanOneThing }
{}

/// A place accepts a message exactly where by the rules something takes it: in a callback module each message, and in a loop
/// function those that select a clause of its `receive`. A job whose message is accepted gives what that callback or that clause
/// gives, and nothing else; one whose message is not is `undef`, with no act.
pub fn messages_are_accepted_where_they_are_taken()
    ensures servers { ServersAcceptEach }
    ensures loops { LoopsAcceptWhatTheyHear }
    ensures taken { TakenWhereAccepted }
    ensures refused { RefusedGiveUndef }
{}

/// A call from outside of all modules ends in a value or an exit, whatever the mode: nothing rests there.
pub fn calls_from_outside_never_rest()
    ensures { CallsNeverRest }
{}

/// No process is started or named by a job, nor by a call from outside in mode `plain`; in any mode such a call starts at most
/// one. Its acts tell of it once, with the name right behind, if it has one; no name stands without a start.
pub fn at_most_one_process_is_started()
    ensures plain_calls { PlainCallsStartNothing }
    ensures jobs { JobsStartNothing }
    ensures calls { CallsStartAtMostOne }
{}

/// Where a process rests in a loop function behind a job, an instance of the job's code has the place's name and serial. The same
/// is so of the code of the world and the place of a process that a call from outside starts; a place in a callback module has
/// the name of such an instance.
pub fn processes_rest_in_code_that_was_given()
    ensures jobs { JobsRestInTheirCode }
    ensures calls { CallsStartInTheirCode }
{}

/// The rules give what the Reference Manual says of small modules: calls that are not in tail position, exits, guards, a send
/// and a reply, a rest, a message that is dropped, callbacks that stop or return what they may not, and processes that are
/// started and named.
pub fn rules_hold_of_examples()
    ensures calls { CallsAreAdded }
    ensures divides { ZeroDividesNothing }
    ensures ends { IntegersEnd }
    ensures no_truth { OneIsNoTruth }
    ensures fits_none { NoClauseFits }
    ensures rings { SendsBeforeItsReply }
    ensures loops { RestsWithItsArguments }
    ensures starts { StartsWithAName }
    ensures guards_fail { GuardsThatFailAreFalse }
    ensures compares { VariablesCompare }
    ensures drops { OtherMessagesAreDropped }
    ensures stands_before { StartStandsBeforeItsActs }
    ensures stops_with_reply { StopsWithAReply }
    ensures odd_is_bad { OddValueIsBad }
    ensures rests_silently { RestsWithoutReply }
    ensures stops_itself { StopsByItself }
{}

/// `div` and `rem` are integer division and its remainder (Erlang Reference Manual, Arithmetic Expressions): the quotient is
/// truncated toward zero, and the remainder has the dividend's sign. To divide by 0 is `badarith`; all other integers have a
/// remainder, and a quotient that is an integer, but for the least by -1, which is `system_limit`.
pub fn quotients_are_truncated_toward_zero()
    ensures whole { QuotientAndRemainder }
    ensures smaller { RemainderIsSmaller }
    ensures sign { RemainderHasTheSign }
    ensures by_zero { ZeroIsBadarith }
    ensures remainder { RemainderIsThere }
    ensures quotient { QuotientIsThere }
    ensures past { LeastByMinusOneIsPastTheLimits }
{}

/// `element/2` reads the elements of a tuple, which are numbered from 1, and `setelement/3` replaces one (erlang(3)): it is read
/// where it was set, all others are as they were, and the tuple is as large. There is no other element, to be read or replaced.
pub fn elements_are_read_where_they_are_set()
    ensures numbered { ElementsAreNumberedFromOne }
    ensures others { NoOtherElements }
    ensures replaces { SetElementReplaces }
    ensures read { SetElementIsRead }
    ensures kept { OtherElementsAreKept }
    ensures size { TupleSizeIsKept }
    ensures fails { SetElementFailsWhereElementDoes }
{}

/// `lists:reverse/1` gives the elements of a list in reverse order (lists(3)), so that a list reversed twice is itself; and a
/// list is as long as before.
pub fn lists_are_reversed()
    ensures order { ReverseOrder }
    ensures twice { ReversedTwice }
    ensures length { LengthIsKept }
{}

/// `lists:member/2` gives `true` exactly where the term is one of the list's elements, and else `false` (lists(3)).
pub fn members_are_elements()
    ensures { MembersAreElements }
{}

/// A guard expression gives as a test just what comes of it where it is evaluated, and does nothing (Erlang Reference Manual,
/// Guard Sequences): it leaves behind no more than the calls that it made. The same is so of whatever gives a value as a test.
pub fn guards_are_expressions()
    ensures expressions { GuardsAreExpressions }
    ensures values { GuardValuesAreValues }
{}
