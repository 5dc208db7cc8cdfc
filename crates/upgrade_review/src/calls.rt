// Calls that nobody answers.
ghost use Rattle.std.specs.Prelude.{◌≡◌, ◌↔◌, ◌≤◌, ◌<◌, ◌+◌, ◌-◌, ◌&&◌, ◌||◌, not, true, ℕ, length, take, Contains, IfOk, IsTrue, OnOk};
ghost use Rattle.std.specs.List.{list_any};
ghost use Rattle.std.specs.Option.{option_copied};
ghost use Rattle.erl_ir.specs.Module.{key_eq};
ghost use Rattle.upgrade_review.specs.Calls.{AppliesNobodyAt, AppliesNobodyBy, Begins, IsOfUpgrade, IsOutside, IsOutsideCall};
ghost use Rattle.upgrade_review.specs.Calls.{IsOutsideOf, IsUnansweredCall, IsUnansweredIn, IsUnansweredOf, IsWindow};
ghost use Rattle.upgrade_review.specs.Calls.{IsWindowFinding, IsWindowFrom, LeavesUnanswered, answers, applied_by, current_after};
ghost use Rattle.upgrade_review.specs.Calls.{current_by, holds_at, interface_in, is_call, is_known, is_unanswered, makes};
ghost use Rattle.upgrade_review.specs.Calls.{IsAsking, IsAskingKey, IsAskingOf, function_in, is_down, is_idle, is_on_each_node, is_supervisor_start};
ghost use Rattle.upgrade_review.specs.Calls.{of_current};
ghost use Rattle.upgrade_review.specs.Findings.{AreDifferent};
ghost use Rattle.upgrade_review.specs.Gathering.{Adds, FromEach};
ghost use Rattle.upgrade_review.specs.declared.calls.Current.TheVariants.{Left};
ghost use Rattle.upgrade_review.specs.declared.finding.Finding.{Finding};

use crate::finding::Finding;
use crate::gathering::note;
use crate::interface::{Call, Interface, is_server_call};
use crate::scripts::{is_started, is_stopped};
use crate::suspended::has_suspended;
use erl_term::Atom;
use low_instructions::{Direction, Low};
use std::alloc::{AllocError, Global};
use values::Duplicate;

/// Which code of a module is current.
#[derive(Clone, Copy, Drop)]
pub enum Current {
    /// That of the release that is left.
    Left,
    /// That of the release that is installed.
    Installed,
    /// None.
    Removed,
}

/// A script that leads from a release to another one, which it installs, with the interfaces of their modules.
#[derive(Clone, Copy)]
pub struct Passage<'a> {
    /// Whether it leads up.
    pub way: Direction,
    /// The interfaces of the modules of the release that is left.
    pub left: &'a [Interface],
    /// Those of the release that is installed.
    pub installed: &'a [Interface],
    /// The script.
    pub script: &'a [Low],
}

/// Returns the calls that nobody answers while a script runs, and those of the script itself, each once. A call of a module is
/// returned for each window of points at which nobody answers it. The modules of the release that is left come first, then those
/// of the release that is installed.
///
/// # Errors
///
/// `AllocError` if an allocation fails.
pub fn look_at_calls(alloc: Global, passage: Passage<'_>) -> Result<Vec<Finding>, AllocError>
    ensures found { let p = passage.entry in IfOk result (λ found. (f : Finding) → Contains found.items f ↔
        LeavesUnanswered p.way p.left.now p.installed.now p.script.now f) }
    ensures once { IfOk result (λ found. AreDifferent found.items) }
{
    let mut found = Vec::new(alloc);
    note_callers(alloc, passage, passage.left, &mut found)?;
    note_callers(alloc, passage, passage.installed, &mut found)?;
    note_applies(alloc, passage, &mut found)?;
    Ok(found)
}

/// Returns the calls of the modules of the release that is installed to modules that neither release has, each once.
///
/// # Errors
///
/// `AllocError` if an allocation fails.
pub fn look_outside(
    alloc: Global,
    left: &[Interface],
    installed: &[Interface],
) -> Result<Vec<Finding>, AllocError>
    ensures found { IfOk result (λ found. (f : Finding) → Contains found.items f ↔ IsOutside left.now installed.now f) }
    ensures once { IfOk result (λ found. AreDifferent found.items) }
{
    let mut found = Vec::new(alloc);
    for caller in installed {
        note_outside_of(alloc, left, installed, caller, &mut found)?;
    }
    Ok(found)
}

/// Notes the calls that a module makes to modules that neither release has.
fn note_outside_of(
    alloc: Global,
    left: &[Interface],
    installed: &[Interface],
    caller: &Interface,
    found: &mut Vec<Finding>,
) -> Result<(), AllocError>
    ensures { OnOk result (Adds (IsOutsideOf left.now installed.now caller.now) found.old.items found.new.items) }
{
    let calls = caller.calls.as_slice();
    for call in calls {
        note_outside(alloc, left, installed, &caller.name, call, found)?;
    }
    Ok(())
}

/// Notes a call if neither release has the module that it calls.
fn note_outside(
    alloc: Global,
    left: &[Interface],
    installed: &[Interface],
    caller: &Atom,
    call: &Call,
    found: &mut Vec<Finding>,
) -> Result<(), AllocError>
    ensures { OnOk result (Adds (IsOutsideCall left.now installed.now caller.now call.now) found.old.items found.new.items) }
{
    if is_known(left, installed, &call.module) {
        return Ok(());
    }
    if is_on_each_node(call) {
        return Ok(());
    }
    let caller = caller.copy(alloc)?;
    let call = call.copy(alloc)?;
    note(found, Finding::CallsOutside { caller, call })
}

/// Returns whether each node answers a call.
fn is_on_each_node(call: &Call) -> bool
    ensures { result ≡ is_on_each_node call.now }
{
    is_supervisor_start(call) || is_server_call(call)
}

/// Returns whether a call starts a supervisor.
fn is_supervisor_start(call: &Call) -> bool
    ensures { result ≡ is_supervisor_start call.now }
{
    call.module.is("supervisor") && call.function.is("start_link")
}

/// Returns the functions of the modules of the release that is installed that serve a process and call `gen_server:call`, each
/// once. `installed` are the interfaces of these modules.
///
/// # Errors
///
/// `AllocError` if an allocation fails.
pub fn look_inside(alloc: Global, installed: &[Interface]) -> Result<Vec<Finding>, AllocError>
    ensures found { IfOk result (λ found. (f : Finding) → Contains found.items f ↔ IsAsking installed.now f) }
    ensures once { IfOk result (λ found. AreDifferent found.items) }
{
    let mut found = Vec::new(alloc);
    for server in installed {
        note_asking_of(alloc, server, &mut found)?;
    }
    Ok(found)
}

/// Notes the functions of a module that serve a process and call `gen_server:call`.
fn note_asking_of(
    alloc: Global,
    server: &Interface,
    found: &mut Vec<Finding>,
) -> Result<(), AllocError>
    ensures { OnOk result (Adds (IsAskingOf server.now) found.old.items found.new.items) }
{
    let asking = server.asking.as_slice();
    for key in asking {
        note_asking(alloc, &server.name, key, found)?;
    }
    Ok(())
}

/// Notes a function that serves a process and calls `gen_server:call`.
fn note_asking(
    alloc: Global,
    module: &Atom,
    key: &(Atom, u32),
    found: &mut Vec<Finding>,
) -> Result<(), AllocError>
    ensures { OnOk result (Adds (IsAskingKey module.now key.now) found.old.items found.new.items) }
{
    let callback = function_in(alloc, module, key)?;
    note(found, Finding::CallsInCallback { callback })
}

/// Returns a function of a module, as a call of it.
fn function_in(alloc: Global, module: &Atom, key: &(Atom, u32)) -> Result<Call, AllocError>
    ensures { IfOk result (λ it. it ≡ function_in «module».now key.now) }
{
    Ok(Call {
        module: module.copy(alloc)?,
        function: key.0.copy(alloc)?,
        arity: key.1 as usize,
    })
}

/// Notes the calls of some modules that nobody answers.
fn note_callers(
    alloc: Global,
    passage: Passage<'_>,
    callers: &[Interface],
    found: &mut Vec<Finding>,
) -> Result<(), AllocError>
    ensures { let p = passage.entry in OnOk result (Adds
        (IsUnansweredIn p.way p.left.now p.installed.now p.script.now callers.now) found.old.items found.new.items) }
{
    for caller in callers {
        note_caller(alloc, passage, caller, found)?;
    }
    Ok(())
}

/// Notes the calls of a module that nobody answers.
fn note_caller(
    alloc: Global,
    passage: Passage<'_>,
    caller: &Interface,
    found: &mut Vec<Finding>,
) -> Result<(), AllocError>
    ensures { let p = passage.entry in OnOk result (Adds
        (IsUnansweredOf p.way p.left.now p.installed.now p.script.now caller.now) found.old.items found.new.items) }
{
    let calls = caller.calls.as_slice();
    for call in calls {
        note_call(alloc, passage, caller, call, found)?;
    }
    Ok(())
}

/// Notes the windows in which nobody answers a call of a module, if a release has the module that it calls.
fn note_call(
    alloc: Global,
    passage: Passage<'_>,
    caller: &Interface,
    call: &Call,
    found: &mut Vec<Finding>,
) -> Result<(), AllocError>
    ensures { let p = passage.entry in OnOk result (Adds (IsUnansweredCall p.way p.left.now p.installed.now p.script.now
        caller.now.application caller.now.name call.now) found.old.items found.new.items) }
{
    if !is_known(passage.left, passage.installed, &call.module) {
        return Ok(());
    }
    let unanswered = unanswered_points(alloc, passage, &caller.name, call)?;
    let points = unless_idle(alloc, passage.script, caller, unanswered.as_slice())?;
    note_windows(
        alloc,
        passage.way,
        points.as_slice(),
        &caller.name,
        call,
        found,
    )
}

/// Returns for each point of a script whether something holds there and a process may make calls of a module.
fn unless_idle(
    alloc: Global,
    script: &[Low],
    caller: &Interface,
    points: &[bool],
) -> Result<Vec<bool>, AllocError>
    requires { length points.now ≡ length script.now + 1 }
    ensures count { IfOk result (λ found. length found.items ≡ length script.now + 1) }
    ensures points { IfOk result (λ found. (i : ℕ) → i ≤ length script.now → holds_at found.items i ≡
        (holds_at points.now i && not (is_idle caller.now.application caller.now.name script.now i))) }
{
    let mut found = Vec::new(alloc);
    for point in 0..points.len() {
        found.push(holds_unless_idle(script, caller, points, point))?;
    }
    Ok(found)
}

/// Returns whether something holds at a point and a process may make calls of a module there.
fn holds_unless_idle(script: &[Low], caller: &Interface, points: &[bool], point: usize) -> bool
    requires count { length points.now ≡ length script.now + 1 }
    requires within { point < length points.now }
    ensures { result ≡ (holds_at points.now point && not (is_idle caller.now.application caller.now.name script.now point)) }
{
    points[point] && !is_idle(script, caller, point)
}

/// Returns whether no process makes calls of a module at a point of a script, because the script keeps its processes suspended
/// or its application down.
fn is_idle(script: &[Low], caller: &Interface, point: usize) -> bool
    requires { point ≤ length script.now }
    ensures { result ≡ is_idle caller.now.application caller.now.name script.now point }
{
    has_suspended(&script[..point], &caller.name) || is_down(&script[point..], &caller.application)
}

/// Returns whether an application is down until a later instruction starts it.
fn is_down(later: &[Low], application: &Atom) -> bool
    ensures { result ≡ is_down application.now later.now }
{
    is_started(later, application) && !is_stopped(later, application)
}

/// Returns for each point of a script whether nobody answers a call of a module there.
fn unanswered_points(
    alloc: Global,
    passage: Passage<'_>,
    caller: &Atom,
    call: &Call,
) -> Result<Vec<bool>, AllocError>
    ensures count { IfOk result (λ points. length points.items ≡ length passage.entry.script.now + 1) }
    ensures points { let p = passage.entry in IfOk result (λ points. (i : ℕ) → i ≤ length p.script.now →
        holds_at points.items i ≡ is_unanswered p.left.now p.installed.now caller.now call.now (take i p.script.now)) }
{
    let made = made_by(passage, caller, call);
    let answered = answered_by(passage, call);
    let mut caller_code = Current::Left;
    let mut called_code = Current::Left;
    let script = passage.script;
    let mut points = Vec::new(alloc);
    points.push(is_unanswered(made, answered, caller_code, called_code))?;
    for low in script {
        caller_code = current_after(caller_code, low, caller);
        called_code = current_after(called_code, low, &call.module);
        points.push(is_unanswered(made, answered, caller_code, called_code))?;
    }
    Ok(points)
}

/// Returns whether nobody answers a call, given which codes make it, which codes answer it, and the current codes of both
/// modules.
fn is_unanswered(made: OfCode, answered: OfCode, caller_code: Current, called_code: Current) -> bool
    ensures { result ≡ (of_current caller_code made.left made.installed
        && not (of_current called_code answered.left answered.installed)) }
{
    made.at(caller_code) && !answered.at(called_code)
}

/// Whether something holds for each code of a module; it doesn't hold if there is no code.
#[derive(Clone, Copy, Drop)]
struct OfCode {
    /// Whether it holds for the code in the release that is left.
    left: bool,
    /// Whether it holds for the code in the release that is installed.
    installed: bool,
}

impl OfCode {
    /// Returns whether it holds for the current code.
    fn at(self, current: Current) -> bool
        ensures { result ≡ of_current current self.left self.installed }
    {
        match current {
            Current::Left => self.left,
            Current::Installed => self.installed,
            Current::Removed => false,
        }
    }
}

/// Returns for each code of a module whether it makes a call.
fn made_by(passage: Passage<'_>, caller: &Atom, call: &Call) -> OfCode
    ensures left { result.left ≡ makes call.now (interface_in caller.now passage.entry.left.now) }
    ensures installed { result.installed ≡ makes call.now (interface_in caller.now passage.entry.installed.now) }
{
    OfCode {
        left: makes(interface_in(passage.left, caller), call),
        installed: makes(interface_in(passage.installed, caller), call),
    }
}

/// Returns for each code of the called module whether it answers a call.
fn answered_by(passage: Passage<'_>, call: &Call) -> OfCode
    ensures left { result.left ≡ answers call.now (interface_in call.now.«module» passage.entry.left.now) }
    ensures installed { result.installed ≡ answers call.now (interface_in call.now.«module» passage.entry.installed.now) }
{
    OfCode {
        left: answers(interface_in(passage.left, &call.module), call),
        installed: answers(interface_in(passage.installed, &call.module), call),
    }
}

/// Returns the interface of a module of a release, if the release has the module.
fn interface_in<'a>(interfaces: &'a [Interface], name: &Atom) -> Option<&'a Interface>
    ensures { option_copied result ≡ interface_in name.now interfaces.now }
{
    interfaces.iter().find(|interface| interface.name == *name)
}

/// Returns whether one of two releases has a module.
fn is_known(left: &[Interface], installed: &[Interface], name: &Atom) -> bool
    ensures { result ≡ is_known name.now left.now installed.now }
{
    interface_in(left, name).is_some() || interface_in(installed, name).is_some()
}

/// Returns whether two calls are the same.
fn is_call(one: &Call, other: &Call) -> bool
    ensures { result ≡ is_call one.now other.now }
{
    one.module == other.module && one.function == other.function && one.arity == other.arity
}

/// Returns whether a call is among these.
fn is_among(calls: &[Call], call: &Call) -> bool
    ensures { result ≡ list_any (is_call call.now) calls.now }
{
    calls.iter().any(|made| is_call(call, made))
}

/// Returns whether code makes a call.
fn makes(code: Option<&Interface>, call: &Call) -> bool
    ensures { result ≡ makes call.now (option_copied code.entry) }
{
    match code {
        Some(interface) => is_among(interface.calls.as_slice(), call),
        None => false,
    }
}

/// Returns whether code answers a call: it exports the function.
fn answers(code: Option<&Interface>, call: &Call) -> bool
    ensures { result ≡ answers call.now (option_copied code.entry) }
{
    match code {
        Some(interface) => exports(interface.exports.as_slice(), call),
        None => false,
    }
}

/// Returns whether the function of a call is among these.
fn exports(exported: &[(Atom, u32)], call: &Call) -> bool
    ensures { result ≡ list_any (key_eq (call.now.function, call.now.arity)) exported.now }
{
    exported.iter().any(|key| call.function == key.0 && call.arity == key.1 as usize)
}

/// Returns which code of a module is current after an instruction, given which was current before it.
fn current_after(current: Current, low: &Low, name: &Atom) -> Current
    ensures { result ≡ current_after name.now current low.now }
{
    match low {
        Low::Load { name: it, .. } => {
            if *it == *name {
                Current::Installed
            } else {
                current
            }
        }
        Low::Remove { name: it, .. } => {
            if *it == *name {
                Current::Removed
            } else {
                current
            }
        }
        _ => current,
    }
}

/// Notes the windows of points at which nobody answers a call.
fn note_windows(
    alloc: Global,
    way: Direction,
    points: &[bool],
    caller: &Atom,
    call: &Call,
    found: &mut Vec<Finding>,
) -> Result<(), AllocError>
    requires { 0 < length points.now }
    ensures { OnOk result (Adds (IsWindowFinding way (holds_at points.now) (length points.now - 1) caller.now call.now)
        found.old.items found.new.items) }
{
    for from in 0..points.len() {
        note_from(alloc, way, points, from, caller, call, found)?;
    }
    Ok(())
}

/// Notes the window that begins at a point, if one begins there and the upgrade has a part in it.
fn note_from(
    alloc: Global,
    way: Direction,
    points: &[bool],
    from: usize,
    caller: &Atom,
    call: &Call,
    found: &mut Vec<Finding>,
) -> Result<(), AllocError>
    requires { from < length points.now }
    ensures { OnOk result (Adds (IsWindowFrom way (holds_at points.now) (length points.now - 1) from caller.now call.now)
        found.old.items found.new.items) }
{
    if begins(points, from) {
        note_window(alloc, way, points, from, caller, call, found)
    } else {
        Ok(())
    }
}

/// Returns whether a window begins at a point.
fn begins(points: &[bool], from: usize) -> bool
    requires { from < length points.now }
    ensures { IsTrue result ↔ ((holds_at points.now from ≡ true) × Begins (holds_at points.now) from) }
{
    points[from] && (from == 0 || !points[from - 1])
}

/// Notes the window that begins at a point, unless the upgrade has no part in it.
fn note_window(
    alloc: Global,
    way: Direction,
    points: &[bool],
    from: usize,
    caller: &Atom,
    call: &Call,
    found: &mut Vec<Finding>,
) -> Result<(), AllocError>
    requires within { from < length points.now }
    requires begins { (holds_at points.now from ≡ true) × Begins (holds_at points.now) from }
    ensures { OnOk result (Adds (IsWindowFrom way (holds_at points.now) (length points.now - 1) from caller.now call.now)
        found.old.items found.new.items) }
{
    let to = end_of(points, from);
    if !is_of_upgrade(from, to) {
        return Ok(());
    }
    let caller = caller.copy(alloc)?;
    let call = call.copy(alloc)?;
    note(
        found,
        Finding::Unanswered {
            way,
            from,
            to,
            caller,
            call,
        },
    )
}

/// Returns whether the upgrade has a part in a window.
fn is_of_upgrade(from: usize, to: Option<usize>) -> bool
    ensures { IsTrue result ↔ IsOfUpgrade from to }
{
    match to {
        Some(_) => from >= 1,
        None => true,
    }
}

/// Returns the point at which the window ends that begins at `from`; none if it lasts to the end.
fn end_of(points: &[bool], from: usize) -> Option<usize>
    requires within { from < length points.now }
    requires begins { (holds_at points.now from ≡ true) × Begins (holds_at points.now) from }
    ensures { IsWindow (holds_at points.now) (length points.now - 1) from result }
{
    for to in from + 1..points.len() {
        if !points[to] {
            return Some(to);
        }
    }
    None
}

/// Notes the instructions that apply a function of a module of the releases while nobody answers it.
fn note_applies(
    alloc: Global,
    passage: Passage<'_>,
    found: &mut Vec<Finding>,
) -> Result<(), AllocError>
    ensures { let p = passage.entry in OnOk result (Adds
        (FromEach (AppliesNobodyBy p.way p.left.now p.installed.now p.script.now) p.script.now) found.old.items found.new.items) }
{
    let script = passage.script;
    for (index, low) in script.iter().enumerate() {
        note_instruction(alloc, passage, index, low, found)?;
    }
    Ok(())
}

/// Notes the instruction at an index if it applies a function of a module of the releases while nobody answers it.
fn note_instruction(
    alloc: Global,
    passage: Passage<'_>,
    index: usize,
    low: &Low,
    found: &mut Vec<Finding>,
) -> Result<(), AllocError>
    requires { index < length passage.script.now }
    ensures { let p = passage.entry in OnOk result (Adds
        (AppliesNobodyBy p.way p.left.now p.installed.now p.script.now index low.now) found.old.items found.new.items) }
{
    let applied = applied_by(alloc, low)?;
    match applied {
        Some(call) => note_apply(passage, index, call, found),
        None => Ok(()),
    }
}

/// Returns the function that an instruction applies, if it applies one.
fn applied_by(alloc: Global, low: &Low) -> Result<Option<Call>, AllocError>
    ensures { IfOk result (λ call. call ≡ applied_by low.now) }
{
    match low {
        Low::Apply {
            name,
            function,
            arguments,
        } => {
            let module = name.copy(alloc)?;
            let function = function.copy(alloc)?;
            let arity = arguments.as_slice().len();
            Ok(Some(Call {
                module,
                function,
                arity,
            }))
        }
        _ => Ok(None),
    }
}

/// Notes that the instruction at an index applies this function, if a release has its module and nobody answers it.
fn note_apply(
    passage: Passage<'_>,
    index: usize,
    call: Call,
    found: &mut Vec<Finding>,
) -> Result<(), AllocError>
    requires { index < length passage.script.now }
    ensures { let p = passage.entry in OnOk result (Adds
        (AppliesNobodyAt p.way p.left.now p.installed.now p.script.now index call) found.old.items found.new.items) }
{
    if !is_known(passage.left, passage.installed, &call.module) {
        return Ok(());
    }
    let answered = answered_by(passage, &call);
    let current = current_by(&passage.script[..index], &call.module);
    if answered.at(current) {
        return Ok(());
    }
    let way = passage.way;
    note(found, Finding::AppliesNobody { way, index, call })
}

/// Returns which code of a module is current after a script.
fn current_by(script: &[Low], name: &Atom) -> Current
    ensures { result ≡ current_by name.now Left script.now }
{
    let mut current = Current::Left;
    for low in script {
        current = current_after(current, low, name);
    }
    current
}
