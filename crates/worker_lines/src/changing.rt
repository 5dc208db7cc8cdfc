// Modules, and children that start again.
ghost use Rattle.std.specs.Prelude.{◌≡◌, IfOk};
ghost use Rattle.std.specs.Str.{chars};
ghost use Rattle.erl_term.specs.declared.term.Term.TheVariants.{Atom};
ghost use Rattle.node_types.specs.declared.event.Event.TheVariants.{Load, Revive, Sweep};
ghost use Rattle.shell_answers.specs.Answers.{loaded};
ghost use Rattle.shell_answers.specs.Refusals.{naming_nothing};
ghost use Rattle.shell_exec.specs.Execution.{change_event};
ghost use Rattle.shell_exec.specs.Performing.{revived_in, swept_in, truth_in};
ghost use Rattle.worker_lines.specs.Asking.{IsAnswered};
ghost use Rattle.worker_lines.specs.Execution.{Loads, Performs};

use crate::office::Office;
use crate::telling::tell_error;
use erl_ir::Module;
use node_types::Event;
use shell_exec::{
    Said, Unloaded, change_event, refuse, revive_event, say_file_fault, source_in, tell_loaded,
    tell_revived, tell_swept, tell_truth,
};
use shell_requests::{CodeOperation, Name};
use std::sync::Wait;
use values::Duplicate;
use workers::{Naming, Seat};

/// Deletes or purges a module's code.
pub(crate) fn change<N: Naming, R: Wait>(
    office: &Office<'_, '_, '_, N, R>,
    seat: &mut Seat<N>,
    kind: CodeOperation,
    name: Name<'_>,
    out: &mut Vec<u8>,
) -> Said
    ensures { IfOk result (λ fate. IsAnswered (Performs (change_event kind (chars name.entry.text.now)) naming_nothing truth_in
        fate)
        seat.old seat.new out.old.items out.new.items) }
{
    let Ok(name) = name.atom(office.alloc) else {
        return refuse(out);
    };
    match office
        .shared
        .perform(office.rt, office.alloc, seat, change_event(kind, name))
    {
        Ok(answer) => tell_truth(&answer, out),
        Err(error) => tell_error(office.alloc, error, out),
    }
}

/// Loads the module of the file at a path.
pub(crate) fn load<N: Naming, R: Wait>(
    office: &Office<'_, '_, '_, N, R>,
    seat: &mut Seat<N>,
    name: Name<'_>,
    path: &str,
    out: &mut Vec<u8>,
) -> Said
    ensures { IfOk result (λ fate. IsAnswered (Loads office.now.files.now (chars name.entry.text.now) path.now fate)
        seat.old seat.new out.old.items out.new.items) }
{
    match source_in(office.alloc, office.hashing, office.files, name, path) {
        Ok(code) => load_module(office, seat, code, out),
        Err(Unloaded::Faulted(fault)) => say_file_fault(path, fault, out),
        Err(Unloaded::Unread) => refuse(out),
    }
}

/// Loads a module.
fn load_module<N: Naming, R: Wait>(
    office: &Office<'_, '_, '_, N, R>,
    seat: &mut Seat<N>,
    code: Module,
    out: &mut Vec<u8>,
) -> Said
    ensures { IfOk result (λ fate. IsAnswered (Performs (Load code) naming_nothing (λ _. loaded code.name) fate)
        seat.old seat.new out.old.items out.new.items) }
{
    let Ok(name) = code.name().copy(office.alloc) else {
        return refuse(out);
    };
    match office
        .shared
        .perform(office.rt, office.alloc, seat, Event::Load(code))
    {
        Ok(_) => tell_loaded(&name, out),
        Err(error) => tell_error(office.alloc, error, out),
    }
}

/// Revives a child of an application, by its Id.
pub(crate) fn revive<N: Naming, R: Wait>(
    office: &Office<'_, '_, '_, N, R>,
    seat: &mut Seat<N>,
    app: Name<'_>,
    id: Name<'_>,
    out: &mut Vec<u8>,
) -> Said
    ensures { IfOk result (λ fate. IsAnswered
        (Performs (Revive (chars app.entry.text.now) (Atom (chars id.entry.text.now))) naming_nothing revived_in fate)
        seat.old seat.new out.old.items out.new.items) }
{
    let Ok(event) = revive_event(office.alloc, app, id) else {
        return refuse(out);
    };
    match office.shared.perform(office.rt, office.alloc, seat, event) {
        Ok(answer) => tell_revived(&answer, out),
        Err(error) => tell_error(office.alloc, error, out),
    }
}

/// Purges old code that scripts have left to be purged softly, where nobody lingers in it.
pub(crate) fn sweep<N: Naming, R: Wait>(
    office: &Office<'_, '_, '_, N, R>,
    seat: &mut Seat<N>,
    out: &mut Vec<u8>,
) -> Said
    ensures { IfOk result (λ fate. IsAnswered (Performs Sweep naming_nothing swept_in fate)
        seat.old seat.new out.old.items out.new.items) }
{
    match office
        .shared
        .perform(office.rt, office.alloc, seat, Event::Sweep)
    {
        Ok(answer) => tell_swept(&answer, out),
        Err(error) => tell_error(office.alloc, error, out),
    }
}
