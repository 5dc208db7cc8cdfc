// What lines answer.
ghost use Rattle.std.specs.Prelude.{◌≡◌, ◌++◌, IfOk, None, Some};
ghost use Rattle.shell_answers.specs.Answers.{fixed, line_of};
ghost use Rattle.shell_answers.specs.Faults.{file_fault, term_fault};
ghost use Rattle.shell_answers.specs.Refusals.{naming_nothing, refusal_of, subject_of};
ghost use Rattle.shell_answers.specs.declared.fixed.Fixed.TheVariants.{Memory};
ghost use Rattle.shell_steps.specs.declared.fate.Fate.TheVariants.{Refused};
ghost use Rattle.shell_steps.specs.Halts.{halt_answer, halt_fate};

use crate::fate::Fate;
use crate::stepping::Halt;
use erl_scan::ReadError;
use node_types::Refusal;
use release_files::FileFault;
use shell_answers::{Fixed, Subject, write_file_fault, write_refusal, write_term_fault};
use std::alloc::AllocError;

/// What an answer ends with: what became of the line, or no memory to write the answer.
pub type Said = Result<Option<Fate>, AllocError>;

/// Appends an answer that has nothing in it but its words.
pub fn say(answer: Fixed, out: &mut Vec<u8>) -> Said
    ensures { IfOk result (λ fate. (fate ≡ None) × (out.new.items ≡ out.old.items ++ line_of (fixed answer))) }
{
    answer.write(out)?;
    Ok(None)
}

/// Appends what stands against a file.
pub fn say_file_fault(path: &str, fault: FileFault, out: &mut Vec<u8>) -> Said
    ensures { IfOk result (λ fate. (fate ≡ None) × (out.new.items ≡ out.old.items ++ line_of (file_fault path.now fault))) }
{
    write_file_fault(path, fault, out)?;
    Ok(None)
}

/// Appends the fault of a term's text.
pub fn say_term_fault(error: ReadError, out: &mut Vec<u8>) -> Said
    ensures { IfOk result (λ fate. (fate ≡ None) × (out.new.items ≡ out.old.items ++ line_of (term_fault error.kind error.at))) }
{
    write_term_fault(error.kind, error.at, out)?;
    Ok(None)
}

/// Appends that memory was refused, and nothing changed.
pub fn refuse(out: &mut Vec<u8>) -> Said
    ensures { IfOk result (λ fate. (fate ≡ Some Refused) × (out.new.items ≡ out.old.items ++ line_of (fixed Memory))) }
{
    Fixed::Memory.write(out)?;
    Ok(Some(Fate::Refused))
}

/// Appends why an event was not performed that names no version.
pub fn tell_halt(halt: Halt, out: &mut Vec<u8>) -> Said
    ensures { IfOk result (λ fate. (fate ≡ halt_fate halt) ×
        (out.new.items ≡ out.old.items ++ line_of (halt_answer naming_nothing halt))) }
{
    let about = Subject::naming("");
    tell_halt_of(&about, halt, out)
}

/// Appends why an event was not performed, told of this.
pub fn tell_halt_of(about: &Subject<'_>, halt: Halt, out: &mut Vec<u8>) -> Said
    ensures { IfOk result (λ fate. (fate ≡ halt_fate halt) ×
        (out.new.items ≡ out.old.items ++ line_of (halt_answer (subject_of about.now) halt))) }
{
    match &halt {
        Halt::Full => say(Fixed::SerialEnd, out),
        Halt::Refused(why) => say_refusal(about, why, out),
        Halt::Memory => refuse(out),
    }
}

/// Appends why an event is refused, told of this.
fn say_refusal(about: &Subject<'_>, why: &Refusal, out: &mut Vec<u8>) -> Said
    ensures { IfOk result (λ fate. (fate ≡ None) ×
        (out.new.items ≡ out.old.items ++ line_of (refusal_of (subject_of about.now) why.now))) }
{
    write_refusal(about, why, out)?;
    Ok(None)
}
