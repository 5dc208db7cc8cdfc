// Scripts that go on.
ghost use Rattle.std.specs.Prelude.{◌≡◌, ◌++◌, IfOk, None, option_map};
ghost use Rattle.std.specs.Option.{option_copied};
ghost use Rattle.erl_term.specs.Term.{tree};
ghost use Rattle.low_instructions.specs.Forms.{low_tree};
ghost use Rattle.shell_answers.specs.Answers.{line_of};
ghost use Rattle.shell_state.specs.Done.{IsDone};
ghost use Rattle.shell_state.specs.State.{node_of};
ghost use Rattle.shell_upgrades.specs.Advancing.{advanced_by, carried_out_if, next_of};
ghost use Rattle.shell_upgrades.specs.Upgrades.{AdvancesScript};

use erl_term::Term;
use low_instructions::{Low, low_term};
use node_types::{Answer, Event};
use script_state::instruction_at;
use shell_answers::{Fixed, write_carried_out, write_finished, write_recovered, write_restarted};
use shell_state::{Node, Said, Shell, say, tell_halt};
use std::alloc::{AllocError, Global};

/// Has the script that runs go on by its next instruction, or end. The term that its answer tells is made before.
pub fn advance(held: &mut Shell, give_up: bool, out: &mut Vec<u8>) -> Said
    ensures { IfOk result (λ fate. IsDone (AdvancesScript held.old give_up fate) held.new out.old.items out.new.items) }
{
    let Ok(next) = next_term(held.alloc(), held.node()) else {
        let halt = held.halt_of_event(&Event::Advance { give_up });
        return tell_halt(halt, out);
    };
    match held.perform(Event::Advance { give_up }) {
        Ok(answer) => tell_advanced(&next, &answer, out),
        Err(halt) => tell_halt(halt, out),
    }
}

/// The next instruction of the script that runs, if one runs and one is left.
fn next_of(node: &Node) -> Option<&Low>
    ensures { option_copied result ≡ next_of node.now }
{
    let runner = node.runner()?;
    instruction_at(runner.script.as_slice(), runner.progress.next)
}

/// The term of the next instruction of the script that runs, if one runs and one is left.
fn next_term(alloc: Global, node: &Node) -> Result<Option<Term>, AllocError>
    ensures { IfOk result (λ it. option_map tree it ≡ option_map low_tree (next_of node.now)) }
{
    match next_of(node) {
        Some(instruction) => {
            let term = low_term(alloc, instruction)?;
            Ok(Some(term))
        }
        None => Ok(None),
    }
}

/// Tells what a script has come to. The instruction that is carried out is given by its term.
fn tell_advanced(next: &Option<Term>, answer: &Answer, out: &mut Vec<u8>) -> Said
    ensures { IfOk result (λ fate. (fate ≡ None) ×
        (out.new.items ≡ out.old.items ++ line_of (advanced_by (option_map tree next.now) answer.now))) }
{
    match answer {
        Answer::Ran(_) => return tell_carried_out(next, out),
        Answer::Finished { vsn, description } => write_finished(vsn.as_str(), description, out)?,
        Answer::Recovered(reason) => write_recovered(reason, out)?,
        Answer::Restarted(reason) => write_restarted(reason, out)?,
        Answer::Job(_) | Answer::Revived(_) | Answer::Killed(_) => return say(Fixed::Done, out),
        Answer::Installing { .. } | Answer::Swept(_) | Answer::Unit => {
            return say(Fixed::Done, out);
        }
    }
    Ok(None)
}

/// Tells the instruction that was carried out, by its term.
fn tell_carried_out(instruction: &Option<Term>, out: &mut Vec<u8>) -> Said
    ensures { IfOk result (λ fate. (fate ≡ None) ×
        (out.new.items ≡ out.old.items ++ line_of (carried_out_if (option_map tree instruction.now)))) }
{
    match instruction {
        Some(term) => {
            write_carried_out(term, out)?;
            Ok(None)
        }
        None => say(Fixed::Done, out),
    }
}
