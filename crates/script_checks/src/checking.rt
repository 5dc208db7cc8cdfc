// The least fault of a script.
ghost use Rattle.std.specs.Prelude.{◌≡◌, ◌||◌};
ghost use Rattle.std.specs.List.{list_any};
ghost use Rattle.std.specs.Str.{bytes_eq};
ghost use Rattle.script_checks.specs.Checks.{bad_script, has_point, has_point as has_point_in, is_faulty, is_point, is_read, reads};

use erl_term::Atom;
use low_instructions::Low;

/// Whether an instruction is the point of no return.
fn is_point(instruction: &Low) -> bool
    ensures { result ≡ is_point instruction.now }
{
    match instruction {
        Low::PointOfNoReturn => true,
        Low::LoadObjectCode { .. } | Low::Load { .. } | Low::Remove { .. } | Low::Purge { .. } =>
            false,
        Low::Suspend { .. } | Low::Resume { .. } | Low::CodeChange { .. } => false,
        Low::Stop { .. } | Low::Start { .. } | Low::Apply { .. } => false,
    }
}

/// Whether one of these instructions is the point of no return. Takes no memory.
pub fn has_point(instructions: &[Low]) -> bool
    ensures { result ≡ has_point instructions.now }
{
    instructions.iter().any(is_point)
}

/// Whether a name is one of these.
fn has_name(names: &[Atom], name: &Atom) -> bool
    ensures { result ≡ list_any (λ each. bytes_eq each name.now) names.now }
{
    names.iter().any(|each| *each == *name)
}

/// Whether an instruction reads the object code of a module.
fn reads(name: &Atom, instruction: &Low) -> bool
    ensures { result ≡ reads name.now instruction.now }
{
    match instruction {
        Low::LoadObjectCode { modules, .. } => has_name(modules.as_slice(), name),
        Low::PointOfNoReturn | Low::Load { .. } | Low::Remove { .. } | Low::Purge { .. } => false,
        Low::Suspend { .. } | Low::Resume { .. } | Low::CodeChange { .. } => false,
        Low::Stop { .. } | Low::Start { .. } | Low::Apply { .. } => false,
    }
}

/// Whether one of these instructions reads the object code of a module.
fn is_read(name: &Atom, instructions: &[Low]) -> bool
    ensures { result ≡ is_read name.now instructions.now }
{
    instructions
        .iter()
        .any(|instruction| reads(name, instruction))
}

/// Whether an instruction is faulty behind these, among which the point of no return stands or doesn't.
fn is_faulty(before: &[Low], has_point: bool, instruction: &Low) -> bool
    requires { has_point ≡ has_point_in before.now }
    ensures { result ≡ is_faulty before.now instruction.now }
{
    match instruction {
        Low::LoadObjectCode { .. } | Low::PointOfNoReturn => has_point,
        Low::Load { name, .. } => !has_point || !is_read(name, before),
        Low::Apply { name, .. } if name.is("application") => !has_point,
        Low::Apply { .. } => false,
        Low::Remove { .. } | Low::Purge { .. } | Low::Suspend { .. } | Low::Resume { .. } =>
            !has_point,
        Low::CodeChange { .. } | Low::Stop { .. } | Low::Start { .. } => !has_point,
    }
}

/// Whether the point of no return has been passed behind an instruction.
fn is_passed(has_point: bool, instruction: &Low) -> bool
    ensures { result ≡ (has_point || is_point instruction.now) }
{
    has_point || is_point(instruction)
}

/// The least index of a faulty instruction of a script, counted from 0, or its length where none is faulty but the point of
/// no return is missing; nothing where it can be installed. Takes no memory.
pub fn check(script: &[Low]) -> Option<usize>
    ensures { result ≡ bad_script script.now }
{
    let mut has_point = false;
    for index in 0..script.len() {
        let instruction = &script[index];
        if is_faulty(&script[..index], has_point, instruction) {
            return Some(index);
        }
        has_point = is_passed(has_point, instruction);
    }
    if has_point { None } else { Some(script.len()) }
}
