// Answers of one tuple.
ghost use Rattle.std.specs.Prelude.{◌≡◌, ◌++◌, OnOk};
ghost use Rattle.shell_answers.specs.Answers.{called, floor_at, job_of, line_of, loaded, mark_at, revived};

use crate::bytes::{put, put_number, put_pid};
use erl_term::{Atom, print_atom};
use std::alloc::AllocError;

/// Appends `{module,Mod}`.
pub fn write_loaded(name: &Atom, out: &mut Vec<u8>) -> Result<(), AllocError>
    ensures { OnOk result (out.new.items ≡ out.old.items ++ line_of (loaded name.now)) }
{
    put(b"{module,", out)?;
    print_atom(name, out)?;
    put(b"}\n", out)
}

/// Appends `{mark,K}`.
pub fn write_mark(mark: u64, out: &mut Vec<u8>) -> Result<(), AllocError>
    ensures { OnOk result (out.new.items ≡ out.old.items ++ line_of (mark_at mark)) }
{
    put(b"{mark,", out)?;
    put_number(mark, out)?;
    put(b"}\n", out)
}

/// Appends `{floor,K}`.
pub fn write_floor(mark: u64, out: &mut Vec<u8>) -> Result<(), AllocError>
    ensures { OnOk result (out.new.items ≡ out.old.items ++ line_of (floor_at mark)) }
{
    put(b"{floor,", out)?;
    put_number(mark, out)?;
    put(b"}\n", out)
}

/// Appends `{call,N}`.
pub fn write_called(number: u64, out: &mut Vec<u8>) -> Result<(), AllocError>
    ensures { OnOk result (out.new.items ≡ out.old.items ++ line_of (called number)) }
{
    put(b"{call,", out)?;
    put_number(number, out)?;
    put(b"}\n", out)
}

/// Appends `{job,J,Pid}`.
pub fn write_job(number: u64, pid: u64, out: &mut Vec<u8>) -> Result<(), AllocError>
    ensures { OnOk result (out.new.items ≡ out.old.items ++ line_of (job_of number pid)) }
{
    put(b"{job,", out)?;
    put_number(number, out)?;
    put(b",<0.", out)?;
    put_number(pid, out)?;
    put(b".0>}\n", out)
}

/// Appends `{revived,Pid}`.
pub fn write_revived(pid: u64, out: &mut Vec<u8>) -> Result<(), AllocError>
    ensures { OnOk result (out.new.items ≡ out.old.items ++ line_of (revived pid)) }
{
    put(b"{revived,", out)?;
    put_pid(pid, out)?;
    put(b"}\n", out)
}
