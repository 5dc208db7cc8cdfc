// The bytes of operations.
ghost use Rattle.std.specs.Prelude.{◌≡◌, ◌≤◌, OnOk};
ghost use base.Stored.{Gv, gcons};
ghost use Rattle.erl_ir.specs.ExpressionCode.{connective_number};
ghost use Rattle.erl_ir.specs.ModuleBytes.{written};
ghost use Rattle.erl_ir.specs.OperationCode.{built_in_number, flag, operation_code, operator_number};

use super::{FRONT, PAIR, write_name, write_number};
use crate::operation::{BuiltIn, Connective, Operation, Operator};
use std::alloc::AllocError;

/// Appends an operation's bytes where it is the first of two parts: mostly one.
pub(crate) fn write_operation(operation: &Operation, out: &mut Vec<u8>) -> Result<(), AllocError>
    ensures { OnOk result ((g : Gv) → written (gcons (operation_code operation.now) g) out.old.items ≡ written g out.new.items) }
{
    match operation {
        Operation::Tuple => {
            out.push(FRONT)?;
            Ok(())
        }
        Operation::List => {
            out.push(FRONT + 1)?;
            Ok(())
        }
        Operation::Cons => {
            out.push(FRONT + 2)?;
            Ok(())
        }
        Operation::Operator(operator) => {
            out.push(FRONT + 3 + operator_index(*operator))?;
            Ok(())
        }
        Operation::BuiltIn {
            function,
            qualified,
        } => {
            out.push(PAIR)?;
            out.push(FRONT + 2 + built_in_index(*function))?;
            write_number(u64::from(flag_number(*qualified)), out)
        }
        Operation::Local(name) => {
            out.push(PAIR)?;
            out.push(FRONT)?;
            write_name(name, out)
        }
        Operation::Remote { module, function } => {
            out.push(PAIR)?;
            out.push(FRONT + 1)?;
            out.push(PAIR)?;
            write_name(module, out)?;
            write_name(function, out)
        }
    }
}

/// An operator's index among the operators.
fn operator_index(operator: Operator) -> u8
    ensures value { result ≡ operator_number operator }
    ensures bound { result ≤ 18 }
{
    operator as u8
}

/// The index of a function that is built in among these functions.
fn built_in_index(function: BuiltIn) -> u8
    ensures value { result ≡ built_in_number function }
    ensures bound { result ≤ 25 }
{
    function as u8
}

/// A connective's index among the two.
pub(crate) fn connective_index(connective: Connective) -> u8
    ensures value { result ≡ connective_number connective }
    ensures bound { result ≤ 1 }
{
    connective as u8
}

/// 1 for true, and 0 for false.
pub(crate) fn flag_number(it: bool) -> u8
    ensures value { result ≡ flag it }
    ensures bound { result ≤ 1 }
{
    if it { 1 } else { 0 }
}
