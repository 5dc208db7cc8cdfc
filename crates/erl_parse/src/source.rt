// Reading whole sources.
ghost use Rattle.std.specs.Prelude.{◌≡◌, [], IfErr, IfOk};
ghost use Rattle.erl_lint.specs.Faults.{faults_of};
ghost use Rattle.erl_lower.specs.Meaning.{IsMeaning};
ghost use Rattle.erl_parse.specs.Sources.{IsSource, IsNoSource, OneModule, FaultlessMean};
ghost use Rattle.erl_parse.specs.Telling.{Says, TellsTokens, TellsTree};
ghost use Rattle.erl_ast.specs.Forms.{IsModule};
ghost use Rattle.erl_ast.specs.Terminal.{terminals};
ghost use Rattle.values.specs.Failure.{Fails};

use crate::error::LangError;
use crate::telling::{of_refusal, of_static, of_token};
use erl_ast::ModuleTree;
use erl_ir::Module;
use erl_lower::{Lowering, lowered};
use erl_scan::{Fault, ReadError, Scanned, Spot, scan};
use module_forms::read_forms;
use std::alloc::Global;
use std::hash::RandomState;
use std::str;
use values::Failure;

/// Reads the bytes of a source as the module that they mean.
///
/// Names are hashed by `hashing`. Takes time and memory for each byte. Recurses as deep as the source is nested, at most 256
/// levels.
///
/// # Errors
///
/// `Refused` by a token that is faulty by itself, by one of the first form that is none, up to its dot, or by the end in such a
/// form; where the tokens are a module's, by the first static fault. `Memory` where memory is refused.
pub fn read_module(
    alloc: Global,
    hashing: RandomState,
    bytes: &[u8],
) -> Result<Module, Failure<LangError>>
    ensures found { IfOk result (λ m. IsSource bytes.now m) }
    ensures refused { IfErr result (Fails (Says bytes.now) (Unit {0})) }
    ensures meaningless { IfErr result (Fails (λ _. IsNoSource bytes.now) (Unit {0})) }
{
    match str::from_utf8(bytes) {
        Ok(text) => read_text(alloc, hashing, text),
        Err(error) => Err(Failure::Refused(LangError::Text(ReadError {
            kind: Fault::NotUtf8,
            at: error.valid_up_to(),
        }))),
    }
}

/// Reads a source as the module that it means. The tokens are let go once the tree is read.
fn read_text(alloc: Global, hashing: RandomState, text: &str) -> Result<Module, Failure<LangError>>
    ensures found { IfOk result (λ m. IsSource text.now m) }
    ensures refused { IfErr result (Fails (Says text.now) (Unit {0})) }
{
    let Scanned { tokens, fault } = scan(alloc, text)?;
    let read = tree_of(alloc, tokens.as_slice(), fault, text.len());
    drop(tokens);
    match read {
        Ok(tree) => match fault {
            None => module_of(alloc, hashing, tree),
            Some(fault) => Err(Failure::Refused(of_token(fault))),
        },
        Err(failure) => Err(failure),
    }
}

/// The tree that tokens are, of a text of so many bytes, in which something stops them that is faulty by itself, or its end.
fn tree_of(
    alloc: Global,
    tokens: &[Spot],
    stop: Option<ReadError>,
    total: usize,
) -> Result<ModuleTree, Failure<LangError>>
    ensures found { IfOk result (λ tree. IsModule (terminals tokens.now) tree) }
    ensures refused { IfErr result (Fails (TellsTokens tokens.now stop total) (Unit {0})) }
{
    match read_forms(alloc, tokens)? {
        Ok(tree) => Ok(tree),
        Err(refusal) => Err(Failure::Refused(of_refusal(refusal, tokens, stop, total))),
    }
}

/// The module that a tree means, where it has no static fault. It means none where two functions have one name and one number of
/// arguments, which is a static fault.
fn module_of(
    alloc: Global,
    hashing: RandomState,
    tree: ModuleTree,
) -> Result<Module, Failure<LangError>>
    ensures found { IfOk result (λ m. (faults_of tree ≡ []) × IsMeaning tree m) }
    ensures refused { IfErr result (Fails (TellsTree tree) (Unit {0})) }
{
    let at = tree.name.at;
    match lowered(alloc, hashing, tree)? {
        Lowering::Module(Some(module)) => Ok(module),
        Lowering::Module(None) => Err(Failure::Refused(LangError::Syntax(at))),
        Lowering::Fault(fault) => Err(Failure::Refused(of_static(fault))),
    }
}

/// A law: bytes mean at most one module, and they mean one where they are written as a module without static fault.
pub fn sources_mean_one_module()
    ensures one { OneModule }
    ensures faultless { FaultlessMean }
{}
