//! Calls.

ghost use Rattle.std.specs.Prelude.{◌≡◌, map, option_map, IfOk};
ghost use Rattle.std.specs.Option.{option_copied};
ghost use Rattle.srb_judgement.specs.Views.{seen_answer, seen_block, seen_given, seen_named, seen_sent};
ghost use Rattle.srb_language.specs.Asked as spec;
ghost use Rattle.srb_language.specs.Knowledge.{knowledge_at};

use srb_calls::{Arg, Args, CallEnd, GivenBlock as CalledBlock, KeyArg, Recv, call};
use srb_judgement::sent::{Answer, Arguments, Given, GivenBlock, Named};
use srb_terms::{Items, Name, NoMemory, Span, Ty, World};
use std::alloc::{AllocError, Global};

/// An argument by place.
fn arg(given: &Given) -> Result<Arg, NoMemory>
    ensures { IfOk result (λ a. a ≡ spec.arg_of (seen_given given.now)) }
{
    Ok(Arg {
        ty: given.ty.copied()?,
        span: given.span,
    })
}

/// Arguments by place.
fn positional(alloc: Global, given: &[Given]) -> Result<Items<Arg>, NoMemory>
    ensures { IfOk result (λ gs. gs ≡ map spec.arg_of (map seen_given given.now)) }
{
    let mut positional = Vec::with_capacity(alloc, given.len())?;
    'given: for argument in given {
        positional.push(arg(argument)?)?;
    }
    Ok(Items::from_vec(positional))
}

/// An argument by name.
fn key(named: &Named) -> Result<KeyArg, NoMemory>
    ensures { IfOk result (λ k. k ≡ spec.key_of (seen_named named.now)) }
{
    Ok(KeyArg {
        name: named.name.copied()?,
        ty: named.ty.copied()?,
        span: named.span,
    })
}

/// Arguments by name.
fn keys(alloc: Global, named: &[Named]) -> Result<Items<KeyArg>, NoMemory>
    ensures { IfOk result (λ ks. ks ≡ map spec.key_of (map seen_named named.now)) }
{
    let mut keys = Vec::with_capacity(alloc, named.len())?;
    'named: for argument in named {
        keys.push(key(argument)?)?;
    }
    Ok(Items::from_vec(keys))
}

/// The number of a block's names.
fn count(names: usize) -> Result<u32, NoMemory>
    ensures { IfOk result (λ n. n ≡ names) }
{
    match u32::try_from(names) {
        Ok(count) => Ok(count),
        Err(_) => Err(AllocError),
    }
}

/// A block.
fn block(given: Option<&GivenBlock>) -> Result<Option<CalledBlock>, NoMemory>
    ensures { IfOk result (λ b. b ≡ option_map spec.block_of (option_map seen_block (option_copied given.entry))) }
{
    match given {
        None => Ok(None),
        Some(given) => Ok(Some(CalledBlock {
            names: count(given.names)?,
            ty: given.ty.copied()?,
        })),
    }
}

/// All arguments and the block.
fn args(alloc: Global, arguments: &Arguments, given: Option<&GivenBlock>) -> Result<Args, NoMemory>
    ensures { IfOk result (λ a. a ≡ spec.args_by (map seen_given arguments.now.positional) (map seen_named arguments.now.keys) (option_map seen_block (option_copied given.entry))) }
{
    Ok(Args {
        positional: positional(alloc, arguments.positional.as_slice())?,
        keys: keys(alloc, arguments.keys.as_slice())?,
        block: block(given)?,
    })
}

/// What the call of a method answers. It fails at 2^32 names of a block.
pub fn answered(
    alloc: Global,
    w: &World,
    receiver: &Ty,
    name: &Name,
    span: Span,
    arguments: &Arguments,
    given: Option<&GivenBlock>,
) -> Result<Answer, NoMemory>
    ensures { IfOk result (λ a. seen_answer a ≡ spec.answered (knowledge_at w.now) (seen_sent receiver.now name.now span arguments.now (option_copied given.entry))) }
{
    let args = args(alloc, arguments, given)?;
    let recv = Recv {
        ty: receiver.copied()?,
        name: name.copied()?,
        span,
    };
    let CallEnd {
        result,
        block,
        errors,
    } = call(alloc, w, &recv, &args)?;
    Ok(Answer {
        result,
        block,
        errors,
    })
}
