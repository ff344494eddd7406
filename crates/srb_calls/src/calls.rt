ghost use Rattle.std.specs.Prelude.{◌≡◌, [], ◌∷◌, ◌++◌, IfOk, if◌then◌else◌, nat_eq};
ghost use Rattle.srb_shapes.specs.Lineages.{lineage_at};
ghost use Rattle.srb_calls.specs.Blocks.{block_type};
ghost use Rattle.srb_calls.specs.Letters.{put_in};
ghost use Rattle.srb_calls.specs.Messages.{diag, missing_method, untyped_receiver};
ghost use Rattle.srb_types.specs.Shown.{shown};
ghost use Rattle.srb_calls.specs.Calls as spec;
ghost use Rattle.srb_members.specs.Views.{members_at};
ghost use Rattle.srb_calls.specs.Order.{in_rank, in_shown_order};
ghost use Rattle.srb_calls.specs.Order as order;
ghost use Rattle.srb_members.specs.Members.{seen_member};

use crate::args::{Args, CallEnd, Recv};
use crate::blocks::{block_type, each_either, either, gives, named, names, never};
use crate::counts::count_fault;
use crate::keywords::tables;
use crate::letters::put_in;
use crate::matching::take_arguments;
use crate::messages::{missing_method, untyped_receiver, with_error};
use crate::order::{has_both, parts, rank};
use srb_members::{Member, look_up};
use srb_terms::{Boxed, Diag, Items, Method, Name, NoMemory, Param, Ty, World};
use srb_types::show;
use std::alloc::Global;

// An instance of the class of this name.
fn instance_named(alloc: Global, c: &Name) -> Result<Ty, NoMemory>
    ensures { IfOk result (λ t. t ≡ spec.instance_named c.now) }
{
    if c.as_str() == "Array" {
        Ok(Ty::Arr(Boxed::new(alloc, Ty::Untyped)?))
    } else if c.as_str() == "Hash" {
        let key = Boxed::new(alloc, Ty::Untyped)?;
        Ok(Ty::Hsh(key, Boxed::new(alloc, Ty::Untyped)?))
    } else {
        Ok(Ty::Class(c.copied()?))
    }
}

// An instance of the class whose class object the part is.
#[tactic(auto, unfolding(crate::specs::Calls::instance_of))]
fn instance(alloc: Global, part: &Ty) -> Result<Ty, NoMemory>
    ensures { IfOk result (λ t. t ≡ spec.instance_of part.now) }
{
    match part {
        Ty::Meta(c) => instance_named(alloc, c),
        _ => Ok(Ty::Untyped),
    }
}

// What a method that is called on a part answers.
fn method_result(
    alloc: Global,
    w: &World,
    part: &Ty,
    args: &Args,
    method: &Method,
) -> Result<Ty, NoMemory>
    ensures { IfOk result (λ t. t ≡ put_in (lineage_at w.now) part.now args.now.positional (block_type args.now.block) method.now.result) }
{
    let block = block_type(&args.block)?;
    put_in(
        alloc,
        w,
        &method.result,
        part,
        args.positional.as_slice(),
        &block,
    )
}

// What a part answers.
fn part_result(
    alloc: Global,
    w: &World,
    part: &Ty,
    args: &Args,
    found: Member<'_>,
) -> Result<Ty, NoMemory>
    ensures { IfOk result (λ t. t ≡ spec.part_result (lineage_at w.now) part.now args.now (seen_member found.entry)) }
{
    match found {
        Member::Declared(method) => method_result(alloc, w, part, args, method),
        Member::Made(_) => instance(alloc, part),
        Member::Free => Ok(Ty::Untyped),
        Member::Missing => Ok(Ty::Untyped),
    }
}

// The parameters of a method, where there is one.
fn params<'w>(found: Member<'w>) -> &'w [Param]
    ensures { result.now ≡ spec.params_of (seen_member found.entry) }
{
    match found {
        Member::Declared(method) => method.params.as_slice(),
        Member::Made(method) => method.params.as_slice(),
        Member::Free => &[],
        Member::Missing => &[],
    }
}

// What a part gives to the names of the block.
fn part_block(
    alloc: Global,
    w: &World,
    part: &Ty,
    args: &Args,
    found: Member<'_>,
) -> Result<Items<Ty>, NoMemory>
    ensures { IfOk result (λ ts. ts ≡ spec.part_block (lineage_at w.now) part.now args.now (seen_member found.entry)) }
{
    let given = gives(alloc, w, part, args.positional.as_slice(), params(found))?;
    named(alloc, names(&args.block), given)
}

// The errors with those of a call of a method that is there.
#[tactic(auto, unfolding(crate::specs::Calls::method_errors))]
fn method_errors(
    alloc: Global,
    w: &World,
    part: &Ty,
    recv: &Recv,
    args: &Args,
    params: &[Param],
    errors: Items<Diag>,
) -> Result<Items<Diag>, NoMemory>
    ensures { IfOk result (λ es. es ≡ spec.method_errors (lineage_at w.now) part.now recv.now args.now params.now errors) }
{
    let table = tables(alloc, params, args.keys.as_slice())?;
    let fault = count_fault(
        alloc,
        &table,
        &recv.name,
        params,
        args.positional.as_slice(),
        args.keys.as_slice(),
    )?;
    match fault {
        None => take_arguments(alloc, w, part, args, &recv.name, &table, params, errors),
        Some(text) => with_error(errors, recv.span, 7004, text),
    }
}

fn missing_errors(
    alloc: Global,
    part: &Ty,
    recv: &Recv,
    errors: Items<Diag>,
) -> Result<Items<Diag>, NoMemory>
    ensures { IfOk result (λ es. es ≡ errors ++ diag recv.now.span 7003 (missing_method recv.now.name (shown part.now)) ∷ []) }
{
    let shown = show(alloc, part)?;
    let text = missing_method(alloc, recv.name.as_str(), shown.as_str())?;
    with_error(errors, recv.span, 7003, text)
}

fn free_errors(alloc: Global, recv: &Recv, errors: Items<Diag>) -> Result<Items<Diag>, NoMemory>
    ensures { IfOk result (λ es. es ≡ errors ++ diag recv.now.span 7018 (untyped_receiver recv.now.name) ∷ []) }
{
    let text = untyped_receiver(alloc, recv.name.as_str())?;
    with_error(errors, recv.span, 7018, text)
}

// The errors with those of a part.
fn part_errors(
    alloc: Global,
    w: &World,
    part: &Ty,
    recv: &Recv,
    args: &Args,
    found: Member<'_>,
    errors: Items<Diag>,
) -> Result<Items<Diag>, NoMemory>
    ensures { IfOk result (λ es. es ≡ spec.part_errors (lineage_at w.now) part.now recv.now args.now (seen_member found.entry) errors) }
{
    match found {
        Member::Declared(method) => method_errors(
            alloc,
            w,
            part,
            recv,
            args,
            method.params.as_slice(),
            errors,
        ),
        Member::Made(method) => method_errors(
            alloc,
            w,
            part,
            recv,
            args,
            method.params.as_slice(),
            errors,
        ),
        Member::Free => free_errors(alloc, recv, errors),
        Member::Missing => missing_errors(alloc, part, recv, errors),
    }
}

// What one part adds, by what the name calls on it.
fn with_member(
    alloc: Global,
    w: &World,
    recv: &Recv,
    args: &Args,
    end: CallEnd,
    part: &Ty,
    found: Member<'_>,
) -> Result<CallEnd, NoMemory>
    ensures { IfOk result (λ e. e ≡ spec.with_member (lineage_at w.now) recv.now args.now end part.now (seen_member found.entry)) }
{
    let CallEnd {
        result,
        block,
        errors,
    } = end;
    let answer = part_result(alloc, w, part, args, found)?;
    let given = part_block(alloc, w, part, args, found)?;
    Ok(CallEnd {
        result: either(alloc, w, result, answer)?,
        block: each_either(alloc, w, block.as_slice(), given.as_slice())?,
        errors: part_errors(alloc, w, part, recv, args, found, errors)?,
    })
}

// What one part adds.
#[tactic(auto, unfolding(crate::specs::Calls::with_part))]
fn with_part(
    alloc: Global,
    w: &World,
    recv: &Recv,
    args: &Args,
    end: CallEnd,
    part: &Ty,
) -> Result<CallEnd, NoMemory>
    ensures { IfOk result (λ e. e ≡ spec.with_part (members_at w.now) recv.now args.now end part.now) }
{
    with_member(
        alloc,
        w,
        recv,
        args,
        end,
        part,
        look_up(w, part, &recv.name),
    )
}

// What some parts add, one after the other.
fn with_parts(
    alloc: Global,
    w: &World,
    recv: &Recv,
    args: &Args,
    end: CallEnd,
    parts: &[Ty],
) -> Result<CallEnd, NoMemory>
    ensures { IfOk result (λ e. e ≡ spec.with_parts (members_at w.now) recv.now args.now end parts.now) }
{
    let mut end = end;
    'parts: for part in parts {
        end = with_part(alloc, w, recv, args, end, part)?;
    }
    Ok(end)
}

// What a part adds, if it stands in this place.
fn with_placed(
    alloc: Global,
    w: &World,
    recv: &Recv,
    args: &Args,
    end: CallEnd,
    part: &Ty,
    place: usize,
) -> Result<CallEnd, NoMemory>
    ensures { IfOk result (λ e. e ≡ (if nat_eq (order.rank part.now) place then spec.with_part (members_at w.now) recv.now args.now end part.now else end)) }
{
    if rank(alloc, part)? == place {
        with_part(alloc, w, recv, args, end, part)
    } else {
        Ok(end)
    }
}

// What the parts in one place add.
fn with_rank(
    alloc: Global,
    w: &World,
    recv: &Recv,
    args: &Args,
    end: CallEnd,
    parts: &[Ty],
    place: usize,
) -> Result<CallEnd, NoMemory>
    ensures { IfOk result (λ e. e ≡ spec.with_parts (members_at w.now) recv.now args.now end (in_rank place parts.now)) }
{
    let mut end = end;
    'parts: for part in parts {
        end = with_placed(alloc, w, recv, args, end, part, place)?;
    }
    Ok(end)
}

// What the parts add in shown order.
#[tactic(auto, using(crate::proofs::Appending::parts_append))]
fn in_order(
    alloc: Global,
    w: &World,
    recv: &Recv,
    args: &Args,
    end: CallEnd,
    parts: &[Ty],
) -> Result<CallEnd, NoMemory>
    ensures { IfOk result (λ e. e ≡ spec.with_parts (members_at w.now) recv.now args.now end (in_shown_order parts.now)) }
{
    if !has_both(parts) {
        return with_parts(alloc, w, recv, args, end, parts);
    }
    let end = with_rank(alloc, w, recv, args, end, parts, 0)?;
    let end = with_rank(alloc, w, recv, args, end, parts, 1)?;
    let end = with_rank(alloc, w, recv, args, end, parts, 2)?;
    with_rank(alloc, w, recv, args, end, parts, 3)
}

// The answer without any part.
fn no_part(alloc: Global, args: &Args) -> Result<CallEnd, NoMemory>
    ensures { IfOk result (λ e. e ≡ spec.no_part args.now) }
{
    Ok(CallEnd {
        result: Ty::Never,
        block: never(alloc, names(&args.block))?,
        errors: Items::new(alloc),
    })
}

/// What a call answers, the types of the names of its block, and its errors: 7002, 7003, 7004 and 7018, part by part of the receiver in shown
/// order. The types of receiver and arguments are in normal form.
#[tactic(auto, unfolding(crate::specs::Calls::call_of))]
pub fn call(alloc: Global, w: &World, recv: &Recv, args: &Args) -> Result<CallEnd, NoMemory>
    ensures { IfOk result (λ e. e ≡ spec.call_of (members_at w.now) recv.now args.now) }
{
    in_order(alloc, w, recv, args, no_part(alloc, args)?, parts(&recv.ty))
}
