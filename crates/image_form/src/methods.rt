//! The tables of selectors and of methods.

ghost use Rattle.std.specs.Prelude.{◌≡◌, ◌+◌, ◌^◌, ◌<◌, ◌&&◌, ◌||◌, ◌==◌, nat_le, [], length};
ghost use Rattle.image_form.specs.Refused.{Shows};
ghost use Rattle.image_form.specs.Library.{names_class};
ghost use Rattle.image_form.specs.Reading.{u1_at, u2_at, tested, items_at, in_selectors, in_methods, signature_at, selector_at, selectors_at, handler_at, handlers_at, code_at, frame_at, method_at, methods_at};

use crate::ids::names_class;
use crate::part::{slice_at, u1_at, u2_at};
use crate::record::{HandlerEntry, Method, TypeEntry};
use crate::refusal::FormRefusal;
use image_instr::Sig;
use item_list::Items;
use std::alloc::Global;

/// The most selectors.
const MOST_SELECTORS: u16 = 16_384;

/// With the 32 ids of the library there are 16,384.
const MOST_METHODS: u16 = 16_352;

/// The most cells of a frame's body; its header has 4 more.
const MOST_BODY: u16 = 32_763;

/// The class of a handler that catches all.
const ANY_CLASS: u16 = 65_535;

/// The refusal of the selector at an index.
fn bad_selector(index: u16) -> FormRefusal
    ensures { result ≡ in_selectors index }
{
    FormRefusal::BadTable { table: 1, index }
}

/// The refusal of the method at an index.
fn bad_method(index: u16) -> FormRefusal
    ensures { result ≡ in_methods index }
{
    FormRefusal::BadTable { table: 2, index }
}

/// The cells and the result of a signature with so many references, whose table refuses it so.
#[tactic(auto, unfolding(crate::specs::Reading::signature_at))]
fn signature_at(refs: u8, why: FormRefusal, bytes: &[u8]) -> Result<(Sig, &[u8]), FormRefusal>
    ensures { Shows (λ x. (x.0, x.1.now)) result (signature_at refs why bytes.now) }
{
    let (cells, rest) = u2_at(bytes)?;
    let (result, rest) = u1_at(rest)?;
    if result > 3 {
        return Err(why);
    }
    let sig = Sig {
        refs,
        cells,
        result,
    };
    Ok((sig, rest))
}

/// The selector at an index: a signature with a receiver.
#[tactic(auto, unfolding(crate::specs::Reading::selector_at))]
fn selector_at<'a>(before: &[Sig], bytes: &'a [u8]) -> Result<(Sig, &'a [u8]), FormRefusal>
    requires { length before.now < 2 ^ 16 }
    ensures { Shows (λ x. (x.0, x.1.now)) result (selector_at before.now bytes.now) }
{
    let why = bad_selector(before.len() as u16);
    let (refs, rest) = u1_at(bytes)?;
    if refs < 1 {
        return Err(why);
    }
    signature_at(refs, why, rest)
}

/// So many selectors.
fn listed_selectors(
    alloc: Global,
    count: u16,
    bytes: &[u8],
) -> Result<(Vec<Sig>, &[u8]), FormRefusal>
    ensures { Shows (λ x. (x.0.items, x.1.now)) result (items_at selector_at count [] bytes.now) }
{
    let mut selectors = Vec::new(alloc);
    let mut rest = bytes;
    for _ in 0..count {
        let (selector, after) = selector_at(selectors.as_slice(), rest)?;
        selectors.push(selector)?;
        rest = after;
    }
    Ok((selectors, rest))
}

/// The selectors after their count.
#[tactic(auto, unfolding(crate::specs::Reading::selectors_at))]
pub(crate) fn selectors_at(alloc: Global, bytes: &[u8]) -> Result<(Items<Sig>, &[u8]), FormRefusal>
    ensures { Shows (λ x. (x.0, x.1.now)) result (selectors_at bytes.now) }
{
    let (count, rest) = u2_at(bytes)?;
    if count > MOST_SELECTORS {
        return Err(bad_selector(0));
    }
    let (selectors, rest) = listed_selectors(alloc, count, rest)?;
    Ok((Items::from_vec(selectors), rest))
}

/// The class that a handler of the method at an index catches.
fn caught_at<'a>(
    types: &[TypeEntry],
    index: u16,
    bytes: &'a [u8],
) -> Result<(u16, &'a [u8]), FormRefusal>
    ensures { Shows (λ x. (x.0, x.1.now)) result (tested (λ class. class == 65535 || names_class types.now class) (in_methods index) (u2_at bytes.now)) }
{
    let (class, rest) = u2_at(bytes)?;
    if class != ANY_CLASS && !names_class(types, class) {
        return Err(bad_method(index));
    }
    Ok((class, rest))
}

/// A handler of the method at an index.
#[tactic(auto, unfolding(crate::specs::Reading::handler_at))]
fn handler_at<'a>(
    types: &[TypeEntry],
    index: u16,
    before: &[HandlerEntry],
    bytes: &'a [u8],
) -> Result<(HandlerEntry, &'a [u8]), FormRefusal>
    ensures { Shows (λ x. (x.0, x.1.now)) result (handler_at types.now index before.now bytes.now) }
{
    let (start, rest) = u2_at(bytes)?;
    let (end, rest) = u2_at(rest)?;
    let (target, rest) = u2_at(rest)?;
    let (class, rest) = caught_at(types, index, rest)?;
    let handler = HandlerEntry {
        start,
        end,
        target,
        class,
    };
    Ok((handler, rest))
}

/// So many handlers of the method at an index.
fn listed_handlers<'a>(
    alloc: Global,
    types: &[TypeEntry],
    index: u16,
    count: u16,
    bytes: &'a [u8],
) -> Result<(Vec<HandlerEntry>, &'a [u8]), FormRefusal>
    ensures { Shows (λ x. (x.0.items, x.1.now)) result (items_at (handler_at types.now index) count [] bytes.now) }
{
    let mut handlers = Vec::new(alloc);
    let mut rest = bytes;
    for _ in 0..count {
        let (handler, after) = handler_at(types, index, handlers.as_slice(), rest)?;
        handlers.push(handler)?;
        rest = after;
    }
    Ok((handlers, rest))
}

/// The handlers of the method at an index, after their count.
#[tactic(auto, unfolding(crate::specs::Reading::handlers_at))]
fn handlers_at<'a>(
    alloc: Global,
    types: &[TypeEntry],
    index: u16,
    bytes: &'a [u8],
) -> Result<(Items<HandlerEntry>, &'a [u8]), FormRefusal>
    ensures { Shows (λ x. (x.0, x.1.now)) result (handlers_at types.now index bytes.now) }
{
    let (count, rest) = u2_at(bytes)?;
    let (handlers, rest) = listed_handlers(alloc, types, index, count, rest)?;
    Ok((Items::from_vec(handlers), rest))
}

/// The code of the method at an index, after its length.
#[tactic(auto, unfolding(crate::specs::Reading::code_at))]
fn code_at(alloc: Global, index: u16, bytes: &[u8]) -> Result<(Items<u8>, &[u8]), FormRefusal>
    ensures { Shows (λ x. (x.0, x.1.now)) result (code_at index bytes.now) }
{
    let (size, rest) = u2_at(bytes)?;
    if size < 1 {
        return Err(bad_method(index));
    }
    slice_at(alloc, size, rest)
}

/// The reference locals of the method at an index, its arguments among them.
fn ref_locals_at(index: u16, sig: Sig, bytes: &[u8]) -> Result<(u16, &[u8]), FormRefusal>
    ensures { Shows (λ x. (x.0, x.1.now)) result (tested (nat_le sig.refs) (in_methods index) (u2_at bytes.now)) }
{
    let (ref_locals, rest) = u2_at(bytes)?;
    if ref_locals < u16::from(sig.refs) {
        return Err(bad_method(index));
    }
    Ok((ref_locals, rest))
}

/// The cells of the other locals of the method at an index, its arguments among them.
fn cell_locals_at(index: u16, sig: Sig, bytes: &[u8]) -> Result<(u16, &[u8]), FormRefusal>
    ensures { Shows (λ x. (x.0, x.1.now)) result (tested (nat_le sig.cells) (in_methods index) (u2_at bytes.now)) }
{
    let (cell_locals, rest) = u2_at(bytes)?;
    if cell_locals < sig.cells {
        return Err(bad_method(index));
    }
    Ok((cell_locals, rest))
}

/// A body holds so many locals.
fn locals_fit(ref_locals: u16, cell_locals: u16, body: u16) -> bool
    ensures { result ≡ nat_le (ref_locals + cell_locals) body }
{
    u32::from(ref_locals) + u32::from(cell_locals) <= u32::from(body)
}

/// The cells of the frame's body of the method at an index, which has so many locals.
fn body_at(
    index: u16,
    ref_locals: u16,
    cell_locals: u16,
    bytes: &[u8],
) -> Result<(u16, &[u8]), FormRefusal>
    ensures { Shows (λ x. (x.0, x.1.now)) result (tested (λ body. nat_le (ref_locals + cell_locals) body && nat_le body 32763) (in_methods index) (u2_at bytes.now)) }
{
    let (body, rest) = u2_at(bytes)?;
    if !locals_fit(ref_locals, cell_locals, body) || body > MOST_BODY {
        return Err(bad_method(index));
    }
    Ok((body, rest))
}

/// The locals and the body of a frame of the method at an index.
#[tactic(auto, unfolding(crate::specs::Reading::frame_at))]
fn frame_at(index: u16, sig: Sig, bytes: &[u8]) -> Result<((u16, u16, u16), &[u8]), FormRefusal>
    ensures { Shows (λ x. (x.0, x.1.now)) result (frame_at index sig bytes.now) }
{
    let (ref_locals, rest) = ref_locals_at(index, sig, bytes)?;
    let (cell_locals, rest) = cell_locals_at(index, sig, rest)?;
    let (body, rest) = body_at(index, ref_locals, cell_locals, rest)?;
    Ok(((ref_locals, cell_locals, body), rest))
}

/// The method after these methods.
#[tactic(auto, unfolding(crate::specs::Reading::method_at))]
fn method_at<'a>(
    alloc: Global,
    types: &[TypeEntry],
    before: &[Method],
    bytes: &'a [u8],
) -> Result<(Method, &'a [u8]), FormRefusal>
    requires { length before.now < 2 ^ 16 }
    ensures { Shows (λ x. (x.0, x.1.now)) result (method_at types.now before.now bytes.now) }
{
    let index = before.len() as u16;
    let (refs, rest) = u1_at(bytes)?;
    let (sig, rest) = signature_at(refs, bad_method(index), rest)?;
    let ((ref_locals, cell_locals, body), rest) = frame_at(index, sig, rest)?;
    let (code, rest) = code_at(alloc, index, rest)?;
    let (handlers, rest) = handlers_at(alloc, types, index, rest)?;
    let method = Method {
        sig,
        ref_locals,
        cell_locals,
        body,
        code,
        handlers,
    };
    Ok((method, rest))
}

/// So many methods.
fn listed_methods<'a>(
    alloc: Global,
    types: &[TypeEntry],
    count: u16,
    bytes: &'a [u8],
) -> Result<(Vec<Method>, &'a [u8]), FormRefusal>
    ensures { Shows (λ x. (x.0.items, x.1.now)) result (items_at (method_at types.now) count [] bytes.now) }
{
    let mut methods = Vec::new(alloc);
    let mut rest = bytes;
    for _ in 0..count {
        let (method, after) = method_at(alloc, types, methods.as_slice(), rest)?;
        methods.push(method)?;
        rest = after;
    }
    Ok((methods, rest))
}

/// The methods after their count.
#[tactic(auto, unfolding(crate::specs::Reading::methods_at))]
pub(crate) fn methods_at<'a>(
    alloc: Global,
    types: &[TypeEntry],
    bytes: &'a [u8],
) -> Result<(Items<Method>, &'a [u8]), FormRefusal>
    ensures { Shows (λ x. (x.0, x.1.now)) result (methods_at types.now bytes.now) }
{
    let (count, rest) = u2_at(bytes)?;
    if count > MOST_METHODS {
        return Err(bad_method(0));
    }
    let (methods, rest) = listed_methods(alloc, types, count, rest)?;
    Ok((Items::from_vec(methods), rest))
}
