//! The signatures of selectors.

ghost use Rattle.std.specs.Prelude.{◌≡◌, map, IfOk};
ghost use Rattle.std.specs.List.{AllByRecursion};
ghost use Rattle.jvm_model.specs.ImageTables.{selector_signature as selector_signature_of};
ghost use Rattle.infuse_tables.specs.Tables.{IsShort};

use class_pool::{DescriptorRefusal, read_descriptor};
use image_instr::Sig;
use infuse_emit::signature;
use jvm_model::{Ids, Selector};
use std::alloc::{AllocError, Global};

/// The signature of a selector's methods, each of which is called on an object. A descriptor that is none, which no
/// selector has, is answered as that of a method that takes and gives nothing.
fn selector_signature(alloc: Global, selector: &Selector) -> Result<Sig, AllocError>
    requires { IsShort selector.now }
    ensures { IfOk result (λ sig. sig ≡ selector_signature_of selector.now) }
{
    match read_descriptor(alloc, selector.descriptor.as_slice()) {
        Ok(of) => Ok(signature(true, of.params.as_slice(), &of.result)),
        Err(DescriptorRefusal::BadDescriptor) => Ok(Sig {
            refs: 1,
            cells: 0,
            result: 0,
        }),
        Err(DescriptorRefusal::Memory) => Err(AllocError),
    }
}

/// The signatures of all selectors that are numbered, in their order.
pub fn selector_signatures(alloc: Global, ids: &Ids) -> Result<Vec<Sig>, AllocError>
    requires { AllByRecursion IsShort ids.now.selectors }
    ensures { IfOk result (λ list. list.items ≡ map selector_signature_of ids.now.selectors) }
{
    let mut list = Vec::new(alloc);
    for selector in ids.selectors.as_slice() {
        list.push(selector_signature(alloc, selector)?)?;
    }
    Ok(list)
}
