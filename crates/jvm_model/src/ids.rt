//! The numbers of all that the image of a set names, and how an emission asks for them.

ghost use Rattle.std.specs.Prelude.{◌≡◌, ◌<◌, length};
ghost use Rattle.jvm_model.specs.ImageNumbering.{ids_of, library_id as library_id_of, method_id as method_id_of};
ghost use Rattle.jvm_model.specs.NumberedIds.{numbers_of};

use crate::id_lists::{MemberList, TypeList};
use crate::numbers::Layout;
use crate::place_list::PlaceList;
use crate::selector_list::SelectorList;
use class_pool::{MemberId, TypeBase, TypeRef};
use item_list::Items;
use library::{FIRST_OWN, methods_of};

/// The ids of types and methods, which begin behind those of the library, the numbers of selectors, the places of
/// fields, the cells of statics before main starts, and the id of main. `layouts` are those of the classes, in the
/// order of their ids.
#[derive(Debug, Drop)]
pub struct Ids {
    pub types: TypeList,
    pub selectors: SelectorList,
    pub methods: MemberList,
    pub layouts: Items<Layout>,
    pub fields: PlaceList,
    pub static_refs: u16,
    pub static_cells: Items<u16>,
    pub main: u16,
}

/// The class of the library that a type is.
fn library_id(of: TypeRef) -> Option<u16>
    ensures { result ≡ library_id_of of }
{
    match of.base {
        TypeBase::Class(class) if of.dims == 0 && class < FIRST_OWN => Some(class),
        _ => None,
    }
}

impl MemberList {
    /// The id of a method: a native has its own.
    pub fn id_of(&self, method: MemberId) -> u16
        requires { length self.now < 65504 }
        ensures { result ≡ method_id_of self.now method }
    {
        match methods_of(method.class).get(usize::from(method.member)) {
            Some(native) => native.number(),
            None => match self.position_of(method) {
                Some(position) => FIRST_OWN + position as u16,
                None => FIRST_OWN,
            },
        }
    }
}

impl Ids {
    /// The id of a type; a class of the library has its number.
    pub fn type_id(&self, of: TypeRef) -> u16
        requires { length self.now.types < 65504 }
        ensures { result ≡ (ids_of (numbers_of self.now)).type of }
    {
        match library_id(of) {
            Some(class) => class,
            None => match self.types.position_of(of) {
                Some(position) => FIRST_OWN + position as u16,
                None => FIRST_OWN,
            },
        }
    }

    /// The id of a method; a native has its own.
    pub fn method_id(&self, method: MemberId) -> u16
        requires { length self.now.methods < 65504 }
        ensures { result ≡ (ids_of (numbers_of self.now)).method method }
    {
        self.methods.id_of(method)
    }

    /// The place of a field of an object, or of a static.
    pub fn place(&self, field: MemberId) -> u16
        ensures of_object { result ≡ (ids_of (numbers_of self.now)).field field }
        ensures of_class { result ≡ (ids_of (numbers_of self.now)).static field }
    {
        self.fields.place_of(field)
    }
}
