use body_form::Body;
use type_table::Types;

/// The body of a method, and the types of its values before each instruction that is reached.
#[derive(Debug, Drop)]
pub struct TypedBody<'a> {
    pub body: &'a Body,
    pub types: Types,
}
