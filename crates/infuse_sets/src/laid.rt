use crate::typed::TypedBody;
use jvm_model::Plan;

/// A typed body, and how its frame is laid out.
#[derive(Debug, Drop)]
pub(crate) struct LaidBody<'a, 'b> {
    pub(crate) typed: &'a TypedBody<'b>,
    pub(crate) plan: Plan,
}
