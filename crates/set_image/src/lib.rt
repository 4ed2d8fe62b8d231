//! What a closed set of typed classes is compiled to: its image, and why it has none. The definitions are in specs/: the
//! set with its bodies and types (Linked), and the refusals in their order (LinkRefusals). This crate stands on
//! `jvm_model`, `class_tree`, `body_form` and `image_form`.
#![tactic(auto)]
