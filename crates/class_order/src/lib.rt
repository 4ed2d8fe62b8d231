//! The order of the classes of a closed set by their numbers: each class of a file has one, behind those of the files'
//! classes that stand directly above it. That is a law, `class_order_is_right`; the order is `class_order` of `jvm_model`, in
//! specs/ImageNumbering.antt, and proofs/ has lemmas that are handed on. This crate has no code of its own. It stands on
//! `jvm_model` and `class_tree`.
#![tactic(auto)]

mod laws;

pub use laws::class_order_is_right;
