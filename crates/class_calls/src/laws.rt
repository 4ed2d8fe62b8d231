//! The laws of the readers and of sets are calls without an answer.

use class_file::prefixes_decide;
use class_pool::one_value;
use class_tree::{
    found_are_members, lookups_are_ruled, merges_are_joins, one_answer, tests_are_relations,
};

#[test]
fn laws_are_called() {
    one_value();
    prefixes_decide();
    lookups_are_ruled();
    merges_are_joins();
    found_are_members();
    one_answer();
    tests_are_relations();
}
