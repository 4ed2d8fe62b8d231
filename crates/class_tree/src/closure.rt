//! To which numbers a number leads, in one or more steps: the table is made once, so that no walk goes by
//! paths.

ghost use Rattle.std.specs.Prelude.{◌≡◌, ◌≢◌, ℕ, ◌<◌, [], map, length, get_or, OnOk};
ghost use Rattle.class_tree.specs.Closure.{Edges, StaysBelow, IsStep, IsSquare, IsRound, AreOver, IsClosure};

use std::alloc::{AllocError, Global};

/// Sets the flags of the pivot in the row, where the flag of the pivot's number is set in it.
fn step(row: &mut Vec<bool>, pivot: &[bool], number: usize)
    requires same_length { length row.old.items ≡ length pivot.now }
    requires number { number < length pivot.now }
    ensures { IsStep pivot.now number row.old.items row.new.items }
{
    if !row[number] {
        return;
    }
    for i in 0..pivot.len() {
        if pivot[i] {
            row[i] = true;
        }
    }
}

/// The row of a number.
#[tactic(auto, using(crate::proofs::tables::Rows::row_is))]
fn row_of(rows: &[Vec<bool>], number: usize) -> &[bool]
    requires { number < length rows.now }
    ensures { result.now ≡ get_or (map (λ v. v.items) rows.now) number [] }
{
    rows[number].as_slice()
}

/// Lets a row of the table lead where the pivot leads, if it leads to the pivot's number.
#[tactic(auto, using(crate::proofs::tables::Rows::row_is, crate::proofs::tables::Rows::row_set, crate::proofs::tables::Rows::row_other))]
fn step_at(rows: &mut Vec<Vec<bool>>, from: usize, pivot: &[bool], number: usize)
    requires from { from < length rows.old.items }
    requires same_length { length (get_or (map (λ v. v.items) rows.old.items) from []) ≡ length pivot.now }
    requires number { number < length pivot.now }
    ensures count { length rows.new.items ≡ length rows.old.items }
    ensures step { IsStep pivot.now number (get_or (map (λ v. v.items) rows.old.items) from []) (get_or (map (λ v. v.items) rows.new.items) from []) }
    ensures others { (other : ℕ) → other ≢ from → get_or (map (λ v. v.items) rows.new.items) other [] ≡ get_or (map (λ v. v.items) rows.old.items) other [] }
{
    step(&mut rows[from], pivot, number);
}

/// Lets each row that leads to this number lead where this number leads.
fn round(alloc: Global, rows: &mut Vec<Vec<bool>>, number: usize) -> Result<(), AllocError>
    requires number { number < length rows.old.items }
    requires square { IsSquare (length rows.old.items) (map (λ v. v.items) rows.old.items) }
    ensures { OnOk result (IsRound number (map (λ v. v.items) rows.old.items) (map (λ v. v.items) rows.new.items)) }
{
    let pivot = Vec::from_slice(alloc, row_of(rows.as_slice(), number))?;
    for from in 0..rows.len() {
        step_at(rows, from, pivot.as_slice(), number);
    }
    Ok(())
}

/// Makes the table of the numbers to which each number leads at once that of those to which it leads in one
/// or more steps.
pub(crate) fn close(alloc: Global, rows: &mut Vec<Vec<bool>>) -> Result<(), AllocError>
    requires { IsSquare (length rows.old.items) (map (λ v. v.items) rows.old.items) }
    ensures { (edge : Edges) → StaysBelow (length rows.old.items) edge → AreOver edge (length rows.old.items) 0 (map (λ v. v.items) rows.old.items)
        → OnOk result (IsClosure edge (length rows.old.items) (map (λ v. v.items) rows.new.items)) }
{
    for number in 0..rows.len() {
        round(alloc, rows, number)?;
    }
    Ok(())
}
