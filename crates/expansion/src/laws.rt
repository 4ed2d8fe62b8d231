ghost use Rattle.std.specs.Prelude.{◌≡◌, ℕ, Option, length};
ghost use Rattle.std.specs.List.{AllByRecursion};
ghost use Rattle.class_pool.specs.declared.descriptor.Kind.{Kind as DeclaredKind};
ghost use Rattle.body_form.specs.declared.op.Op.{Op};
ghost use Rattle.jvm_model.specs.WidthsShapes.{Point};
ghost use Rattle.jvm_model.specs.ImageExpansion.{Locals, Ids, expanded};
ghost use Rattle.jvm_model.specs.ImageEmission.{Source, bytes_at, size_at};
ghost use Rattle.expansion.specs.declared.around.Around.{Around};
ghost use Rattle.expansion.specs.declared.around.Numbers.{Numbers};
ghost use Rattle.expansion.specs.Expanding.{insns, expansion_of};
ghost use Rattle.expansion.specs.Seen.{IsAround, AreNumbers, rows_at, with_rows, Keeps, KeepsRows};

/// The machine instructions of an instruction hang on no more than the numbers of what it names and the operands that
/// it looks at, all have the rows of a switch, or none, and keep to their
/// limits where the switch does. They have as many bytes wherever jumps lead.
pub fn expansion_hangs_on_what_it_names()
    ensures alike { (locals : Locals) (ids : Ids) (offset : ℕ → ℕ) (numbers : Numbers) (seen : Point) (around : Around) (returned : Option DeclaredKind) (instruction : Op) → AreNumbers locals ids offset numbers instruction → IsAround seen around instruction → insns (expanded locals ids offset returned seen instruction) ≡ expansion_of around numbers returned instruction }
    ensures rows { (locals : Locals) (ids : Ids) (offset : ℕ → ℕ) (seen : Point) (returned : Option DeclaredKind) (instruction : Op) → expanded locals ids offset returned seen instruction ≡ with_rows (rows_at offset instruction) (insns (expanded locals ids offset returned seen instruction)) }
    ensures limits { (locals : Locals) (ids : Ids) (offset : ℕ → ℕ) (seen : Point) (returned : Option DeclaredKind) (instruction : Op) → KeepsRows instruction → AllByRecursion Keeps (expanded locals ids offset returned seen instruction) }
    ensures sizes { (source : Source) (offset : ℕ → ℕ) (x : ℕ × Op) → length (bytes_at source offset x) ≡ size_at source x }
{}
