//! The names of the classes of a set, in the order of their files, each once.

ghost use Rattle.std.specs.Prelude.{◌≡◌, ◌⊎◌, ◌≤◌, false, [], ◌∷◌, ◌++◌, None, Some, map, length, ◌<◌, ◌+◌, IfSome, IfOk, IfErr, OnOk, OnErr, if◌then◌else◌};
ghost use Rattle.std.specs.List.{list_any, position_or_len};
ghost use Rattle.std.specs.Str.{bytes_eq};
ghost use Rattle.class_tree.specs.declared.refusal.TreeRefusal.TheVariants.{Memory};
ghost use Rattle.class_tree.specs.Set.{own_name as own_name_of, number_among as number_among_names};
ghost use Rattle.class_tree.specs.Names.{is_reserved as is_reserved_name, fault_after, names_refusal};

use crate::refusal::TreeRefusal;
use class_file::ClassFile;
use indexmap::IndexSet;
use library::{FIRST_OWN, class_of_name};
use std::alloc::{AllocError, Global};
use std::marker::Model;

/// Names in the order in which they were first seen, found at the cost of a look-up. Contracts see their
/// list.
#[derive(Debug, Drop)]
pub(crate) struct Names {
    set: IndexSet<Vec<u8>>,
}

impl Model for Names {
    ghost use Rattle.std.specs.Prelude.{ℕ, List, map};

    ghost Value = { List (List ℕ) };

    ghost view = { λ names. map (λ v. v.items) names.set.keys };
}

impl Names {
    /// No names; takes no memory.
    pub(crate) fn new(alloc: Global) -> Names
        ensures { result ≡ [] }
    {
        Names {
            set: IndexSet::new(alloc),
        }
    }

    /// The name is there.
    #[tactic(auto, using(crate::proofs::tables::Finding::list_any_map))]
    fn has(&self, name: &[u8]) -> bool
        ensures { result ≡ list_any (bytes_eq name.now) self.now }
    {
        self.set.contains(name)
    }

    /// Adds a name that is not there after the others.
    fn push(&mut self, alloc: Global, name: &[u8]) -> Result<(), AllocError>
        requires { list_any (bytes_eq name.now) self.old ≡ false }
        ensures { OnOk result (self.new ≡ self.old ++ name.now ∷ []) }
    {
        let name = Vec::from_slice(alloc, name)?;
        self.set.insert(name)?;
        Ok(())
    }

    /// Adds a name after the others, where it is not there.
    pub(crate) fn add(&mut self, alloc: Global, name: &[u8]) -> Result<(), AllocError>
        ensures { OnOk result (self.new ≡ (if list_any (bytes_eq name.now) self.old then self.old else self.old ++ name.now ∷ [])) }
    {
        if self.has(name) {
            return Ok(());
        }
        self.push(alloc, name)
    }

    /// The position of a name, or how many names there are.
    #[tactic(auto, using(crate::proofs::tables::Finding::position_map))]
    pub(crate) fn position_of(&self, name: &[u8]) -> usize
        ensures { result ≡ position_or_len (bytes_eq name.now) self.now }
    {
        match self.set.get_index_of(name) {
            Some(position) => position,
            None => self.set.len(),
        }
    }

    /// How many names there are.
    pub(crate) fn count(&self) -> usize
        ensures { result ≡ length self.now }
    {
        self.set.len()
    }

    /// The number of the class of this name, in a set of these names.
    pub(crate) fn number_of(&self, name: &[u8]) -> Option<u16>
        requires { length self.now ≤ 512 }
        ensures number { result ≡ number_among_names self.now name.now }
        ensures within { IfSome result (λ class. class < 32 + length self.now) }
    {
        match class_of_name(name) {
            Some(class) => Some(class),
            None => match self.set.get_index_of(name) {
                Some(file) => Some(FIRST_OWN + file as u16),
                None => None,
            },
        }
    }
}

/// The name of the class of a file.
pub(crate) fn own_name(file: &ClassFile) -> &[u8]
    ensures { result.now ≡ own_name_of file.now }
{
    match file.pool.class_name(file.this_class) {
        Some(name) => name,
        None => &[],
    }
}

/// The name begins as those of the library do.
fn is_reserved(name: &[u8]) -> bool
    ensures { result ≡ is_reserved_name name.now }
{
    name.starts_with(b"java/") || name.starts_with(b"mote/")
}

/// Adds the name of a file's class to those of the earlier files.
fn add_name(
    alloc: Global,
    names: &mut Names,
    file: u32,
    class: &ClassFile,
) -> Result<(), TreeRefusal>
    ensures added { OnOk result (names.new ≡ names.old ++ own_name_of class.now ∷ []) }
    ensures passed { OnOk result (fault_after names.old file (own_name_of class.now) ≡ None) }
    ensures refused { IfErr result (λ why. (why ≡ Memory) ⊎ (fault_after names.old file (own_name_of class.now) ≡ Some why)) }
{
    let name = own_name(class);
    if names.has(name) {
        return Err(TreeRefusal::Duplicate { file });
    }
    if is_reserved(name) {
        return Err(TreeRefusal::Reserved { file });
    }
    names.push(alloc, name)?;
    Ok(())
}

/// The names of the classes of the files.
pub(crate) fn names_of(alloc: Global, files: &[ClassFile]) -> Result<Names, TreeRefusal>
    requires { length files.now ≤ 512 }
    ensures named { IfOk result (λ names. names ≡ map own_name_of files.now) }
    ensures passed { IfOk result (λ names. names_refusal files.now ≡ None) }
    ensures refused { IfErr result (λ why. (why ≡ Memory) ⊎ (names_refusal files.now ≡ Some why)) }
{
    let mut names = Names::new(alloc);
    for (file, class) in files.iter().enumerate() {
        match add_name(alloc, &mut names, file as u32, class) {
            Ok(()) => {}
            Err(why) => return Err(why),
        }
    }
    Ok(names)
}
