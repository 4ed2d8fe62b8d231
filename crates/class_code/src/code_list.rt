ghost use Rattle.std.specs.Prelude.{◌≡◌, ◌↔◌, ◌<◌, ◌^◌, ◌⊎◌, length, map, IfOk, IfErr, IfSome, IsNone, IsTrue, Some, Ok, Err};
ghost use Rattle.std.specs.List.{list_all, AllByRecursion};
ghost use Rattle.class_code.specs.declared.refusal.CodeRefusal.{CodeRefusal};
ghost use Rattle.class_code.specs.declared.refusal.CodeRefusal.TheVariants.{Memory};
ghost use Rattle.class_code.specs.Code.{Insns, IsCode, IsRefused, RiseFrom, IsStart, HandlerFits, IsFirstUnfit, Answers, at_pc, insns_of, is_start as is_start_of, jumps_to_starts, first_astray, decoded, handler_fits, first_unfit};

use crate::insn::Insn;
use crate::refusal::{CodeRefusal, Fault};
use crate::table::insn_at;
use class_file::HandlerRow;
use insn_form::SwitchRow;
use std::alloc::Global;
use std::marker::Model;

/// The instructions of a method's code, each with its pc. The pcs rise.
#[derive(Debug, Drop)]
pub struct CodeList {
    insns: Vec<(u32, Insn)>,
}

impl Model for CodeList {
    ghost use Rattle.class_code.specs.Code.{Insns, RiseFrom};

    ghost Value = { Insns };

    ghost view = { λ list. list.insns.items };

    ghost invariant = { λ list. RiseFrom 0 list.insns.items };
}

impl CodeList {
    /// The instructions in order.
    pub fn as_slice(&self) -> &[(u32, Insn)]
        ensures all { result.now ≡ self.now }
        ensures rise { RiseFrom 0 self.now }
    {
        self.insns.as_slice()
    }

    /// The instructions in order, without taking memory.
    pub fn into_vec(self) -> Vec<(u32, Insn)>
        ensures all { result.items ≡ self }
        ensures rise { RiseFrom 0 self }
    {
        let CodeList { insns } = self;
        insns
    }

    /// Whether an instruction is at a pc.
    pub fn is_start(&self, pc: u32) -> bool
        ensures meaning { IsTrue result ↔ IsStart self.now pc }
        ensures test { result ≡ is_start_of self.now pc }
    {
        self.insns.binary_search_by_key(&pc, |x| x.0).is_ok()
    }
}

/// The fault at a pc.
fn at_pc(pc: u32, fault: Fault) -> CodeRefusal
    ensures { result ≡ at_pc pc fault }
{
    match fault {
        Fault::Unsupported(opcode) => CodeRefusal::Unsupported { pc, opcode },
        Fault::BadCode => CodeRefusal::BadCode { pc },
        Fault::Memory => CodeRefusal::Memory,
    }
}

/// The instructions, one after the other.
fn insns(alloc: Global, code: &[u8]) -> Result<Vec<(u32, Insn)>, CodeRefusal>
    requires { length code.now < 2 ^ 32 }
    ensures { Answers (λ v. v.items) result (insns_of 0 code.now) }
{
    let mut insns = Vec::new(alloc);
    let mut pc = 0;
    let mut rest = code;
    while !rest.is_empty() {
        match insn_at(alloc, pc, rest) {
            Ok((insn, suffix)) => {
                insns.push((pc, insn))?;
                pc += (rest.len() - suffix.len()) as u32;
                rest = suffix;
            }
            Err(fault) => return Err(at_pc(pc, fault)),
        }
    }
    Ok(insns)
}

/// Whether each row of a switch leads to a start.
fn rows_fit(list: &CodeList, rows: &[SwitchRow]) -> bool
    ensures { result ≡ list_all (λ row. is_start_of list.now row.target) rows.now }
{
    rows.iter().all(|row| list.is_start(row.target))
}

/// Whether each target of an instruction is a start.
fn jumps_to_starts(list: &CodeList, insn: &Insn) -> bool
    ensures { result ≡ jumps_to_starts list.now insn.now }
{
    match insn {
        Insn::If(_, target)
        | Insn::IfCmp(_, target)
        | Insn::IfRef(_, target)
        | Insn::Goto(target) => list.is_start(*target),
        Insn::Switch { default, rows, .. } => {
            list.is_start(*default) && rows_fit(list, rows.as_slice())
        }
        _ => true,
    }
}

/// The pc of the first instruction of which a target is no start.
fn first_astray(list: &CodeList) -> Option<u32>
    ensures { result ≡ first_astray list.now }
{
    for x in list.as_slice() {
        if !jumps_to_starts(list, &x.1) {
            return Some(x.0);
        }
    }
    None
}

/// The instructions of some code, or the first failure.
fn decoded(alloc: Global, code: &[u8]) -> Result<CodeList, CodeRefusal>
    ensures { Answers (λ list. list) result (decoded code.now) }
{
    if code.len() > u32::MAX as usize {
        return Err(CodeRefusal::Memory);
    }
    let insns = insns(alloc, code)?;
    let list = CodeList { insns };
    match first_astray(&list) {
        Some(pc) => Err(CodeRefusal::BadCode { pc }),
        None => Ok(list),
    }
}

/// The instructions of a method's code (JVMS 4.7.3), in one pass from the first byte. The first
/// instruction that fails gives the refusal. Where none fails, it is the first jump or switch of which
/// a target is no start of an instruction.
pub fn decode(alloc: Global, code: &[u8]) -> Result<CodeList, CodeRefusal>
    // What is answered is the code, and the code is answered.
    ensures found { IfOk result (IsCode code.now) }
    ensures only { (insns : Insns) → IsCode code.now insns → Answers (λ list. list) result (Ok insns) }

    // Which refusal it is.
    ensures refused { IfErr result (λ why. (why ≡ Memory) ⊎ IsRefused code.now why) }
    ensures refused_only { (why : CodeRefusal) → IsRefused code.now why → Answers (λ list. list) result (Err why) }

    ensures exact { Answers (λ list. list) result (decoded code.now) }
{
    decoded(alloc, code)
}

/// Whether the bounds and the handler of a row are starts. Its end may be the length of the code.
fn handler_fits(list: &CodeList, row: HandlerRow, length: u32) -> bool
    ensures { result ≡ handler_fits list.now length row }
{
    let end = u32::from(row.end);
    list.is_start(u32::from(row.start))
        && (end == length || list.is_start(end))
        && list.is_start(u32::from(row.target))
}

/// The start of the first row that does not fit.
fn first_unfit(list: &CodeList, rows: &[HandlerRow], length: u32) -> Option<u32>
    ensures { result ≡ first_unfit list.now length rows.now }
{
    for row in rows {
        if !handler_fits(list, *row, length) {
            return Some(u32::from(row.start));
        }
    }
    None
}

/// The start of the first row of an exception table (JVMS 4.7.3) of which a bound or the handler is no
/// start of an instruction. An end may be the length of the code.
pub fn handlers_fit(list: &CodeList, rows: &[HandlerRow], length: u32) -> Option<u32>
    ensures none { IsNone result ↔ AllByRecursion (HandlerFits list.now length) rows.now }
    ensures first { IfSome result (IsFirstUnfit list.now length rows.now) }
    ensures exact { result ≡ first_unfit list.now length rows.now }
{
    first_unfit(list, rows, length)
}
