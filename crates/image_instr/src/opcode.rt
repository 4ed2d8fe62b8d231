//! The first byte of each machine instruction, by its name in docs/INFUSION.md. Where one name is for
//! several operations or conditions, theirs follows it.

// Constants.
pub(crate) const CONST1: u8 = 0x01;

pub(crate) const CONST2: u8 = 0x02;

pub(crate) const SMALL1: u8 = 0x03;

pub(crate) const SMALL2: u8 = 0x04;

pub(crate) const MID2: u8 = 0x05;

pub(crate) const NULL: u8 = 0x06;

// Locals.
pub(crate) const RLOAD: u8 = 0x07;

pub(crate) const RSTORE: u8 = 0x08;

pub(crate) const RCLEAR: u8 = 0x09;

pub(crate) const LOAD1: u8 = 0x0a;

pub(crate) const LOAD2: u8 = 0x0b;

pub(crate) const STORE1: u8 = 0x0c;

pub(crate) const STORE2: u8 = 0x0d;

pub(crate) const INC1: u8 = 0x0e;

pub(crate) const INC2: u8 = 0x0f;

// Operands.
pub(crate) const RDUPX: u8 = 0x10;

pub(crate) const DUPX: u8 = 0x11;

pub(crate) const RPOP: u8 = 0x12;

pub(crate) const POP: u8 = 0x13;

pub(crate) const RSWAP: u8 = 0x14;

pub(crate) const SWAP: u8 = 0x15;

pub(crate) const DROP: u8 = 0x16;

// Operations on numbers of one cell: BIN1 with the operation's code, and NEG1.
pub(crate) const BIN1_ADD: u8 = 0x20;

pub(crate) const BIN1_SUB: u8 = 0x21;

pub(crate) const BIN1_MUL: u8 = 0x22;

pub(crate) const BIN1_DIV: u8 = 0x23;

pub(crate) const BIN1_REM: u8 = 0x24;

pub(crate) const BIN1_SHL: u8 = 0x25;

pub(crate) const BIN1_SHR: u8 = 0x26;

pub(crate) const BIN1_USHR: u8 = 0x27;

pub(crate) const BIN1_AND: u8 = 0x28;

pub(crate) const BIN1_OR: u8 = 0x29;

pub(crate) const BIN1_XOR: u8 = 0x2a;

pub(crate) const NEG1: u8 = 0x2b;

// Operations on numbers of two cells: BIN2 with the operation's code, and NEG2.
pub(crate) const BIN2_ADD: u8 = 0x30;

pub(crate) const BIN2_SUB: u8 = 0x31;

pub(crate) const BIN2_MUL: u8 = 0x32;

pub(crate) const BIN2_DIV: u8 = 0x33;

pub(crate) const BIN2_REM: u8 = 0x34;

pub(crate) const BIN2_SHL: u8 = 0x35;

pub(crate) const BIN2_SHR: u8 = 0x36;

pub(crate) const BIN2_USHR: u8 = 0x37;

pub(crate) const BIN2_AND: u8 = 0x38;

pub(crate) const BIN2_OR: u8 = 0x39;

pub(crate) const BIN2_XOR: u8 = 0x3a;

pub(crate) const NEG2: u8 = 0x3b;

// Conversions.
pub(crate) const SX: u8 = 0x41;

pub(crate) const ZX: u8 = 0x42;

pub(crate) const SB: u8 = 0x43;

pub(crate) const BIT: u8 = 0x44;

// A number of one cell against 0: JZ1 with the condition's code.
pub(crate) const JZ1_EQ: u8 = 0x50;

pub(crate) const JZ1_NE: u8 = 0x51;

pub(crate) const JZ1_LT: u8 = 0x52;

pub(crate) const JZ1_GE: u8 = 0x53;

pub(crate) const JZ1_GT: u8 = 0x54;

pub(crate) const JZ1_LE: u8 = 0x55;

// A number of two cells against 0: JZ2 with the condition's code.
pub(crate) const JZ2_EQ: u8 = 0x58;

pub(crate) const JZ2_NE: u8 = 0x59;

pub(crate) const JZ2_LT: u8 = 0x5a;

pub(crate) const JZ2_GE: u8 = 0x5b;

pub(crate) const JZ2_GT: u8 = 0x5c;

pub(crate) const JZ2_LE: u8 = 0x5d;

// Two numbers of one cell: JCMP1 with the condition's code.
pub(crate) const JCMP1_EQ: u8 = 0x60;

pub(crate) const JCMP1_NE: u8 = 0x61;

pub(crate) const JCMP1_LT: u8 = 0x62;

pub(crate) const JCMP1_GE: u8 = 0x63;

pub(crate) const JCMP1_GT: u8 = 0x64;

pub(crate) const JCMP1_LE: u8 = 0x65;

// Two numbers of two cells: JCMP2 with the condition's code.
pub(crate) const JCMP2_EQ: u8 = 0x68;

pub(crate) const JCMP2_NE: u8 = 0x69;

pub(crate) const JCMP2_LT: u8 = 0x6a;

pub(crate) const JCMP2_GE: u8 = 0x6b;

pub(crate) const JCMP2_GT: u8 = 0x6c;

pub(crate) const JCMP2_LE: u8 = 0x6d;

// Tests of references.
pub(crate) const RJEQ: u8 = 0x70;

pub(crate) const RJNE: u8 = 0x71;

pub(crate) const RJNULL: u8 = 0x72;

pub(crate) const RJNONNULL: u8 = 0x73;

// Jumps, switches and tables.
pub(crate) const GOTO: u8 = 0x74;

pub(crate) const SWITCH1: u8 = 0x75;

pub(crate) const SWITCH2: u8 = 0x76;

pub(crate) const TABLE1: u8 = 0x77;

pub(crate) const TABLE2: u8 = 0x78;

// Returns.
pub(crate) const RET: u8 = 0x79;

pub(crate) const RRET: u8 = 0x7a;

pub(crate) const RET1: u8 = 0x7b;

pub(crate) const RET2: u8 = 0x7c;

// Statics.
pub(crate) const RGETS: u8 = 0x80;

pub(crate) const RPUTS: u8 = 0x81;

pub(crate) const GETS1: u8 = 0x82;

pub(crate) const GETS2: u8 = 0x83;

pub(crate) const PUTS1: u8 = 0x84;

pub(crate) const PUTS2: u8 = 0x85;

// Fields.
pub(crate) const RGETF: u8 = 0x86;

pub(crate) const RPUTF: u8 = 0x87;

pub(crate) const GETF1: u8 = 0x88;

pub(crate) const GETF2: u8 = 0x89;

pub(crate) const PUTF1: u8 = 0x8a;

pub(crate) const PUTF2: u8 = 0x8b;

// Arrays.
pub(crate) const NEWARR1: u8 = 0x90;

pub(crate) const NEWARR2: u8 = 0x91;

pub(crate) const MULTI: u8 = 0x92;

pub(crate) const ALEN: u8 = 0x93;

// Elements that are loaded, by the width of the index.
pub(crate) const RALOAD1: u8 = 0xa0;

pub(crate) const RALOAD2: u8 = 0xa1;

pub(crate) const BALOAD1: u8 = 0xa2;

pub(crate) const BALOAD2: u8 = 0xa3;

pub(crate) const HALOAD1: u8 = 0xa4;

pub(crate) const HALOAD2: u8 = 0xa5;

pub(crate) const IALOAD1: u8 = 0xa6;

pub(crate) const IALOAD2: u8 = 0xa7;

// Elements that are stored.
pub(crate) const RASTORE1: u8 = 0xa8;

pub(crate) const RASTORE2: u8 = 0xa9;

pub(crate) const BASTORE1: u8 = 0xaa;

pub(crate) const BASTORE2: u8 = 0xab;

pub(crate) const HASTORE1: u8 = 0xac;

pub(crate) const HASTORE2: u8 = 0xad;

pub(crate) const IASTORE1: u8 = 0xae;

pub(crate) const IASTORE2: u8 = 0xaf;

// Objects and calls.
pub(crate) const NEW: u8 = 0xb0;

pub(crate) const CAST: u8 = 0xb1;

pub(crate) const INST: u8 = 0xb2;

pub(crate) const THROW: u8 = 0xb3;

pub(crate) const CALLS: u8 = 0xb4;

pub(crate) const CALLX: u8 = 0xb5;

pub(crate) const CALLV: u8 = 0xb6;

pub(crate) const CALLI: u8 = 0xb7;
