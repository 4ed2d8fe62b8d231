//! The opcodes that the table of instructions names, by their mnemonics (JVMS 6.5).

pub(crate) const NOP: u8 = 0;

pub(crate) const ACONST_NULL: u8 = 1;

pub(crate) const ICONST_M1: u8 = 2;

pub(crate) const ICONST_0: u8 = 3;

pub(crate) const ICONST_5: u8 = 8;

pub(crate) const BIPUSH: u8 = 16;

pub(crate) const SIPUSH: u8 = 17;

pub(crate) const LDC: u8 = 18;

pub(crate) const LDC_W: u8 = 19;

pub(crate) const LDC2_W: u8 = 20;

pub(crate) const ILOAD: u8 = 21;

pub(crate) const LLOAD: u8 = 22;

pub(crate) const DLOAD: u8 = 24;

pub(crate) const ALOAD: u8 = 25;

pub(crate) const ILOAD_0: u8 = 26;

pub(crate) const ILOAD_3: u8 = 29;

pub(crate) const ALOAD_0: u8 = 42;

pub(crate) const ALOAD_3: u8 = 45;

pub(crate) const IALOAD: u8 = 46;

pub(crate) const AALOAD: u8 = 50;

pub(crate) const BALOAD: u8 = 51;

pub(crate) const CALOAD: u8 = 52;

pub(crate) const SALOAD: u8 = 53;

pub(crate) const ISTORE: u8 = 54;

pub(crate) const LSTORE: u8 = 55;

pub(crate) const DSTORE: u8 = 57;

pub(crate) const ASTORE: u8 = 58;

pub(crate) const ISTORE_0: u8 = 59;

pub(crate) const ISTORE_3: u8 = 62;

pub(crate) const ASTORE_0: u8 = 75;

pub(crate) const ASTORE_3: u8 = 78;

pub(crate) const IASTORE: u8 = 79;

pub(crate) const AASTORE: u8 = 83;

pub(crate) const BASTORE: u8 = 84;

pub(crate) const CASTORE: u8 = 85;

pub(crate) const SASTORE: u8 = 86;

pub(crate) const POP: u8 = 87;

pub(crate) const POP2: u8 = 88;

pub(crate) const DUP: u8 = 89;

pub(crate) const DUP_X1: u8 = 90;

pub(crate) const DUP_X2: u8 = 91;

pub(crate) const DUP2: u8 = 92;

pub(crate) const DUP2_X1: u8 = 93;

pub(crate) const DUP2_X2: u8 = 94;

pub(crate) const SWAP: u8 = 95;

pub(crate) const IADD: u8 = 96;

pub(crate) const ISUB: u8 = 100;

pub(crate) const IMUL: u8 = 104;

pub(crate) const IDIV: u8 = 108;

pub(crate) const IREM: u8 = 112;

pub(crate) const INEG: u8 = 116;

pub(crate) const ISHL: u8 = 120;

pub(crate) const ISHR: u8 = 122;

pub(crate) const IUSHR: u8 = 124;

pub(crate) const IAND: u8 = 126;

pub(crate) const IOR: u8 = 128;

pub(crate) const IXOR: u8 = 130;

pub(crate) const IINC: u8 = 132;

pub(crate) const I2B: u8 = 145;

pub(crate) const I2C: u8 = 146;

pub(crate) const I2S: u8 = 147;

pub(crate) const DCMPG: u8 = 152;

pub(crate) const IFEQ: u8 = 153;

pub(crate) const IFLE: u8 = 158;

pub(crate) const IF_ICMPEQ: u8 = 159;

pub(crate) const IF_ICMPLE: u8 = 164;

pub(crate) const IF_ACMPEQ: u8 = 165;

pub(crate) const IF_ACMPNE: u8 = 166;

pub(crate) const GOTO: u8 = 167;

pub(crate) const RET: u8 = 169;

pub(crate) const TABLESWITCH: u8 = 170;

pub(crate) const LOOKUPSWITCH: u8 = 171;

pub(crate) const IRETURN: u8 = 172;

pub(crate) const ARETURN: u8 = 176;

pub(crate) const RETURN: u8 = 177;

pub(crate) const GETSTATIC: u8 = 178;

pub(crate) const PUTSTATIC: u8 = 179;

pub(crate) const GETFIELD: u8 = 180;

pub(crate) const PUTFIELD: u8 = 181;

pub(crate) const INVOKEVIRTUAL: u8 = 182;

pub(crate) const INVOKESPECIAL: u8 = 183;

pub(crate) const INVOKEINTERFACE: u8 = 185;

pub(crate) const INVOKEDYNAMIC: u8 = 186;

pub(crate) const NEW: u8 = 187;

pub(crate) const NEWARRAY: u8 = 188;

pub(crate) const ANEWARRAY: u8 = 189;

pub(crate) const ARRAYLENGTH: u8 = 190;

pub(crate) const ATHROW: u8 = 191;

pub(crate) const CHECKCAST: u8 = 192;

pub(crate) const MONITORENTER: u8 = 194;

pub(crate) const MONITOREXIT: u8 = 195;

pub(crate) const WIDE: u8 = 196;

pub(crate) const MULTIANEWARRAY: u8 = 197;

pub(crate) const IFNULL: u8 = 198;

pub(crate) const IFNONNULL: u8 = 199;

pub(crate) const GOTO_W: u8 = 200;

pub(crate) const JSR_W: u8 = 201;
