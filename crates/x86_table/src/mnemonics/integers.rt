//! The names of rows for integers, strings, branches and the system, by their numbers in the order of the
//! table.

// Arithmetic and logic: two operands
pub const ADD: u16 = 0;

pub const OR: u16 = 1;

pub const ADC: u16 = 2;

pub const SBB: u16 = 3;

pub const AND: u16 = 4;

pub const SUB: u16 = 5;

pub const XOR: u16 = 6;

pub const CMP: u16 = 7;

pub const TEST: u16 = 8;

// No operation, exchange
pub const NOP: u16 = 9;

pub const PAUSE: u16 = 10;

pub const XCHG: u16 = 11;

// Moves, addresses, the stack
pub const MOV: u16 = 12;

pub const MOVABS: u16 = 13;

pub const LEA: u16 = 14;

pub const PUSH: u16 = 15;

pub const POP: u16 = 16;

pub const PUSHF: u16 = 17;

pub const POPF: u16 = 18;

// Arithmetic and logic: one operand
pub const INC: u16 = 19;

pub const DEC: u16 = 20;

pub const NOT: u16 = 21;

pub const NEG: u16 = 22;

pub const MUL: u16 = 23;

pub const IMUL: u16 = 24;

pub const DIV: u16 = 25;

pub const IDIV: u16 = 26;

// Shifts and rotations
pub const ROL: u16 = 27;

pub const ROR: u16 = 28;

pub const RCL: u16 = 29;

pub const RCR: u16 = 30;

pub const SHL: u16 = 31;

pub const SHR: u16 = 32;

pub const SAR: u16 = 33;

pub const SHLD: u16 = 34;

pub const SHRD: u16 = 35;

// Bits
pub const BT: u16 = 36;

pub const BTS: u16 = 37;

pub const BTR: u16 = 38;

pub const BTC: u16 = 39;

pub const BSF: u16 = 40;

pub const BSR: u16 = 41;

pub const POPCNT: u16 = 42;

pub const TZCNT: u16 = 43;

pub const LZCNT: u16 = 44;

pub const BSWAP: u16 = 45;

// Compare and exchange
pub const CMPXCHG: u16 = 46;

pub const XADD: u16 = 47;

pub const CMPXCHG8B: u16 = 48;

pub const CMPXCHG16B: u16 = 49;

// By condition
pub const SETO: u16 = 50;

pub const SETNO: u16 = 51;

pub const SETB: u16 = 52;

pub const SETAE: u16 = 53;

pub const SETE: u16 = 54;

pub const SETNE: u16 = 55;

pub const SETBE: u16 = 56;

pub const SETA: u16 = 57;

pub const SETS: u16 = 58;

pub const SETNS: u16 = 59;

pub const SETP: u16 = 60;

pub const SETNP: u16 = 61;

pub const SETL: u16 = 62;

pub const SETGE: u16 = 63;

pub const SETLE: u16 = 64;

pub const SETG: u16 = 65;

pub const CMOVO: u16 = 66;

pub const CMOVNO: u16 = 67;

pub const CMOVB: u16 = 68;

pub const CMOVAE: u16 = 69;

pub const CMOVE: u16 = 70;

pub const CMOVNE: u16 = 71;

pub const CMOVBE: u16 = 72;

pub const CMOVA: u16 = 73;

pub const CMOVS: u16 = 74;

pub const CMOVNS: u16 = 75;

pub const CMOVP: u16 = 76;

pub const CMOVNP: u16 = 77;

pub const CMOVL: u16 = 78;

pub const CMOVGE: u16 = 79;

pub const CMOVLE: u16 = 80;

pub const CMOVG: u16 = 81;

// Extensions
pub const MOVZX_BYTE: u16 = 82;

pub const MOVZX_WORD: u16 = 83;

pub const MOVSX_BYTE: u16 = 84;

pub const MOVSX_WORD: u16 = 85;

pub const MOVSXD: u16 = 86;

pub const CBW: u16 = 87;

pub const CWDE: u16 = 88;

pub const CDQE: u16 = 89;

pub const CWD: u16 = 90;

pub const CDQ: u16 = 91;

pub const CQO: u16 = 92;

// Strings
pub const MOVS: u16 = 93;

pub const CMPS: u16 = 94;

pub const STOS: u16 = 95;

pub const LODS: u16 = 96;

pub const SCAS: u16 = 97;

// Branches
pub const CALL: u16 = 98;

pub const JMP: u16 = 99;

pub const JO: u16 = 100;

pub const JNO: u16 = 101;

pub const JB: u16 = 102;

pub const JAE: u16 = 103;

pub const JE: u16 = 104;

pub const JNE: u16 = 105;

pub const JBE: u16 = 106;

pub const JA: u16 = 107;

pub const JS: u16 = 108;

pub const JNS: u16 = 109;

pub const JP: u16 = 110;

pub const JNP: u16 = 111;

pub const JL: u16 = 112;

pub const JGE: u16 = 113;

pub const JLE: u16 = 114;

pub const JG: u16 = 115;

pub const LOOPNE: u16 = 116;

pub const LOOPE: u16 = 117;

pub const LOOP: u16 = 118;

pub const JRCXZ: u16 = 119;

pub const RET: u16 = 120;

pub const LEAVE: u16 = 121;

pub const ENDBR64: u16 = 122;

pub const SYSCALL: u16 = 123;

pub const UD2: u16 = 124;

pub const CPUID: u16 = 125;

pub const RDTSC: u16 = 126;

pub const HLT: u16 = 127;

pub const INT3: u16 = 128;

pub const INT: u16 = 129;

pub const LFENCE: u16 = 130;

pub const MFENCE: u16 = 131;

pub const SFENCE: u16 = 132;

pub const PREFETCHNTA: u16 = 133;

pub const PREFETCHT0: u16 = 134;

pub const PREFETCHT1: u16 = 135;

pub const PREFETCHT2: u16 = 136;

pub const LDMXCSR: u16 = 137;

pub const STMXCSR: u16 = 138;

pub const MOVNTI: u16 = 139;

pub const CLC: u16 = 140;

pub const STC: u16 = 141;

pub const CMC: u16 = 142;

pub const CLD: u16 = 143;

pub const STD: u16 = 144;

pub const SAHF: u16 = 145;

pub const LAHF: u16 = 146;
