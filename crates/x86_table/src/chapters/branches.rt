//! Strings, branches, system calls, fences, prefetches, and flags.

#[rattlefmt::skip]
macro_rules! branches {
    ($next:ident $($later:ident)*; $($before:tt)*) => { $next! { $($later)*; $($before)*

    // Strings
    MOVS         8 NP    One     0xA4 P   NO  NO  NO  Absent   Rep     MOVES;
    MOVS        16 P66   One     0xA5 P   NO  NO  NO  Absent   Rep     MOVES;
    MOVS        32 NP    One     0xA5 P   NO  NO  NO  Absent   Rep     MOVES;
    MOVS        64 W     One     0xA5 P   NO  NO  NO  Absent   Rep     MOVES;
    CMPS         8 NP    One     0xA6 P   NO  NO  NO  Absent   Repe    RSI_RDI;
    CMPS        16 P66   One     0xA7 P   NO  NO  NO  Absent   Repe    RSI_RDI;
    CMPS        32 NP    One     0xA7 P   NO  NO  NO  Absent   Repe    RSI_RDI;
    CMPS        64 W     One     0xA7 P   NO  NO  NO  Absent   Repe    RSI_RDI;
    STOS         8 NP    One     0xAA P   NO  NO  NO  Absent   Rep     STORES;
    STOS        16 P66   One     0xAB P   NO  NO  NO  Absent   Rep     STORES;
    STOS        32 NP    One     0xAB P   NO  NO  NO  Absent   Rep     STORES;
    STOS        64 W     One     0xAB P   NO  NO  NO  Absent   Rep     STORES;
    LODS         8 NP    One     0xAC P   NO  NO  NO  Absent   Rep     RAX_RSI;
    LODS        16 P66   One     0xAD P   NO  NO  NO  Absent   Rep     RAX_RSI;
    LODS        32 NP    One     0xAD P   NO  NO  NO  Absent   Rep     RAX_RSI;
    LODS        64 W     One     0xAD P   NO  NO  NO  Absent   Rep     RAX_RSI;
    SCAS         8 NP    One     0xAE P   NO  NO  NO  Absent   Repe    JUST_RDI;
    SCAS        16 P66   One     0xAF P   NO  NO  NO  Absent   Repe    JUST_RDI;
    SCAS        32 NP    One     0xAF P   NO  NO  NO  Absent   Repe    JUST_RDI;
    SCAS        64 W     One     0xAF P   NO  NO  NO  Absent   Repe    JUST_RDI;

    // Branches
    CALL        64 NP    One     0xE8 P   TO  NO  NO  Rel32    Absent  NOTHING;
    CALL        64 NP    One     0xFF D2  EQ  NO  NO  Absent   Notrack NOTHING;
    JMP         64 NP    One     0xEB P   TO  NO  NO  Short    Absent  NOTHING;
    JMP         64 NP    One     0xE9 P   TO  NO  NO  Rel32    Absent  NOTHING;
    JMP         64 NP    One     0xFF D4  EQ  NO  NO  Absent   Notrack NOTHING;
    JO          64 NP    One     0x70 P   TO  NO  NO  Short    Absent  NOTHING;
    JO          64 NP    Two     0x80 P   TO  NO  NO  Rel32    Absent  NOTHING;
    JNO         64 NP    One     0x71 P   TO  NO  NO  Short    Absent  NOTHING;
    JNO         64 NP    Two     0x81 P   TO  NO  NO  Rel32    Absent  NOTHING;
    JB          64 NP    One     0x72 P   TO  NO  NO  Short    Absent  NOTHING;
    JB          64 NP    Two     0x82 P   TO  NO  NO  Rel32    Absent  NOTHING;
    JAE         64 NP    One     0x73 P   TO  NO  NO  Short    Absent  NOTHING;
    JAE         64 NP    Two     0x83 P   TO  NO  NO  Rel32    Absent  NOTHING;
    JE          64 NP    One     0x74 P   TO  NO  NO  Short    Absent  NOTHING;
    JE          64 NP    Two     0x84 P   TO  NO  NO  Rel32    Absent  NOTHING;
    JNE         64 NP    One     0x75 P   TO  NO  NO  Short    Absent  NOTHING;
    JNE         64 NP    Two     0x85 P   TO  NO  NO  Rel32    Absent  NOTHING;
    JBE         64 NP    One     0x76 P   TO  NO  NO  Short    Absent  NOTHING;
    JBE         64 NP    Two     0x86 P   TO  NO  NO  Rel32    Absent  NOTHING;
    JA          64 NP    One     0x77 P   TO  NO  NO  Short    Absent  NOTHING;
    JA          64 NP    Two     0x87 P   TO  NO  NO  Rel32    Absent  NOTHING;
    JS          64 NP    One     0x78 P   TO  NO  NO  Short    Absent  NOTHING;
    JS          64 NP    Two     0x88 P   TO  NO  NO  Rel32    Absent  NOTHING;
    JNS         64 NP    One     0x79 P   TO  NO  NO  Short    Absent  NOTHING;
    JNS         64 NP    Two     0x89 P   TO  NO  NO  Rel32    Absent  NOTHING;
    JP          64 NP    One     0x7A P   TO  NO  NO  Short    Absent  NOTHING;
    JP          64 NP    Two     0x8A P   TO  NO  NO  Rel32    Absent  NOTHING;
    JNP         64 NP    One     0x7B P   TO  NO  NO  Short    Absent  NOTHING;
    JNP         64 NP    Two     0x8B P   TO  NO  NO  Rel32    Absent  NOTHING;
    JL          64 NP    One     0x7C P   TO  NO  NO  Short    Absent  NOTHING;
    JL          64 NP    Two     0x8C P   TO  NO  NO  Rel32    Absent  NOTHING;
    JGE         64 NP    One     0x7D P   TO  NO  NO  Short    Absent  NOTHING;
    JGE         64 NP    Two     0x8D P   TO  NO  NO  Rel32    Absent  NOTHING;
    JLE         64 NP    One     0x7E P   TO  NO  NO  Short    Absent  NOTHING;
    JLE         64 NP    Two     0x8E P   TO  NO  NO  Rel32    Absent  NOTHING;
    JG          64 NP    One     0x7F P   TO  NO  NO  Short    Absent  NOTHING;
    JG          64 NP    Two     0x8F P   TO  NO  NO  Rel32    Absent  NOTHING;
    LOOPNE      64 NP    One     0xE0 P   TO  NO  NO  Rel8     Absent  JUST_RCX;
    LOOPE       64 NP    One     0xE1 P   TO  NO  NO  Rel8     Absent  JUST_RCX;
    LOOP        64 NP    One     0xE2 P   TO  NO  NO  Rel8     Absent  JUST_RCX;
    JRCXZ       64 NP    One     0xE3 P   TO  NO  NO  Rel8     Absent  NOTHING;
    RET         64 NP    One     0xC3 P   NO  NO  NO  Absent   Absent  NOTHING;
    RET         64 NP    One     0xC2 P   IM  NO  NO  Word     Absent  NOTHING;
    LEAVE       64 NP    One     0xC9 P   NO  NO  NO  Absent   Absent  RSP_RBP;
    ENDBR64      0 PF3   Two     0x1E FA  NO  NO  NO  Absent   Absent  NOTHING;
    SYSCALL      0 NP    Two     0x05 P   NO  NO  NO  Absent   Absent  CALLS_SYSTEM;
    UD2          0 NP    Two     0x0B P   NO  NO  NO  Absent   Absent  NOTHING;
    CPUID        0 NP    Two     0xA2 P   NO  NO  NO  Absent   Absent  RAX_RBX_RCX_RDX;
    RDTSC        0 NP    Two     0x31 P   NO  NO  NO  Absent   Absent  RAX_RDX;
    HLT          0 NP    One     0xF4 P   NO  NO  NO  Absent   Absent  NOTHING;
    INT3         0 NP    One     0xCC P   NO  NO  NO  Absent   Absent  NOTHING;
    INT          0 NP    One     0xCD P   IM  NO  NO  Count    Absent  INTERRUPTS;
    LFENCE       0 NP    Two     0xAE E8  NO  NO  NO  Absent   Absent  NOTHING;
    MFENCE       0 NP    Two     0xAE F0  NO  NO  NO  Absent   Absent  NOTHING;
    SFENCE       0 NP    Two     0xAE F8  NO  NO  NO  Absent   Absent  NOTHING;
    PREFETCHNTA  0 NP    Two     0x18 D0M MA  NO  NO  Absent   Absent  NOTHING;
    PREFETCHT0   0 NP    Two     0x18 D1M MA  NO  NO  Absent   Absent  NOTHING;
    PREFETCHT1   0 NP    Two     0x18 D2M MA  NO  NO  Absent   Absent  NOTHING;
    PREFETCHT2   0 NP    Two     0x18 D3M MA  NO  NO  Absent   Absent  NOTHING;
    LDMXCSR      0 NP    Two     0xAE D2M ML  NO  NO  Absent   Absent  NOTHING;
    STMXCSR      0 NP    Two     0xAE D3M ML  NO  NO  Absent   Absent  FIRST;
    MOVNTI      32 NP    Two     0xC3 RM  ML  GL  NO  Absent   Absent  FIRST;
    MOVNTI      64 W     Two     0xC3 RM  MQ  GQ  NO  Absent   Absent  FIRST;
    CLC          0 NP    One     0xF8 P   NO  NO  NO  Absent   Absent  NOTHING;
    STC          0 NP    One     0xF9 P   NO  NO  NO  Absent   Absent  NOTHING;
    CMC          0 NP    One     0xF5 P   NO  NO  NO  Absent   Absent  NOTHING;
    CLD          0 NP    One     0xFC P   NO  NO  NO  Absent   Absent  NOTHING;
    STD          0 NP    One     0xFD P   NO  NO  NO  Absent   Absent  NOTHING;
    SAHF         0 NP    One     0x9E P   NO  NO  NO  Absent   Absent  NOTHING;
    LAHF         0 NP    One     0x9F P   NO  NO  NO  Absent   Absent  JUST_RAX;

    } };
}

pub(crate) use branches;
