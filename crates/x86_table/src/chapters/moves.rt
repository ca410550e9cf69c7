//! No operation, exchanges, moves, addresses, and the stack.

#[rattlefmt::skip]
macro_rules! moves {
    ($next:ident $($later:ident)*; $($before:tt)*) => { $next! { $($later)*; $($before)*

    // No operation, exchange
    NOP          0 NP    One     0x90 P   NO  NO  NO  Absent   Absent  NOTHING;
    NOP         16 P66   Two     0x1F D0  EW  NO  NO  Absent   Absent  NOTHING;
    NOP         32 NP    Two     0x1F D0  EL  NO  NO  Absent   Absent  NOTHING;
    NOP         64 W     Two     0x1F D0  EQ  NO  NO  Absent   Absent  NOTHING;
    PAUSE        0 PF3   One     0x90 P   NO  NO  NO  Absent   Absent  NOTHING;
    XCHG         8 NP    One     0x86 R   EB  GB  NO  Absent   Lock    BOTH;
    XCHG        16 P66   One     0x90 O   AW  ZW  NO  Absent   Absent  BOTH;
    XCHG        16 P66   One     0x87 R   EW  GW  NO  Absent   Lock    BOTH;
    XCHG        32 NP    One     0x90 O1  AL  ZL  NO  Absent   Absent  BOTH;
    XCHG        32 NP    One     0x87 R   EL  GL  NO  Absent   Lock    BOTH;
    XCHG        64 W     One     0x90 O   AQ  ZQ  NO  Absent   Absent  BOTH;
    XCHG        64 W     One     0x87 R   EQ  GQ  NO  Absent   Lock    BOTH;

    // Moves, addresses, the stack
    MOV          8 NP    One     0x88 R   EB  GB  NO  Absent   Absent  FIRST;
    MOV          8 NP    One     0x8A R   GB  EB  NO  Absent   Absent  FIRST;
    MOV          8 NP    One     0xB0 O   ZB  IM  NO  Byte     Absent  FIRST;
    MOV          8 NP    One     0xC6 D0  EB  IM  NO  Byte     Absent  FIRST;
    MOV         16 P66   One     0x89 R   EW  GW  NO  Absent   Absent  FIRST;
    MOV         16 P66   One     0x8B R   GW  EW  NO  Absent   Absent  FIRST;
    MOV         16 P66   One     0xB8 O   ZW  IM  NO  Word     Absent  FIRST;
    MOV         16 P66   One     0xC7 D0  EW  IM  NO  Word     Absent  FIRST;
    MOV         32 NP    One     0x89 R   EL  GL  NO  Absent   Absent  FIRST;
    MOV         32 NP    One     0x8B R   GL  EL  NO  Absent   Absent  FIRST;
    MOV         32 NP    One     0xB8 O   ZL  IM  NO  Long     Absent  FIRST;
    MOV         32 NP    One     0xC7 D0  EL  IM  NO  Long     Absent  FIRST;
    MOV         64 W     One     0x89 R   EQ  GQ  NO  Absent   Absent  FIRST;
    MOV         64 W     One     0x8B R   GQ  EQ  NO  Absent   Absent  FIRST;
    MOV         64 W     One     0xC7 D0  EQ  IM  NO  LongSext Absent  FIRST;
    MOVABS      64 W     One     0xB8 O   ZQ  IM  NO  Quad     Absent  FIRST;
    LEA         16 P66   One     0x8D RM  GW  MA  NO  Absent   Absent  FIRST;
    LEA         32 NP    One     0x8D RM  GL  MA  NO  Absent   Absent  FIRST;
    LEA         64 W     One     0x8D RM  GQ  MA  NO  Absent   Absent  FIRST;
    PUSH        16 P66   One     0x50 O   ZW  NO  NO  Absent   Absent  PUSH2;
    PUSH        64 NP    One     0x50 O   ZQ  NO  NO  Absent   Absent  PUSH8;
    PUSH        64 NP    One     0x6A P   IM  NO  NO  Sext64   Absent  PUSH8;
    PUSH        64 NP    One     0x68 P   IM  NO  NO  LongSext Absent  PUSH8;
    PUSH        64 NP    One     0xFF D6  EQ  NO  NO  Absent   Absent  PUSH8;
    POP         16 P66   One     0x58 O   ZW  NO  NO  Absent   Absent  FIRST_RSP;
    POP         64 NP    One     0x58 O   ZQ  NO  NO  Absent   Absent  FIRST_RSP;
    POP         64 NP    One     0x8F D0  EQ  NO  NO  Absent   Absent  FIRST_RSP;
    PUSHF       64 NP    One     0x9C P   NO  NO  NO  Absent   Absent  PUSH8;
    POPF        64 NP    One     0x9D P   NO  NO  NO  Absent   Absent  JUST_RSP;

    } };
}

pub(crate) use moves;
