//! Arithmetic and logic of one operand.

#[rattlefmt::skip]
macro_rules! one_operand {
    ($next:ident $($later:ident)*; $($before:tt)*) => { $next! { $($later)*; $($before)*

    // Arithmetic and logic: one operand
    INC          8 NP    One     0xFE D0  EB  NO  NO  Absent   Lock    FIRST;
    INC         16 P66   One     0xFF D0  EW  NO  NO  Absent   Lock    FIRST;
    INC         32 NP    One     0xFF D0  EL  NO  NO  Absent   Lock    FIRST;
    INC         64 W     One     0xFF D0  EQ  NO  NO  Absent   Lock    FIRST;
    DEC          8 NP    One     0xFE D1  EB  NO  NO  Absent   Lock    FIRST;
    DEC         16 P66   One     0xFF D1  EW  NO  NO  Absent   Lock    FIRST;
    DEC         32 NP    One     0xFF D1  EL  NO  NO  Absent   Lock    FIRST;
    DEC         64 W     One     0xFF D1  EQ  NO  NO  Absent   Lock    FIRST;
    NOT          8 NP    One     0xF6 D2  EB  NO  NO  Absent   Lock    FIRST;
    NOT         16 P66   One     0xF7 D2  EW  NO  NO  Absent   Lock    FIRST;
    NOT         32 NP    One     0xF7 D2  EL  NO  NO  Absent   Lock    FIRST;
    NOT         64 W     One     0xF7 D2  EQ  NO  NO  Absent   Lock    FIRST;
    NEG          8 NP    One     0xF6 D3  EB  NO  NO  Absent   Lock    FIRST;
    NEG         16 P66   One     0xF7 D3  EW  NO  NO  Absent   Lock    FIRST;
    NEG         32 NP    One     0xF7 D3  EL  NO  NO  Absent   Lock    FIRST;
    NEG         64 W     One     0xF7 D3  EQ  NO  NO  Absent   Lock    FIRST;
    MUL          8 NP    One     0xF6 D4  EB  NO  NO  Absent   Absent  JUST_RAX;
    MUL         16 P66   One     0xF7 D4  EW  NO  NO  Absent   Absent  RAX_RDX;
    MUL         32 NP    One     0xF7 D4  EL  NO  NO  Absent   Absent  RAX_RDX;
    MUL         64 W     One     0xF7 D4  EQ  NO  NO  Absent   Absent  RAX_RDX;
    IMUL         8 NP    One     0xF6 D5  EB  NO  NO  Absent   Absent  JUST_RAX;
    IMUL        16 P66   One     0xF7 D5  EW  NO  NO  Absent   Absent  RAX_RDX;
    IMUL        16 P66   Two     0xAF R   GW  EW  NO  Absent   Absent  FIRST;
    IMUL        16 P66   One     0x6B R   GW  EW  IM  Sext16   Absent  FIRST;
    IMUL        16 P66   One     0x69 R   GW  EW  IM  Word     Absent  FIRST;
    IMUL        32 NP    One     0xF7 D5  EL  NO  NO  Absent   Absent  RAX_RDX;
    IMUL        32 NP    Two     0xAF R   GL  EL  NO  Absent   Absent  FIRST;
    IMUL        32 NP    One     0x6B R   GL  EL  IM  Sext32   Absent  FIRST;
    IMUL        32 NP    One     0x69 R   GL  EL  IM  Long     Absent  FIRST;
    IMUL        64 W     One     0xF7 D5  EQ  NO  NO  Absent   Absent  RAX_RDX;
    IMUL        64 W     Two     0xAF R   GQ  EQ  NO  Absent   Absent  FIRST;
    IMUL        64 W     One     0x6B R   GQ  EQ  IM  Sext64   Absent  FIRST;
    IMUL        64 W     One     0x69 R   GQ  EQ  IM  LongSext Absent  FIRST;
    DIV          8 NP    One     0xF6 D6  EB  NO  NO  Absent   Absent  JUST_RAX;
    DIV         16 P66   One     0xF7 D6  EW  NO  NO  Absent   Absent  RAX_RDX;
    DIV         32 NP    One     0xF7 D6  EL  NO  NO  Absent   Absent  RAX_RDX;
    DIV         64 W     One     0xF7 D6  EQ  NO  NO  Absent   Absent  RAX_RDX;
    IDIV         8 NP    One     0xF6 D7  EB  NO  NO  Absent   Absent  JUST_RAX;
    IDIV        16 P66   One     0xF7 D7  EW  NO  NO  Absent   Absent  RAX_RDX;
    IDIV        32 NP    One     0xF7 D7  EL  NO  NO  Absent   Absent  RAX_RDX;
    IDIV        64 W     One     0xF7 D7  EQ  NO  NO  Absent   Absent  RAX_RDX;

    } };
}

pub(crate) use one_operand;
