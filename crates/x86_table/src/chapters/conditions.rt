//! Compare and exchange, moves and bytes by condition, and extensions.

#[rattlefmt::skip]
macro_rules! conditions {
    ($next:ident $($later:ident)*; $($before:tt)*) => { $next! { $($later)*; $($before)*

    // Compare and exchange
    CMPXCHG      8 NP    Two     0xB0 R   EB  GB  NO  Absent   Lock    FIRST_RAX;
    CMPXCHG     16 P66   Two     0xB1 R   EW  GW  NO  Absent   Lock    FIRST_RAX;
    CMPXCHG     32 NP    Two     0xB1 R   EL  GL  NO  Absent   Lock    FIRST_RAX;
    CMPXCHG     64 W     Two     0xB1 R   EQ  GQ  NO  Absent   Lock    FIRST_RAX;
    XADD         8 NP    Two     0xC0 R   EB  GB  NO  Absent   Lock    BOTH;
    XADD        16 P66   Two     0xC1 R   EW  GW  NO  Absent   Lock    BOTH;
    XADD        32 NP    Two     0xC1 R   EL  GL  NO  Absent   Lock    BOTH;
    XADD        64 W     Two     0xC1 R   EQ  GQ  NO  Absent   Lock    BOTH;
    CMPXCHG8B    0 NP    Two     0xC7 D1M M8  NO  NO  Absent   Lock    FIRST_RAX_RDX;
    CMPXCHG16B   0 W     Two     0xC7 D1M M16 NO  NO  Absent   Lock    FIRST_RAX_RDX;

    // By condition
    SETO         8 NP    Two     0x90 D0  EB  NO  NO  Absent   Absent  FIRST;
    SETNO        8 NP    Two     0x91 D0  EB  NO  NO  Absent   Absent  FIRST;
    SETB         8 NP    Two     0x92 D0  EB  NO  NO  Absent   Absent  FIRST;
    SETAE        8 NP    Two     0x93 D0  EB  NO  NO  Absent   Absent  FIRST;
    SETE         8 NP    Two     0x94 D0  EB  NO  NO  Absent   Absent  FIRST;
    SETNE        8 NP    Two     0x95 D0  EB  NO  NO  Absent   Absent  FIRST;
    SETBE        8 NP    Two     0x96 D0  EB  NO  NO  Absent   Absent  FIRST;
    SETA         8 NP    Two     0x97 D0  EB  NO  NO  Absent   Absent  FIRST;
    SETS         8 NP    Two     0x98 D0  EB  NO  NO  Absent   Absent  FIRST;
    SETNS        8 NP    Two     0x99 D0  EB  NO  NO  Absent   Absent  FIRST;
    SETP         8 NP    Two     0x9A D0  EB  NO  NO  Absent   Absent  FIRST;
    SETNP        8 NP    Two     0x9B D0  EB  NO  NO  Absent   Absent  FIRST;
    SETL         8 NP    Two     0x9C D0  EB  NO  NO  Absent   Absent  FIRST;
    SETGE        8 NP    Two     0x9D D0  EB  NO  NO  Absent   Absent  FIRST;
    SETLE        8 NP    Two     0x9E D0  EB  NO  NO  Absent   Absent  FIRST;
    SETG         8 NP    Two     0x9F D0  EB  NO  NO  Absent   Absent  FIRST;
    CMOVO       16 P66   Two     0x40 R   GW  EW  NO  Absent   Absent  FIRST;
    CMOVO       32 NP    Two     0x40 R   GL  EL  NO  Absent   Absent  FIRST;
    CMOVO       64 W     Two     0x40 R   GQ  EQ  NO  Absent   Absent  FIRST;
    CMOVNO      16 P66   Two     0x41 R   GW  EW  NO  Absent   Absent  FIRST;
    CMOVNO      32 NP    Two     0x41 R   GL  EL  NO  Absent   Absent  FIRST;
    CMOVNO      64 W     Two     0x41 R   GQ  EQ  NO  Absent   Absent  FIRST;
    CMOVB       16 P66   Two     0x42 R   GW  EW  NO  Absent   Absent  FIRST;
    CMOVB       32 NP    Two     0x42 R   GL  EL  NO  Absent   Absent  FIRST;
    CMOVB       64 W     Two     0x42 R   GQ  EQ  NO  Absent   Absent  FIRST;
    CMOVAE      16 P66   Two     0x43 R   GW  EW  NO  Absent   Absent  FIRST;
    CMOVAE      32 NP    Two     0x43 R   GL  EL  NO  Absent   Absent  FIRST;
    CMOVAE      64 W     Two     0x43 R   GQ  EQ  NO  Absent   Absent  FIRST;
    CMOVE       16 P66   Two     0x44 R   GW  EW  NO  Absent   Absent  FIRST;
    CMOVE       32 NP    Two     0x44 R   GL  EL  NO  Absent   Absent  FIRST;
    CMOVE       64 W     Two     0x44 R   GQ  EQ  NO  Absent   Absent  FIRST;
    CMOVNE      16 P66   Two     0x45 R   GW  EW  NO  Absent   Absent  FIRST;
    CMOVNE      32 NP    Two     0x45 R   GL  EL  NO  Absent   Absent  FIRST;
    CMOVNE      64 W     Two     0x45 R   GQ  EQ  NO  Absent   Absent  FIRST;
    CMOVBE      16 P66   Two     0x46 R   GW  EW  NO  Absent   Absent  FIRST;
    CMOVBE      32 NP    Two     0x46 R   GL  EL  NO  Absent   Absent  FIRST;
    CMOVBE      64 W     Two     0x46 R   GQ  EQ  NO  Absent   Absent  FIRST;
    CMOVA       16 P66   Two     0x47 R   GW  EW  NO  Absent   Absent  FIRST;
    CMOVA       32 NP    Two     0x47 R   GL  EL  NO  Absent   Absent  FIRST;
    CMOVA       64 W     Two     0x47 R   GQ  EQ  NO  Absent   Absent  FIRST;
    CMOVS       16 P66   Two     0x48 R   GW  EW  NO  Absent   Absent  FIRST;
    CMOVS       32 NP    Two     0x48 R   GL  EL  NO  Absent   Absent  FIRST;
    CMOVS       64 W     Two     0x48 R   GQ  EQ  NO  Absent   Absent  FIRST;
    CMOVNS      16 P66   Two     0x49 R   GW  EW  NO  Absent   Absent  FIRST;
    CMOVNS      32 NP    Two     0x49 R   GL  EL  NO  Absent   Absent  FIRST;
    CMOVNS      64 W     Two     0x49 R   GQ  EQ  NO  Absent   Absent  FIRST;
    CMOVP       16 P66   Two     0x4A R   GW  EW  NO  Absent   Absent  FIRST;
    CMOVP       32 NP    Two     0x4A R   GL  EL  NO  Absent   Absent  FIRST;
    CMOVP       64 W     Two     0x4A R   GQ  EQ  NO  Absent   Absent  FIRST;
    CMOVNP      16 P66   Two     0x4B R   GW  EW  NO  Absent   Absent  FIRST;
    CMOVNP      32 NP    Two     0x4B R   GL  EL  NO  Absent   Absent  FIRST;
    CMOVNP      64 W     Two     0x4B R   GQ  EQ  NO  Absent   Absent  FIRST;
    CMOVL       16 P66   Two     0x4C R   GW  EW  NO  Absent   Absent  FIRST;
    CMOVL       32 NP    Two     0x4C R   GL  EL  NO  Absent   Absent  FIRST;
    CMOVL       64 W     Two     0x4C R   GQ  EQ  NO  Absent   Absent  FIRST;
    CMOVGE      16 P66   Two     0x4D R   GW  EW  NO  Absent   Absent  FIRST;
    CMOVGE      32 NP    Two     0x4D R   GL  EL  NO  Absent   Absent  FIRST;
    CMOVGE      64 W     Two     0x4D R   GQ  EQ  NO  Absent   Absent  FIRST;
    CMOVLE      16 P66   Two     0x4E R   GW  EW  NO  Absent   Absent  FIRST;
    CMOVLE      32 NP    Two     0x4E R   GL  EL  NO  Absent   Absent  FIRST;
    CMOVLE      64 W     Two     0x4E R   GQ  EQ  NO  Absent   Absent  FIRST;
    CMOVG       16 P66   Two     0x4F R   GW  EW  NO  Absent   Absent  FIRST;
    CMOVG       32 NP    Two     0x4F R   GL  EL  NO  Absent   Absent  FIRST;
    CMOVG       64 W     Two     0x4F R   GQ  EQ  NO  Absent   Absent  FIRST;

    // Extensions
    MOVZX_BYTE  16 P66   Two     0xB6 R   GW  EB  NO  Absent   Absent  FIRST;
    MOVZX_BYTE  32 NP    Two     0xB6 R   GL  EB  NO  Absent   Absent  FIRST;
    MOVZX_BYTE  64 W     Two     0xB6 R   GQ  EB  NO  Absent   Absent  FIRST;
    MOVZX_WORD  32 NP    Two     0xB7 R   GL  EW  NO  Absent   Absent  FIRST;
    MOVZX_WORD  64 W     Two     0xB7 R   GQ  EW  NO  Absent   Absent  FIRST;
    MOVSX_BYTE  16 P66   Two     0xBE R   GW  EB  NO  Absent   Absent  FIRST;
    MOVSX_BYTE  32 NP    Two     0xBE R   GL  EB  NO  Absent   Absent  FIRST;
    MOVSX_BYTE  64 W     Two     0xBE R   GQ  EB  NO  Absent   Absent  FIRST;
    MOVSX_WORD  32 NP    Two     0xBF R   GL  EW  NO  Absent   Absent  FIRST;
    MOVSX_WORD  64 W     Two     0xBF R   GQ  EW  NO  Absent   Absent  FIRST;
    MOVSXD      64 W     One     0x63 R   GQ  EL  NO  Absent   Absent  FIRST;
    CBW          0 P66   One     0x98 P   NO  NO  NO  Absent   Absent  JUST_RAX;
    CWDE         0 NP    One     0x98 P   NO  NO  NO  Absent   Absent  JUST_RAX;
    CDQE         0 W     One     0x98 P   NO  NO  NO  Absent   Absent  JUST_RAX;
    CWD          0 P66   One     0x99 P   NO  NO  NO  Absent   Absent  JUST_RDX;
    CDQ          0 NP    One     0x99 P   NO  NO  NO  Absent   Absent  JUST_RDX;
    CQO          0 W     One     0x99 P   NO  NO  NO  Absent   Absent  JUST_RDX;

    } };
}

pub(crate) use conditions;
