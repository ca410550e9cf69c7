//! Opcodes of three bytes: SSE, byte order, checksums.

#[rattlefmt::skip]
macro_rules! three_bytes {
    ($next:ident $($later:ident)*; $($before:tt)*) => { $next! { $($later)*; $($before)*

    // Three-byte opcodes, 0F 38
    PSHUFB       0 P66   Three38 0x00 R   GX  EX  NO  Absent   Absent  FIRST;
    PHADDW       0 P66   Three38 0x01 R   GX  EX  NO  Absent   Absent  FIRST;
    PHADDD       0 P66   Three38 0x02 R   GX  EX  NO  Absent   Absent  FIRST;
    PHADDSW      0 P66   Three38 0x03 R   GX  EX  NO  Absent   Absent  FIRST;
    PMADDUBSW    0 P66   Three38 0x04 R   GX  EX  NO  Absent   Absent  FIRST;
    PHSUBW       0 P66   Three38 0x05 R   GX  EX  NO  Absent   Absent  FIRST;
    PHSUBD       0 P66   Three38 0x06 R   GX  EX  NO  Absent   Absent  FIRST;
    PHSUBSW      0 P66   Three38 0x07 R   GX  EX  NO  Absent   Absent  FIRST;
    PSIGNB       0 P66   Three38 0x08 R   GX  EX  NO  Absent   Absent  FIRST;
    PSIGNW       0 P66   Three38 0x09 R   GX  EX  NO  Absent   Absent  FIRST;
    PSIGND       0 P66   Three38 0x0A R   GX  EX  NO  Absent   Absent  FIRST;
    PMULHRSW     0 P66   Three38 0x0B R   GX  EX  NO  Absent   Absent  FIRST;
    PBLENDVB     0 P66   Three38 0x10 R   GX  EX  NO  Absent   Absent  FIRST;
    BLENDVPS     0 P66   Three38 0x14 R   GX  EX  NO  Absent   Absent  FIRST;
    BLENDVPD     0 P66   Three38 0x15 R   GX  EX  NO  Absent   Absent  FIRST;
    PTEST        0 P66   Three38 0x17 R   GX  EX  NO  Absent   Absent  NOTHING;
    PABSB        0 P66   Three38 0x1C R   GX  EX  NO  Absent   Absent  FIRST;
    PABSW        0 P66   Three38 0x1D R   GX  EX  NO  Absent   Absent  FIRST;
    PABSD        0 P66   Three38 0x1E R   GX  EX  NO  Absent   Absent  FIRST;
    PMOVSXBW     0 P66   Three38 0x20 R   GX  EX8 NO  Absent   Absent  FIRST;
    PMOVSXBD     0 P66   Three38 0x21 R   GX  EX4 NO  Absent   Absent  FIRST;
    PMOVSXBQ     0 P66   Three38 0x22 R   GX  EX2 NO  Absent   Absent  FIRST;
    PMOVSXWD     0 P66   Three38 0x23 R   GX  EX8 NO  Absent   Absent  FIRST;
    PMOVSXWQ     0 P66   Three38 0x24 R   GX  EX4 NO  Absent   Absent  FIRST;
    PMOVSXDQ     0 P66   Three38 0x25 R   GX  EX8 NO  Absent   Absent  FIRST;
    PMOVZXBW     0 P66   Three38 0x30 R   GX  EX8 NO  Absent   Absent  FIRST;
    PMOVZXBD     0 P66   Three38 0x31 R   GX  EX4 NO  Absent   Absent  FIRST;
    PMOVZXBQ     0 P66   Three38 0x32 R   GX  EX2 NO  Absent   Absent  FIRST;
    PMOVZXWD     0 P66   Three38 0x33 R   GX  EX8 NO  Absent   Absent  FIRST;
    PMOVZXWQ     0 P66   Three38 0x34 R   GX  EX4 NO  Absent   Absent  FIRST;
    PMOVZXDQ     0 P66   Three38 0x35 R   GX  EX8 NO  Absent   Absent  FIRST;
    PMULDQ       0 P66   Three38 0x28 R   GX  EX  NO  Absent   Absent  FIRST;
    PCMPEQQ      0 P66   Three38 0x29 R   GX  EX  NO  Absent   Absent  FIRST;
    PACKUSDW     0 P66   Three38 0x2B R   GX  EX  NO  Absent   Absent  FIRST;
    PCMPGTQ      0 P66   Three38 0x37 R   GX  EX  NO  Absent   Absent  FIRST;
    PMINSB       0 P66   Three38 0x38 R   GX  EX  NO  Absent   Absent  FIRST;
    PMINSD       0 P66   Three38 0x39 R   GX  EX  NO  Absent   Absent  FIRST;
    PMINUW       0 P66   Three38 0x3A R   GX  EX  NO  Absent   Absent  FIRST;
    PMINUD       0 P66   Three38 0x3B R   GX  EX  NO  Absent   Absent  FIRST;
    PMAXSB       0 P66   Three38 0x3C R   GX  EX  NO  Absent   Absent  FIRST;
    PMAXSD       0 P66   Three38 0x3D R   GX  EX  NO  Absent   Absent  FIRST;
    PMAXUW       0 P66   Three38 0x3E R   GX  EX  NO  Absent   Absent  FIRST;
    PMAXUD       0 P66   Three38 0x3F R   GX  EX  NO  Absent   Absent  FIRST;
    PMULLD       0 P66   Three38 0x40 R   GX  EX  NO  Absent   Absent  FIRST;
    PHMINPOSUW   0 P66   Three38 0x41 R   GX  EX  NO  Absent   Absent  FIRST;
    MOVNTDQA     0 P66   Three38 0x2A RM  GX  EX  NO  Absent   Absent  FIRST;

    // Three-byte opcodes, 0F 3A
    ROUNDPS      0 P66   Three3A 0x08 R   GX  EX  IM  Count    Absent  FIRST;
    ROUNDPD      0 P66   Three3A 0x09 R   GX  EX  IM  Count    Absent  FIRST;
    ROUNDSS      0 P66   Three3A 0x0A R   GX  EX4 IM  Count    Absent  FIRST;
    ROUNDSD      0 P66   Three3A 0x0B R   GX  EX8 IM  Count    Absent  FIRST;
    BLENDPS      0 P66   Three3A 0x0C R   GX  EX  IM  Count    Absent  FIRST;
    BLENDPD      0 P66   Three3A 0x0D R   GX  EX  IM  Count    Absent  FIRST;
    PBLENDW      0 P66   Three3A 0x0E R   GX  EX  IM  Count    Absent  FIRST;
    PALIGNR      0 P66   Three3A 0x0F R   GX  EX  IM  Count    Absent  FIRST;
    INSERTPS     0 P66   Three3A 0x21 R   GX  EX4 IM  Count    Absent  FIRST;
    DPPS         0 P66   Three3A 0x40 R   GX  EX  IM  Count    Absent  FIRST;
    DPPD         0 P66   Three3A 0x41 R   GX  EX  IM  Count    Absent  FIRST;
    MPSADBW      0 P66   Three3A 0x42 R   GX  EX  IM  Count    Absent  FIRST;
    PCMPESTRM    0 P66   Three3A 0x60 R   GX  EX  IM  Count    Absent  JUST_XMM0;
    PCMPISTRM    0 P66   Three3A 0x62 R   GX  EX  IM  Count    Absent  JUST_XMM0;
    PCMPESTRI    0 P66   Three3A 0x61 R   GX  EX  IM  Count    Absent  JUST_RCX;
    PCMPISTRI    0 P66   Three3A 0x63 R   GX  EX  IM  Count    Absent  JUST_RCX;
    PEXTRB       0 P66   Three3A 0x14 R   EL1 GX  IM  Count    Absent  FIRST;
    PEXTRD       0 P66   Three3A 0x16 R   EL  GX  IM  Count    Absent  FIRST;
    PEXTRQ       0 P66W  Three3A 0x16 R   EQ  GX  IM  Count    Absent  FIRST;
    EXTRACTPS    0 P66   Three3A 0x17 R   EL  GX  IM  Count    Absent  FIRST;
    PINSRB       0 P66   Three3A 0x20 R   GX  EL1 IM  Count    Absent  FIRST;
    PINSRD       0 P66   Three3A 0x22 R   GX  EL  IM  Count    Absent  FIRST;
    PINSRQ       0 P66W  Three3A 0x22 R   GX  EQ  IM  Count    Absent  FIRST;

    // Byte order, checksums
    MOVBE       16 P66   Three38 0xF0 RM  GW  MW  NO  Absent   Absent  FIRST;
    MOVBE       16 P66   Three38 0xF1 RM  MW  GW  NO  Absent   Absent  FIRST;
    MOVBE       32 NP    Three38 0xF0 RM  GL  ML  NO  Absent   Absent  FIRST;
    MOVBE       32 NP    Three38 0xF1 RM  ML  GL  NO  Absent   Absent  FIRST;
    MOVBE       64 W     Three38 0xF0 RM  GQ  MQ  NO  Absent   Absent  FIRST;
    MOVBE       64 W     Three38 0xF1 RM  MQ  GQ  NO  Absent   Absent  FIRST;
    CRC32        8 PF2   Three38 0xF0 R   GL  EB  NO  Absent   Absent  FIRST;
    CRC32        8 PF2W  Three38 0xF0 R   GQ  EB  NO  Absent   Absent  FIRST;
    CRC32       16 P66F2 Three38 0xF1 R   GL  EW  NO  Absent   Absent  FIRST;
    CRC32       32 PF2   Three38 0xF1 R   GL  EL  NO  Absent   Absent  FIRST;
    CRC32       64 PF2W  Three38 0xF1 R   GQ  EQ  NO  Absent   Absent  FIRST;

    } };
}

pub(crate) use three_bytes;
