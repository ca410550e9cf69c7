//! The names of rows for SSE and for opcodes of three bytes, by their numbers in the order of the table.

// SSE: loads and stores
pub const MOVUPS: u16 = 147;

pub const MOVUPD: u16 = 148;

pub const MOVSS: u16 = 149;

pub const MOVSD: u16 = 150;

pub const MOVAPS: u16 = 151;

pub const MOVAPD: u16 = 152;

pub const MOVDQA: u16 = 153;

pub const MOVDQU: u16 = 154;

pub const MOVLPS: u16 = 155;

pub const MOVHPS: u16 = 156;

pub const MOVLPD: u16 = 157;

pub const MOVHPD: u16 = 158;

pub const MOVHLPS: u16 = 159;

pub const MOVLHPS: u16 = 160;

pub const MOVNTPS: u16 = 161;

pub const MOVNTPD: u16 = 162;

pub const MOVNTDQ: u16 = 163;

pub const MOVMSKPS: u16 = 164;

pub const MOVMSKPD: u16 = 165;

pub const MOVD: u16 = 166;

pub const MOVQ: u16 = 167;

// SSE: arithmetic of floats
pub const SQRTPS: u16 = 168;

pub const SQRTPD: u16 = 169;

pub const SQRTSS: u16 = 170;

pub const SQRTSD: u16 = 171;

pub const ADDPS: u16 = 172;

pub const ADDPD: u16 = 173;

pub const ADDSS: u16 = 174;

pub const ADDSD: u16 = 175;

pub const MULPS: u16 = 176;

pub const MULPD: u16 = 177;

pub const MULSS: u16 = 178;

pub const MULSD: u16 = 179;

pub const SUBPS: u16 = 180;

pub const SUBPD: u16 = 181;

pub const SUBSS: u16 = 182;

pub const SUBSD: u16 = 183;

pub const MINPS: u16 = 184;

pub const MINPD: u16 = 185;

pub const MINSS: u16 = 186;

pub const MINSD: u16 = 187;

pub const DIVPS: u16 = 188;

pub const DIVPD: u16 = 189;

pub const DIVSS: u16 = 190;

pub const DIVSD: u16 = 191;

pub const MAXPS: u16 = 192;

pub const MAXPD: u16 = 193;

pub const MAXSS: u16 = 194;

pub const MAXSD: u16 = 195;

pub const RSQRTPS: u16 = 196;

pub const RSQRTSS: u16 = 197;

pub const RCPPS: u16 = 198;

pub const RCPSS: u16 = 199;

pub const UNPCKLPS: u16 = 200;

pub const UNPCKLPD: u16 = 201;

pub const UNPCKHPS: u16 = 202;

pub const UNPCKHPD: u16 = 203;

pub const ANDPS: u16 = 204;

pub const ANDPD: u16 = 205;

pub const ANDNPS: u16 = 206;

pub const ANDNPD: u16 = 207;

pub const ORPS: u16 = 208;

pub const ORPD: u16 = 209;

pub const XORPS: u16 = 210;

pub const XORPD: u16 = 211;

pub const SHUFPS: u16 = 212;

pub const SHUFPD: u16 = 213;

pub const CMPPS: u16 = 214;

pub const CMPPD: u16 = 215;

pub const CMPSS: u16 = 216;

pub const CMPSD: u16 = 217;

pub const UCOMISS: u16 = 218;

pub const UCOMISD: u16 = 219;

pub const COMISS: u16 = 220;

pub const COMISD: u16 = 221;

// SSE: conversions
pub const CVTSI2SS: u16 = 222;

pub const CVTSI2SD: u16 = 223;

pub const CVTTSS2SI: u16 = 224;

pub const CVTTSD2SI: u16 = 225;

pub const CVTSS2SI: u16 = 226;

pub const CVTSD2SI: u16 = 227;

pub const CVTPS2PD: u16 = 228;

pub const CVTPD2PS: u16 = 229;

pub const CVTSS2SD: u16 = 230;

pub const CVTSD2SS: u16 = 231;

pub const CVTDQ2PS: u16 = 232;

pub const CVTPS2DQ: u16 = 233;

pub const CVTTPS2DQ: u16 = 234;

pub const CVTTPD2DQ: u16 = 235;

pub const CVTDQ2PD: u16 = 236;

pub const CVTPD2DQ: u16 = 237;

// SSE: integers
pub const PUNPCKLBW: u16 = 238;

pub const PUNPCKLWD: u16 = 239;

pub const PUNPCKLDQ: u16 = 240;

pub const PACKSSWB: u16 = 241;

pub const PCMPGTB: u16 = 242;

pub const PCMPGTW: u16 = 243;

pub const PCMPGTD: u16 = 244;

pub const PACKUSWB: u16 = 245;

pub const PUNPCKHBW: u16 = 246;

pub const PUNPCKHWD: u16 = 247;

pub const PUNPCKHDQ: u16 = 248;

pub const PACKSSDW: u16 = 249;

pub const PUNPCKLQDQ: u16 = 250;

pub const PUNPCKHQDQ: u16 = 251;

pub const PCMPEQB: u16 = 252;

pub const PCMPEQW: u16 = 253;

pub const PCMPEQD: u16 = 254;

pub const PSRLW: u16 = 255;

pub const PSRLD: u16 = 256;

pub const PSRLQ: u16 = 257;

pub const PADDQ: u16 = 258;

pub const PMULLW: u16 = 259;

pub const PSUBUSB: u16 = 260;

pub const PSUBUSW: u16 = 261;

pub const PMINUB: u16 = 262;

pub const PAND: u16 = 263;

pub const PADDUSB: u16 = 264;

pub const PADDUSW: u16 = 265;

pub const PMAXUB: u16 = 266;

pub const PANDN: u16 = 267;

pub const PAVGB: u16 = 268;

pub const PSRAW: u16 = 269;

pub const PSRAD: u16 = 270;

pub const PAVGW: u16 = 271;

pub const PMULHUW: u16 = 272;

pub const PMULHW: u16 = 273;

pub const PSUBSB: u16 = 274;

pub const PSUBSW: u16 = 275;

pub const PMINSW: u16 = 276;

pub const POR: u16 = 277;

pub const PADDSB: u16 = 278;

pub const PADDSW: u16 = 279;

pub const PMAXSW: u16 = 280;

pub const PXOR: u16 = 281;

pub const PSLLW: u16 = 282;

pub const PSLLD: u16 = 283;

pub const PSLLQ: u16 = 284;

pub const PMULUDQ: u16 = 285;

pub const PMADDWD: u16 = 286;

pub const PSADBW: u16 = 287;

pub const PSUBB: u16 = 288;

pub const PSUBW: u16 = 289;

pub const PSUBD: u16 = 290;

pub const PSUBQ: u16 = 291;

pub const PADDB: u16 = 292;

pub const PADDW: u16 = 293;

pub const PADDD: u16 = 294;

pub const PSRLDQ: u16 = 295;

pub const PSLLDQ: u16 = 296;

pub const PSHUFD: u16 = 297;

pub const PSHUFHW: u16 = 298;

pub const PSHUFLW: u16 = 299;

pub const PINSRW: u16 = 300;

pub const PEXTRW: u16 = 301;

pub const PMOVMSKB: u16 = 302;

// Three-byte opcodes, 0F 38
pub const PSHUFB: u16 = 303;

pub const PHADDW: u16 = 304;

pub const PHADDD: u16 = 305;

pub const PHADDSW: u16 = 306;

pub const PMADDUBSW: u16 = 307;

pub const PHSUBW: u16 = 308;

pub const PHSUBD: u16 = 309;

pub const PHSUBSW: u16 = 310;

pub const PSIGNB: u16 = 311;

pub const PSIGNW: u16 = 312;

pub const PSIGND: u16 = 313;

pub const PMULHRSW: u16 = 314;

pub const PBLENDVB: u16 = 315;

pub const BLENDVPS: u16 = 316;

pub const BLENDVPD: u16 = 317;

pub const PTEST: u16 = 318;

pub const PABSB: u16 = 319;

pub const PABSW: u16 = 320;

pub const PABSD: u16 = 321;

pub const PMOVSXBW: u16 = 322;

pub const PMOVSXBD: u16 = 323;

pub const PMOVSXBQ: u16 = 324;

pub const PMOVSXWD: u16 = 325;

pub const PMOVSXWQ: u16 = 326;

pub const PMOVSXDQ: u16 = 327;

pub const PMOVZXBW: u16 = 328;

pub const PMOVZXBD: u16 = 329;

pub const PMOVZXBQ: u16 = 330;

pub const PMOVZXWD: u16 = 331;

pub const PMOVZXWQ: u16 = 332;

pub const PMOVZXDQ: u16 = 333;

pub const PMULDQ: u16 = 334;

pub const PCMPEQQ: u16 = 335;

pub const PACKUSDW: u16 = 336;

pub const PCMPGTQ: u16 = 337;

pub const PMINSB: u16 = 338;

pub const PMINSD: u16 = 339;

pub const PMINUW: u16 = 340;

pub const PMINUD: u16 = 341;

pub const PMAXSB: u16 = 342;

pub const PMAXSD: u16 = 343;

pub const PMAXUW: u16 = 344;

pub const PMAXUD: u16 = 345;

pub const PMULLD: u16 = 346;

pub const PHMINPOSUW: u16 = 347;

pub const MOVNTDQA: u16 = 348;

// Three-byte opcodes, 0F 3A
pub const ROUNDPS: u16 = 349;

pub const ROUNDPD: u16 = 350;

pub const ROUNDSS: u16 = 351;

pub const ROUNDSD: u16 = 352;

pub const BLENDPS: u16 = 353;

pub const BLENDPD: u16 = 354;

pub const PBLENDW: u16 = 355;

pub const PALIGNR: u16 = 356;

pub const INSERTPS: u16 = 357;

pub const DPPS: u16 = 358;

pub const DPPD: u16 = 359;

pub const MPSADBW: u16 = 360;

pub const PCMPESTRM: u16 = 361;

pub const PCMPISTRM: u16 = 362;

pub const PCMPESTRI: u16 = 363;

pub const PCMPISTRI: u16 = 364;

pub const PEXTRB: u16 = 365;

pub const PEXTRD: u16 = 366;

pub const PEXTRQ: u16 = 367;

pub const EXTRACTPS: u16 = 368;

pub const PINSRB: u16 = 369;

pub const PINSRD: u16 = 370;

pub const PINSRQ: u16 = 371;

// Byte order, checksums
pub const MOVBE: u16 = 372;

pub const CRC32: u16 = 373;
