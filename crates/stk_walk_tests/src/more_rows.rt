//! More functions over numbers.

use crate::rows::Row;

/// Functions with maps.
pub(crate) static SEVENTH_FUNCTIONS: [Row; 7] = [
    (
        "int f6(signed char a1) { while ((a1 + a1) == (a1 & a1)) { if (4294967295) { int v2 = (a1 - (a1 >> a1)); } { a1 -= ((a1) > (0x8000000000000000 + a1)); u8 *p3 = (u8 *)a1; } int v4 = gb(a1, 0); } { if (((a1) <= (a1 + a1)) >= (200 && a1)) { { a1 |= ((!a1) + (~a1)); } } else { if ((-2147483647 - (a1 / 200), 1) && (a1 / 200) > 100) a1 /= ((a1 < a1) * (a1 || a1)); } } if ((~a1)) { if (1u) { a1 << (a1 / 100); } else { a1 << (a1 / 100); } if ((a1 / 100) < 0) { u8 v7 = (long)(a1 * a1) * 0x100000000000000; int v8 = a1 % (a1 * a1); if ((a1 / a1) || (a1 * a1) < -1) a1 += '\\377'; } } else { long long v9 = (((short)('a')) >= (a1 >>= a1)); --a1; } if (a1 < (!a1)) { (a1)--; } signed char w10; switch (w10) { case 5: case 128: if ((w10 <= w10) <= (a1 + 4294967295)) { --w10; } else { { long v11 = 4294967295 % (a1 / 200); if (!(a1 / 200)) { a1 |= w10; } } for (u8 i12 = (017 || a1); 31 >= a1; i12++) { w10 ^= ((w10 && w10) | gc((a1 / 0))); int v13 = 100; } } if ((w10 >= 'a') != (a1 ? 256 : 63)) { do { die((gc((a1 ? '\\377' : '\\377')))); return ((short)a1); w10 &= ((w10 << 0x7fffffff) / (w10 - 1000 >= w10)); } while (((enum color)(sizeof(struct S) >= a1))); if ((w10 && 9uLL) >= (32 ? 33 : '\\x41')) a1 &= (((unsigned char)w10) || (a1 >= a1)); } else { if ((w10 ? 7 : a1) <= (a1 == w10)) ((255 / 9uLL) || a1); } break; default: for (signed char i14 = (w10 * RED); abs((-2)); i14++) { { gv((w10)); gv((((u8)3))); (void)((+a1)); } die(((a1 << a1))); } do { a1 /= ((w10 + w10) && (~('a'))); switch (w10) { case -1: gv(((w10 & w10))); die(((1000, (-1)))); break; default: (void)((w10 << 200)); break; } if (((GREEN + 4294967296) <= 4294967296) || (w10 + a1)) return (w10 - w10); } while ((w10, 128) < gc((a1 >= 32))); break; } return w10; }",
        "-128 1 127 127 255 127 128 255 -127 127 0 5, 7 0 0 0 255 100 255 255 33 2 255 127, 33 1 -115 127 255 3 129 7 127 -20 235 127, 7 0 -2 -2 1 33 0 2 -1 127 0 127",
    ),
    (
        "int f7(unsigned char a1, _Bool a2) { _Bool v3 = (a1-- | (5 == sizeof(struct S))); die(((v3 + 4294967296))); long long v4 = (((int)a1) == (a2 >= a1)); long long v5 = ((2147483647 - (9uLL * 0xffffffff)) <= 2147483647); unsigned char v6 = ((1 + v4) - (v3 && v3)); return ((v4 + a1) == (0x80000000, RED)); }",
        "1 1",
    ),
    (
        "static int f0(void) { if (((+0x8000000000000000) ^ BLUE)) for (_Bool i1 = 64; (sizeof table, 2147483647); i1++) { if (((i1 + i1) / i1, 1) && i1 < 1) { long long v3 = ((i1 >= i1) + (i1 == i1)); i1 /= ((v3 /= v3) <= ((unsigned)2)); i1 <<= ((v3 && v3) / i1); } } { int v4 = (long)(5 ^ 3) * 0x100000000000000; if (0xffffffff < '\\n' && (5 ^ 3) < -1) do { if ((sizeof table != (100 / 'a'))) gv((((-2147483647 - 1) * RED))); die((sizeof(struct S))); } while ((3U == 7)); } return ((0x8000000000000000 / 0x7fffffff), 64); }",
        "1, 0",
    ),
    (
        "int f1(_Bool a1) { a1 += ((1 < a1) || a1); struct S *p2 = (struct S *)(-2147483647 - 1); if ((!(a1 != sizeof table))) { --a1; } return (a1 >>= ((*p2).sc)); }",
        "1 63, 0 7",
    ),
    (
        "static int f3(char a1) { struct S *p2 = (struct S *)(a1); switch ((200 ? a1 : a1)) { case 1: default: for (u8 i3 = (a1 >= a1); ('\\377' - a1); ) { long v4 = (a1 <= (a1 + a1)); struct S *p5 = (struct S *)i3; } if (a1 >= a1) { for (; ; ) { break; p2->in.lo += a1--; } unsigned v7 = ((p2->in).hi); } case 5: while ((a1 ? 2L : a1) < (p2 + (-2147483647 - 1) != p2)) { if ((-1000) != (a1 / a1)) (*p2).sc -= (2L + 1); } while (((a1 > 5UL) >> (p2[a1].c))) ((3 | a1) < (a1 * a1)); case (char)200: case 128: { unsigned long long v8 = (-a1); { long long v9 = gb((-2147483647 - 1), v8); v8 ^= (v9 ^ 2L); } } a1 = ((017 || a1) < ((unsigned long long)a1)); } a1 = ((a1 ? a1 : 128) || 3U); switch ((p2->arr[a1])) { case GREEN: { int v10 = (a1 ? (a1 >> a1) : (a1 << 4294967296)); u8 *p11 = &(p2->in.lo); { int v12 = p11[1]; if (p11) v10 /= ((a1 != (a1 - 5UL)) ? 4 : ((signed char)a1)); } } } return (a1 <= a1 + ((-1) >= a1)); }",
        "2 128 5 64 0 219 1 100 100, -128 31 119 1 127 255 0 127 31, -1 127 127 1 26 1 1 0 0, 5 1 -127 -127 127 255 1 31 31",
    ),
    (
        "inline int f4(char a1, char a2) { if (a2 != (a2 || '\\377')) { die(((a1 > a1))); } else { if ((a1 || a2) == (a2 <= (a2 + 2))) die((a2)); switch (a1) { default: case 256: a1 >>= ((a2 - a1) != (a2)); break; case 0: a1 %= ((0x80000000 || 2147483647) || (31 << 9uLL)); break; } } switch ((33 ? 9223372036854775807 : a1)) { case 3 - 1: { unsigned v3 = a2 << (a1 & 5); if ((a1 & 5) == 64) { gv((0)); a2 <<= a1; } } break; case 128: { if ((~017)) { a1 << (a2 ^ a1); } else { a1 << (a2 ^ a1); } if ((a2 ^ a1) < 32) { { unsigned long v5 = (gb(a2, a1) != 0); a2 &= ((a2 - a2) << (a2 + a1)); a2 >>= ((v5 * 2), (1 > 017)); } { unsigned char w6; u8 *p7 = (u8 *)a1; } } } break; case 256: case 'a': { char v8 = ((a2 ^ a2) || (1u >= a1)); } if ((!a2) && ((int)a1)) { struct S *p9 = (struct S *)2; { break; a1 = ((_Bool)(a2 / sizeof(struct S))); } } break; } unsigned short v10 = (a2 ? 2147483647 : a1); return (a1 *= 5); return ((a2 && v10) % a1); }",
        "-1 31 0 255, 32 0 0 7, 100 1 1 255",
    ),
    (
        "int f5(void) { { int v1 = -2147483647 - 5; int v2 = 0x7fffffff % 5; if (5 > 100) { if (sizeof(int) > (4294967296 + 31)) { unsigned v3 = -2147483647 - (5 >> 1); int v4 = 63 / 5; if ((5 >> 1) >= 128) { return ((unsigned char)0x8000000000000000); unsigned v5 = ((32 > 63) && ('\\n' >= RED)); } } } } (void)((4 >> sizeof table)); if ((31 + 0x7fffffff) <= (2 - 1)) { int v6 = '\\n' / (5 - 3); if ((5 - 3)) { u8 v7 = (-2147483647 - 1) / (5 - 100); if ((5 - 100) < 1) gv((((long)4))); } } { { (void)('\\377'); for (char i8 = (GREEN ? 1000 : 4294967296); RED; (sizeof table << sizeof(int))) { i8 ^= (i8 ? sizeof table : (+i8)); int v9 = 0x8000000000000000; struct S *p10 = (struct S *)((v9 << 0)); } { (void)(4); gv(((5 == 7))); (void)(4294967295); } } if ((0x80000000 + RED) && (4 >= 3)) while (gb('\\x41', 5UL) <= 100) gv(((1, '\\x41'))); } return ((100 >> 127) <= ((unsigned char)33)); }",
        "-2 1",
    ),
];

/// Functions with maps.
pub(crate) static EIGHTH_FUNCTIONS: [Row; 11] = [
    (
        "inline int f6(signed char a1) { unsigned long v2 = ((a1 & 1u) && (a1 - 0)); signed char w3; if ((255 ? 63 : v2) == w3--) { while ((w3 ? v2 : w3) && (a1 / v2)) { int v4 = (v2 * (-v2)); signed char v5 = ++v4; struct S *p6 = (struct S *)('a'); } { { enum color v7 = (a1 *= sizeof(int)); short v8 = (!((int)7ll)); a1 ^= ((w3 /= 7ll) || (v8 / a1)); } } } else if (v2 < a1) gv(((33 / w3))); if ((v2 ^ 4) != v2) { { int v9 = ((int)a1) / (w3 / 5); if ((w3 / 5)) { int v10 = -2147483647 - (a1 / 200); v10 = ((a1 / 200) > 1 ? 3 : w3); } } } else { unsigned v11 = (long)(w3 ^ w3) * 0x100000000000000; if ((w3 ^ w3) < -1) { if (((unsigned long)w3) >= (2 | '\\x41')) { gv((4294967295)); } else { w3 = a1; } u8 *p12 = (u8 *)a1; } } { switch ('\\x41') { case RED: v2 = (((long long)v2) && (5UL && 0x7fffffff)); break; } if ((a1 > w3) <= (v2 > w3)) { { if (w3 != 7ll) { (256 ^ w3) / a1; } else { (256 ^ w3) / a1; } if (a1 <= 0) { return (v2 ? v2 : 63); v2 ^= 0; signed char v14 = (((signed char)w3) >> (a1 && w3)); } } for (_Bool i15 = a1; v2; i15++) w3 &= ((v2 / i15) <= v2); } else for (char i16 = (w3 + '\\377'); v2 && a1; i16++) { a1 = ((sizeof(int) >= a1) + (a1 / i16)); break; int v17 = ((1000 && w3) * 5); } } return ((63 / 200) ^ ((unsigned)a1)); }",
        "127 88 8 0 126 -28, 95 3 -1 1 -127 127, -127 127 -75 1 0 64, 31 33 8 0 2 -127",
    ),
    (
        "int f7(u8 a1) { u8 *p2 = (u8 *)a1; unsigned long long v3 = 1u; return a1; if ((a1 ? a1 : 255) != ((0xffffffff - a1) <= (0xffffffff))) { unsigned v4 = (v3 << (v3 | a1)); } for (signed char i5 = a1; (+a1); (100 & v3)) if (p2) { { unsigned v6 = -2147483647 - (i5 & 200); int v7 = v3 / (i5 & 200); if ((i5 & 200) > 1 && (i5 & 200) > 1) { *(p2 + a1) /= 2; i5 %= ((v3 - a1) % '\\377'); a1 = (p2 == p2); } } signed char v8 = a1; } else { struct S *p9 = (struct S *)a1; int v10 = gc((v3 + a1)); } return 128; }",
        "128 251 7 0 64",
    ),
    (
        "int f0(signed char a1) { { while (((a1 + a1) == (a1 >> a1))) { u8 v2 = (1 ? 0 : a1) / (a1 & 100); while ((a1 & 100) <= 0) { return 1; } } a1 /= ((127 > a1 + 127) || (a1 << a1)); u8 v3 = (4294967295 / 1000); } unsigned char v4 = ((5UL || a1) && (a1 - 017)); a1 = ((a1) -= (5UL / v4)); unsigned long long v5 = ((short)((_Bool)255)); unsigned long v6 = v4; if (v6 < v6) switch (64) { case 128: { if (v5 < v5) { v4 + 2147483547; } else { v4 + 2147483547; } if (v4 >= 128) { int v8 = v5; } } if ((2 != a1) == (v5 *= v5)) { v6 |= (GREEN ? ((int)v4) : (-v5)); a1 >>= ((2L ? 256 : 2147483647) * 0); break; } break; case 3 - 1: a1 = ((a1 ? v4 : sizeof(struct S)) > (~v4)); if ((v4 | a1) == (+0)) { v4 %= (++a1 || (v4, v5)); break; } case 'a': a1 -= 1; { unsigned v9 = (v5 - v6) * 16777216; while ((v5 - v6) >= 128) { break; } } } return ((0x8000000000000000, v5) << (-v5)); }",
        "127, 1, -128, 0",
    ),
    (
        "int f1(signed char a1, _Bool a2) { struct S *p3 = (struct S *)((a1 ? a1 : a2)); _Bool w4; return (a2 / a1); }",
        "1 0 0, 0 1 0",
    ),
    (
        "int f2(signed char a1) { if (((unsigned long)('\\x41')) < (a1 ? a1 : a1)) return ((unsigned)a1); return ((unsigned long long)a1); return ((1, a1) | (a1 - 2L)); }",
        "127, 5, 0",
    ),
    (
        "int f3(signed char a1) { unsigned char w2; { { if (a1 || '\\n') { w2 + 2147483547; } else { w2 + 2147483547; } if (w2 > 100) { struct S *p4 = (struct S *)w2; { int v5 = (a1 + a1) / (a1 * w2); while ((a1 * w2) != 0) { return 1; } } } } switch (w2) { default: if ((w2 << 1u) == (a1 && w2)) { long long v6 = w2; } if (((a1 >> a1) <= (2 >> 1))) a1 += ((4294967296 != sizeof table) & (w2 += 2L)); break; case 3 - 1: case 'a': { w2 >>= ((w2 <= w2) <= (a1 != a1)); } { int v7 = (2147483647 << 128) % a1; int v8 = 2 % a1; if (sizeof(struct S) != sizeof(int) && a1 == 0) { _Bool w9; } } break; } signed char v10 = ((017 && 0xffffffff) >= (w2 < RED)); } return 1; }",
        "7 5 1, 50 31 1, -128 138 1, -40 2 1",
    ),
    (
        "int f4(signed char a1, u8 a2) { if ((a1 || 7) == ((a1 + a2) < (a1))) { long v3 = 200; } for (; a1 != a1; 0xffffffff) break; a1 &= (-(a2 < a2)); switch ((a1 / a2)) { default: a1 %= ((128 + a1) << 3); for (char i5 = (a1, 2147483648); '\\n' < 256; i5++) while (((unsigned long)a1) < i5) gv(((1 > 0x80000000))); case -1: { int v6 = a1 >> (a2 ^ a2); v6 = ((a2 ^ a2) < 32 ? a1 : 2147483648); } if ((((a2) -= 1u) || ('a' == BLUE))) return (a1 - 3); } gv((a1)); return 127; }",
        "1 63 26, 0 255 3, 1 254 0, 127 0 5",
    ),
    (
        "inline int f5(unsigned char a1, unsigned char a2) { int v3 = ((a2 - a2), (a1 - a2)); if (((63 <= a1) ^ v3)) { for (signed char i4 = ((signed char)v3); ; i4++) { unsigned v5 = i4 >> (a2 & 3); while ((a2 & 3) > 31) { return 1; } } { if (((a1 - v3) * 16777216, 1) || (a1 - v3) >= 128) { enum color v7 = (((int)v3) / (1 - v3)); v7 += (((signed char)a1) ? v7 : (v7 >> a1)); u8 w8; } } } die(((v3 >>= a1))); if (0) { if (((v3 + a1) | (7 || 0xffffffff))) { int v9 = ((long)('\\377')); } else { enum color v10 = (v3 == v3 + a1); if ('\\377') { a1 <<= ((int)a2); } else a1 <<= ((a2 / v3) <= (a1 *= 7ll)); } } unsigned v11 = ((+v3) << 0x7fffffff); return a2; }",
        "255 0 127 255, 1 255 5 0, 0 0 127 255, 33 33 127 64",
    ),
    (
        "inline int f6(unsigned char a1, unsigned char a2) { a1 <<= (!((_Bool)a2)); u8 *p3 = (u8 *)((a1 & a2)); if ((9uLL >= (a2 + 9uLL)) != (a1 - a1 < (a1))) { unsigned v4 = p3[1]; while (p3 == 0) { return 1; } } else { unsigned v5 = (+(a2 >> a1)); a1 = ((+a1) >= (5UL && 2147483647)); } return ++a2; }",
        "1 5 255, 147 32 100, 63 0 194, 1 0 6",
    ),
    (
        "int f7(char a1, char a2) { if ((~a2) == a2) a2 = abs(a1); int v3 = ((a2 ^ a1) ^ ((u8)a2)); short v4 = (+(v3 ? a1 : v3)); while ((32 / 256) >= v3) { if ((v4 ? 7ll : sizeof table) <= ('\\x41' << 1u)) { die(((2 <= 2 - 4294967296))); } else switch ((-2147483647 - 1)) { case 'a': a1 = (a2 << (v3 ? sizeof table : v3)); case 5: die(((~a1))); { } case -1: case 255: gv((0xffffffff)); break; } switch (v4) { case 256: { break; } a2 ^= ((v3 >> v4) | a2); break; } } return (a2 && (v3 << 31)); }",
        "127 -1 127 100, 63 0 32 33, 0 126 31 2, 127 33 126 0",
    ),
    (
        "static int f0(_Bool a1, signed char a2) { if (('\\x41' - (017 && a1))) { unsigned v3 = (long)(a2 & 2) * 0x100000000000000; if ((a2 & 2) < -1) { struct S *p4 = (struct S *)((2147483648 ^ 200)); p4->arr[9223372036854775807] += (a2 >> 3U); die(((+a1))); } } do { if ((a1 ^ a2) != (a1 >= a2)) { die((a2)); } else { return (a1 && a1); } } while ((!((unsigned short)0x80000000))); long long v5 = a2; { struct S *p6 = (struct S *)((128 | a1)); } return a1; }",
        "0 1 32, 1 0 1, 1 1 255",
    ),
];

/// Functions with maps.
pub(crate) static NINTH_FUNCTIONS: [Row; 12] = [
    (
        "int f1(_Bool a1, unsigned char a2) { a1 += ((4 == a2) && (33 < 1)); char v3 = (a1, (4294967295 ? sizeof table : RED)); if (((v3 << v3) ? (~(sizeof table)) : (1u && 127))) { a1 *= (~(a1 ? a2 : a1)); struct S *p4 = (struct S *)3; int v5 = ((v3 & v3) ? (a2 <= 8) : ((char)v3)); } else if ((3U << a2) && (a2 /= a2)) { for (; ; (v3 / 5)) { v3 %= (a1 != (a1 / v3)); a1 = a2; } } else for (; ; ) { v3 += (((v3 < a1) + a1) == (a1)); } _Bool v8 = 2; char w9; return v3; }",
        "1 1 1 7 127 127, 1 255 1 1 2 100, 0 0 1 127 64 127, 0 64 1 64 127 -2",
    ),
    (
        "int f2(_Bool a1, _Bool a2) { { if (((a1 ^ a2) * 16777216, 1) && (a1 ^ a2) >= 128) a1++; } short v4 = (((unsigned short)2) <= (a2 << a2)); long long v5 = v4; { { switch ((7 != 255)) { case RED: gv((a2)); break; break; } } { int v6 = (+a2) % (a2 - v5); if ((a2 - v5) < 1) for (char i7 = 3; v5; ) gv(((v4, v4))); } } struct S *p8 = (struct S *)v4; return ((2 < 255 + 2) != (9223372036854775807 & 1)); }",
        "1 1, 0 0",
    ),
    (
        "int f3(char a1, char a2) { { if (((long)(a1 >> 1) * 0x100000000000000, 1) || (a1 >> 1) < -1 && (a1 >> 1) < -1) { { die((++a1)); if ((a1-- ? (a2 | a1) : a1)) (void)(((int)a1)); if ((a1 / a1) >= (a2 & a1)) { int v4 = gc((63 ? a1 : a2)); gv((a2)); } else a2 /= gb(a1, a1); } } } { long v5 = a1 << (a1 >> 1); if ((a1 >> 1) > 63) do { a1 %= a1; gv(((255 & a1))); } while (0x7fffffff); } return ((a1 - 9223372036854775807) < (5UL ? 1 : a2)); }",
        "127 8 8 0 100",
    ),
    (
        "static int f4(void) { int v1 = 9223372036854775807; do { { long v2 = v1 * 16777216; int v3 = v1 / v1; if (v1 > 1) { unsigned char v4 = ((v1 % (-2147483647 - 1)) < (v1 ? v1 : 0)); unsigned v5 = ((v1 <= v1) >= (v4, 0x8000000000000000)); } } unsigned v6 = (gc((v1 | v1)) ? (v1 == v1) : (v1 != 2)); } while (v1 > (!v1)); { if ((0x8000000000000000 << v1, 1) || v1 >= 32) { int v8 = v1; } } return (('a' < 7) == (v1 / v1)); }",
        "0, 32",
    ),
    (
        "static int f5(char a1) { { (2 + (-a1)); return ((long)BLUE); } _Bool w2; for (; '\\n' < 127; ) { { struct S *p4 = (struct S *)w2; struct S *p5 = ((0x8000000000000000 + 7ll) ? p4 : (void *)0); { if (a1 == w2) { p5->c; } else { p5->c; } if (p5 != 0) (*p5).sc -= ((unsigned short)w2); } } { int v7 = 32 << (w2 - a1); while ((w2 - a1) > 63) { ; } } return a1; } short v8 = 2; if (a1 || (w2 && w2)) if ((a1 && 31) >= a1) if (((long)(sizeof(int))) > (a1 | v8)) { _Bool v9 = ((a1 & 7) | (v8 + v8)); } else { struct S *p10 = (struct S *)4294967295; } return (-(-w2)); }",
        "-2 1 0 3 -1",
    ),
    (
        "int f6(unsigned char a1, char a2) { { unsigned v3 = (long)(a2 >> 1) * 0x100000000000000; int v4 = a2 % (a2 >> 1); if (a2 <= a2 || (a2 >> 1) >= 128) for (; a1 > 1; (0 | 32)) { u8 *p6 = (u8 *)64; p6 += a1; { a1 ^= ((((4 == a1) ? p6 : (void *)0) != (p6 + (-a1))) < (*(p6 + a1))); } } } switch ((a2 >>= a1)) { case 1 ? 7 : 8: case 2: while (0 < (a2 + 255)) { unsigned v7 = (a2 & 100) + 2147483547; if ((a2 & 100) >= 128) gv(((~a1))); } break; case 1: { unsigned char v8 = (('a' >> '\\n') ? (7ll | a1) : (9uLL + a2 <= a2)); char w9; } { long v10 = (a1 != a1) / (a1 - a2); if ((a1 - a2) < 1) { if (a2 > (-1)) gv(((a1 ^ a2))); int v11 = 1; } } case (char)200: { switch (5UL) { case -1: --a2; case RED: break; break; default: return a2; return '\\377'; } do { return a2; die(((-a2))); --a1; } while (((unsigned char)(('\\n' - a2) == ('\\n')))); enum color v12 = ((3U && GREEN) <= (a2 % a1)); } if (1) { a2 *= ((long)2L); switch (8) { default: --a1; a2 *= ++a2; break; } { } } break; } switch ((-1)) { case 256: case 2: if (((0x7fffffff & a2) < ((a2) -= a2))) { if (((a1 < 0x8000000000000000) - 0)) { (((a1 - a1) == (a1)) + 3); } else --a2; if ((256, 0x8000000000000000) <= (a1 == 0)) { a1 /= abs((a1 - a1)); gv(((4 & 0))); a1 >>= (a1 <= (a1 & 'a')); } char w13; } else { ((a1 / 200) / ((-1) / a1)); for (; ; (a1 && a2)) { gv((((a1) <= (100 + a1)))); a2 |= a2; gv((127)); } char v15 = 2147483648; } { a2 /= ((a2 % a2) * ((unsigned long)a2)); } } u8 *p16 = (u8 *)a2; return a2; }",
        "33 64 83 255 1 63 126 51, 255 7 255 1 1 1 33 127, 5 100 0 32 31 2 127 8, 63 0 128 32 127 128 127 127",
    ),
    (
        "static int f7(_Bool a1, _Bool a2) { a2 %= ((a2 - 128) % a1); _Bool v3 = abs(127); if ((('\\377' / a1) && (a2 % a1))) (void)(gc((a1 / a2))); return a1; }",
        "1 1 255, 0 1 3",
    ),
    (
        "int f0(void) { if ((256 + 0) != 256) { if (1) { long long v1 = 100; unsigned long v2 = (v1 && (v1 >= '\\x41')); } enum color v3 = (2147483647, (64 ? 0 : '\\x41')); } else gv((127)); u8 *p4 = (u8 *)7; return 0x80000000; }",
        "",
    ),
    (
        "static int f1(void) { int v1 = (5UL - ('\\x41' * 0)); if (v1 <= (64 << RED)) { unsigned char v2 = (v1 != (v1 ? v1 : v1)); unsigned char v3 = gc((v1 >> v1)); { u8 v4 = -2147483647 - (v3 & 2); if ((v3 & 2) > 1 || (v3 & 2) > 1) { } } } return ((v1 << 0x8000000000000000) >= (v1 || v1)); }",
        "0, 3",
    ),
    (
        "int f3(signed char a1, signed char a2) { long long v3 = a2; char w4; for (unsigned char i5 = (a1 < 2); gc((+w4)); i5++) { unsigned v6 = (-(a1 + w4)); v6 %= ((7 + (w4 / RED)) < (7)); { unsigned v7 = (v3 / v6) / (w4 & 7); while ((w4 & 7) != 0) { break; } } } struct S *p8 = (struct S *)a2; while ((a2 == a1) < (v3 != a2)) { a1 <<= 33; } return ((0xffffffff % w4) ? (a2 ? 4 : 256) : v3--); }",
        "126 -2 -2 0 255 0, 32 5 31 32 8 127, 1 127 100 5 255 33, -1 5 8 255 8 -39",
    ),
    (
        "int f4(char a1) { char w2; { a1 %= ((u8)(9223372036854775807 - a1)); if (128 < (w2 * 64)) { { int v3 = -2147483647 - (a1 - w2); v3 = ((a1 - w2) > 100 ? a1 : 32); } if (((a1 ^ 5) && (4 >= a1))) return (a1 > w2); } } long long v4 = (gc((a1 | a1)) | w2); do { { if ((-2147483647 - (a1 & 1), 1) && (a1 & 1) > 100) { do { (void)(0); { } } while (((v4 ? 2L : a1) <= (200 || v4))); if (((5UL % w2) - (w2 ^ BLUE))) { w2; gv(((1 >= v4))); long v6 = ((128 + w2 >= 128), (v4 && w2)); } _Bool v7 = ((v4 > a1) - '\\n'); } } unsigned short v8 = a1; } while (((v4 >> a1) && (w2 * 127))); _Bool w9; return 100; }",
        "8 127 1 1, 64 127 1 0, 127 5 1 1, 7 1 5 1",
    ),
    (
        "static int f5(_Bool a1) { if ((abs((a1 ? a1 : a1)) && a1)) { if (4 != 7) if ((a1 && a1) != (a1 % 33)) { a1 %= ((a1 < 2147483648) & (a1 + a1)); a1 >>= ((a1 ? a1 : a1) | gc(a1++)); return (a1 / a1); } } else a1 %= a1; struct S *p2 = (struct S *)a1; struct S *p3 = (a1 ? p2 : (void *)0); return ((a1 << a1) <= (a1 ? a1 : a1)); }",
        "1 33, 0 255",
    ),
];

/// Functions with maps.
pub(crate) static TENTH_FUNCTIONS: [Row; 10] = [
    (
        "static int f6(u8 a1, _Bool a2) { unsigned v3 = ((a1 | a1) ^ ('\\x41' >> a1)); unsigned long long v4 = 2147483647; { if ((32 & a1) < (~v4)) { if (((a1 != a2) + ((a1) -= a1))) { (a1)--; } if ((8 | a1) != (v3 < a1)) die((33)); } else if ((+(~a1))) { a2 <<= (a1 / (9uLL || a2)); } else return (v4 | a2); return ((5UL + 127) == 5UL); } return (a2 / (GREEN << v4)); }",
        "63 1, 0 1, 255 1, 0 0",
    ),
    (
        "inline int f7(_Bool a1) { { unsigned v2 = (a1 / 200) * 16777216; while ((a1 / 200) >= 128) { ; } } while (31) { if ((2L != a1) != (33 == a1)) { (void)((a1 ? a1 : sizeof(int))); } else { gv((128)); } do { (void)((a1 >> 2L)); } while ((1000 / a1) > (a1 << a1)); unsigned v3 = ((a1 ^ a1) / a1); } struct S *p4 = (struct S *)sizeof table; if (((p4->in).hi) <= a1) { switch ((a1 / a1)) { case 1: case -1: if (gc((!a1))) p4[a1].c += (~256); { return ((unsigned short)5UL); } break; default: if (!p4) { p4->c /= a1; a1 *= (a1 > (p4[9uLL].c)); } else a1 ^= ((sizeof(int) + ((p4->in).hi)) != sizeof(int)); p4->in.lo <<= (2147483648 ^ a1); break; } for (signed char i5 = (a1 >= 8); 1 >= '\\x41'; i5++) p4->arr[127] /= (9uLL ? 'a' : i5); short v6 = ((sizeof table ? a1 : 127) + 63 > (63)); } for (; a1; (1 ? 1000 : a1)) while ((a1 > 0x8000000000000000) && a1) a1 *= a1; return ((a1) <= (a1 + (a1, a1))); }",
        "1 0 5 255 2 1 31 8 255 3 1 1, 0 5 1 255 1 8 127 254 0 127 1 1",
    ),
    (
        "static int f0(unsigned char a1) { { int v2 = 8 % (a1 * a1); if ((a1 * a1) <= 0) { char v3 = a1; } } a1 /= 33; a1 &= ((a1 > a1) ? (5UL & a1) : (a1 / a1)); unsigned v4 = ((0 + a1) ? (a1 ^ a1) : (+(sizeof(struct S)))); return (v4 / (!0)); }",
        "255, 0, 1, 74",
    ),
    (
        "int f1(signed char a1) { { int v2 = (a1 * a1) * 16777216; if ((a1 * a1) < -1 || (a1 * a1) < -1) a1 /= a1; } { struct S *p3 = (struct S *)63; signed char w4; do { for (unsigned char i5 = (w4 | a1); i5 <= w4; ) { i5 = ((a1 < a1) <= 100); int v6 = ((-0) ? (w4 + a1) : i5); w4 *= i5; } switch ((a1 ? 2147483647 : w4)) { case (char)200: return ((p3->in).hi); --a1; break; } if ((200 - 0x8000000000000000) && (w4 - 0)) { p3->c <<= (w4 *= w4); } } while ((!p3) || (1 - a1)); } return (256 < ((a1 + 0 == (a1)) + 256)); }",
        "31 0 127 0 127 255 -127 3, 127 31 7 203 32 0 1 127, 32 -128 2 255 45 128 100 127, 2 8 31 0 8 0 127 0",
    ),
    (
        "inline int f2(unsigned char a1, u8 a2) { struct S *p3 = (struct S *)((64 || a2)); { long v4 = (p3->b) / (a1 & 100); if ((a1 & 100) == 0) if ((3 < 31) > a1) { _Bool v5 = ((p3 + a2) >= (u8 *)(a2)); { if ((p3->in.lo, 1) && p3 == 0 && p3 == 0) return (a1 | 100); } unsigned char v7 = a1; } } if (((unsigned char)(a1 - sizeof(struct S)))) { long v8 = ((a1, 2) ? (p3 != 0) : (a2 % 255)); v8 -= 200; switch (63) { case 256: a2 -= ((v8 + 255), (a1 || a1)); case 3 - 1: p3->c -= a1; --a2; break; case 5: (a2)--; break; } } return a2; }",
        "1 5 1 63 64, 255 1 0 255 128, 0 255 1 255 128",
    ),
    (
        "static int f3(unsigned char a1) { struct S *p2 = (struct S *)32; switch ((a1 && 9uLL)) { default: if (a1 > (a1 < a1)) if ((9223372036854775807 ^ 0)) { a1 |= (p2->b); } else { a1 |= (p2->arr == 0); unsigned long long v3 = ((7ll, RED) || '\\377'); v3 -= ((struct S *)v3 != 0); } { u8 v4 = 0x80000000 << a1; v4 = (a1 == 64 ? a1 : a1); } break; } if ((127 || 7) && ((enum color)a1)) if (!p2) { { gc((-9uLL)); { } } a1 ^= ((a1 >= a1) / (-a1)); } else { { { u8 v5 = '\\n' >> (a1 / 100); if ((a1 / 100) < 0) return ((a1 + 0x80000000) < a1); } a1 *= ((a1 | sizeof table) + (p2 == ((p2->c) ? p2 : (void *)0))); { if ((a1 >> (a1 >> 1), 1) && (a1 >> 1) >= 32) { a1 <<= ((sizeof table >= 2L) + sizeof table != (sizeof table)); p2->c = (a1 || 0); struct S *p7 = p2; } } } do { p2->c /= (a1 & 200); } while (a1 >= (p2->b)); if (((!3) ? (a1 >= a1) : (p2->in.lo))) { return ((-1) % a1); } else if (((*p2).sc) || (a1 / a1)) { return (p2->b); long v8 = ((a1) -= RED); a1 = ((3 < 3 + a1) || (!4)); } else { (p2->in).hi -= ((p2->in).hi); unsigned long v9 = (a1 % ((enum color)('\\n'))); } } if (a1 >= (a1 % 127)) { enum color v10 = ((u8)(a1 / a1)); { if (((int)v10) < 0xffffffff) { a1 += ((unsigned)(9223372036854775807 == 1)); } else p2->c -= (0 + 3); { a1 <<= (32 ? (a1 && 200) : (sizeof table % 0)); p2->c /= (v10 > a1); } } } char w11; { unsigned v12 = 200 / (a1 * w11); if ((a1 * w11) < 1) if (p2) { int v13 = a1 >> (a1 & 1); if ((a1 & 1) > 31) w11 *= ((*p2).sc); } } return ((w11 != w11), ((enum color)0x80000000)); }",
        "0 1 0 0 2 1 1 1 1 0 0 7 127 -2 7, 52 1 254 217 255 1 7 63 1 64 1 5 33 7 32, 7 0 2 255 31 1 100 127 1 33 0 128 2 64 32, 255 0 32 5 7 0 1 -1 0 32 127 0 0 8 1",
    ),
    (
        "int f4(u8 a1) { unsigned long long v2 = (((a1 + a1) >= (a1)) << (a1 % a1)); { int v3 = (v2 + (v2 / 0x8000000000000000)); v2++; } struct S *p4 = (struct S *)256; { long v5 = p4->c; v5 = (p4 != 0 ? 31 : 0xffffffff); } return ((a1 != sizeof(int)) >> gc((a1 || 4))); }",
        "254 100 2, 0 64 0, 1 0 255, 0 8 254",
    ),
    (
        "static int f5(signed char a1, signed char a2) { unsigned char w3; unsigned char w4; if (((2147483648 != 200) % gc((a2 - a1)))) { int v5 = (a1 * a1) + 2147483547; if ((a1 * a1) >= 128) if ((w4 + '\\x41' != '\\x41') <= (a1 << w4)) (void)(w4); } if ((a1 / w4)) { { { int v6 = (w4 & 5) + 2147483547; while ((w4 & 5) > 100) { break; } } } } else { signed char v7 = (w3 > (~a1)); } return ((w3 * 64) < (!a2)); }",
        "1 -1 3 255 32, -127 2 255 33 0, 33 32 255 255 255, 127 0 0 255 255",
    ),
    (
        "int f6(_Bool a1) { gv(((!0))); { u8 v2 = (a1 - 200) + 2147483547; if ((a1 - 200) > 1) a1 >>= 'a'; } short v3 = (a1 >= a1 + (sizeof table)); u8 v4 = (((-1) - a1) ? (v3 ? a1 : v3) : a1); { unsigned char w5; switch (v4) { case -1: { (void)((1u / a1)); unsigned char w6; } case 3: { char w7; } for (; v3 >= v3; 0) { gv(((w5 >= v3))); signed char w9; gv(((w5 >= 2))); } } } return (v4 || (v3 == 1)); }",
        "1 100 1 8 127",
    ),
    (
        "inline int f7(char a1, unsigned char a2) { if (RED != (a1 - 8)) if (((a2 >= (a2 + a2)) == a1)) { { gv((a2)); u8 v3 = ((4294967296 + a2) | 127); } u8 *p4 = (u8 *)a2; } u8 *p5 = (u8 *)a2; { unsigned v6 = p5[0]; if (a1 <= 1000 && p5 != 0) { enum color v7 = 4; *p5 -= (+a1); } } switch ((((*(p5 + BLUE)) ? p5 : 0) > p5)) { case 3 - 1: if (((a2 % 4294967296) || (a2 << 32))) { u8 *p8 = p5; for (; 127 || 2147483648; ) break; } if ((a1 || 31) < (a1 ? a1 : 127)) { { a2 /= 'a'; } if (gc((8 ? a1 : 8))) { unsigned long long v10 = a2; signed char w11; break; } else a2++; signed char w12; } else { long v13 = (a2 * a2) + 2147483547; if ((a2 * a2) > 1) a1 /= 33; } break; } { unsigned v14 = *p5; v14 = (p5 == 0 ? sizeof(int) : 2); } if (p5 == 0) if ((!a1)) { a2 ^= (((unsigned)a2) <= (a1 * a1)); a1 |= (a2 >>= 5UL); } return ((a1 && a1) >> (-(-2147483647 - 1))); }",
        "-127 0 127 0 0 255 74 0 1, 0 0 20 33 32 7 100 64 0, 64 5 26 255 255 64 3 2 254, 2 3 32 255 0 32 31 127 31",
    ),
];

/// Functions with maps.
pub(crate) static ELEVENTH_FUNCTIONS: [Row; 13] = [
    (
        "inline int f0(unsigned char a1, char a2) { if ((~1) < a2) if (((enum color)a1) && (a2 - a2)) { { struct S *p4 = (struct S *)((8 >= a2)); a2 /= (0 <= a1); long long v5 = ((a1 - a2), (&(p4->in.lo) < (u8 *)a1)); } } else for (u8 i6 = (a1 / a2); (7ll <= 7ll - ('a')); i6++) { (void)(((3 - 63) <= 3)); } else if ((!5UL) == a2) { unsigned v7 = a1 + 2147483547; if (a1 > 100) { a1 >>= ((a1 & 1000) - (a2 <= a1)); signed char v8 = ((sizeof(struct S)) > sizeof(struct S) - (7 % a2)); v8 = v8; } } while (((-a2) << (!0))) switch (8) { default: { continue; } if (a1 >= a1) { a1 >>= ((signed char)(+256)); } else gv(((a2 | 1u))); break; } gv(((a1 / a1))); unsigned char v9 = ((a1 & a2) ? (1u % a2) : (a2 && a1)); struct S *p10 = (struct S *)a1; return v9; }",
        "8 31 1 255, 33 0 8 255, 109 -128 255 0, 0 63 5 31",
    ),
    (
        "int f1(char a1) { u8 *p2 = (u8 *)a1; return (p2 - (p2 - a1)); do { u8 *p3 = p2; int v4 = a1; signed char v5 = ((sizeof(struct S) || 4) == ((char)v4)); } while (a1 > (2147483647 / a1)); return ((31 || a1) * (a1 & a1)); }",
        "127, -128",
    ),
    (
        "static int f2(signed char a1) { (a1)--; if (abs('\\377') < ++a1) { a1 /= ((a1 || a1) + a1); } gv((a1)); return a1; }",
        "5, 1",
    ),
    (
        "int f3(char a1) { u8 v2 = 'a'; if (((unsigned long)v2) && (~3U)) gv(((2 ? 0 : 100))); return ((_Bool)2147483648); { if ((a1 << (a1 * a1), 1) || (a1 * a1) == 64) if (((100 >> a1) / ('\\377' - a1))) { v2 >>= ((~v2) ? gb(v2, a1) : (127 < 4294967295)); } else { { u8 v4 = (long)(a1 >> 1) * 0x100000000000000; int v5 = GREEN % (a1 >> 1); if (64 <= a1 || (a1 >> 1) > 1) die((((short)v2))); } int v6 = ((v2) -= ((u8)0x80000000)); } } return (017 < (v2 / v2)); }",
        "2 0",
    ),
    (
        "int f4(char a1) { u8 v2 = 5; if (((a1 + v2) / (2 >> 3))) { { if (((long)(a1 - 100) * 0x100000000000000, 1) || (a1 - 100) < -1) switch (v2) { case 255: v2 <<= 3; --a1; break; case GREEN: v2 %= (a1 *= v2); break; } } enum color v4 = ((v2, v2) < a1); struct S *p5 = (struct S *)v2; } else { if (v2 < v2) { 0x8000000000000000 << (v2 - v2); } else { 0x8000000000000000 << (v2 - v2); } if ((v2 - v2) == 64) { unsigned long v7 = a1; } } return v2; }",
        "15",
    ),
    (
        "int f5(signed char a1) { if (a1 >= a1) { u8 w2; short v3 = ((a1 ? w2 : w2) / (w2 ? (-1) : a1)); a1 /= 0x8000000000000000; } a1 = a1; { u8 v4 = RED >> (a1 >> 1); if ((a1 >> 1) >= 32) { _Bool v5 = ((63 && a1) - (-a1)); while (a1 != 2) { switch (v5) { case 2: gv((0x7fffffff)); break; } if (((a1 >= (BLUE + a1)) + v5)) v5 >>= ((a1 - a1) + gc((-1))); } gv(((~a1))); } } a1 = ((a1 && a1) || ((unsigned short)a1)); { while ((0x8000000000000000 ? 5UL : a1) >= gc((9223372036854775807 % a1))) { int v6 = (a1 && a1) / a1; if (a1 != 0 && a1 != 0) die(((a1 + a1))); } u8 *p7 = (u8 *)64; } unsigned short v8 = a1; return 5UL; }",
        "-2 1 1 1 71, 8 254 1 0 7, 127 255 63 1 2, 127 0 0 1 128",
    ),
    (
        "int f6(signed char a1, char a2) { unsigned char w3; { if (abs((7 >= w3)) != 5) switch (w3) { case GREEN: break; } gv(((a2 >= 0))); } return (((u8)a2) + (a1 <= 255)); }",
        "127 64 0, 2 -1 7, -128 33 63, 1 33 5",
    ),
    (
        "int f7(u8 a1) { unsigned v2 = 0; long long v3 = ((-v2) > (a1, a1)); ((v2 % 1000) != (v3 + 'a')); struct S *p4 = (struct S *)v3; return (-v3); }",
        "1",
    ),
    (
        "static int f0(_Bool a1, signed char a2) { int v3 = a1; unsigned long v4 = ((v3 ? a1 : v3) ? (a1 >> a2) : a2); u8 v5 = a2; { int v6 = (v5 = 017) / (a1 / 1); if ((a1 / 1) < 1) switch (1u) { case -1: if (((_Bool)a2)) { long long v7 = v5; } for (u8 i8 = (3 && v5); 7ll && v5; a1) return (a2 && a1); break; case 3 - 1: { if (((v5 * a2) * 16777216, 1) || (v5 * a2) > 1) { ((v4 >> a1) != (v5 - 8)); a2 = (((short)a2) ? (a1 << 'a') : gc(2L)); } } { v5 ^= a1; } break; } } if ((v3 / 1u) && (a2 != v4 + a2)) { do { { gv((gb(v3, a2))); } u8 w11; if ((a1 || 9223372036854775807) < v4) a1 = ((a2 <= a2) & (v4 && v5)); } while ((~(7 != a1))); } else for (; 0; ) a1 &= a2; if (((32 * v4) + a1)) { unsigned long v13 = (gc((a1 % sizeof table)) & (2 % v3)); switch (v5) { default: (a2)--; break; case 256: break; break; } } else { v5 |= abs(((_Bool)v3)); } return ((unsigned)((200 + 100) != 200)); }",
        "1 2 1 1 0 1 1 8, 1 -2 255 1 255 1 1 0, 0 -128 255 1 255 0 1 32, 1 33 0 0 0 1 0 255",
    ),
    (
        "inline int f1(void) { u8 w1; unsigned v2 = (w1 - (w1 << w1) > w1); { if ((((int)v2) % v2, 1) || v2) { if (w1) { int v4 = '\\x41' << (w1 - 100); if ((w1 - 100) == 64) die(((BLUE < v2))); } { { v2 &= (64 + (v2 > w1)); (void)((0 + 0)); } } } } short v5 = v2; v2 <<= (((v2 - 2L) != v2) && GREEN); return ((v5 >> RED) + v5 > (v5)); }",
        "3, 64, 100, 31",
    ),
    (
        "static int f2(_Bool a1) { switch (a1) { case GREEN: a1 /= ((a1) == a1 - ((a1 + 2147483648) == a1)); while (a1 || (a1 || 0xffffffff)) { unsigned v2 = (a1 | (7 > a1)); char v3 = ((int)a1); if ((+v3) && (v3 - v3)) { u8 *p4 = (u8 *)(((unsigned long)0)); return (+5); } } break; default: { if (a1 > (a1 - a1)) a1 -= (~a1); if ((9223372036854775807 ? a1 : GREEN) != 4294967296) { long long v5 = ((a1, a1) >= a1++); return (v5 ? '\\377' : 1); a1 = (a1 != (a1 + (64 > a1))); } } case RED: if ((4294967295 >> a1) >= (a1 || a1)) if ((1 << 2147483648) || a1) { gv(((9223372036854775807 | a1))); } else a1 |= a1; --a1; break; } enum color v6 = a1; { switch ((a1 + a1)) { default: if ((~v6) || RED) { (void)((-a1)); ; } return v6; break; case 'a': for (; (-2147483647 - 1); ) { gv(((~v6))); gv((a1)); } { v6 %= ((unsigned short)(a1 % sizeof table)); a1 %= (v6 & a1); return ((v6) -= a1); } } { enum color v8 = ((int)(a1 = a1)); v8 /= (017 >= (a1 << a1)); } } unsigned char v9 = (33 + (a1 != a1)); if (((256 != (v6 + 256)) > v9)) { int v10 = v9 + 2147483547; if (v9 > 100) { { unsigned char v11 = (v6 == v9); v11 %= ((a1 / 9223372036854775807) >> (RED * 7ll)); v6 &= (-1); } } } else if ((4294967296 + (v6 & v9))) { unsigned v12 = (+(017 + a1)); } else { { a1 &= ((63 % (-1)) && 4294967295); v6 /= v9; } struct S *p13 = (struct S *)((a1 & 3)); } return ((short)('\\377' + v9)); }",
        "1, 0",
    ),
    (
        "inline int f3(u8 a1) { long long v2 = ((0 * 33) <= (a1 < a1)); return --a1; unsigned v3 = 4; (v2)--; { unsigned char v4 = (((long)v3) >= ((unsigned)v2)); gv(((v4 + v2))); } gv((v2)); return v2; }",
        "3",
    ),
    (
        "inline int f4(_Bool a1) { _Bool v2 = ((a1 + a1) % a1); struct S *p3 = (struct S *)((v2 % v2)); int v4 = ((a1 ? v2 : v2) >> ((8) == (8 - a1))); return ((long long)(2 < sizeof(struct S))); }",
        "0, 1",
    ),
];

/// Functions with maps.
pub(crate) static TWELFTH_FUNCTIONS: [Row; 8] = [
    (
        "int f5(void) { if ((+(sizeof(int))) && (5 << 7)) { { unsigned char w1; if (w1) { gv(((+('\\x41')))); } else ; } { if ('a' > 128) { (4294967295 + 017) % 5; } else { (4294967295 + 017) % 5; } if (5 < 1) { u8 v3 = (long)(5 - 7) * 0x100000000000000; if ((5 - 7) > 100 || (5 - 7) > 100) die(((+7))); } } } else { for (; 100 || 0x7fffffff; (1 == 1u)) if ('\\377') { gv((((unsigned)('a')))); gv((1)); ((unsigned long long)('a' == 4294967296)); } gv(((1 + '\\x41'))); } gv(((5, 200))); gv((5UL)); return 'a'; }",
        "255, 0",
    ),
    (
        "int f6(unsigned char a1, u8 a2) { unsigned v3 = ((a1 + 31) * (a2 < a1)); { signed char v4 = (gc(((_Bool)a1)) ^ (2147483647 >= GREEN)); long v5 = (5UL - (a1 == 200)); while (((((int)0x8000000000000000) + 1u) < 1u)) { { return v3; } } } return (a1 ^ (32 - 2)); }",
        "33 7 0, 0 254 255",
    ),
    (
        "int f7(char a1) { if ((a1 ? (a1 ? a1 : 8) : a1)) if ((!a1) && (a1 | a1)) { switch ((a1 < RED)) { default: return ((int)a1); case 'a': a1 &= a1; a1 &= (+(a1 % 1000)); break; case 0: (a1)--; (a1)--; break; } signed char v2 = ((unsigned char)a1); } if (a1 >= a1) { { if (((a1 + a1) < (5 | a1))) return (0x7fffffff ^ a1); } } else { return (a1, 64); } _Bool w3; struct S *p4 = (struct S *)(-2147483647 - 1); return 63; }",
        "-127 1, 31 1, 0 1",
    ),
    (
        "inline int f0(u8 a1) { for (u8 i2 = ((short)128); (i2 ? a1 : a1); i2++) { long v3 = ((31 ^ (-1)) >= (i2 >= '\\n')); v3 ^= abs((256 ? 4294967295 : sizeof table)); { switch (v3) { case RED: a1++; --i2; break; } v3 = ((v3 & 2147483648) - (GREEN ? sizeof(int) : a1)); } } if ((a1 && a1) <= a1) { { unsigned v4 = (long)a1 * 0x100000000000000; if (a1 < -1) return a1++; } } else { short v5 = 33; struct S *p6 = (struct S *)(gb(a1, a1)); } if ((a1 ? a1 : 8) || (a1 | a1)) { { if ((-2147483647 - (a1 >> 1), 1) || (a1 >> 1) > 100) { unsigned short v8 = (a1 <= (a1 * 0)); { gv(((64 >= 63))); { } } { v8 <<= ((unsigned char)(a1 << a1)); } } } } else switch (a1) { default: switch ((a1 % a1)) { case 255: case 3: break; a1 |= ((128 || 9uLL) & (4 % a1)); case 2: a1 = ((a1 < a1), (a1 != a1)); a1 += (-1); } break; case 1: { if (gb(a1, a1)) { a1 >> (a1 ^ a1); } else { a1 >> (a1 ^ a1); } if ((a1 ^ a1) > 31) { a1 += ((a1 / a1) * a1--); u8 w10; long long v11 = 'a'; } } while (a1) { { } _Bool v12 = gb(a1, 2147483647); } } if (a1 <= (a1 - 4294967296)) { if (a1 > a1) { if ((-a1) < ((u8)('\\377'))) (void)((-1)); } } unsigned char v13 = ((a1 - a1) + (2147483647 < a1)); a1 *= a1; return (!(a1, a1)); }",
        "254 128 254 1 0 255 1, 100 0 255 1 1 1 1, 2 33 0 1 1 0 0, 3 3 3 1 1 255 1",
    ),
    (
        "int f1(_Bool a1) { return (a1 & a1); if ((1 >> a1) || (a1 *= a1)) { { unsigned v2 = (a1 >> 1) + 2147483547; if ((a1 >> 1) >= 128) { long v3 = (8 <= ((u8)a1)); for (signed char i4 = (3 ? 4 : v3); i4 || 4294967296; i4++) a1 -= (((int)i4) << (a1 | v3)); } } } else { do { { long v5 = a1 >> a1; if (a1 > 63) { enum color v6 = abs((a1 + 100)); a1 += (((unsigned)2) < a1); } } if (((unsigned char)255) == (a1 != 0x7fffffff)) { (void)(a1); (void)(a1); } if ((+(-1)) < (a1 - a1 > a1)) { die(((a1 ? 0 : 2147483648))); } else die((a1)); } while (gb(a1, a1)); { if (a1 > (a1 != a1)) { a1 %= ((a1 & a1) - (a1 && a1)); (void)(1u); a1 ^= (((int)a1) - 33); } signed char v7 = (((signed char)5) << (a1 - a1)); } } { if (((a1 || a1) / (a1 & 200), 1) || (a1 & 200) != 0) { if ('a' != 5) { (a1 ^ a1) * 16777216; } else { (a1 ^ a1) * 16777216; } if ((a1 ^ a1) > 100) { int v10 = a1; if (('\\n' < 1) != a1) v10 >>= ((a1 - v10 > a1) >> (5 ? 5 : '\\x41')); if (gb(1u, a1) > (v10 / 2147483647)) return (a1, 2147483647); } } } if (sizeof(struct S) > (0x7fffffff & a1)) { int v11 = (a1 += a1) / (a1 ^ a1); int v12 = 0x7fffffff / (a1 ^ a1); if ((a1 ^ a1) != 0) { while (((a1 - a1) && a1)) { long v13 = ((a1 || a1) / (a1, a1)); v13 &= 0; v13 += abs(((enum color)v13)); } a1 = ((a1 ^ a1) ? (a1 > 5) : (a1 / a1)); unsigned long long v14 = (a1 >>= (a1 ^ a1)); } } { unsigned char w15; switch (a1) { default: case 255: { (a1)--; unsigned long v16 = w15; signed char v17 = (((unsigned long long)v16) ? ((enum color)a1) : (127 ? 255 : a1)); } break; case 1: if (((w15 - a1), (a1 ^ 8))) { die((4)); } else w15 %= ((~('\\n')) | (w15 % 256)); switch (w15) { case 'a': (w15)--; break; default: w15 &= ((1 || a1) - (w15 - a1)); } } for (; a1 == a1; w15) { unsigned long long v19 = (abs((sizeof table >= 2)) - (a1 << a1)); { int v20 = 2 << (v19 >> 1); v20 = ((v19 >> 1) == 64 ? 4 : v19); } if (a1) gv(((33 & v19))); } } return a1; }",
        "1 1 -1 1 1 1 100",
    ),
    (
        "int f2(unsigned char a1) { { unsigned v2 = 0 << (a1 >> 1); if ((a1 >> 1) < 32) { unsigned v3 = a1 >> (a1 & 200); int v4 = a1 % a1; if ((a1 & 200) < 32) { while ((256 ^ (7ll ? 1000 : a1))) die(((~a1))); } } } signed char w5; { if (--a1 > (2 <= 0)) a1 /= ((w5 <= a1) | w5); u8 *p6 = (u8 *)128; *(p6 + 4) <<= (127 - a1); } unsigned char v7 = ((1 % w5) ? ((unsigned long long)('\\n')) : w5); a1 <<= ((0 || 7) == (~017)); _Bool w8; return (((-2147483647 - 1) - 31) < 128); }",
        "255 5 31 0, 33 64 255 1, 0 127 127 1, 100 127 255 1",
    ),
    (
        "int f3(void) { if (32) { if (sizeof(int) == (4294967296 >> 63)) { if ((('\\n' / 1) ? (+2L) : 1000)) { gv((9uLL)); return (0 & 2147483648); gv((abs(('a' < 3U)))); } } else if ((!(0x7fffffff ^ 32))) ; } else { (void)(((int)0x80000000)); { if (9223372036854775807 && ((unsigned char)4294967295)) (void)((4294967295 <= 4294967295 - (sizeof table))); while ((!3U) <= (0x80000000 + 1 < (1))) gv(((2147483648 > 33))); } int v2 = (-1); } if ((1 + '\\n') >= (2 / 0x80000000)) (void)(((256 - 200) >= 256)); return 7ll; }",
        "",
    ),
    (
        "int f4(unsigned char a1, char a2) { if ((a1 == a2) <= ((a1) != (a1 + a1))) { unsigned char v3 = gb(sizeof(int), sizeof table); u8 *p4 = (u8 *)a2; short v5 = ((GREEN || 0) * v3); } { u8 *p6 = (u8 *)a1; } { int v7 = (63 / 2L) % (a1 >> 1); int v8 = a2 / a1; if (a2 < a2 || (a1 >> 1) < 1) { { } } } { u8 v9 = 200 << (a2 - a1); if ((a2 - a1) > 63) while (a1 > a2) if (gb(0, 2147483647) || (a2 | a2)) { break; } else { u8 *p10 = (u8 *)a2; } } do { a2 |= 9223372036854775807; } while ((a2 | 8) < (a1 + a1)); short v11 = ((a1 == a2) + a1 != (a1)); return ((signed char)(abs(a1))); }",
        "230 8 1 0 32, 0 -127 1 0 63, 3 126 1 1 127, 1 5 0 0 3",
    ),
];
