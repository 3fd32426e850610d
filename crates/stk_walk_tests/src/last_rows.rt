//! The last functions over numbers.

use crate::rows::Row;

/// Functions with maps.
pub(crate) static THIRTEENTH_FUNCTIONS: [Row; 10] = [
    (
        "static int f5(u8 a1) { while (((4 / 127) / (RED == a1))) a1 /= a1; if ((a1 ? (a1 != 0) : abs((a1 != a1)))) { if (((!a1) <= 7ll)) { gv(((a1 < 2147483648))); } unsigned char w2; } else ; return ((a1 *= sizeof(struct S)) / (a1 * a1)); }",
        "1 255 32, 0 0 100, 127 64 64",
    ),
    (
        "int f6(void) { { if ((-(1000 << 1))) switch ((1, 1u)) { case -1: case 0: die((RED)); (void)((0x80000000 & 0)); break; } else if ((1, 127) <= (GREEN && 256)) { gv(((9223372036854775807 > 4))); } else die((gc((~GREEN)))); if (abs((0 ? 0 : (-2147483647 - 1))) > ((_Bool)33)) { return (2147483647 + 100); while (64 <= ((unsigned char)5UL)) gv((RED)); } } unsigned short v1 = (2147483648, sizeof(int)); return v1; }",
        "100",
    ),
    (
        "inline int f7(char a1, unsigned char a2) { unsigned long long v3 = ((a2 < '\\n') != (a2 | a2)); while ((sizeof table / v3) >= (0 == 63)) { switch (a2) { default: { int v4 = (a2 - v3) % (a1 >> 1); if ((a1 >> 1) <= 0) { (void)(a2--); gv(((a2 ? a1 : a1))); gv((a2)); } } gv(((a1 ? 2 : v3))); break; case 255: if ((v3 > v3 + v3)) { break; a2 /= ((v3 >= a2) / (a2 == a1)); break; } } { unsigned v5 = v3 << (a1 ^ v3); v5 = ((a1 ^ v3) > 31 ? 255 : a2); } while ((v3 ^ 0) || (a2 / a2)) if (((a1 - v3) | (a1 - v3))) die((a1)); } for (char i6 = (v3 >> a2); v3; i6++) { if (((-1) >= a2)) { a1 << (a1 * a2); } else { a1 << (a1 * a2); } if ((a1 * a2) >= 32) while ((256 ^ v3) && ('\\x41' / a2)) gv((gc((017 ? a1 : a2)))); } unsigned char w8; switch ((a2 = w8)) { case GREEN: if (v3) { { u8 v9 = (w8 >= 64) / (a1 >> 1); if (0 >= (a1 >> 1)) { break; } } long long v10 = sizeof table; signed char v11 = 2; } break; case 128: if ((a2 <= (a2 - 33)) <= (a2 * RED)) { unsigned v12 = (-(v3 < v3 - a1)); } } { u8 v13 = 7ll << (a2 - 1); int v14 = v3 % a2; if ((a2 - 1) >= 32) { { a1 -= a1; { u8 *p15 = (u8 *)((+w8)); (a2)--; } } if ((a2 == (w8 + a2)) < v3) { { if (((long)(a2 - w8) * 0x100000000000000, 1) || (a1 || a1) && (a2 - w8) > 100) { w8 *= 4; w8 <<= 1; (void)((a1 && a1)); } } struct S *p17 = (struct S *)((1 > v3)); } } } return a2; }",
        "0 63 63 67 1 255, 100 127 0 8 127 31, 3 64 8 127 64 5, -2 100 255 113 63 254",
    ),
    (
        "static int f0(unsigned char a1) { _Bool v2 = a1; while (4294967296 > (a1 * v2)) { unsigned char v3 = (+(a1 ? v2 : v2)); } return ((a1 + a1) + (v2 != 3)); }",
        "0, 1",
    ),
    (
        "static int f1(_Bool a1) { if (((a1 | 4294967296) % (a1 || '\\377'))) { struct S *p2 = (struct S *)a1; int v3 = (-1); { if (((long)(a1 & 3) * 0x100000000000000, 1) && (a1 & 3) > 1) { struct S *p5 = (p2 - (1u >= 256)); unsigned v6 = ((((v3 + v3) ? p2 : 0) != 0) - (v3 << v3)); } } } if (3) switch (4) { default: a1 = ((a1) >= a1 + a1); break; case (char)200: { int v7 = (7ll && a1) % (a1 - a1); int v8 = sizeof(struct S) / (a1 - a1); if ((a1 - a1)) gv((((enum color)a1))); } break; case -1: a1 -= ((+GREEN) ? (a1 - 0) : (0 - a1)); } else { for (char i9 = (1 + sizeof(struct S)); (i9 - a1); i9++) { i9 %= ((i9 && 2147483648), (i9 ? i9 : i9)); } { a1 /= ((sizeof(int) / a1) + (a1 / '\\n')); } struct S *p10 = (struct S *)a1; } unsigned long long v11 = ((200 <= a1) == (7 - a1)); return (('a' ? v11 : v11) ^ ((int)v11)); }",
        "1 7, 0 33",
    ),
    (
        "static int f2(char a1) { { if (((a1 / 5) * 16777216, 1) && (a1 / 5) > 100) { for (; a1; ) { (void)((100 & RED)); continue; } } } { unsigned char v4 = ((a1 *= a1) / a1--); } _Bool w5; return 4294967295; }",
        "127 1, 64 1",
    ),
    (
        "int f3(u8 a1, unsigned char a2) { return (a1 | a2); unsigned v3 = ((a2 <= a2) | (a2 % a2)); char v4 = 32; for (; ; 8) switch ((100, v4)) { case 2: return (5 && v3); break; case RED: a2 %= (v4 | ((long)a1)); break; } switch ((v4 + v4)) { case RED: default: if ((127 && 2L) < (v3 / a1)) { switch (((v3 - v4) <= v3)) { default: a2 %= gb(1, a1); v4 += ((a1 && (-2147483647 - 1)) && a2); break; case 256: a2 |= 5; break; case 'a': break; break; } v3 ^= v4; unsigned short v6 = v3; } else switch ((3U ^ v3)) { default: a1 ^= ((a2 * a2) + a2); break; case GREEN: v4 /= 0x80000000; case RED: (a2 < (7ll ? 0x80000000 : v3)); break; } { u8 v7 = -2147483647 - (a2 - 5); int v8 = v3 % (a2 - 5); if ((a2 - 5) >= 128) { { a1 *= v3; } } } break; case 128: if ((128 + a1 > (128)) != (v3 ? 31 : a1)) if (((_Bool)32) == (a1 % a2)) { break; } if (((v4 <= v3) * (v4 <= v4))) { { --v3; signed char v9 = v3; v3 += 8; } if (v4) break; } break; case 1 ? 7 : 8: break; } return ((3 & 9uLL) == (v4 ? 2147483648 : 4)); }",
        "0 0 255 1",
    ),
    (
        "int f4(void) { { if ((-2147483647 - 5, 1) || 5 > 1 || 5 > 1) { if ((0xffffffff ? 4 : 2147483647) == ('\\n' + 7)) for (unsigned char i2 = (5UL - 4294967295); (0x80000000 + i2); ) { return ((unsigned)i2); gv(((sizeof table ? i2 : i2))); } } } { int v3 = 7ll >> (5 * 3); if ((5 * 3) > 31) return 9uLL; } int v4 = '\\x41'; return 0; }",
        "",
    ),
    (
        "static int f5(void) { for (; 2; ) { switch (0) { case 0: case 256: { signed char w2; } { u8 v3 = 9uLL >> (5 / 200); int v4 = '\\377' % 5; if ((5 / 200) > 31) { (void)(sizeof(int)); } } break; } } { if ((((128 / (-1)) + '\\n') == ('\\n'))) if ((-33) && (1 == 9223372036854775807)) { gv(((~(sizeof(int))))); (void)((017 / sizeof(struct S))); } else if (63) { signed char v5 = (0 > 'a'); u8 *p6 = (u8 *)((v5 + '\\n')); long v7 = ((1 ^ v5) > (v5 | v5)); } else { int v8 = 1; short v9 = ((BLUE ? v8 : v8) << (v8 << 0)); return 64; } { for (char i10 = (GREEN & 3U); (7 <= i10); i10++) { signed char v11 = ((0xffffffff < i10) && (31 >= 128)); } { if (((5 - 3) + 2147483547, 1) || (5 - 3) > 1) gv((64)); } struct S *p13 = (struct S *)(((short)('\\x41'))); } } return gc(('a' - 0)); }",
        "127 127 0",
    ),
    (
        "int f6(void) { for (; (5UL % 4); ) { int v2 = (128 >= (0x7fffffff >> sizeof(struct S))); for (_Bool i3 = (017 / v2); 0 > i3; ) return (i3 || 3); long v4 = ((v2 > '\\n') ? ((9223372036854775807 + v2) == v2) : (v2 ^ v2)); } unsigned v5 = RED; if (((unsigned long)(v5 & v5))) if (((v5 = v5) ? 4294967295 : (!v5))) { int v6 = 7 % (v5 - 2); v6 = ((-1) >= v5 || 0 >= (v5 - 2) ? 8 : 2147483648); } else { if ((v5 ^ v5) >= 4294967295) { { --v5; _Bool v7 = (v5 > ('\\n' != v5)); v7 &= ((v7 >= 0x7fffffff) > (v7 ? 9223372036854775807 : v7)); } if ((v5 && v5) && 9uLL) { int v8 = (v5 / (v5 << GREEN)); } unsigned v9 = 0; } } return (v5 << (~63)); }",
        "",
    ),
];

/// Functions with maps.
pub(crate) static FOURTEENTH_FUNCTIONS: [Row; 11] = [
    (
        "inline int f7(_Bool a1, unsigned char a2) { if ((a2 | 2147483648) || (sizeof table - 255)) { --a2; } a1 = ((0x7fffffff * 200) ? (a2 >= a2 - 256) : ((-2147483647 - 1), a2)); return a2; }",
        "0 0",
    ),
    (
        "static int f0(char a1) { { (void)((1 + a1 < (1))); int v2 = 32; } u8 w3; while (((a1 || w3) && ('a' & 017))) { unsigned long v4 = ((w3 && 2) | (GREEN >> 7)); if ((++v4, (w3 ^ 1))) switch (7) { case RED: w3 |= 0x80000000; } else switch (w3) { case 256: gv((a1)); break; default: v4 *= a1; v4 = ((a1 - v4) + (a1 ? 9223372036854775807 : v4)); break; } if (9uLL) { { unsigned v5 = (v4 ? w3 : v4) % (v4 - w3); while (0 == (v4 - w3)) { break; } } if ((((unsigned)a1) <= (a1 % v4))) w3 <<= (w3 % ('a' > v4)); v4 %= (~(64 + v4)); } } unsigned char w6; return ((0xffffffff >= 32), (256 ? a1 : w3)); }",
        "63 44 148 255, 1 0 0 255, 126 5 1 254, 0 8 3 0",
    ),
    (
        "static int f1(signed char a1) { if (((0x7fffffff && a1) || (a1 || (-2147483647 - 1)))) { for (char i2 = (a1 + a1); ; (~('\\x41'))) switch (a1) { default: die(((i2 - a1))); (void)((+i2)); break; case 3: gv(((i2 < i2))); case GREEN: gv((gc(((unsigned)1u)))); break; } u8 v3 = a1; for (char i4 = (v3 << 256); (0 ? v3 : a1); i4++) { if ((1000 ? 63 : i4) >= (v3 ? (-2147483647 - 1) : a1)) { v3 -= (((long)i4) == (-v3)); } else (void)(v3); switch (a1) { default: gv((a1)); break; } } } else { unsigned char v5 = (a1 * (2147483647 / 2147483647)); { long v6 = sizeof(int) >> (a1 >> 1); if ((a1 >> 1) > 31 && (a1 >> 1) > 31) { struct S *p7 = (struct S *)0x80000000; } } if ((a1 % a1)) { a1 &= ((v5 *= a1) % (a1 << a1)); short v8 = a1; a1 >>= 0x8000000000000000; } else { if ((~5) < (v5 + a1)) { a1++; int v9 = ((v5 || a1) << ('\\n' * v5)); } gv((0x7fffffff)); } } signed char v10 = ((a1 > a1) - abs('\\x41')); for (char i11 = (a1 > a1); a1 || 4294967296; ) { gv(((!('a')))); } if (v10) { enum color v12 = BLUE; } else { unsigned v13 = (('\\n' / a1) - a1); long long v14 = 0; { unsigned short v15 = (-2147483647 - 1); if ((((int)v10) / v13)) { gv(((63 != sizeof(int)))); int v16 = ((64 / v15) >> ((-2147483647 - 1) & 64)); } else a1 = ((a1 + a1) && ((long long)127)); unsigned long v17 = ((v10 || 1) > (4294967295 == v15)); } } if ((1 || a1) >= v10) { v10 += sizeof(int); { int v18 = -2147483647 - (a1 - v10); if ((a1 - v10) > 100) { while ((2 + 7ll) <= a1) die((((unsigned long)v10))); for (; ; ('a' & 5UL)) { v10 %= (!(BLUE + 0xffffffff <= (BLUE))); } struct S *p20 = (struct S *)v10; } } } return v10; }",
        "127 127 255 127 0, 5 31 2 127 84, 0 0 0 64 127, 3 32 255 -1 1",
    ),
    (
        "inline int f2(signed char a1) { if (GREEN == (a1 >> a1)) if ((3U, a1) >= (1u && a1)) { if ((a1 - 3) != (a1 != a1 + 127)) a1 >>= ((a1 | a1) == (a1 && a1)); } else { a1 *= (+((a1) < (a1 + 4294967295))); } else { u8 v2 = (a1 * a1) * 16777216; int v3 = 4294967295 % a1; if ((a1 * a1) < -1) { unsigned v4 = -2147483647 - (a1 >> 1); int v5 = 128 / a1; if ((a1 >> 1) < -1) return 31; } } char w6; u8 *p7 = (u8 *)w6; { { int v8 = ((long long)w6) % w6; if (w6 < 1) switch ((p7[((int)a1)])) { case 3: break; break; } } (w6)--; } return ((a1 + 1u) >> ('\\x41' / 017)); }",
        "20 127 0, 127 100 0, -1 6 1, 8 0 63",
    ),
    (
        "inline int f3(void) { { for (; 128 > 64; ) { int v2 = ((017 + 256) > (2 << 256)); u8 *p3 = (u8 *)(1); } while (((31 != 5) != (8, 2L))) { (void)((-2147483647 - 1)); { u8 v4 = (5 - 2) * 16777216; if ((5 - 2) < -1) { gv(((1 < 1 + 1))); int v5 = ((int)(2 < 5)); } } } } u8 *p6 = (u8 *)sizeof(struct S); return 200; }",
        "",
    ),
    (
        "int f4(unsigned char a1) { short v2 = a1; int v3 = v2; short v4 = (v3 >= (a1 && a1)); if (v3 <= ((v2 - a1) == v2)) { int v5 = -2147483647 - (a1 & 200); while ((a1 & 200) < -1) { break; } } else { switch ((v2 *= a1)) { case GREEN: { signed char v6 = (('\\n' | '\\n') - (0x7fffffff < v2)); die((v6)); int v7 = a1; } break; } } return ((v3 ? 017 : 'a') ? (1u * v2) : (v2 ? v3 : v3)); }",
        "1, 0",
    ),
    (
        "int f5(char a1) { struct S *p2 = (struct S *)a1; unsigned char v3 = ((-1) < (-4294967296)); for (; ; (v3 ^ 255)) { while (((unsigned char)a1) <= (256 < a1)) { struct S *p5 = p2; } unsigned char w6; } while (((v3 >> v3) % (v3 <= 255))) gv(((p2[0].c))); return (v3++ != a1); }",
        "-128 63 3, 0 0 254",
    ),
    (
        "int f6(u8 a1) { char v2 = ((32 && a1), (a1 == 'a')); int v3 = 0x8000000000000000; while (((v3 - 1) / (v2 ? (-2147483647 - 1) : '\\377'))) { { unsigned v4 = (v2 * v3) * 16777216; v4 = ((v2 * v3) > 1 ? a1 : v3); } if ((!a1) == a1) { return (v2 ^ v3); } if ((v3 + v3) == (1000 & v2)) while (v2) { break; v2 ^= (('\\x41' && v3) == a1); (void)(a1); } } { if ((32 * v2)) { v3 * 16777216; } else { v3 * 16777216; } if (v3 >= 128) switch (a1--) { case 1 ? 7 : 8: if (((017 <= v3) * (4294967295 + 255))) a1 <<= v2; break; case 128: if (v3 == (a1 >> a1)) { return (v3 > v3); } for (; (a1 *= v2); ) { gv((v3)); } break; } } return v2; }",
        "7 0 127 0, 127 -128 0 63, 255 0 0 5",
    ),
    (
        "int f7(void) { return 0; int v1 = 7ll; return gb(v1, v1); }",
        "1",
    ),
    (
        "static int f0(u8 a1, signed char a2) { struct S *p3 = (struct S *)32; { u8 v4 = ((4 + a1) != 4) % (a1 >> 1); if ((a1 >> 1) != 0) { unsigned long v5 = a1; return ((p3 + (v5 | a1)) != (struct S *)100); } } int v6 = (017 < ((p3->in).hi)); { int v7 = p3->in.lo; v7 = (p3 == 0 ? 256 : v6); } for (unsigned char i8 = (a2 ? v6 : 100); ; i8++) if (017 > a2) { { --a2; (void)(((v6 + i8) <= v6)); } { u8 v9 = i8 >> (v6 - 3); if ((v6 - 3) > 63) { enum color v10 = (p3 + (-4) <= p3); } } } struct S *p11 = p3; return ((a2 <= a2) | (BLUE % v6)); }",
        "255 127 127 254 -1 255, 1 -2 32 33 -2 2, 0 127 7 0 126 100, 0 127 63 100 -128 33",
    ),
    (
        "static int f1(unsigned char a1) { if ((a1 % a1) < (1000 > '\\377')) switch (a1) { case 0: gv(((-a1))); break; } int v2 = a1; if ((v2 | a1) || (9223372036854775807 % '\\x41')) if (((v2 == v2) - v2)) { if (a1) v2 &= v2; unsigned char v3 = 128; } else v2 += (a1 >> (v2 && 1000)); return (127 == 127 + (v2 - 100)); }",
        "255, 100, 1, 0",
    ),
];

/// Functions with maps.
pub(crate) static FIFTEENTH_FUNCTIONS: [Row; 13] = [
    (
        "static int f2(void) { struct S *p1 = (struct S *)7ll; if (('\\377' ? 3U : (-2147483647 - 1)) <= (RED ? '\\377' : 3)) { u8 v2 = 3U; if (v2) { char w3; } u8 *p4 = &p1->arr[1]; } u8 *p5 = (u8 *)9uLL; switch (9223372036854775807) { case 2: if (((p1->arr <= &p1->arr[1]) < (0 * 0x8000000000000000))) { switch (2) { default: case (char)200: ((-4) ^ (BLUE + 5)); p1++; } int v6 = ((33 ? 5 : 2) ? ((unsigned)0x8000000000000000) : (1 << 5UL)); u8 *p7 = &(p1->in.lo); } break; case 5: p1[0x8000000000000000].c -= (3U / 100); case RED: default: { struct S *p8 = &p1[2L]; break; { (*p8).sc /= (2 + 9223372036854775807); signed char w9; w9 <<= (w9, (w9 && w9)); } } { long v10 = 2 << (5 - 2); v10 = ((5 - 2) > 63 ? 64 : 33); } } return ((0 >= 64) ^ (GREEN / sizeof table)); }",
        "127 1 127 -127",
    ),
    (
        "inline int f3(u8 a1) { switch ('\\x41') { case 0: a1 |= a1; } return (GREEN != a1); a1 >>= ((enum color)(2147483648 ^ a1)); int v2 = (0x80000000 ? ((u8)a1) : 256); return ((256 + v2) <= v2); }",
        "255, 5",
    ),
    (
        "inline int f4(void) { if (256) while (((7 > 255) / (sizeof table || 255))) { long v1 = (5 - 100) * 16777216; if ((5 - 100) >= 128 && (5 - 100) >= 128) { unsigned v2 = 0xffffffff; return ((short)v2); } } u8 *p3 = (u8 *)2147483648; return (4 != (2 % 127)); }",
        "",
    ),
    (
        "int f5(_Bool a1) { if ((2147483648 * a1) >= (127 < a1)) a1 -= ((long long)a1); { u8 v2 = 5UL << (a1 - 3); while (a1 == 2147483647 && (a1 - 3) >= 32) { return 1; } } return (a1 + a1 <= a1); _Bool w3; { unsigned char v4 = (9uLL && (64 ? a1 : w3)); ; } switch ((a1 <= w3)) { case 3 - 1: { unsigned long long v5 = ((unsigned long long)(9223372036854775807 + 017)); u8 w6; } break; } return gc('\\n'); }",
        "0 1 128 1",
    ),
    (
        "int f6(u8 a1) { a1 >>= ((a1 / a1) || (~2L)); { return (1, a1); } return (64 + a1); }",
        "0, 1",
    ),
    (
        "int f7(char a1, _Bool a2) { short v3 = ((-2147483647 - 1) & ((short)a1)); int v4 = a1; if ((a1 >= a2) > 3) { int v5 = ('\\x41' <= a2) % a1; while (a1 <= 0) { return 1; } } else if ((0 != (0 - (sizeof(int)))) || (a2 || 7)) { int v6 = a2; a1 <<= sizeof(int); } else { struct S *p7 = (struct S *)'\\x41'; u8 v8 = ((RED, a1) != (a1 ? 127 : a1)); u8 v9 = v8; } { if (63 && a2) { v4 + 2147483547; } else { v4 + 2147483547; } if (abs((255 < (255 - 64))) && v4 > 1) { { a1 /= (++a2 != (64 <= a1)); gv((a1)); } u8 *p11 = (u8 *)((GREEN ? v4 : 32)); } } { u8 v12 = (long)(v4 & 200) * 0x100000000000000; if ((v4 & 200) > 100) v4 -= 017; } return 9223372036854775807; }",
        "127 1, 2 1, 0 1, -2 0",
    ),
    (
        "int f0(_Bool a1) { long v2 = (1 && a1); while (abs((a1 / v2)) > 5UL) break; struct S *p3 = (struct S *)7ll; a1 = (p3 <= p3 + (100 + a1 >= (100))); while ((a1 - 0) != (v2 != 64)) { gv((1u)); } return gc((v2 || 8)); }",
        "1 7, 0 3",
    ),
    (
        "static int f1(_Bool a1) { if ((a1 ? 31 : a1) || (32 ? a1 : a1)) { { long v2 = a1 << (a1 - a1); v2 = (a1 > 017 && (a1 - a1) < 0 ? 4294967295 : a1); } } { return (0x7fffffff & a1); _Bool w3; int v4 = ((w3 <= w3) < 3); } switch (7) { case 2: case 128: die((255)); break; } return ((signed char)(a1 & a1)); }",
        "1 1, 0 1",
    ),
    (
        "inline int f2(_Bool a1) { gv(((sizeof table != a1))); gv(((a1 / 5UL))); return ((a1 - a1 <= a1) / (a1 + a1)); }",
        "1, 0",
    ),
    (
        "int f3(void) { unsigned char w1; long long v2 = w1; u8 *p3 = (u8 *)v2; { long v4 = w1 >> (v2 / 1); if ((v2 / 1) >= 32) { unsigned char v5 = (!p3); return (v2 * 1000); } } return w1++; }",
        "0, 255",
    ),
    (
        "static int f4(u8 a1, unsigned char a2) { switch ((a2 ? a1 : 7ll)) { case 256: if (((a1 >= 0) ? gc((a1 >= 256)) : (a1 & 63))) { if (((long long)1u) < a2) a1 %= (-(a2 / 8)); } else if (a1 <= (a1 ? 128 : a1)) { a1 = abs(((long)a2)); } else { a1 /= ((a1 || 017) < 2); a2 = (1u + (a2 ? a1 : a2)); a2 %= 4294967295; } break; } int v3 = ((a2 >= a2) > (a1 - a1)); if (a1 <= (v3 != 8 + v3)) if ((5UL ? 2 : 1u) && (-(sizeof(struct S)))) { if (((v3) != ((--a1) + v3))) { unsigned v4 = ((31 ^ sizeof(struct S)) != v3); } switch ((+256)) { case 256: v3 += ((!a1) != ('a' < 2)); { } } } else { gv(((127 && a2))); (a1)--; } else { _Bool w5; a2 %= 128; } { if (((v3, v3) % (v3 >> 1), 1) || (v3 >> 1) != 0) if ((v3 < sizeof table) || (+v3)) { a1 >>= ((a2 || 200) & ((3 + v3) == v3)); return a2; if (a1) { v3 /= ((0 & a1), (64 + 9uLL)); short v7 = ((9uLL % v3) < (-1)); v7 %= 3; } } } unsigned v8 = ((a2 && v3) << (31 && a2)); return (((a1, BLUE) + a2) == a2); }",
        "7 3 2 1, 1 7 2 0, 0 31 32 0, 255 0 128 0",
    ),
    (
        "static int f5(signed char a1) { if (a1 >= (a1 - a1)) { if ((!(a1 | a1))) { if ((32 > (63 ^ a1))) { a1 += abs(sizeof(struct S)); } } else { { unsigned short v2 = a1; (void)(abs(a1)); } int v3 = ((a1 > a1) % 2147483647); if ((a1 += v3) == (a1 >= a1 + v3)) { gv(((a1 && 1))); } } { unsigned v4 = a1 >> (a1 >> 1); int v5 = 200 / a1; if ((a1 >> 1) > 31 || (a1 >> 1) > 31) { u8 v6 = (-(a1 + 100)); unsigned char v7 = v6; } } unsigned v8 = ((a1 ? a1 : 100), ((u8)9uLL)); } unsigned long long v9 = (a1 - (64 * a1)); return ((a1 - a1) == (a1 * a1)); }",
        "64, 1, -2, 8",
    ),
    (
        "int f6(unsigned char a1, u8 a2) { signed char v3 = (a2 << (+4294967296)); if ((gc((a2 && sizeof(struct S))) - a1)) { if (((a1 + 3 < (a1)) >= (017 - a1))) if (a2) { (-2147483647 - 1); } else { v3 = ((sizeof(int)) >= a1 + sizeof(int)); struct S *p4 = (struct S *)v3; } else { { a1 &= ((v3 != (-2147483647 - 1)), (!a1)); a1 /= gc(a1); } } (void)(((signed char)('\\n'))); } else { { u8 w5; signed char v6 = a1++; } while ((a1 < v3) && (a2 <= 63 + a2)) { a2 >>= ((5 > a1) ^ (-a2)); unsigned v7 = a1; unsigned long v8 = ((3U > 1) < v3); } { int v9 = -2147483647 - (a2 - 5); while ((a2 - 5) >= 128 && (a2 - 5) >= 128) { break; } } } if (((unsigned)0x8000000000000000) <= (0 / 2147483647)) { return 255; u8 w10; } { unsigned v11 = ((unsigned long long)a2) / (a2 & 3); if ((a2 & 3) != 0 || (a2 & 3) != 0) { if (((v3 * a1) >= '\\n')) { } { a2++; } } } return (v3 - (a1 != a1)); }",
        "31 7 127 117 64 1 1, 0 2 2 127 255 1 63, 5 128 5 5 63 63 63, 64 0 33 0 32 0 64",
    ),
];

/// Functions with maps.
pub(crate) static SIXTEENTH_FUNCTIONS: [Row; 8] = [
    (
        "static int f7(unsigned char a1, char a2) { switch (a2) { case GREEN: { unsigned long long v3 = ((a2 & a2) <= (a1 - 127)); if ((sizeof table << a2) != (a1 || sizeof(struct S))) { gv(((0 - a2))); } } a2 <<= ((a1 * a2) ? (2147483647 - a2) : ((unsigned short)a1)); break; } signed char v4 = ((a2 | 1) - ((long long)a2)); do { unsigned v5 = ((short)a1); if ((+v5) > v4) { if ((63 * a2) <= a1) a1 += (~v5); do { struct S *p6 = (struct S *)((v4 / 9uLL)); u8 *p7 = &(p6->in.lo); return ((unsigned)0x8000000000000000); } while (v4); } if (7ll >= (5UL + v5)) { if (((v5 = 2147483647) % (v4 * a1), 1) && 0 == (v4 * a1)) v5 -= ((v4 << 4294967296) == (a1 | a2)); } else { if (v5 && 127) { (long)(v4 * a2) * 0x100000000000000; } else { (long)(v4 * a2) * 0x100000000000000; } if (a2 <= v5 || (v4 * a2) >= 128) { unsigned short v10 = (~(v5--)); } } } while ((017 & 0x7fffffff) != 1); if (v4 && (a1 ? a1 : v4)) { struct S *p11 = (struct S *)a2; { if (((v4 >> a2) ? (p11 <= p11 + v4) : (7ll - sizeof table))) { int v12 = a2; } { a2 *= (0 != (v4 - a2) + 0); } } } return (a1 - (a1, a1) == (a1)); }",
        "32 5 0, 8 63 0, 100 1 3, 255 -111 5",
    ),
    (
        "int f0(signed char a1, _Bool a2) { do { u8 v3 = a2; } while (((int)256) >= a1); signed char v4 = ((enum color)a2); char w5; return 200; }",
        "5 1 0",
    ),
    (
        "int f1(char a1) { a1 += ((2 == a1) & (256 < a1)); die(((64 >> 3U))); { for (unsigned char i2 = (2147483647 <= '\\377'); 1u == i2; (i2 << 5)) { { int v3 = a1 >> (a1 ^ i2); v3 = (a1 > 7 || (a1 ^ i2) > 63 ? i2 : i2); } unsigned v4 = a1; } { unsigned char v5 = (((a1) > (a1 + 2)) ^ (a1 * a1)); { gv(((v5 >= 5UL))); long long v6 = (((_Bool)a1) && ((char)(sizeof(int)))); a1 %= (((signed char)v6) ^ (v5 || v6)); } } } return a1; }",
        "100, 2",
    ),
    (
        "inline int f2(u8 a1) { struct S *p2 = (struct S *)0x7fffffff; switch (a1) { case 3 - 1: { if (2L && (p2->arr > (u8 *)((33 - a1)))) { struct S *p3 = (((unsigned char)a1) ? p2 : (void *)0); p2++; return ('\\x41' || 63); } else break; { unsigned char v4 = 1; break; --a1; } while (!p2) continue; } case 1: case 'a': for (unsigned char i5 = (a1 - a1); (i5 < a1); i5++) { (a1)--; unsigned long long v6 = 0x7fffffff; return (4 ^ a1); } if (((a1 ? 32 : a1) + (a1 | a1))) { struct S *p7 = (struct S *)a1; if ((a1 == 2) && ((u8 *)a1 != 0)) a1++; a1 &= ((struct S *)1 >= (p2 - (2147483648 / a1))); } break; } { int v8 = a1 % (a1 - 2); v8 = (0 == (a1 - 2) ? (-1) : 2); } (*p2).sc -= (a1 ? a1 : a1); struct S *p9 = (p2 + (a1 ? 5UL : a1)); if (((p9->b) | (3 >> a1))) { a1 *= ((4294967295 | a1) / ((int)255)); { a1 >>= a1; } } return ((a1 | a1) + (+a1)); }",
        "32 112 5 0 0, 7 2 31 67 0, 0 2 0 31 0, 255 254 2 127 1",
    ),
    (
        "int f3(_Bool a1) { if ((((a1 + 127) < 127) % (a1 ? a1 : a1))) { if (1) { switch (a1) { case 3 - 1: gv(((-2147483647 - 1))); die((a1)); } { long v2 = (a1 & 7) * 16777216; v2 = ((a1 & 7) > 100 ? a1 : 'a'); } switch ((a1 == a1)) { case 1: (a1)--; gv(((a1 /= a1))); case -1: a1 += BLUE; gv(((a1 ? a1 : a1))); break; default: a1 ^= (a1 >= (a1 || a1)); ; break; } } if ((~1) < (RED || a1)) { { unsigned v3 = -2147483647 - (a1 & 100); int v4 = a1 / (a1 & 100); if ((a1 & 100) < -1) a1 <<= (a1 | 127); } { int v5 = (long)(a1 / 5) * 0x100000000000000; if ((a1 / 5) >= 128 && (a1 / 5) >= 128) { a1 *= (-('\\n' % a1)); } } unsigned char w6; } } { unsigned long long v7 = a1; char v8 = v7; while (BLUE) for (signed char i9 = v7; (v7 | i9); i9++) { v8 >>= ((sizeof(struct S) >= sizeof table) - (sizeof(int) > 7ll)); return (v7 && 1); u8 *p10 = (u8 *)v7; } } a1 ^= (!a1); return (a1 ^ (a1 * 4)); }",
        "1 199 127 0 1, 0 3 100 126 127, 0 255 -127 0 -2",
    ),
    (
        "static int f4(signed char a1, _Bool a2) { signed char v3 = (((unsigned long)a1) | gc(a2)); struct S *p4 = (struct S *)a2; for (_Bool i5 = ((long)v3); a1 > '\\x41'; ) if (a1 < (-127)) { if ((p4->c) != (a1 + a2)) { return (a1 && a2); signed char v6 = v3; } (void)(v3); switch ((7ll + (-2147483647 - 1))) { case 128: case 2: a2 = (((a2 != 1) + sizeof table) >= sizeof table); die(((a2 += i5))); } } signed char v7 = ((int)63); struct S *p8 = p4; return (abs(v3), v7); }",
        "126 1 254 31 1, -2 1 0 32 1",
    ),
    (
        "int f5(void) { while (gc(0) >= 8) { if (200) { gv(((64 >= 5))); struct S *p1 = (struct S *)(4294967296); do { struct S *p2 = ((256 >> 2L) ? p1 : 0); long long v3 = (2147483648 == (2L << '\\n')); } while (((struct S *)63 != (struct S *)((1u ? 7ll : 'a'))) <= 32); } int v4 = gc(((long long)9uLL)); } int v5 = ((0x80000000, 33) < (5UL ? 1 : sizeof table)); switch (v5) { case 255: default: if (v5) { enum color v6 = ((v5 * v5) & (v5 ? v5 : v5)); } break; case 1: { return 255; { long v7 = v5 >> (v5 * v5); if ((v5 * v5) > 31) ; } { int v8 = (v5 / 7) * 16777216; if ((v5 / 7) > 1) die(((v5 != v5))); } } break; case -1: while (9uLL) { unsigned char w9; { ; w9 |= (((unsigned char)v5) * (w9 / 2L)); } } } v5 ^= ((200 && v5) || v5); { struct S *p10 = (struct S *)(33); char v11 = ++v5; { if ((p10->in.lo) == ((short)v11)) p10->arr[(-2147483647 - 1)] += (!p10); { int v12 = (7 ? 9uLL : 2) / v11; v12 = (v11 < 1 ? v5 : 5); } } } return v5; }",
        "7 128 0 1 63, 254 31 255 127 2, 1 255 255 100 0",
    ),
    (
        "static int f6(_Bool a1, signed char a2) { signed char w3; return ('\\377' ? a1 : GREEN); if (a2) for (; ; 0) { { unsigned v5 = a2 << (a2 & 3); if ((a2 & 3) < 0) gv((((unsigned long long)127))); } return (w3 && w3); } while (((unsigned char)a1) && (RED - a2)) { short v6 = ((2147483647 - (-255)) <= 2147483647); long long v7 = ((v6 ? w3 : 'a') ? (a2 ? 100 : a1) : (2 + a2)); } do { if ((a1 || w3) != a1) { if ((w3 != 4) == ((7ll + a1) < 7ll)) { w3 %= (a2 / (!2)); u8 *p9 = (u8 *)a2; } } else { struct S *p10 = (struct S *)(w3); } } while (a2 == 0); struct S *p11 = (struct S *)a2; return ((4294967296 - a1) == a1); }",
        "1 5 33 -12",
    ),
];

/// Functions with maps.
pub(crate) static SEVENTEENTH_FUNCTIONS: [Row; 8] = [
    (
        "static int f7(void) { { int v1 = (RED && 2147483647) % 5; if (4294967296 > 3U && 5 == 0) if (('\\377' <= '\\377' + 0x80000000) < (4294967295 && 2)) if ((((signed char)0x7fffffff) ? (1 << '\\n') : 100)) gv((((u8)9uLL))); } switch (((unsigned long long)0)) { case 1: if (((-1) <= ((-1) + 0))) if ((3U >> 4294967296) && 128) { (void)((5UL - 2L)); die(((~017))); gv(((9223372036854775807 <= 2))); } { { u8 v2 = (long)(5 & 3) * 0x100000000000000; if ((5 & 3) < -1) { die((BLUE)); } } int v3 = (7ll ? (0 / '\\n') : ((8) < 4294967295 + 8)); _Bool w4; } break; case -1: die((1)); switch (1u) { case 255: { unsigned v5 = ((char)9uLL) / (5 ^ 3); if ((5 ^ 3) != 0) gv(((BLUE && 0x80000000))); } gv((0x8000000000000000)); break; case 3 - 1: switch (128) { case 255: (void)(0); die((0x80000000)); break; case 3 - 1: case GREEN: gv(((33 ? 0 : 0xffffffff))); break; } { if ((1000 >> (5 - 2), 1) && (5 - 2) < 32) { int v7 = '\\377'; char w8; v7 = (!w8); } } default: for (u8 i9 = (sizeof(struct S) & (-2147483647 - 1)); (-2147483647 - 1) != 7ll; i9++) gv((9223372036854775807)); { if (0xffffffff >= 0) { -2147483647 - (5 >> 1); } else { -2147483647 - (5 >> 1); } if ((5 >> 1) > 100 || (5 >> 1) > 100) die((31)); } break; } break; } unsigned v11 = gb(3, 0); int v12 = (100 ^ (v11 && 2)); switch (((signed char)v12)) { default: { long v13 = (long)(v11 & 1) * 0x100000000000000; v13 = ((v11 & 1) > 1 && (v11 & 1) > 1 ? v11 : v12); } case (char)200: do { { u8 v14 = v11 * 16777216; int v15 = v12 % v11; if (v11 >= 128) gv((0)); } switch (v12) { case 1 ? 7 : 8: die((v12)); } } while (((char)((128 + v12) < v12))); case 256: if (((v11 != 0) <= (2 / v11))) if (sizeof table) { break; } else return (v12 - v11); } { long v16 = (v12 * v12) + 2147483547; if ((v12 * v12) >= 128 && (v12 * v12) >= 128) { gv(((v11 - 0))); unsigned v17 = ((v12 * v12) >> (v11 + v12)); } } return ((unsigned)v12); }",
        "0 127 254 1, 1 2 7 0",
    ),
    (
        "int f0(char a1, unsigned char a2) { unsigned long long v3 = (a1 / (a2 % 31)); if (((a1 ? 0x8000000000000000 : sizeof(int)) - (0xffffffff + v3))) { for (; a2 != 0xffffffff; v3) switch (((unsigned)(sizeof table))) { default: gv((a2)); break; case GREEN: (~v3); die(((v3 == 1000))); break; } } else { { u8 *p5 = (u8 *)((sizeof table - 5UL)); } a1 *= a2; u8 w6; } { u8 v7 = 0x80000000 / (v3 / 3); if ((v3 / 3) == 0) { { unsigned v8 = a2 * 16777216; if (a2 < -1) v3 = a1; } { a1 *= (!(sizeof table)); } short v9 = ((int)v3); } } return 2; }",
        "2 33 2, 0 128 254, 0 0 0, 1 0 255",
    ),
    (
        "int f1(_Bool a1) { unsigned long v2 = ((a1 > a1) | a1); { { unsigned v3 = ((256 - v2) / (v2 && a1)); if ((v3 >> v2) < v3) a1 <<= (8 * (v3 ? v3 : v2)); } for (char i4 = (a1 || 0xffffffff); i4 == v2; i4++) { { die((((short)0x7fffffff))); enum color v5 = a1; } while ((a1 | sizeof table) && (0 << 1u)) gv((gb(0x80000000, v2))); } } v2 = 0; { long v6 = a1 << (a1 & 3); int v7 = v2 % a1; if ((a1 & 3) == 64) { switch ((0 + 0x7fffffff)) { default: case 256: a1 &= gc((a1 < a1)); gv((a1)); break; } } } return (gc((v2 ? v2 : a1)) < (a1 + v2)); }",
        "1 1 127 8 2, 0 1 32 127 0, 1 1 1 7 5, 0 1 0 2 0",
    ),
    (
        "int f2(u8 a1, signed char a2) { if (((unsigned)1u) != a2) { --a2; } else { { int v3 = a2; a2 /= (a1 >>= 1); } return ((2147483648 - a2) >= 2147483648); } { long long v4 = ((+a1) ? a2 : gc((a1, 4294967295))); } { int v5 = a1 * 16777216; if (a1 > 100) switch (32) { case 255: default: if ((((GREEN + a1) <= a1) - a1)) { } } } { if (a1) a1 *= sizeof(struct S); if (a2) { a1 /= 2147483648; } } return a1; }",
        "0 32 255, 255 33 1, 31 127 64, 127 5 79",
    ),
    (
        "int f3(unsigned char a1, signed char a2) { short v3 = GREEN; unsigned long v4 = (a2 != 255); { int v5 = a2 / v3; int v6 = a2 % v3; if (v3 == 0) { unsigned char v7 = ((v3 && v4) <= 200); u8 *p8 = (u8 *)((-2147483647 - 1)); while (((a1 = 4) % (5 >> a2))) *(p8 + 64) -= a2; } } v4++; { unsigned long long v9 = (('\\x41' >> a1) < ((unsigned char)a2)); signed char w10; } for (; (1u >> a2); ) (void)(v4); return (GREEN <= ((enum color)128)); }",
        "7 127 63 2 8, 128 7 255 7 127, 255 63 5 1 100, 31 5 3 128 127",
    ),
    (
        "static int f4(unsigned char a1, u8 a2) { if ((a2 + a2) != (a2 || 0)) { char w3; for (_Bool i4 = ('\\x41' + a1); ; i4++) { if (((w3 != 2) + 2147483647)) a1 *= ((w3 <= w3) / (3 + (-1))); if ((w3 << w3) < (a2 >> a2)) { gv(((i4 ? w3 : 017))); } else { unsigned v5 = ((w3 / 0) >> (0x8000000000000000 / i4)); continue; } if ((w3 | i4) && (i4 < '\\377')) ((a1 || a2) - (a1 & w3)); } { int v6 = a2 << (a2 - w3); if ((a2 - w3) == 64) { unsigned v7 = (w3 >> 1) * 16777216; if ((w3 >> 1) < -1) a1 %= ((a1 ^ 200) >> (a2 == 31)); } } } else if (1000 && ((int)5UL)) { int v8 = 2L % (a2 - 200); if (0 == (a2 - 200)) a2 ^= ((unsigned)(63 % 128)); } struct S *p9 = (struct S *)((1u ? 5UL : 5)); return a1; }",
        "0 8 127 62 1, 1 7 3 100 1, 128 255 5 0 1, 8 0 -76 99 1",
    ),
    (
        "static int f5(char a1) { if ((7ll - (a1 & 31) != (7ll))) { for (_Bool i2 = a1; (a1 << i2); ) { { unsigned v3 = (i2 & 100) * 16777216; int v4 = a1 / (i2 & 100); if ((i2 & 100) < -1) { unsigned long v5 = (+(-i2)); die((('a' ? a1 : i2))); } } } } else { long v6 = (!((char)256)); if ((100 >= a1) >= sizeof(int)) { switch (a1) { default: v6 ^= ((short)a1); { } break; } switch (v6) { case 0: --a1; break; case 3: die(((v6 > v6))); break; default: v6 -= 127; } } } int v7 = 0xffffffff; return ((v7 % 4) >= (a1 / 64)); }",
        "31, 32, -128",
    ),
    (
        "int f6(u8 a1) { return (7 || a1); gv((abs((a1 == RED)))); do { switch (3U) { default: if (a1 && (a1 == 1000)) (a1)--; case 3: if ((a1, a1) || (a1 / a1)) { a1 = ((a1 ^ 128) >> a1); } case GREEN: switch ((~a1)) { case (char)200: gv(((a1 / 0x8000000000000000))); break; } if (((unsigned short)100)) { gv(((a1 && a1))); (void)((sizeof(struct S) < a1)); u8 *p2 = (u8 *)(a1); } } for (_Bool i3 = (1000 / sizeof table); ((long)i3); i3++) { u8 v4 = (a1 / sizeof table); switch (v4) { case 255: v4 = ((signed char)((int)a1)); v4 ^= (+(a1 != i3)); break; case 3 - 1: case 1 ? 7 : 8: i3 |= ((a1 && sizeof table) >= (sizeof table, a1)); break; } if ((0x8000000000000000 / i3)) { char v5 = 0; } } } while ((GREEN & 0x7fffffff) == (8, a1)); for (; a1 != a1; ) switch (a1) { default: { a1 |= a1; a1 = ((a1 != a1) >= a1); } while ((a1 & a1) >= (a1 ? sizeof(struct S) : a1)) gv(((a1 + a1))); } a1 <<= a1; return (a1 << (9uLL % a1)); }",
        "255 1 0 5",
    ),
];

/// Functions with maps.
pub(crate) static EIGHTEENTH_FUNCTIONS: [Row; 9] = [
    (
        "int f7(_Bool a1) { switch ((a1 < '\\x41')) { case (char)200: { if (((a1 < a1) % (a1 >> 1), 1) || (a1 >> 1) == 0) if ((a1 < (a1 - (3 / 32)))) { break; { } } } } while ((!a1) < (31 % RED)) { (void)((a1 && 1000)); } switch (((short)a1)) { case 5: { a1 &= (abs((a1 = BLUE)) >= (1u % 017)); a1 ^= (a1 >= (a1 / a1) + a1); break; } } while (((a1 && a1) - ((enum color)RED))) die(((0xffffffff || '\\377'))); return ((a1 + a1 == (a1)) | a1); }",
        "1, 0",
    ),
    (
        "int f0(unsigned char a1) { unsigned v2 = (abs((a1 == 4294967296)) == (32 % 0)); enum color v3 = ((char)(0x7fffffff >= 0x8000000000000000)); { if (9223372036854775807 < v3) { -2147483647 - (a1 - v2); } else { -2147483647 - (a1 - v2); } if ((a1 - v2) < -1) { do { int v5 = a1; } while ((v3 == v3) != 0); char v6 = 0xffffffff; gv((v2)); } } return ((v3 <= v2) & --v2); }",
        "32",
    ),
    (
        "int f1(void) { unsigned char v1 = (~(BLUE + 'a')); u8 v2 = gb(v1, 1000); return 1000; char v3 = ((~v2) | (4294967296 ? v2 : 128)); { unsigned v4 = (v3 & 100) * 16777216; while ((v3 & 100) >= 128) { return 1; } } return (2 / (~v1)); }",
        "0",
    ),
    (
        "int f2(char a1) { u8 v2 = ((a1 + 1) || (a1, a1)); if (31 >= (0 ^ 127)) if ((a1 | 1) == (a1 || a1)) { { v2 <<= ((v2 + (-1u)) >= (v2)); a1 = a1; u8 *p3 = (u8 *)(a1); } } else while ('\\n' < a1) { break; continue; (void)((a1 ? a1 : 7)); } int v4 = ((v2 >> a1) ? (a1 + v2 != a1) : (v2 != 2)); return (((unsigned)('\\x41')) & a1); }",
        "127, 1, 0, -1",
    ),
    (
        "static int f3(_Bool a1) { { long v2 = (a1 >> 1) + 2147483547; if ((a1 >> 1) >= 128) { { long v3 = (a1 > a1) % a1; if (a1 < 1 || a1 < 1) { while (((u8)4294967295) != (128 ? a1 : a1)) gv(((~a1))); switch (((unsigned short)100)) { case 256: a1 += (a1 ? (a1 < a1) : (a1 >> a1)); case -1: (void)((a1 % a1)); a1 |= ((a1 ^ a1) ? (a1 + a1) : (-a1)); break; case 255: a1++; break; } _Bool w4; } } { long v5 = (long)(a1 * a1) * 0x100000000000000; if ((a1 * a1) < -1) { u8 *p6 = (u8 *)(a1++); { if (((a1 - 017) / (a1 * a1), 1) || (a1 * a1) < 1) a1 %= (((int)a1) | ((-1) / 5UL)); } } } } } u8 v8 = ((a1 << a1) ? 0xffffffff : (017 > a1)); { if ((2147483647 < a1)) { 63 >> (v8 >> 1); } else { 63 >> (v8 >> 1); } if ((v8 >> 1) < 0 || (v8 >> 1) < 0) for (char i10 = --a1; ; ) { unsigned v11 = (2L && ((0xffffffff) <= (0xffffffff + 4294967295))); short v12 = ((i10 & i10) && (v8 * v11)); } } struct S *p13 = (struct S *)((v8 ? v8 : 2147483648)); return ((127, v8) == (v8 >= 63)); }",
        "0 1, 1 0",
    ),
    (
        "int f4(unsigned char a1) { while ((-2147483647 - 1)) { enum color v2 = ((BLUE ? a1 : a1) ^ a1); } for (_Bool i3 = a1; a1 <= a1; ) { { unsigned v4 = i3 >> (a1 / 1); int v5 = 0 / a1; if ((a1 / 1) == 64) { unsigned char v6 = ((64 % 128) && (a1 ? 32 : i3)); _Bool w7; } } } return (0x7fffffff <= (a1 ? 017 : 0)); }",
        "1 1",
    ),
    (
        "inline int f5(char a1) { u8 w2; w2 /= (('\\n' > w2) / w2); u8 *p3 = (u8 *)sizeof table; if (((+w2) & (a1 && 2147483647))) switch (a1) { default: { u8 v4 = ((int)a1) % (w2 - w2); if ((w2 - w2) != 0) (w2)--; } if ((1000 || w2) == a1) { w2 += ((short)w2); w2 |= ((enum color)(a1 | 32)); } break; } if (a1 >= gc((0x8000000000000000 / sizeof(int)))) { { return (*(p3 + a1)); a1 -= ((w2 && BLUE) + 0x7fffffff); } w2 |= ((int)(w2 += w2)); (3U <= (1 + w2)); } else { { long v5 = (w2 >> 1) * 16777216; while ((w2 >> 1) > 100) { ; } } if ((w2 ^ a1) <= ((long long)1000)) { for (; a1 != 2; (w2 || a1)) return (+017); enum color v7 = ((int)(a1 || a1)); } } return ((127 % '\\x41') ? (33 ^ a1) : (a1 ? 0 : w2)); }",
        "126 100 127 255, -1 0 64 3, 0 1 128 1, 127 255 33 32",
    ),
    (
        "inline int f6(char a1) { long v2 = (a1 ^ (a1 += a1)); gv(((a1 + v2))); die(((a1 >> 0))); int v3 = (((signed char)(sizeof table)) ? 33 : 017); if (((v2 <= a1 + v2), (!v2))) v2 = v3; u8 *p4 = (u8 *)((1 && a1)); return v2--; }",
        "127",
    ),
    (
        "inline int f7(u8 a1) { _Bool v2 = a1; struct S *p3 = (struct S *)BLUE; long v4 = gb(a1, a1); unsigned long v5 = ((_Bool)(1 && 2147483647)); { if ((v4 || v4)) { -2147483647 - (v5 & 3); } else { -2147483647 - (v5 & 3); } if ((v5 & 3) > 100) { while ((v5, 1) != (p3->c)) { if (2 || GREEN) { (a1 + v4) / (v5 ^ v2); } else { (a1 + v4) / (v5 ^ v2); } if ((v5 ^ v2) != 0) { continue; return ((short)v2); } } (*p3).sc /= (p3->in.lo); --v2; } } return 63; }",
        "1 1 31 1 33, 255 0 5 31 1",
    ),
];
