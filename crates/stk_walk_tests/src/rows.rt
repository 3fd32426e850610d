//! Functions over numbers, of many forms of expressions and statements.

/// A function, and maps under which it is run: numbers for its keys in order, with a comma between maps.
pub(crate) type Row = (&'static str, &'static str);

/// What is declared before each function.
pub(crate) static FIRST: &str =
    "typedef unsigned char u8; enum color { RED, GREEN = 5, BLUE = -1 }; struct in { u8 lo; signed char hi; }; struct S { unsigned char c; _Bool b; signed char sc; struct in in; u8 arr[3]; struct S *next; int n; }; extern unsigned char gc(int); extern _Bool gb(u8 a, long b); extern void gv(u8); extern void die(int) __attribute__((noreturn)); extern int abs(int); extern long labs(long); extern long long llabs(long long); int table[7];";

/// Functions with maps.
pub(crate) static FIRST_FUNCTIONS: [Row; 13] = [
    (
        "inline int f0(char a1) { unsigned long v2 = a1; { int v3 = (~a1) / v2; if (v2) { u8 *p4 = (u8 *)(((-1) > v2)); } } unsigned short v5 = (v2 / v2); if (a1 >= (v5 / v5)) { switch ((-0xffffffff)) { default: ; { int v6 = -2147483647 - (v2 >> 1); int v7 = a1 / (v2 >> 1); if ((v2 >> 1) > 1) v5 *= (0x80000000 == ((long long)v5)); } break; case -1: if ((-((-1) && a1))) { break; gv(((63 % a1))); struct S *p8 = (struct S *)((v5 < 4)); } } v2 = ((v2, sizeof(struct S)) + v2 >= (v2)); } { } return ((-(sizeof table)) ? (v5 - v2) : ((enum color)v2)); }",
        "7, 0, -53, 2",
    ),
    (
        "int f1(signed char a1) { if (a1 != (a1 ? 0 : a1)) if (((unsigned long long)a1) > gb(a1, 1)) { a1 += ((2147483648 & a1) == (2147483647 + a1)); } else { { gv(((a1 % a1))); a1 = (a1 >> (a1 ^ 7ll)); } } switch ((a1 | a1)) { default: case 1 ? 7 : 8: if ((a1 | '\\n') > (GREEN - 4294967295)) if ((a1 < '\\x41') || (a1 ? 2 : a1)) { enum color v2 = (2 - (a1 && a1) != (2)); u8 *p3 = (u8 *)4294967296; p3[(a1 >> a1)] += (v2 ? v2 : a1); } else { { int v4 = a1 / (a1 >> 1); if (0 >= (a1 >> 1) || 0 >= (a1 >> 1)) a1 >>= (a1 > 2147483647); } } break; case (char)200: { if (((long)(a1 & 200) * 0x100000000000000, 1) && (a1 & 200) >= 128) { if ((a1 == '\\x41') == (2 & a1)) { signed char w6; die(((200 >= 5UL))); } else { int v7 = ((2 ? a1 : a1) * (+a1)); a1 /= 0xffffffff; } } } break; } { int v8 = (32 ? a1 : a1) / (a1 - 1); int v9 = a1 / a1; if (0 >= (a1 - 1)) if (((100 / a1) && ((u8)a1))) switch ((a1 >= (a1 - 0))) { case 255: a1 -= ((a1 + 7ll) < a1); default: a1 |= ((a1 + a1) << a1); a1 &= gb(sizeof table, 33); case 3 - 1: a1 *= a1; break; } } return (a1 == ((long long)128)); }",
        "5 1 110 32 1, 33 1 7 126 0, 127 0 0 57 1, -2 1 0 64 1",
    ),
    (
        "inline int f2(signed char a1, signed char a2) { _Bool w3; short v4 = gb(a1, 2147483648); return ((7 - a1) || (33, a2)); }",
        "127 33 1 1, 7 127 0 1",
    ),
    (
        "static int f3(unsigned char a1, unsigned char a2) { u8 *p3 = (u8 *)a2; u8 *p4 = p3; signed char v5 = (a2 >>= (a2 == 4294967296)); if (((v5 ? 8 : 8) - a1)) { (p3[gb(a2, a2)]); u8 w6; } { if (((a2 ^ v5) * 16777216, 1) || (a2 ^ v5) > 100) { while (('a' - a1) == (a1 ? v5 : a2)) if (a2) p4[((p3 - 100) < p3)] += (((-a2) ? p4 : (void *)0) == (u8 *)((v5, a1))); } } return ((v5 | a1) ? (v5 >> a2) : (a2 * v5)); }",
        "1 255 0 255 3 202, 32 1 1 0 127 254, 0 2 1 255 128 32, 1 0 1 128 109 32",
    ),
    (
        "static int f4(void) { long v1 = sizeof table; struct S *p2 = (struct S *)((v1 | v1)); return '\\x41'; }",
        "",
    ),
    (
        "int f5(unsigned char a1) { unsigned v2 = ((a1 <= a1) % (a1 ^ a1)); long long v3 = ((a1) == a1 + 0x80000000); if ((v3 *= v2)) if ((a1 * 2L) >= '\\n') { signed char v4 = 0; --v4; } else { v2 += ((4294967296 ? 9223372036854775807 : 4) ? (3U <= 0) : ((-2147483647 - 1) == 2147483648)); u8 w5; } { unsigned v6 = (a1 - a1) / v3; if ((v2 * v2) || v3 <= 0) { { } } } switch ((v3 >= v3 + 100)) { default: case (char)200: if (a1 >= v3) switch (BLUE) { case -1: v3 %= ((a1 - a1) == 2L); break; } } if (gb(a1, v3) || (0x80000000 ? v3 : 9uLL)) { { long v7 = ((v2 / a1) && (1 >= 1000)); u8 *p8 = (u8 *)(sizeof(int)); } if (--a1 || (a1 + a1)) { if ((v2 >= a1) < 2) { return (3 / a1); } unsigned long long v9 = ((long long)(1 > v2)); { struct S *p10 = (struct S *)v9; unsigned short v11 = ((unsigned)v9); v11 = ((v11 >>= v11) - (a1 && a1)); } } else return (v2, a1); { if ((-2147483647 - (v2 ^ a1), 1) || (v2 ^ a1) > 1 && (v2 ^ a1) > 1) if (a1) v3 = ((v2, a1) >= (0 << a1)); } } return 0; }",
        "5 64 1, 0 255 1, 1 100 1, 5 255 0",
    ),
    (
        "int f6(unsigned char a1) { unsigned long v2 = ((200 || 256) && (a1 | a1)); { if ((0, a1)) { -2147483647 - v2; } else { -2147483647 - v2; } if (v2 < -1) if ((a1 && ((int)v2))) switch ((5UL + a1)) { case 1: break; a1 += sizeof table; break; } } if (((2147483648 % 0) - (+2))) { for (_Bool i4 = (a1 = 5UL); i4 == 256; i4++) if ((v2 ? v2 : 0x80000000) >= (2147483647 + BLUE)) { gv(((BLUE << i4))); } else { return (a1 | a1); } } return (a1 += v2); }",
        "255 1, 0 1",
    ),
    (
        "int f7(_Bool a1) { for (u8 i2 = a1; a1 && (-2147483647 - 1); i2++) a1++; _Bool v3 = (-(128 && a1)); unsigned long v4 = ((+v3) << (v3 / a1)); { int v5 = ((enum color)v4) / (a1 / 5); if (!(a1 / 5)) while (gc(((v4 + BLUE) <= BLUE))) if ((v4 - v3) <= (4 ? 0 : a1)) { int v6 = ((!0) || (0xffffffff, v4)); a1 %= ((long long)(v6 * sizeof(struct S))); } } return ((~v4) + ((unsigned long)a1)); }",
        "1 1 100 0 0, 1 0 1 0 1, 0 0 128 1 0",
    ),
    (
        "inline int f0(u8 a1) { long v2 = ((+a1) + (a1 & a1)); if ((0x80000000 == a1) != (a1 >>= v2)) { for (char i3 = 1000; ; ) { switch (3) { case 5: i3 <<= v2; break; } i3 -= ((short)(0 <= 255)); } signed char w4; } int v5 = a1; return gb(v5, 0x80000000); }",
        "8 5 -128 1, 255 33 127 0",
    ),
    (
        "int f1(unsigned char a1) { struct S *p2 = (struct S *)((a1 - a1)); for (_Bool i3 = (+GREEN); i3 > a1; i3++) { { struct S *p4 = ((a1 - a1) ? p2 : 0); struct S *p5 = (a1 ? p4 : (void *)0); if ((-a1) >= (5 || i3)) { a1 = ((4 - 63) != i3); } else gv((((a1) < (a1 + a1)))); } } if (p2) { char w6; } u8 v7 = a1; if (a1) switch (((v7 + v7) > v7)) { case 3 - 1: if (p2) { (v7)--; } else { } break; default: while (!p2) { unsigned long long v8 = ((-1) || (4294967295 ? v7 : 200)); continue; } { a1 |= ((0xffffffff / a1) < (a1 ? a1 : v7)); p2->b += (v7 < v7); struct S *p9 = (struct S *)127; } case 128: { int v10 = (v7 / 255) % (v7 - a1); if ((v7 - a1)) a1 += 127; } break; } return (p2->b); }",
        "7 5 1 1 1 1, 5 0 1 7 0 0, 8 0 0 1 0 1",
    ),
    (
        "static int f2(char a1) { long long v2 = (-((enum color)a1)); enum color v3 = a1--; v2 = ((9223372036854775807 / v3), (a1 - 7)); { if ((-1) == v2) { -2147483647 - (v3 >> 1); } else { -2147483647 - (v3 >> 1); } if ((v3 >> 1) >= 128) if (((1 ? '\\x41' : v2) ^ '\\n')) if ((a1 / a1) || (a1 >= a1)) { --a1; } } short v5 = ((v2 % a1) + (3U / 0x7fffffff)); struct S *p6 = (struct S *)((v2 - v3)); return ((a1 ^ 63) + (v5 | v2)); }",
        "8, -2, 1, 7",
    ),
    (
        "int f3(u8 a1) { a1 <<= a1; char v2 = (a1 ? 5UL : (100 ? sizeof(struct S) : 9uLL)); if (a1 != (~('\\377'))) for (_Bool i3 = (v2 ^ 0x80000000); (a1 | 256); i3++) { switch (v2) { case 0: (void)((a1 ? a1 : a1)); default: --i3; die(((i3 - '\\x41'))); break; } switch (4294967296) { case (char)200: gv((v2)); default: case 0: v2 <<= 128; (void)(i3); break; } } return ((short)2147483647); return a1; }",
        "255 2 1, 1 0 0, 0 8 1, 1 7 1",
    ),
    (
        "static int f4(signed char a1, u8 a2) { signed char w3; w3 -= ((a2 >= 4294967296) ? (w3 % 2147483648) : (w3 ? 2147483647 : a2)); return ((a2 / a1) / (5 + sizeof(int))); }",
        "127 33 33, 0 255 31, 127 33 0, 0 255 0",
    ),
];

/// Functions with maps.
pub(crate) static SECOND_FUNCTIONS: [Row; 12] = [
    (
        "int f5(unsigned char a1, _Bool a2) { struct S *p3 = (struct S *)a2; if ((a2 != 5UL) != a2) { while (((*p3).sc)) p3['\\377'].c += (a2 || a1); } u8 *p4 = (u8 *)a2; u8 v5 = (a1 && (a2 & 0x80000000)); return (((struct S *)v5 != 0) / (a2 / a2)); }",
        "0 1 127 3, 255 0 2 3, 5 1 3 8, 5 0 0 2",
    ),
    (
        "inline int f6(_Bool a1) { for (; ; (5UL + 'a')) while ((a1 & a1) || 128) return (+a1); { signed char w3; { int v4 = w3 + 2147483547; if (w3 >= 128) { die((4)); _Bool v5 = ((w3 != (a1 + w3)) + (w3 << w3)); unsigned long long v6 = ((-v5) || a1); } } gv(((8 - 2))); } struct S *p7 = (struct S *)31; return (!((p7 + 100) == 0)); }",
        "1 127, 0 31",
    ),
    (
        "int f7(_Bool a1, char a2) { struct S *p3 = (struct S *)(-1); unsigned long long v4 = (p3 == &p3->arr[1]); return v4++; }",
        "1 127",
    ),
    (
        "int f0(void) { { for (unsigned char i1 = 2L; (i1 ? i1 : i1); (1u << i1)) gv(((i1 >= sizeof table))); } gv((sizeof(struct S))); if ((1u + '\\x41')) die((0)); u8 *p2 = (u8 *)2; p2[((u8 *)((p2[0xffffffff])) < ((3 >= '\\n') ? p2 : 0))] /= 2147483647; { short v3 = (4294967296 ^ (*(p2 + 2147483647))); } return ((p2[(-2147483647)]) || ((-2147483647 - 1) == 127)); }",
        "7 254 100 127",
    ),
    (
        "int f1(_Bool a1, u8 a2) { { unsigned v3 = -2147483647 - (a2 / 100); if ((a1 * a1) || (a2 / 100) > 100) switch (a2--) { default: case -1: a1 = (a1 >> (a2 || 0)); { --a2; } case 128: { u8 v4 = a2 * 16777216; if (a2 >= 128) a2 <<= (a1 + ((a2) >= 0x80000000 + a2) < a1); } if ((a1 - ('\\x41' > a1))) --a1; break; } } int v5 = ((a1 *= a2) ^ (a1, a2)); switch (2) { case 0: case 1 ? 7 : 8: if (((a1 <= a1) ^ (RED + a1))) { switch (2) { default: v5 &= (!(a1 == 1)); break; } } else { if ((100 - v5 != (100)) || ('a', v5)) { unsigned char w6; a2 <<= (++w6 ? (a1 << 128) : (v5 - 2L)); gv((a2)); } for (; 0xffffffff < sizeof(struct S); (a1 ? '\\377' : a1)) { a2 >>= ((+(sizeof(struct S))) >= (0x80000000 - a2)); return (v5 || a2); return (9uLL % a1); } a1 ^= ((int)(v5 <= 'a')); } break; case 'a': die((a1)); if ((!((unsigned char)v5))) { int v8 = (a1 >> 1) * 16777216; if ((a1 >> 1) > 1 && (a1 >> 1) > 1) a1 -= (('a' + a1) >> ((unsigned long)0x8000000000000000)); } case 5: case -1: v5 /= ((char)((-1) << a1)); break; } return a2; }",
        "1 0 100 0, 0 33 254 8, 1 7 8 2, 1 255 0 1",
    ),
    (
        "int f2(unsigned char a1) { struct S *p2 = (struct S *)a1; switch ((a1 / 4)) { case GREEN: for (; (a1 < 2147483647); ) { u8 v4 = a1 >> (a1 - a1); if ((a1 - a1) == 64) { p2->b = (p2->in.lo); } } for (; p2 == 0; (5UL ? a1 : a1)) { if ((9uLL, a1) < (~9223372036854775807)) (p2->in).hi = (255 * a1); switch (a1) { case (char)200: p2->c /= (7ll / a1); break; } if (a1 > (+a1)) break; } break; default: { int v6 = ((017 ? a1 : 0xffffffff) | (a1 /= a1)); { v6 &= (p2[2].c); (a1)--; } if ((p2->in.lo) == (a1 >>= sizeof table)) { struct S *p7 = p2; } else p2++; } } return ((p2->arr == &p2[a1]) & (!a1)); }",
        "255 3 1 0 127, 0 3 255 0 214, 0 1 33 254 0, 2 31 3 5 0",
    ),
    (
        "inline int f3(void) { struct S *p1 = (struct S *)((64 % 5UL)); p1->arr[0] = 5UL; if ((128 > (200 ? 33 : 1))) { p1->in.lo += (4294967295 != 'a'); switch (64) { case GREEN: (*p1).sc -= ((char)('\\n')); p1->in.lo /= (-('\\377')); break; case 3 - 1: die(((31 <= 0x80000000))); break; } p1->c /= ((p1->in).hi); } return ((200 || 9uLL) % (7ll || 3U)); }",
        "255 31 0 0 63, 33 32 0 1 0",
    ),
    (
        "inline int f4(unsigned char a1, _Bool a2) { unsigned v3 = (+((int)a1)); if (((a2 ? 4294967296 : v3) / ((unsigned char)(sizeof(struct S))))) while ((v3 ? a2 : a2) < ((_Bool)5)) { if (((sizeof table & a1) >> a1)) { short v4 = 33; } if (v3 <= 'a') { break; } else { unsigned char w5; w5 *= (+(a1 ^ a1)); (w5)--; } } while (a1 != (a2 ? a2 : a2)) { do { if ((a1 <= a2) != 2) (a2)--; for (; a1 != a2; ) { return ((long long)a1); u8 *p7 = (u8 *)RED; } } while (((int)v3) <= (a2 *= RED)); unsigned short v8 = ((a1 - a2) ? ((int)v3) : (a2 ? 2 : a2)); v8++; } return v3; }",
        "100 1 127 1 1, 0 1 35 1 1, 87 1 31 1 0, 1 1 32 1 1",
    ),
    (
        "int f5(unsigned char a1) { (void)(('\\n' - RED)); { --a1; a1 *= ((4294967295 ? 2147483648 : a1) ? a1++ : (a1 > a1)); } return ((-a1) < a1); }",
        "255, 0",
    ),
    (
        "int f6(u8 a1, signed char a2) { { if (((200 || a1) % (a1 & 3), 1) && 0 == (a1 & 3)) { switch (a2) { case 128: a1 = ((unsigned char)0xffffffff); (!a1); } } } if (7ll == (100 - a2)) { { switch (a1) { case 3: a2 ^= a2; break; } unsigned short v4 = (4294967296 > a1); long long v5 = ((v4 = BLUE) ? (a2 - v4) : 64); } while ((4294967295 ? a1 : a1) <= (128 << sizeof(struct S))) { for (char i6 = (sizeof(int), a1); a1; i6++) a2 = ((long long)1000); if ((64 ^ a2) > (sizeof table - 3U)) { ((a1 <= 0) | (64 || a2)); } else die((a2)); } } { switch ((0x80000000 <= a1)) { case 255: if (((a2 >> a1) && (a2 - 255))) { a2 >>= ((017, 0) + a1); } else a2 += (a2 >> (a1 << a2)); if ((5 ? a1 : a2) != a1) { a2 ^= ((-2147483647) >= a2); } break; } if ((a1 - RED) < (1u && a2)) { { } if (((100) == 100 - (a2--))) a1 <<= a2; { int v7 = ((-1) + 8) % (a2 * a2); while ((a2 * a2) <= 0) { ; } } } } return (a1 + a2); }",
        "33 127 7 32 7, 0 0 100 3 -1, 0 33 2 64 3, 0 1 127 5 -2",
    ),
    (
        "int f7(_Bool a1, _Bool a2) { while ((0xffffffff != 0xffffffff - a2) < (~2)) for (; ((unsigned short)a2); (a2 || a1)) if (a2 == a1) { gv((a2)); } else { a1 -= GREEN; a1 %= (abs(BLUE) % (a2 - a2)); struct S *p4 = (struct S *)('a'); } a1 -= sizeof table; return 100; }",
        "0 1 1 1, 1 0 1 1",
    ),
    (
        "int f0(signed char a1) { { { u8 v2 = (a1 & 1) + 2147483547; int v3 = 256 % (a1 & 1); if ((a1 & 1) < -1) { if ((9223372036854775807 || (+a1))) { enum color v4 = 127; a1 ^= (v4 << '\\377'); (void)((~v4)); } else a1 += ((a1 == 128), (a1 % 2)); } } signed char v5 = (a1++ || (-7)); } if ((a1 < ((char)a1))) { for (_Bool i6 = (a1 & a1); ('\\n' * 255); i6++) { if (a1) { a1 += ((!i6) * 8); gv(((i6 + 64))); } while (((sizeof(struct S) << a1) / (sizeof(struct S) == i6))) (void)(a1); { i6 &= ((a1 > a1) != i6); u8 *p7 = (u8 *)(((signed char)4294967295)); *(p7 + i6) += (017 >= i6); } } } else { { unsigned v8 = (a1 - a1) % (a1 / 2); if ((a1 / 2) != 0) for (unsigned char i9 = (a1 / 1); a1 >= a1; i9++) { gv(((i9 < 0x80000000))); } } { int v10 = (long)(a1 - a1) * 0x100000000000000; while ((a1 - a1) > 1 || (a1 - a1) > 1) { ; } } } return (BLUE - (a1 - a1)); }",
        "127 100 127 1 1, -2 1 -127 1 2, 100 5 1 1 255, 0 255 63 1 255",
    ),
];

/// Functions with maps.
pub(crate) static THIRD_FUNCTIONS: [Row; 13] = [
    (
        "inline int f1(signed char a1) { _Bool v2 = ((u8)(1000 + 256)); { int v3 = -2147483647 - (v2 / 3); int v4 = 100 / (v2 / 3); if ((v2 / 3) < -1) { int v5 = ((a1 * 7) != ('\\377' ? a1 : v2)); { if (5UL == a1) { a1 >> (a1 - 5); } else { a1 >> (a1 - 5); } if ((a1 - 5) < 32) { u8 *p7 = (u8 *)'\\x41'; } } { if (GREEN || a1) v2 = ((int)(1u ? v2 : a1)); unsigned short v8 = (v2 > (v5 >= v5)); struct S *p9 = (struct S *)3; } } } return ((v2 - v2) == (v2)); }",
        "127",
    ),
    (
        "int f2(_Bool a1) { a1 |= ((9uLL ? a1 : a1) - a1); unsigned char v2 = a1; char w3; return 1; }",
        "1 127",
    ),
    (
        "int f3(void) { { unsigned v1 = sizeof table % (5 >> 1); if ((5 >> 1) <= 0) { long long v2 = ((0 + 5) == (1 * 200)); { { int v3 = (v2 >> 1) + 2147483547; if ((v2 >> 1) < -1) { return (v2 / v2); } } while ((v2 * v2) <= (9uLL ? v2 : v2)) { die(((v2 > (v2 + v2)))); } { u8 v4 = v2 << (v2 ^ v2); if ((v2 ^ v2) > 63) v2 |= ((v2 != v2) / (~v2)); } } { long v5 = (v2 + 127) / (v2 ^ v2); int v6 = 7 % v2; if (!(v2 ^ v2) && !(v2 ^ v2)) { { if ((((_Bool)0xffffffff) % (v2 ^ v2), 1) || (v2 ^ v2) != 0) { --v2; signed char v8 = (((int)100) | v2); return ((long)v8); } } } } } } switch ((-2147483647 - 1)) { default: { unsigned v9 = (2 + 4294967296) / (5 * 3); while (!(5 * 3)) { ; } } if ((3 << (-1)) || (BLUE && sizeof table)) { if ('\\x41') { gv(((33, 0x80000000))); (void)((255, 200)); return (sizeof(struct S) + sizeof table); } } else { u8 v10 = ('\\n' << 3U); enum color v11 = 2; switch (sizeof(int)) { case 0: { } break; default: case 256: v10 <<= v10; break; } } } { } u8 *p12 = (u8 *)32; return (((char)4) % 3); }",
        "",
    ),
    (
        "int f4(char a1) { a1 %= (--a1 << (a1 && a1)); struct S *p2 = (struct S *)((2L ? 9223372036854775807 : 5UL)); return 2147483648; }",
        "100, 1",
    ),
    (
        "int f5(_Bool a1) { while (('a' / 2147483648) && 4) for (signed char i2 = 255; (i2 + i2); a1) if (i2 || i2) gv((((unsigned)i2))); switch (100) { case 0: switch (a1) { default: { int v3 = a1; a1 += ((!(sizeof(int))) && ((enum color)a1)); v3 = a1; } case 3: { short v4 = ((short)(a1 | a1)); int v5 = ((signed char)v4); a1 *= v5; } gv((1000)); break; case 'a': switch (256) { default: a1 &= ((RED) <= (RED - (a1 /= 4294967296))); break; } if ((a1 - a1) > (~(sizeof(int)))) { break; } break; } { short v6 = (-(7ll >> 2)); unsigned v7 = ((long long)(0x80000000 + (-1))); (void)(((unsigned long long)v6)); } break; } (a1)--; signed char v8 = a1; return v8; }",
        "1",
    ),
    (
        "int f6(void) { u8 *p1 = (u8 *)200; if (((_Bool)('\\n')) && (sizeof(struct S) / 9uLL)) { unsigned short v2 = (128 + (200 | 2147483648)); } return 3; }",
        "",
    ),
    (
        "int f7(void) { gv((((unsigned)(-1)))); if ((~(-1)) != gc(('\\n' ^ 32))) switch (256) { default: gv(((+017))); case 2: if (((5UL / 127) < (0 == (-2147483647 - 1)))) gv((127)); for (; 2147483648 != 3U; 0xffffffff) gv(((sizeof(int) <= 8))); break; case 'a': if ((256 ? ('\\x41' << 4) : (2 << 7))) { die(((4294967296 | 3))); die((7)); gv((((int)2L))); } break; } else { u8 *p2 = (u8 *)8; do { unsigned long v3 = 9223372036854775807; } while ((1 + '\\n') == '\\x41'); { if ((0x8000000000000000 / (5 / 3), 1) || (5 / 3) < 1) { u8 v5 = (63 > 200) / 5; if (0 == 5) *p2 = (~1); } } } while (1) { u8 *p6 = (u8 *)1000; } int v7 = ((-1) || ((127 + 2) >= (127))); if ((1000 || v7) > (BLUE << v7)) { if (v7) { if ((v7 >> (v7 / 1), 1) || (v7 / 1) > 63) { v7 >>= ((0x7fffffff - v7) / (-v7)); } } u8 *p9 = (u8 *)v7; } else v7 &= 200; if (((long)256) || (v7 && v7)) v7 = (3 + (v7 > v7)); return gb(v7, v7); }",
        "33 1, 0 1",
    ),
    (
        "int f0(u8 a1, u8 a2) { while ((a2 >> a1) == (31 >= a2)) { u8 *p3 = (u8 *)127; _Bool w4; *p3 += ((unsigned)(sizeof(struct S))); } struct S *p5 = (struct S *)a2; u8 *p6 = (u8 *)1; return ((9uLL + a1) - (a1 ? a2 : 7ll)); }",
        "255 64 1 7, 0 255 1 100, 3 100 1 2, 3 31 1 1",
    ),
    (
        "static int f1(char a1, u8 a2) { gv(((a1 + a1 > a1))); { switch ((a2 / 3U)) { default: { int v3 = ((a2 + 1 == a2), (a2 > a2)); } case RED: switch (((signed char)a1)) { case 1 ? 7 : 8: case -1: a2 += ((63 < a1) / (a2 / 2)); gv(((2147483648 < a2))); break; case RED: a2++; case 5: a1 = sizeof(int); } break; } unsigned short v4 = 5UL; char v5 = ((int)(abs((5UL && 017)))); } u8 w6; short v7 = ((2147483648 >= a1) ? (255 & a2) : ((unsigned char)w6)); --v7; struct S *p8 = (struct S *)0; return (a1 *= (~v7)); }",
        "5 0 0, 127 0 255, 64 255 8, 0 8 33",
    ),
    (
        "inline int f2(char a1, _Bool a2) { short v3 = ((a2 ^ a1) / (+(sizeof(int)))); unsigned char w4; return ('\\n' >= (a1 + '\\x41')); }",
        "-2 1 3, -128 1 100",
    ),
    (
        "int f3(unsigned char a1, _Bool a2) { int v3 = (!((int)RED)); _Bool v4 = 127; return ((unsigned char)(a2 || a2)); }",
        "63 1, 0 0",
    ),
    (
        "inline int f4(u8 a1, unsigned char a2) { _Bool v3 = (a2 ? (4294967296 != (-1)) : (a2 ? a1 : 4294967295)); struct S *p4 = (struct S *)a2; { if ((5 + a2)) { (-1) >> (v3 & 2); } else { (-1) >> (v3 & 2); } if (017 > v3 || (v3 & 2) < 32) return (v3 + 8); } if ((p4 <= p4)) if ((64 % 2L) > (sizeof table ? 31 : 3U)) { p4->b <<= (p4->in.lo); v3 %= ('a' >= (a2 && sizeof(struct S))); a2++; } else { int v6 = (*p4).b; if (p4 != 0) if (!p4) die(((64 ? v3 : 3U))); } switch (v3) { default: { int v7 = (*p4).b; if (p4 == 0) for (_Bool i8 = (a1 >= a2); a1 < sizeof table; i8++) return gc((a2 && (-1))); } case 'a': if (((unsigned char)(sizeof table)) != gc((a1 && 7))) { { v3 ^= a1; v3 -= a1; p4++; } char v9 = (0xffffffff | (4294967295 | 2)); } else (p4->in).hi /= (2L + 0x8000000000000000 > 0x8000000000000000); { p4->b -= (BLUE >= v3); enum color v10 = ((v3 || 32) <= a1); { int v11 = (v10 - a2) % (v3 >> 1); if ((v3 >> 1) <= 0) v3++; } } case 0: { a2++; } { for (char i12 = (127 | a2); ; i12++) a2 = ((unsigned long)(8 - v3)); { a2 &= ((33 != a2) / gc((a2 & a1))); (void)(((p4 + (200 || 017)) != (u8 *)((a1 ? a2 : 64)))); unsigned char w13; } unsigned long v14 = (7 ^ a2); } break; } return ((a2 || v3) - (a1 == (a1 + v3))); }",
        "0 7 1 32 1 1 128 1 1 -128 0 0 3 0 100, 1 0 1 100 1 1 255 1 0 33 1 31 -1 32 63",
    ),
    (
        "int f6(unsigned char a1) { int v2 = a1; { gv(((v2 & v2))); if (a1 && v2) { return (4294967295 & 5); } else if (v2 >= (32 ? 255 : 5)) { (v2)--; } else return (v2 < v2); } { int v3 = ('a' >> v2) / (a1 - 1); if (!(a1 - 1)) { { long long v4 = (((-1) / a1) < (v2 || 127)); if (((0 << v4) * 100)) v4 /= (~v4); } enum color v5 = (a1 & (0 >= a1)); unsigned char v6 = ((int)(v5 ? 3U : 4)); } } return ((sizeof(int) ^ 200) % ('\\x41' >> 0x8000000000000000)); }",
        "187, 0",
    ),
];

/// Functions with maps.
pub(crate) static FOURTH_FUNCTIONS: [Row; 13] = [
    (
        "static int f7(char a1) { if ((((unsigned short)0) > a1)) { while ((+3U) > (a1 < a1)) { gv(((a1 ? 0xffffffff : a1))); die(((a1 || 5))); unsigned long long v2 = (a1 ? (a1 + RED) : (a1 || a1)); } a1 = a1; } { { int v3 = ('\\n' / 4) % (a1 >> 1); if (0 >= (a1 >> 1)) { switch (sizeof table) { case 1: case 256: a1 += (~128); gv(((a1 ? a1 : a1))); break; case GREEN: (void)((a1 ? a1 : 100)); a1 = 1u; break; default: a1 &= ((a1 = a1) != (100 + 1u)); die(((1u >= (1u + a1)))); } { long v4 = (a1 - a1) * 16777216; if ((a1 - a1) >= 128) a1 %= (1u >= 7); } int v5 = ((unsigned)(sizeof(int))); } } } return (2 != (a1 + a1)); }",
        "127, 1, 0, -1",
    ),
    (
        "int f0(_Bool a1) { unsigned short v2 = sizeof table; switch (a1) { case 255: case 0: { int v3 = -2147483647 - (v2 >> 1); v3 = ((v2 >> 1) < -1 || (v2 >> 1) < -1 ? a1 : v2); } if (((RED / 5UL) ? (-0x80000000) : (v2 >= v2))) for (; ; ) { a1 = ((4294967296 ^ a1) == a1); } break; } u8 *p5 = (u8 *)'\\n'; int v6 = ((63 > v2), (v2 << 0x7fffffff)); { switch (1u) { default: { unsigned v7 = (long)a1 * 0x100000000000000; if (a1 > 100) a1 ^= (p5[0x80000000]); } v6 = (v2 >>= ((unsigned short)a1)); break; } if (((100 >= v6) >> (p5[(a1 && v2)]))) { unsigned v8 = *p5; if (!p5) { v2 |= (((!p5) ? p5 : (void *)0) - &p5[v2]); v6 = (-1); } } else switch (2147483648) { case 0: v6 += ((v2) <= (v2 - a1)); case 3: a1 /= (-(0 < v6)); break; } if ((v2 ^ 017) <= (a1 < a1)) v6 ^= gb(4294967295, 1); } return gc((v6 + a1)); }",
        "1 0 1 63 128 1 1, 1 1 63 3 216 1 31, 0 1 33 63 128 1 0, 1 1 253 0 3 1 238",
    ),
    (
        "int f1(char a1, _Bool a2) { switch (a1) { default: if ((5UL + a2) && (2 % a1)) for (signed char i3 = (a1 + 0x7fffffff); 5UL <= 256; (BLUE - 0)) die((256)); { unsigned v4 = (a1 < a1) % a2; if (0 >= a2) if ((gc(((unsigned long long)a2)) ? --a1 : (0 / a2))) { int v5 = (a2 - (4294967295 - 0x8000000000000000) >= a2); --a1; } } break; } long long v6 = ((3 - 128) && (63 - a1 >= 63)); { if (((1 >= v6) % (a1 - 2), 1) && !(a1 - 2)) a2 = (++v6 && a2); } _Bool w8; return w8; }",
        "32 1 255 1, -128 0 255 1, 0 1 64 1, 2 1 2 1",
    ),
    (
        "int f2(signed char a1, char a2) { switch ((-a1)) { case 256: if ((((char)0x80000000) + ((enum color)a2))) { unsigned v3 = (sizeof(int) + 0) / (a1 - 1); if ((a1 - 1) <= 0) a1 = a2; } { long v4 = a2 << (a1 - 2); if ((a1 - 2) > 31) { if (((a2) != a2 + (a1 = a2))) { a2 &= ((33, a2) * (a1 < a2)); } } } break; case 255: while (((-2147483647 - 1) < a2) != ((int)5)) { { unsigned v5 = (~(a1--)); die(((a2 > 31))); } { a2 &= ((a1 >= sizeof(struct S)) & (0xffffffff / (-1))); (void)((a1 ? a1 : a2)); (void)((a1 >> a2)); } } a1 /= a1; case 3: (void)((1u / 1000)); } unsigned long v6 = ((a1 ^ a1) / ((2 + 0xffffffff) >= (2))); return ((long)((a2) < (a2 - v6))); }",
        "127 23 2 100",
    ),
    (
        "static int f3(unsigned char a1) { u8 *p2 = (u8 *)4; switch (a1) { case 1: if (((unsigned)(a1 - a1))) a1 = (*p2); break; } if ((a1 && a1) != ((a1 + a1) > a1)) { if ((a1 - a1) || (a1 / a1)) switch ((p2[(a1 - 9uLL)])) { default: a1 = (a1 += (a1 || 5)); } } else { long v3 = p2[0]; if (p2) { if ((gb(sizeof table, 0x7fffffff) + (*(p2 + 0)))) { (a1)--; } } } if (((-a1) <= (9uLL / a1))) --a1; return (*p2); }",
        "2 255 255 255 1 255 33, 1 33 5 8 0 255 255, 0 255 1 59 1 16 128, 100 63 1 255 0 0 255",
    ),
    (
        "int f4(unsigned char a1, _Bool a2) { while ((!a1)) { { int v3 = (-255) % (a2 - a2); int v4 = a1 / a2; if (a1 == a2 && (a2 - a2) != 0) if ((a2 & a1) || (2 + 1000)) { (void)((a2 / 128)); gv(((0x8000000000000000 / a2))); u8 v5 = a2; } } } u8 *p6 = (u8 *)a1; return ((!a1) << (255 || 255)); }",
        "0 1, 64 0, 0 0",
    ),
    (
        "inline int f5(unsigned char a1, _Bool a2) { { if ((a2 - sizeof(struct S))) { a2 << (a1 - a1); } else { a2 << (a1 - a1); } if ((a1 - a1) == 64) for (; ; (a2 <= 32)) { gv((31)); continue; a2 <<= (!((64) >= 64 + 31)); } } _Bool v5 = ((a2 % a1) & (-BLUE)); unsigned char v6 = gc((v5 % 'a')); return (-a2); }",
        "127 0 1 3, 0 1 1 125",
    ),
    (
        "int f6(void) { unsigned short v1 = ((2L + 0 > 0) ? 128 : (8 || 4)); struct S *p2 = (struct S *)v1; return ((v1 % 1) - (v1 || 1000)); }",
        "",
    ),
    (
        "int f7(u8 a1) { gv((1)); int v2 = (a1 ? (100 % a1) : (a1 / a1)); die(((v2 / a1))); int v3 = ((v2 ^ 2) ? ((a1 + v2) < (a1)) : (a1 / 9uLL)); struct S *p4 = (struct S *)v3; { if ((v2 >> 8) == a1) { { gv(((v2 ? v2 : sizeof(struct S)))); } if (p4) { p4->b <<= (a1 & v2); } else v2 -= ((v2) > v2 - (a1 != 1)); if ((~9uLL)) { v2 += (v2, (5UL * 9223372036854775807)); } else return (2 && v3); } if (((v3 - (~(sizeof table))) <= v3)) if (v2) { } v2 -= (!(!('\\377'))); } return v2; }",
        "1 1, 0 0",
    ),
    (
        "inline int f0(u8 a1) { switch ('\\n') { case 0: a1 &= (~(a1 / 0x8000000000000000)); break; } { u8 *p2 = (u8 *)a1; } signed char v3 = (255 | ((short)32)); return v3; }",
        "0",
    ),
    (
        "static int f1(u8 a1) { u8 *p2 = (u8 *)a1; _Bool v3 = (((long long)4294967295) / a1--); signed char v4 = (-(v3 | v3)); return ((a1 + v3) | ((unsigned short)GREEN)); }",
        "5, 0",
    ),
    (
        "static int f2(signed char a1) { { die((a1)); } struct S *p2 = (struct S *)((a1 ? a1 : a1)); { do { gv(((a1 ? a1 : 5))); if ((a1 >> 1000) < (31 >> a1)) p2->arr[RED] <<= ('\\377' ? 128 : 1); if (((64) == (64 - a1)) >= ((enum color)4294967295)) return (a1 - a1); } while ((+a1) != (a1 * a1)); { if (((p2->c) / (a1 * a1), 1) && (a1 * a1) == 0 || (a1 * a1) == 0) { if (p2 == 0) { return 200; struct S *p4 = (p2 - (!p2)); unsigned short v5 = ((p4) != p4 - (a1, a1)); } else { unsigned v6 = (-(1u + 0)); } { p2[a1].c <<= (3 <= a1); a1 >>= abs((a1 == a1)); int v7 = 5UL; } } } a1 >>= (a1 *= (p2->c)); } return ((sizeof(struct S) ? a1 : a1) ? abs(a1) : (a1 - 3U)); }",
        "32 33 5 46 1",
    ),
    (
        "int f3(void) { { { int v1 = '\\n' >> 5; v1 = ((3U, 128) || 5 < 0 ? 4 : 1); } gv(((!31))); } while ((4294967296 / 9uLL) >= (5 % 1)) { switch ((4294967295 - 7)) { case 2: if (((int)(RED ? 2147483648 : 0x7fffffff))) { die(((4294967295, 200))); } else { gv(((255 && 7))); } switch (RED) { case 3 - 1: (void)(3); } case 5: if (abs(0)) { gv((100)); struct S *p2 = (struct S *)3U; continue; } { u8 *p3 = (u8 *)(-1); { } p3[((short)200)] /= (64 % '\\x41'); } } } unsigned long long v4 = (3U || (0 != 4294967295)); char w5; return ((long)(gb(5UL, 2))); }",
        "119 -127 1",
    ),
];

/// Functions with maps.
pub(crate) static FIFTH_FUNCTIONS: [Row; 10] = [
    (
        "inline int f4(unsigned char a1, signed char a2) { if (1) switch ((a2 ? a1 : a1)) { case GREEN: switch (7) { case 3: gv((a2)); default: case 0: a2 = ((2147483648 ? a2 : 33) | ((short)1u)); gv(((2L >= 100))); } break; case 0: for (; (+a2); (a1 ? a1 : a1)) (void)(a1); switch (((long long)a1)) { case 1 ? 7 : 8: break; a1 = ((a1 || a2), (a2 != a1)); break; default: case 5: a1 = (gc((~9uLL)) ? a1 : (a2 >> a2)); } default: case 2: if (((a2 + 7ll) ? a1 : (sizeof(struct S) >> 200))) break; break; } else a2 -= ((a1 || a2) - (~a1)); int v4 = ((a1) -= a2); do { { int v5 = (4 - 0x80000000) / (v4 - a2); v5 = (!(v4 - a2) ? a1 : a2); } _Bool v6 = ((a2 < v4) > (v4 != a1)); v6 &= (~v4); } while (((unsigned)v4) > 100); { if (v4 <= v4) { (v4 - 2) * 16777216; } else { (v4 - 2) * 16777216; } if ((v4 - 2) > 1) if (sizeof(struct S) || (a2 + RED)) { if ((1000 + 0) > 7ll) { long v8 = ((8 >> 017) != (a2 ? 3U : 017)); v8 /= (63, (v4 >> 2L)); die((v4)); } char w9; } } return ((8 && v4) / ((unsigned short)0x7fffffff)); }",
        "255 31 255 -1, 127 32 255 127, 0 126 1 0, 127 100 64 121",
    ),
    (
        "int f5(unsigned char a1) { { long v2 = a1 >> (a1 * a1); while ((a1 * a1) < 32) { ; } } u8 *p3 = (u8 *)(0xffffffff); switch (a1) { default: a1 |= (('\\n' * a1) % ((_Bool)a1)); p3[a1] /= (*p3); } int v4 = abs((!p3)); return ((p3 - v4) < &p3[a1]); }",
        "0 8 255, 255 5 1, 32 0 0",
    ),
    (
        "static int f6(void) { _Bool w1; { } return (w1 ? (64 - 63 != (64)) : ((w1) > w1 + w1)); }",
        "1, 0",
    ),
    (
        "inline int f7(signed char a1, signed char a2) { unsigned short v3 = (((a1 << a1) + a1) < a1); switch ((0x80000000 / RED)) { default: if ((v3 < 256) > (a2 == 0xffffffff)) if (a2-- >= (a1 - a1)) { gv(((4294967295, a1))); die(((4 < a1))); } else a1 <<= (0x8000000000000000 || ((int)v3)); case 255: { if (gc(((enum color)v3)) >= ('\\n' / a1)) break; } break; case 'a': for (char i4 = (+a2); (a1 + a2); i4++) { a1 <<= ((v3 != v3), gc((i4 < a1))); --a2; i4++; } break; } return ((~128) << (1000 == a1)); }",
        "2 127 128 31 2 7 101, 127 2 1 64 63 32 2, -128 127 33 128 0 127 31, 8 3 0 5 2 126 -127",
    ),
    (
        "inline int f0(unsigned char a1) { _Bool v2 = (((u8)1u) * (a1 & 0x7fffffff)); if (((v2 >> a1), (v2 < a1))) { { u8 v3 = -2147483647 - (a1 - 3); if ((a1 - 3) >= 128) { switch ((a1 + a1)) { case 128: (void)((a1 ? a1 : 7)); gv(((3U >> 'a'))); case GREEN: a1 |= ((1 != v2) % (v2 % 64)); gv(((v2 / a1))); } { unsigned v4 = -2147483647 - a1; while (a1 > 1) { ; } } } } } else { if (v2 <= (v2 || v2)) if (v2 > (a1 && a1)) { struct S *p5 = (struct S *)v2; die(((~('\\377')))); } else if ((a1 >= 32) > (v2 >= a1)) { a1 ^= (('a' + v2) ^ (a1 = 0x8000000000000000)); } { long v6 = v2 << (v2 - 7); if ((v2 - 7) >= 32) { a1 = 9uLL; { int v7 = 'a' >> (v2 * a1); v7 = ((v2 * a1) == 64 ? 33 : 1u); } if (((int)(v2 | 64))) a1 ^= (!(a1 + 0x7fffffff)); } } } _Bool v8 = v2; struct S *p9 = (struct S *)sizeof(struct S); struct S *p10 = (struct S *)v2; struct S *p11 = (p9 - (v2 > a1)); return ((63 & a1) <= (v8 + v8)); }",
        "0, 31, 127, 2",
    ),
    (
        "static int f1(u8 a1, char a2) { if (((a1 & a1) - ('\\377' && a1))) { if (--a2) { struct S *p3 = (struct S *)a2; for (signed char i4 = (a2 > 3); 2 == GREEN; i4++) (void)((!p3)); } else { u8 *p5 = (u8 *)a1; if ((0 < 0 + a2) != BLUE) { a1 &= ((a1 + a1) >= (017 == 5UL)); long v6 = ((*p5) != (2 - a1)); } } { if ((32 % (a1 & 5), 1) && (a1 & 5) == 0) { a2 /= ((a1 / a2) >> 0x80000000); } } } return (0 - RED); _Bool w8; _Bool v9 = a2; a1++; return 127; }",
        "0 100 33 255 0, 33 126 127 255 1, 8 63 -128 128 1, 3 0 7 63 1",
    ),
    (
        "inline int f2(u8 a1) { { if (a1 < a1) { (a1 == (a1 + a1)) / (a1 ^ a1); } else { (a1 == (a1 + a1)) / (a1 ^ a1); } if (!(a1 ^ a1)) { int v3 = ((2 - (++a1)) > 2); u8 w4; for (signed char i5 = (w4 ^ 9223372036854775807); i5 && i5; gc((a1 ? 1 : i5))) (void)(i5); } } { int v6 = (a1 & 3) * 16777216; if ((a1 & 3) > 100) { if ((a1 == a1) > a1) { a1 %= ((-128) && '\\n'); while (((a1 - a1) == (a1 - a1))) { gv((a1)); return (1u ? a1 : 31); (void)(((long long)RED)); } signed char v7 = a1; } if ((1u ^ a1) != a1) { enum color v8 = 5; } u8 *p9 = (u8 *)100; } } unsigned char w10; return ((w10 && '\\n') ^ 255); }",
        "0 33 0 8, 255 0 255 7, 31 1 200 0, 63 255 32 255",
    ),
    (
        "int f3(u8 a1, _Bool a2) { switch (a2) { default: { u8 v3 = -2147483647 - (a1 ^ a2); if ((a1 ^ a2) > 100) { long v4 = (((a1 + sizeof(struct S)) + a1) > a1); { long v5 = (v4 | v4) % (v4 & 5); if (!(v4 & 5)) { a1 /= v4; --v4; v4 |= ((a2 + (a1 /= a2)) == a2); } } } } case 0: { int v6 = a1 / (a2 ^ a2); if (!(a2 ^ a2) || !(a2 ^ a2)) do { return ((-1), 0x7fffffff); u8 *p7 = (u8 *)200; short v8 = ((8, a2) && a2); } while ((a1 ? 255 : a2) && a2); } break; case 'a': if ((abs(a2++) & (a1 >> GREEN))) { if (a1 < (a2 >> a2)) { a2 %= (!(a2 && 'a')); } else a1 &= (((a2 + a1) <= a1) + (a2 | '\\377')); struct S *p9 = (struct S *)((0x7fffffff % a1)); long v10 = ((_Bool)(--a2)); } { int v11 = 9223372036854775807 % (a2 & 7); v11 = (0 == (a2 & 7) ? a1 : a2); } break; } { if (0 > a1) { (a1 - a1) * 16777216; } else { (a1 - a1) * 16777216; } if ((a1 - a1) < -1) { u8 *p13 = (u8 *)a1; u8 *p14 = (a1 ? p13 : 0); } } unsigned short v15 = ((int)(~7)); if (abs((a2 * a2))) { if (((signed char)2147483647) < (v15 == a2)) { unsigned v16 = a2 % (a2 - a1); if ((a2 - a1) == 0) gv(((5UL * a1))); } char v17 = (a1 >>= (0x7fffffff ? 0x7fffffff : v15)); struct S *p18 = (struct S *)((5UL != v15)); } return a1; }",
        "5 0, 127 1, 63 1, 1 1",
    ),
    (
        "int f4(signed char a1, _Bool a2) { { long v3 = (1u || a2) % (a2 - a2); if (0 >= (a2 - a2)) { { { a2 |= a1; a1 |= ((a1 != a1) && (a2 - a1)); return a1; } if ((GREEN ^ 2147483648) || (a2 >> a2)) { a1 /= ((a1 ? a2 : 100) ? a2 : ((int)a2)); } } } } a1 -= a2; return (((long)a1) && (a2 - 128)); }",
        "127 1",
    ),
    (
        "static int f5(u8 a1) { { if ((-2147483647 - (a1 >> 1), 1) || (a1 >> 1) >= 128) { a1++; if ((-(9uLL + 017))) { unsigned char v3 = ((+a1) + 1); signed char v4 = ((a1 | sizeof(struct S)) == (017 >= 0x7fffffff)); gv(((255 / a1))); } else { { if ((3 - a1)) { (a1 / 3) * 16777216; } else { (a1 / 3) * 16777216; } if ((a1 / 3) > 100) gv(((-1))); } unsigned v6 = ((4294967296 < 63) - (a1 - a1)); } } } a1 ^= a1; if (((a1 > a1) != (a1 == GREEN))) return (a1 + a1); if (abs((a1 != a1 - a1))) die((a1)); { int v7 = (long)(a1 >> 1) * 0x100000000000000; while ((a1 >> 1) > 100 && (a1 >> 1) > 100) { ; } } struct S *p8 = (struct S *)200; return '\\377'; }",
        "255, 100, 0",
    ),
];

/// Functions with maps.
pub(crate) static SIXTH_FUNCTIONS: [Row; 16] = [
    (
        "inline int f6(char a1) { switch (255) { case GREEN: switch ((1 < 0)) { case 1: case 3 - 1: if (RED) a1 += ((33 ^ 0x8000000000000000) ? a1 : (a1 ? 7ll : 7ll)); break; case 0: return RED; switch (a1) { case (char)200: (void)((a1 % (-2147483647 - 1))); gv((3)); break; case 5: break; a1 <<= (-(4294967295 - a1)); break; case 1 ? 7 : 8: case 1: a1 = (a1 <= (a1 > 017)); a1 |= (a1 % (a1 >> a1)); break; } break; case 5: { int v2 = (0 ^ a1) / (a1 & 7); if ((a1 & 7) != 0 && (a1 & 7) != 0) { (a1)--; unsigned long long v3 = ((a1 >= a1) <= 2L); gv((gc(v3))); } } } gv(('a')); } unsigned char v4 = 0; { a1 |= (((unsigned)v4) >= (0x7fffffff && v4)); (v4)--; while (a1 <= (4294967295 ? v4 : v4)) { unsigned short v5 = (a1 ? (a1 | 1) : gb(0xffffffff, 5UL)); u8 *p6 = (u8 *)(-1); switch (v4) { default: v5 = gc((p6[(p6[(v4 + v4)])])); break; } } } return v4; }",
        "1 64 1 44 1 100, 0 33 0 0 255 37",
    ),
    (
        "inline int f7(char a1, unsigned char a2) { unsigned v3 = (-2147483647 - 1); signed char w4; char v5 = a1--; if (((w4 >> v3) ? (v5 *= a1) : (-a2))) { if ((1u - a1) > '\\n') { struct S *p6 = (struct S *)9223372036854775807; unsigned v7 = (+(RED ^ GREEN)); unsigned short v8 = (a1 + (0x7fffffff - 3U) >= a1); } short v9 = ((v3 - '\\x41') / a1--); w4 += ((char)v9); } { unsigned v10 = (v3 != v3) / (v5 & 200); while (0 >= (v5 & 200)) { break; } } return 127; }",
        "32 128 1, 0 255 -1, 127 100 33, 0 255 127",
    ),
    (
        "int f0(char a1) { int v2 = abs((RED * 4294967296)); u8 *p3 = (u8 *)v2; int v4 = v2; return (((u8 *)0x8000000000000000 == 0) && (!RED)); }",
        "63",
    ),
    (
        "int f1(void) { gv((128)); gv(((5UL && 127))); do { { long v1 = -2147483647 - (5 * 3); while ((5 * 3) >= 128) { ; } } } while ((((unsigned long)(sizeof(struct S))) - 4294967296)); return (-128); }",
        "",
    ),
    (
        "static int f2(unsigned char a1) { _Bool w2; short v3 = (0x80000000 - w2); w2 %= ((-1) && (v3 >>= 256)); signed char w4; v3 |= ((w4 + 5UL) != ('a' >= 2)); struct S *p5 = (struct S *)255; return ((w4 <= (w4 + w4)) ? (+w4) : 'a'); }",
        "1 1 127, 0 0 31, 100 1 -1, 128 0 -127",
    ),
    (
        "inline int f3(unsigned char a1, _Bool a2) { signed char v3 = a2; signed char v4 = (a2 >>= a2); { char v5 = ((_Bool)a1); for (; v3 <= v4; ((u8)v5)) { long v7 = (v5 / 100) * 16777216; v7 = ((v5 / 100) < -1 ? a1 : RED); } } for (char i8 = (a2 < v3); 1 < 017; (1 % 9uLL)) { if (((1u + v4) != v4) || (a2 / a1)) { { v3 = (((unsigned long long)a1) < v3); } if (128) { a1 >>= (v3 < (v3 != 2L)); } } else if (a1 >= ((signed char)a2)) { unsigned long long v9 = a1; v9 %= ((v9 & a2) || (i8 >= v9)); --i8; } else break; { if ((-2147483647 - (a1 ^ i8), 1) || 0x7fffffff > a1 || (a1 ^ i8) > 1) { { } _Bool w11; v3 = v3; } } } return ((0xffffffff >= a2) * a2); }",
        "255 1 0 31 0 1, 100 1 1 32 127 86, 1 1 1 254 9 127, 0 0 1 255 -4 7",
    ),
    (
        "inline int f4(u8 a1) { { a1 %= ((a1 >> a1) < (7ll | 0)); if ((RED < a1) <= (a1 >> a1)) { u8 v2 = -2147483647 - (a1 - a1); if ((a1 - a1) > 1) die(((0x8000000000000000 - a1))); } a1 *= ((64) == (64 + ((char)a1))); } switch (2L) { default: for (; (+3U); ) while (gb(a1, '\\377')) { a1++; } a1 /= ((unsigned long long)(a1 /= a1)); break; case -1: { int v4 = 4 % (a1 - a1); while (!(a1 - a1)) { ; } } a1 &= (a1 ^ abs((a1 / a1))); break; } return (~((a1 + ('\\377')) > (a1))); }",
        "127 1 254 255, 8 1 7 64, 32 0 2 0, 0 0 255 254",
    ),
    (
        "int f5(unsigned char a1) { if (((a1 || a1) != a1)) { u8 w2; if (gc((w2 >>= 1)) < (w2 ^ 0)) { { w2 = w2++; unsigned char v3 = ((+256) > w2); } unsigned long long v4 = ((enum color)(+9223372036854775807)); int v5 = 5UL; } } struct S *p6 = (struct S *)a1; a1++; switch (7ll) { case 5: { unsigned long v7 = 5UL; u8 w8; break; } break; } switch ((5 ^ 7)) { case 1: return (5UL & a1); case -1: for (unsigned char i9 = (a1 && a1); !p6; i9++) a1 |= ((i9 == i9) == (0x80000000 ^ 0x7fffffff)); a1 += (('\\x41' ? a1 : 0x8000000000000000) - (p6->in.lo)); case 1 ? 7 : 8: while ((2 << a1) || a1) { { int v10 = (1 && 'a') / (a1 - 100); if (a1 < 63 || (a1 - 100) < 1) die(((a1 ? 33 : a1))); } unsigned v11 = (p6->arr - (u8 *)((a1 ? a1 : a1))); } } (a1)--; return BLUE; }",
        "255 100 255 0 8 0 3, 1 0 1 3 1 0 0, 31 255 33 100 255 255 254, 0 8 0 128 130 0 127",
    ),
    (
        "inline int f6(char a1) { u8 *p2 = (u8 *)a1; { int v3 = -2147483647 - (a1 * a1); int v4 = a1 % (a1 * a1); if ((a1 * a1) >= 128) { unsigned long long v5 = (('a' * a1) == ((p2 + a1) != p2)); _Bool v6 = (0x80000000 / (a1 - a1)); if (!p2) switch (4) { default: break; case 3: case 256: a1 ^= v5; break; } else { char v7 = (((int)9223372036854775807) <= 5); for (; 0 != v6; ) *(p2 + v5) += (2147483648 || a1); { u8 v9 = v7 << (a1 - 7); int v10 = v5 / (a1 - 7); if ((a1 - 7) < 0) { v7 -= v5; } } } } } if ((a1, (33 - a1))) { int v11 = ((*(p2 + a1)) >= (64 - a1)); --a1; } return ((long long)(a1 && a1)); }",
        "33 153 128, -128 0 8, 8 0 63, 64 0 93",
    ),
    (
        "inline int f7(u8 a1, _Bool a2) { unsigned long v3 = (!0); { if ((a1 % v3)) { (v3 / 2) * 16777216; } else { (v3 / 2) * 16777216; } if ((v3 / 2) > 1) { unsigned char v5 = a1; { { v3 /= ((signed char)(BLUE != v5)); } if (((a1 >> a1) ? a1++ : v3)) { struct S *p6 = (struct S *)(((7ll) == v5 + 7ll)); return (v3 <= a2); (void)(abs((a2 % 0x7fffffff))); } else return a2; } long long v7 = v3; } } int v8 = (a1 && (a2 == 1)); return (((unsigned long)v3) || (a1 != 0)); }",
        "1 0, 0 1, 31 1",
    ),
    (
        "static int f0(void) { unsigned v1 = 4294967296; { { } } { int v2 = v1 / v1; v2 = (!v1 ? 1 : v1); } enum color v3 = v1; int v4 = gc((100 & 7)); return ((v4 || 0x8000000000000000) < 3); }",
        "255, 0",
    ),
    (
        "int f1(char a1) { do { for (; a1 >= 64; (a1 % a1)) { unsigned v3 = (a1 < a1) % (a1 * a1); if (0 >= (a1 * a1)) gv((255)); } { unsigned long long v4 = (((_Bool)0) - a1); { v4 %= (v4++ && ('a' << 9uLL)); } } if ((9223372036854775807 ? a1 : a1) || ((u8)3)) { long long v5 = ((a1 > a1) % a1); } } while ((a1 <= a1) <= (a1 <= GREEN)); _Bool w6; long v7 = ((+a1) / ((char)w6)); { v7 = (((a1 || 0x80000000) + (-1)) == ((-1))); } return (1000 ? a1 : (v7 & 9uLL)); }",
        "33 1, 127 1, 0 1, -128 0",
    ),
    (
        "int f2(_Bool a1) { char w2; struct S *p3 = (struct S *)((!2)); return ((*p3).sc); }",
        "1 100 124",
    ),
    (
        "static int f3(void) { { u8 v1 = (1 >= BLUE) / (5 ^ 3); v1 = ((5 ^ 3) ? 'a' : 1u); } { char w2; } return 0; }",
        "-1",
    ),
    (
        "inline int f4(void) { if (4294967296) (void)((5UL < 31)); int v1 = 0x80000000; return ((v1 || v1) != --v1); }",
        "",
    ),
    (
        "inline int f5(_Bool a1, signed char a2) { unsigned char w3; { a2 >>= ((_Bool)(0x8000000000000000 && a2)); while ((a2 != sizeof(int))) for (; abs((200 + w3)); ) gv((w3)); u8 v5 = gc((w3 * w3)); } return ((100 >= 127) << (127 < a1)); }",
        "1 62 63 0, 1 8 8 33",
    ),
];

/// Functions with maps, and how many goals they have and how often these are 1, as worked out by hand.
pub(crate) static WORKED: [(&str, &str, u32, u32); 5] = [
    (
        "struct sock; struct tun { int flags; struct sock *sk; }; int poll(struct tun *tun) { struct sock *sk = tun->sk; if (!tun) return 1; return sk != 0; }",
        "0 5, 8 5",
        10,
        6,
    ),
    (
        "int t[4]; int f(int i) { int v = t[i]; if (i >= 4) return -1; return v; }",
        "4 1 7",
        6,
        2,
    ),
    (
        "int f(int k) { int x = k; int *p = &x; int y = 10 / x; if (x == 0) return *p; return y; }",
        "0 98304 0 -2 0, 86016 90112 128 64 1",
        6,
        4,
    ),
    (
        "extern void g(int *); int f(int k) { int x = k; int y = 10 / x; g(&x); if (x == 0) return 1; return y; }",
        "0 32768 255 0, 2147483646 57344 64 0",
        6,
        6,
    ),
    (
        "extern void *memcpy(void *, const void *, unsigned long); int f(char *d, char *s, unsigned long n) { memcpy(d, s, n); if (d == s && n) return 1; return 0; }",
        "8 8 1, 8 16 1",
        12,
        8,
    ),
];
