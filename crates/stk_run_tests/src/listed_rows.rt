//! Functions over numbers and single objects, of many forms of expressions and statements. Beside each function stand
//! its sizes: its nodes, the one of its unit included, the bits of its input maps, and its weight; its keys, each with
//! its kind, the size of its object, and whether that is kept; its conditions and its candidates, each with the column
//! of its node.

/// A function, its sizes, its keys, its conditions and its candidates.
pub(crate) type Listed = (
    &'static str,
    &'static str,
    &'static str,
    &'static str,
    &'static str,
);

/// What is declared before each function.
pub(crate) static FIRST: &str =
    "typedef unsigned char u8; enum color { RED, GREEN = 5, BLUE = -1 }; struct in { u8 lo; signed char hi; }; struct S { unsigned char c; _Bool b; signed char sc; struct in in; u8 arr[3]; struct S *next; int n; }; extern unsigned char gc(int); extern _Bool gb(u8 a, long b); extern void gv(u8); extern void die(int) __attribute__((noreturn)); extern int abs(int); extern long labs(long); extern long long llabs(long long); int table[7];";

/// Operators and conversions.
pub(crate) static OPERATORS: [Listed; 13] = [
    (
        "inline int f4(void) { unsigned char v1 = 4; { long v2 = (v1 /= v1) % (v1 & 1); v2 = (0 == (v1 & 1) ? v1 : v1); } int v3 = (-v1); char v4 = (v1 + (5UL >= v1)); char w5; return ((_Bool)2L); }",
        "54 nodes, 8 bits, 91904",
        "w5@2:165 Char",
        "overflow 58, zero 58, overflow 57, zero 57, overflow 124, overflow 141",
        "true 86, false 86, enter 102, enter 107, true 147, false 147",
    ),
    (
        "static int f1(unsigned char a1) { int v2 = a1; while ((a1 + v2) > (v2 && 5)) gv((v2)); return (((long long)a1) * a1); }",
        "34 nodes, 8 bits, 143616",
        "a1 UChar",
        "overflow 56, overflow 96",
        "true 68, false 68, enter 74, true 55, false 55, enter 78",
    ),
    (
        "inline int f2(void) { short v1 = (((u8)0) | (017, 32)); (v1)--; return (((0 + v1) >= v1) <= ((unsigned long long)(sizeof(int)))); }",
        "39 nodes, 0 bits, 17792",
        "",
        "overflow 57, overflow 75",
        "true 74, false 74, same 74 as 0 >= 0, true 73, false 73",
    ),
    (
        "int f2(void) { signed char v1 = ((+2147483648) - (4 + sizeof(struct S))); u8 v2 = RED; v1 ^= ((v2) -= (8 > 31)); return ((v2 ? v1 : v2) | (v2 << v2)); }",
        "43 nodes, 0 bits, 21376",
        "",
        "overflow 95, shift 140",
        "true 104, false 104, true 123, false 123, enter 128, enter 133",
    ),
    (
        "static int f0(signed char a1, char a2) { struct S *p3 = (struct S *)a2; a2 /= (gc((a1 <= a2)) >> (!(-1))); while ((a1 || a1) || (2147483648, 8)) { u8 w4; } signed char w5; return (a2 || (w5 % 63)); }",
        "55 nodes, 40 bits, 87424",
        "a1 SChar, a2 Char, call@2:80 UChar, w4@2:151 UChar, w5@2:169 SChar",
        "overflow 101, shift 80, overflow 73, zero 73, overflow 188, zero 188",
        "true 84, false 84, true 116, false 116, enter 122, true 116, false 116, enter 129, true 115, false 115, enter 146, true 181, false 181, enter 187",
    ),
    (
        "int f4(char a1, u8 a2) { u8 *p3 = (u8 *)a2; long v4 = (a1 > --a2); unsigned v5 = ((long long)(*p3)); return ((v5 < 2L) + (!p3)); }",
        "42 nodes, 24 bits, 25344",
        "a1 Char, a2 UChar, load@2:95 UChar",
        "overflow 61, null 95, overflow 110",
        "true 56, false 56, true 111, false 111",
    ),
    (
        "int f3(u8 a1) { short v2 = ((~2) ^ (+9223372036854775807)); v2++; enum color v3 = sizeof(int); long long v4 = --v3; v3 -= ((long long)(a1 ? v2 : 5)); return '\\x41'; }",
        "43 nodes, 8 bits, 24960",
        "a1 UChar",
        "overflow 61, overflow 111, overflow 117",
        "true 136, false 136, enter 141, enter 146",
    ),
    (
        "int f3(unsigned char a1) { _Bool v2 = a1; _Bool w3; v2 &= ((v2 > v2) || v2++); u8 v4 = w3; die(((+a1))); return ((-1) <= a1); }",
        "40 nodes, 9 bits, 13312",
        "a1 UChar, w3@2:49 Bool",
        "overflow 73, overflow 115",
        "true 61, false 61, enter 73, true 114, false 114",
    ),
    (
        "static int f0(char a1) { a1 = (a1 > (a1 - a1) + a1); return a1; return ((a1 - a1) - (a1 / a1)); }",
        "32 nodes, 8 bits, 45568",
        "a1 Char",
        "overflow 38, overflow 37, overflow 74, overflow 86, zero 86, overflow 73",
        "true 32, false 32, same 32 as 0 > ( a1 - a1 )",
    ),
    (
        "static int f1(void) { u8 *p1 = (u8 *)((1u + sizeof(struct S))); int v2 = ((p1 + (63 ? 8 : 256)) >= p1); return v2++; }",
        "32 nodes, 0 bits, 22016",
        "",
        "pointer 76, overflow 112",
        "true 82, false 82, enter 87, enter 91, true 75, false 75, same 75 as ( 63 ? 8 : 256 ) >= 0",
    ),
    (
        "inline int f2(void) { u8 v1 = 2L; (((unsigned)v1) || (v1 < v1)); signed char v2 = v1; unsigned long long v3 = ((v2 != v1) & (v2 + v1)); u8 v4 = (((short)v2) / (v3 ^ 7)); return (v3 | (1u >= (-2147483647 - 1))); }",
        "59 nodes, 0 bits, 159872",
        "",
        "overflow 126, zero 146, overflow 192, overflow 192",
        "true 37, false 37, true 55, false 55, enter 54, true 113, false 113, true 185, false 185",
    ),
    (
        "int f0(unsigned char a1) { enum color v2 = a1; { _Bool v3 = v2; } v2 += 0; return (((a1 += a1) + a1) == a1); }",
        "29 nodes, 8 bits, 11904",
        "a1 UChar",
        "overflow 67, overflow 86, overflow 85",
        "true 84, false 84",
    ),
    (
        "static int f1(void) { return ((unsigned)3); u8 *p1 = (u8 *)(((unsigned char)('\\377'))); return ((200 << 9223372036854775807) != (127 ? '\\377' : 0x8000000000000000)); }",
        "34 nodes, 0 bits, 17664",
        "",
        "shift 98",
        "true 130, false 130, enter 136, enter 145, true 97, false 97",
    ),
];

/// Loops, branches and sections.
pub(crate) static STATEMENTS: [Listed; 12] = [
    (
        "inline int f0(unsigned char a1) { { long v2 = a1 << a1; if (a1 > 63) do { short v3 = (a1 | 0x8000000000000000); } while (((int)(sizeof table)) || ((long long)3)); } unsigned v4 = (7 != a1); ; return (!(0 >= 2147483647)); }",
        "52 nodes, 8 bits, 27648",
        "a1 UChar",
        "shift 47",
        "true 61, false 61, enter 73, true 123, false 123, enter 147, true 122, false 122, enter 70, true 181, false 181, true 203, false 203",
    ),
    (
        "static int f4(unsigned char a1) { u8 *p2 = (u8 *)a1; for (signed char i3 = ((_Bool)5); ; i3++) { *p2 += (GREEN < a1); } a1 = (!(gc(a1))); p2[a1] = (a1 > a1); return (~(a1 << (-1))); }",
        "59 nodes, 32 bits, 31616",
        "a1 UChar, load@2:98 UChar, loop@2:54.i3 SChar, call@2:129 UChar",
        "overflow 90, null 98, overflow 98, null 139, pointer 139, overflow 176, shift 169",
        "true 106, false 106, enter 96, true 149, false 149",
    ),
    (
        "inline int f3(char a1) { unsigned short v2 = (-5UL); gv((a1)); while ((!100) >= (0x8000000000000000 % v2)) if ((v2 >= a1) <= ((v2 - a1) > v2)) die(((v2 + a1))); return 1u; }",
        "49 nodes, 8 bits, 154752",
        "a1 Char",
        "zero 82, overflow 128, overflow 150",
        "true 71, false 71, true 113, false 113, true 127, false 127, same 127 as 0 > a1, true 112, false 112, enter 144, enter 108",
    ),
    (
        "int f0(void) { enum color v1 = ('\\n' > BLUE); { int v2 = (long)(v1 & 5) * 0x100000000000000; while ((0x80000000 << v1) || (v1 & 5) > 100) { return 1; } } v1 |= v1; v1 &= 7; u8 *p3 = (u8 *)1u; unsigned long long v4 = v1; return ++v4; }",
        "57 nodes, 0 bits, 165504",
        "",
        "overflow 58, shift 102",
        "true 33, false 33, true 102, false 102, enter 123, true 123, false 123, true 101, false 101, enter 139",
    ),
    (
        "int f3(void) { if (256) if ((((int)3) & 9223372036854775807)) { gv((1)); } signed char v1 = ((-1) / 2147483647); v1 /= ((v1 + v1), (0x8000000000000000, 0x7fffffff)); return v1; }",
        "44 nodes, 0 bits, 82432",
        "",
        "overflow 95, overflow 94, zero 94, overflow 122, overflow 114, zero 114",
        "true 20, false 20, true 30, false 30, enter 63, enter 25",
    ),
    (
        "static int f3(signed char a1, _Bool a2) { if (a1) if (((unsigned long long)9uLL) > (a1 == a1)) { u8 v3 = (a2 ^ a2) + 2147483547; v3 = ((a2 ^ a2) > 100 ? 2 : a1); } return (017 * a1); return ((a2 ? 7ll : 63) - (a1 *= a2)); }",
        "62 nodes, 9 bits, 93696",
        "a1 SChar, a2 Bool",
        "overflow 106, overflow 173, overflow 211, overflow 192",
        "true 47, false 47, true 85, false 85, true 55, false 55, true 136, false 136, enter 154, enter 158, enter 96, enter 51, true 193, false 193, enter 198, enter 204",
    ),
    (
        "static int f0(unsigned char a1, _Bool a2) { { long v3 = a1 >> a1; while (a1 == 64) { return 1; } } a2 <<= ((7ll != RED) - gc(a2)); _Bool v4 = ((a2 && a2) + (a1 ? a2 : a1)); signed char w5; return ((unsigned)(v4 ? a2 : 5UL)); }",
        "60 nodes, 25 bits, 27136",
        "a1 UChar, a2 Bool, call@2:123 UChar, w5@2:186 SChar",
        "shift 57, overflow 108, shift 100, overflow 144",
        "true 74, false 74, enter 84, true 109, false 109, true 145, false 145, enter 151, true 158, false 158, enter 163, enter 168, true 209, false 209, enter 214, enter 219",
    ),
    (
        "static int f0(u8 a1) { u8 *p2 = (u8 *)a1; int v3 = (*p2); if ((*p2) >= ((short)v3)) gv(((v3 % a1))); return ((v3 < v3) != (a1 /= 9223372036854775807)); }",
        "47 nodes, 24 bits, 187776",
        "a1 UChar, load@2:53 UChar, load@2:64 UChar",
        "null 53, null 64, overflow 90, zero 90, overflow 124, zero 124",
        "true 63, false 63, enter 85, true 111, false 111, true 110, false 110",
    ),
    (
        "inline int f2(signed char a1) { signed char v2 = ((-255) || a1); switch (3) { case -1: do { die(((2 <= v2))); } while (a1 < (a1 & 4294967295)); break; } return ((a1 & 2) > (v2 > v2)); }",
        "48 nodes, 8 bits, 20480",
        "a1 SChar",
        "overflow 52",
        "true 52, false 52, enter 61, true 99, false 99, enter 91, true 120, false 120, enter 79, true 174, false 174, true 162, false 162",
    ),
    (
        "int f3(void) { { int v1 = 2 << (5 / 200); while ((5 / 200) >= 32) { break; } } char w2; return w2; }",
        "26 nodes, 8 bits, 74496",
        "w2@2:85 Char",
        "overflow 33, zero 33, shift 27, overflow 51, zero 51",
        "true 50, false 50, enter 67",
    ),
    (
        "static int f2(void) { while (((1 - 2L) ? ('\\n' && '\\377') : (+7))) { if (((long)5 * 0x100000000000000, 1) && 5 >= 128) { { gv(((0x8000000000000000 ? 5UL : 33))); struct S *p2 = (struct S *)(-2147483647 - 1); p2->arr[32] -= (5UL ^ 9223372036854775807); } } } unsigned v3 = sizeof table; return (!(v3 + v3)); }",
        "75 nodes, 8 bits, 177536",
        "load@2:209 UChar",
        "overflow 32, overflow 75, overflow 191, overflow 191, null 209, bounds 209",
        "true 32, false 32, true 43, false 43, enter 51, enter 42, enter 61, true 31, false 31, true 75, false 75, enter 110, true 110, false 110, true 74, false 74, true 129, false 129, enter 150, enter 156, enter 120, enter 68",
    ),
    (
        "int f1(signed char a1) { int v2 = ((a1 - 1u) * (a1 || a1)); unsigned short v3 = (a1 / (255 ? '\\377' : a1)); a1 <<= ((int)(a1 / v3)); { long v4 = a1 >> (v2 - a1); while ((v2 - a1) >= 32) { ; } } return (-(7 || v2)); }",
        "65 nodes, 8 bits, 126592",
        "a1 SChar",
        "overflow 82, zero 82, overflow 123, zero 123, shift 109, overflow 153, shift 146, overflow 171, overflow 203",
        "true 49, false 49, enter 55, true 88, false 88, enter 94, enter 103, true 170, false 170, enter 187, true 205, false 205, enter 210",
    ),
];
