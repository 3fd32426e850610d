//! Functions of few input bits, which are run under all their maps.

/// Functions, and their input bits.
pub(crate) static NARROW: [(&str, u32); 21] = [
    (
        "static int f2(void) { while (((1 - 2L) ? ('\\n' && '\\377') : (+7))) { if (((long)5 * 0x100000000000000, 1) && 5 >= 128) { { gv(((0x8000000000000000 ? 5UL : 33))); struct S *p2 = (struct S *)(-2147483647 - 1); p2->arr[32] -= (5UL ^ 9223372036854775807); } } } unsigned v3 = sizeof table; return (!(v3 + v3)); }",
        8,
    ),
    (
        "inline int f4(void) { unsigned char v1 = 4; { long v2 = (v1 /= v1) % (v1 & 1); v2 = (0 == (v1 & 1) ? v1 : v1); } int v3 = (-v1); char v4 = (v1 + (5UL >= v1)); char w5; return ((_Bool)2L); }",
        8,
    ),
    (
        "static int f1(unsigned char a1) { int v2 = a1; while ((a1 + v2) > (v2 && 5)) gv((v2)); return (((long long)a1) * a1); }",
        8,
    ),
    (
        "int f1(_Bool a1) { signed char v2 = ((4294967296 > a1) >> (a1 - a1)); unsigned long long v3 = ((a1 && 200) ? (-2147483648) : (v2 /= 0)); return ((+63) && v2); }",
        1,
    ),
    (
        "int f3(u8 a1) { short v2 = ((~2) ^ (+9223372036854775807)); v2++; enum color v3 = sizeof(int); long long v4 = --v3; v3 -= ((long long)(a1 ? v2 : 5)); return '\\x41'; }",
        8,
    ),
    (
        "inline int f0(_Bool a1, _Bool a2) { a1 -= ((a2 + a1 != a2) % (a1 && 1u)); struct S *p3 = (struct S *)4294967295; unsigned v4 = abs((a2, a1)); return a2; }",
        2,
    ),
    (
        "inline int f0(unsigned char a1) { { long v2 = a1 << a1; if (a1 > 63) do { short v3 = (a1 | 0x8000000000000000); } while (((int)(sizeof table)) || ((long long)3)); } unsigned v4 = (7 != a1); ; return (!(0 >= 2147483647)); }",
        8,
    ),
    (
        "inline int f3(char a1) { unsigned short v2 = (-5UL); gv((a1)); while ((!100) >= (0x8000000000000000 % v2)) if ((v2 >= a1) <= ((v2 - a1) > v2)) die(((v2 + a1))); return 1u; }",
        8,
    ),
    (
        "int f0(char a1) { _Bool v2 = ((a1 < a1) + a1); long v3 = (v2 && (~v2)); return ((1 << v3) || (v3 | v2)); }",
        8,
    ),
    (
        "int f3(signed char a1) { (void)(sizeof(struct S)); long v2 = (a1 != a1); return ((a1 << v2) + (100 / a1)); }",
        8,
    ),
    (
        "static int f0(char a1) { a1 = (a1 > (a1 - a1) + a1); return a1; return ((a1 - a1) - (a1 / a1)); }",
        8,
    ),
    (
        "int f4(void) { switch (2147483648) { default: { int v1 = (5 * 3) + 2147483547; if ((5 * 3) < -1) { if (((4294967295 <= 017) >> (1, 2L))) gv(((256 > 0xffffffff))); } } switch (0x80000000) { case 5: { gv(((+9uLL))); } default: { int v2 = ((enum color)1); } break; } } signed char w3; unsigned short v4 = 3U; return ((31 % w3) <= w3); }",
        8,
    ),
    (
        "inline int f4(void) { die(((1u - 7))); for (; (RED >> GREEN); 2L) { die((RED)); { if ((4 % (5 / 100), 1) || (5 / 100) != 0) { if (((100 & 4294967295) >= 0)) gv(('\\x41')); _Bool w3; } } } return ((9uLL - 4294967295) <= 64); }",
        1,
    ),
    (
        "int f4(u8 a1) { while (((5UL % 2L) * (7ll > a1))) { u8 *p2 = (u8 *)(7ll); { unsigned v3 = (017 | a1) / (a1 - 100); v3 = ((a1 - 100) == 0 ? a1 : a1); } long long v4 = ((char)((32) < (0x8000000000000000 + 32))); } unsigned v5 = ((a1 ^ a1) ? a1 : (a1 % a1)); return a1; }",
        8,
    ),
    (
        "inline int f2(signed char a1) { signed char v2 = ((-255) || a1); switch (3) { case -1: do { die(((2 <= v2))); } while (a1 < (a1 & 4294967295)); break; } return ((a1 & 2) > (v2 > v2)); }",
        8,
    ),
    (
        "static int f3(char a1) { enum color v2 = ((a1 / 0x7fffffff) > 100); { int v3 = a1 << (a1 / 3); while ((a1 / 3) > 63) { return 1; } } u8 v4 = 64; unsigned v5 = v2; return (!(sizeof(int) ^ BLUE)); }",
        8,
    ),
    (
        "int f3(void) { { int v1 = 2 << (5 / 200); while ((5 / 200) >= 32) { break; } } char w2; return w2; }",
        8,
    ),
    (
        "int f0(unsigned char a1) { enum color v2 = a1; { _Bool v3 = v2; } v2 += 0; return (((a1 += a1) + a1) == a1); }",
        8,
    ),
    (
        "int f2(unsigned char a1) { enum color v2 = ((a1 ^ 0xffffffff) != (a1 - a1)); if ((~a1) || (2147483647 ? a1 : v2)) { long v3 = ((0 / v2) + a1); } else { int v4 = (v2 && (256 + a1)); } return ((2 | 2) >= a1); }",
        8,
    ),
    (
        "int f1(signed char a1) { int v2 = ((a1 - 1u) * (a1 || a1)); unsigned short v3 = (a1 / (255 ? '\\377' : a1)); a1 <<= ((int)(a1 / v3)); { long v4 = a1 >> (v2 - a1); while ((v2 - a1) >= 32) { ; } } return (-(7 || v2)); }",
        8,
    ),
    (
        "inline int f4(char a1) { int v2 = 63; if ((31 >> v2) < a1--) { v2 -= (v2++ ? a1 : (a1 || v2)); } else if (v2) { if (a1) { gv(((a1 && 200))); } else die(((v2 & v2))); } else return (32 == a1); char v4 = (v2 ? (v2 + v2) : 128); return ((_Bool)(2147483648 && v4)); }",
        8,
    ),
];
