//! Runs over numbers and single objects, of many forms of expressions and statements.

/// A function, a number for each of its keys, and its trace: the entries in order, each with the number of its node and
/// its column; of a comparison that has a replacement also the truth of that.
pub(crate) type Run = (&'static str, &'static [i128], &'static str);

/// What is declared before each function.
pub(crate) static FIRST: &str =
    "typedef unsigned char u8; enum color { RED, GREEN = 5, BLUE = -1 }; struct in { u8 lo; signed char hi; }; struct S { unsigned char c; _Bool b; signed char sc; struct in in; u8 arr[3]; struct S *next; int n; }; extern unsigned char gc(int); extern _Bool gb(u8 a, long b); extern void gv(u8); extern void die(int) __attribute__((noreturn)); extern int abs(int); extern long labs(long); extern long long llabs(long long); int table[7];";

/// Loops, branches, sections and operators.
pub(crate) static MIXED: [Run; 15] = [
    (
        "inline int f0(u8 a1) { long v2 = ((+a1) + (a1 & a1)); if ((0x80000000 == a1) != (a1 >>= v2)) { for (char i3 = 1000; ; ) { switch (3) { case 5: i3 <<= v2; break; } i3 -= ((short)(0 <= 255)); } signed char w4; } int v5 = a1; return gb(v5, 0x80000000); }",
        &[255, 33, 127, 0],
        "false 18 at 60, shift 22 at 82, false 24 at 59",
    ),
    (
        "inline int f0(u8 a1) { long v2 = ((+a1) + (a1 & a1)); if ((0x80000000 == a1) != (a1 >>= v2)) { for (char i3 = 1000; ; ) { switch (3) { case 5: i3 <<= v2; break; } i3 -= ((short)(0 <= 255)); } signed char w4; } int v5 = a1; return gb(v5, 0x80000000); }",
        &[8, 5, -128, 1],
        "false 18 at 60, false 24 at 59",
    ),
    (
        "int f5(unsigned char a1, _Bool a2) { struct S *p3 = (struct S *)a2; if ((a2 != 5UL) != a2) { while (((*p3).sc)) p3['\\377'].c += (a2 || a1); } u8 *p4 = (u8 *)a2; u8 v5 = (a1 && (a2 & 0x80000000)); return (((struct S *)v5 != 0) / (a2 / a2)); }",
        &[255, 0, 2, 3],
        "true 16 at 74, true 19 at 73, enter 36 at 92, null 21 at 103, true 23 at 102, enter 34 at 113, false 29 at 130, enter 30 at 136, null 27 at 113, pointer 27 at 113",
    ),
    (
        "int f5(unsigned char a1) { (void)(('\\n' - RED)); { --a1; a1 *= ((4294967295 ? 2147483648 : a1) ? a1++ : (a1 > a1)); } return ((-a1) < a1); }",
        &[255],
        "true 18 at 66, enter 19 at 79, true 21 at 66, enter 24 at 98, true 38 at 127",
    ),
    (
        "int f7(_Bool a1, _Bool a2) { while ((0xffffffff != 0xffffffff - a2) < (~2)) for (; ((unsigned short)a2); (a2 || a1)) if (a2 == a1) { gv((a2)); } else { a1 -= GREEN; a1 %= (abs(BLUE) % (a2 - a2)); struct S *p4 = (struct S *)('a'); } a1 -= sizeof table; return 100; }",
        &[0, 1, 1, 1],
        "true 12 at 38 or true, false 17 at 37",
    ),
    (
        "int f0(u8 a1, u8 a2) { while ((a2 >> a1) == (31 >= a2)) { u8 *p3 = (u8 *)127; _Bool w4; *p3 += ((unsigned)(sizeof(struct S))); } struct S *p5 = (struct S *)a2; u8 *p6 = (u8 *)1; return ((9uLL + a1) - (a1 ? a2 : 7ll)); }",
        &[255, 64, 1, 7],
        "shift 10 at 32, false 14 at 46, true 16 at 31, enter 37 at 57",
    ),
    (
        "int f0(u8 a1, u8 a2) { while ((a2 >> a1) == (31 >= a2)) { u8 *p3 = (u8 *)127; _Bool w4; *p3 += ((unsigned)(sizeof(struct S))); } struct S *p5 = (struct S *)a2; u8 *p6 = (u8 *)1; return ((9uLL + a1) - (a1 ? a2 : 7ll)); }",
        &[0, 255, 1, 100],
        "false 14 at 46, false 16 at 31, false 55 at 202, enter 57 at 212",
    ),
    (
        "int f4(unsigned char a1, _Bool a2) { while ((!a1)) { { int v3 = (-255) % (a2 - a2); int v4 = a1 / a2; if (a1 == a2 && (a2 - a2) != 0) if ((a2 & a1) || (2 + 1000)) { (void)((a2 / 128)); gv(((0x8000000000000000 / a2))); u8 v5 = a2; } } } u8 *p6 = (u8 *)a1; return ((!a1) << (255 || 255)); }",
        &[0, 0],
        "true 9 at 46, enter 69 at 52, zero 19 at 65, zero 24 at 94, true 28 at 107, enter 34 at 119, false 34 at 119, false 35 at 107",
    ),
    (
        "inline int f5(unsigned char a1, _Bool a2) { { if ((a2 - sizeof(struct S))) { a2 << (a1 - a1); } else { a2 << (a1 - a1); } if ((a1 - a1) == 64) for (; ; (a2 <= 32)) { gv((31)); continue; a2 <<= (!((64) >= 64 + 31)); } } _Bool v5 = ((a2 % a1) & (-BLUE)); unsigned char v6 = gc((v5 % 'a')); return (-a2); }",
        &[0, 1, 1, 125],
        "true 12 at 52, enter 21 at 76, false 36 at 127, zero 66 at 233",
    ),
    (
        "inline int f0(u8 a1) { switch ('\\n') { case 0: a1 &= (~(a1 / 0x8000000000000000)); break; } { u8 *p2 = (u8 *)a1; } signed char v3 = (255 | ((short)32)); return v3; }",
        &[0],
        "",
    ),
    (
        "int f5(unsigned char a1) { { long v2 = a1 >> (a1 * a1); while ((a1 * a1) < 32) { ; } } u8 *p3 = (u8 *)(0xffffffff); switch (a1) { default: a1 |= (('\\n' * a1) % ((_Bool)a1)); p3[a1] /= (*p3); } int v4 = abs((!p3)); return ((p3 - v4) < &p3[a1]); }",
        &[32, 0, 0],
        "shift 11 at 40, false 18 at 64, enter 53 at 131, zero 51 at 175, true 70 at 223",
    ),
    (
        "int f5(unsigned char a1) { { long v2 = a1 >> (a1 * a1); while ((a1 * a1) < 32) { ; } } u8 *p3 = (u8 *)(0xffffffff); switch (a1) { default: a1 |= (('\\n' * a1) % ((_Bool)a1)); p3[a1] /= (*p3); } int v4 = abs((!p3)); return ((p3 - v4) < &p3[a1]); }",
        &[255, 5, 1],
        "shift 11 at 40, false 18 at 64, enter 53 at 131, true 70 at 223",
    ),
    (
        "int f4(signed char a1, _Bool a2) { { long v3 = (1u || a2) % (a2 - a2); if (0 >= (a2 - a2)) { { { a2 |= a1; a1 |= ((a1 != a1) && (a2 - a1)); return a1; } if ((GREEN ^ 2147483648) || (a2 >> a2)) { a1 /= ((a1 ? a2 : 100) ? a2 : ((int)a2)); } } } } a1 -= a2; return (((long)a1) && (a2 - 128)); }",
        &[127, 1],
        "true 9 at 49, zero 17 at 48, true 24 at 76, enter 73 at 92, false 32 at 116",
    ),
    (
        "int f1(void) { gv((128)); gv(((5UL && 127))); do { { long v1 = -2147483647 - (5 * 3); while ((5 * 3) >= 128) { ; } } } while ((((unsigned long)(sizeof(struct S))) - 4294967296)); return (-128); }",
        &[],
        "true 8 at 32, enter 9 at 39, enter 34 at 50, overflow 22 at 64, false 29 at 94, true 44 at 128",
    ),
    (
        "inline int f5(_Bool a1, signed char a2) { unsigned char w3; { a2 >>= ((_Bool)(0x8000000000000000 && a2)); while ((a2 != sizeof(int))) for (; abs((200 + w3)); ) gv((w3)); u8 v5 = gc((w3 * w3)); } return ((100 >= 127) << (127 < a1)); }",
        &[1, 62, 63, 0],
        "true 13 at 79, enter 14 at 101, true 25 at 115, enter 38 at 135, true 32 at 142, enter 37 at 161",
    ),
];

/// More of them.
pub(crate) static MORE: [Run; 16] = [
    (
        "int f1(_Bool a1) { a1 += ((1 < a1) || a1); struct S *p2 = (struct S *)(-2147483647 - 1); if ((!(a1 != sizeof table))) { --a1; } return (a1 >>= ((*p2).sc)); }",
        &[1, 63],
        "false 8 at 28, enter 10 at 39, true 28 at 97, false 30 at 95, shift 43 at 137",
    ),
    (
        "inline int f6(unsigned char a1, unsigned char a2) { a1 <<= (!((_Bool)a2)); u8 *p3 = (u8 *)((a1 & a2)); if ((9uLL >= (a2 + 9uLL)) != (a1 - a1 < (a1))) { unsigned v4 = p3[1]; while (p3 == 0) { return 1; } } else { unsigned v5 = (+(a2 >> a1)); a1 = ((+a1) >= (5UL && 2147483647)); } return ++a2; }",
        &[63, 0, 194],
        "true 33 at 109 or true, true 40 at 134 or true, false 42 at 108, enter 76 at 211, shift 59 at 230, true 68 at 258, enter 69 at 265, true 72 at 248",
    ),
    (
        "inline int f6(unsigned char a1, unsigned char a2) { a1 <<= (!((_Bool)a2)); u8 *p3 = (u8 *)((a1 & a2)); if ((9uLL >= (a2 + 9uLL)) != (a1 - a1 < (a1))) { unsigned v4 = p3[1]; while (p3 == 0) { return 1; } } else { unsigned v5 = (+(a2 >> a1)); a1 = ((+a1) >= (5UL && 2147483647)); } return ++a2; }",
        &[147, 32, 100],
        "false 33 at 109 or false, true 40 at 134 or true, true 42 at 108, enter 55 at 151, null 46 at 167, true 50 at 181, enter 53 at 190",
    ),
    (
        "static int f5(_Bool a1) { if ((abs((a1 ? a1 : a1)) && a1)) { if (4 != 7) if ((a1 && a1) != (a1 % 33)) { a1 %= ((a1 < 2147483648) & (a1 + a1)); a1 >>= ((a1 ? a1 : a1) | gc(a1++)); return (a1 / a1); } } else a1 %= a1; struct S *p2 = (struct S *)a1; struct S *p3 = (a1 ? p2 : (void *)0); return ((a1 << a1) <= (a1 ? a1 : a1)); }",
        &[1, 33],
        "true 6 at 37, enter 7 at 42, true 11 at 32, enter 12 at 55, true 13 at 32, enter 62 at 60, true 17 at 66, enter 60 at 74, true 18 at 79, enter 19 at 85, false 26 at 78, true 75 at 264, enter 76 at 269, true 88 at 309, enter 89 at 314, false 93 at 294",
    ),
    (
        "static int f0(unsigned char a1) { { int v2 = 8 % (a1 * a1); if ((a1 * a1) <= 0) { char v3 = a1; } } a1 /= 33; a1 &= ((a1 > a1) ? (5UL & a1) : (a1 / a1)); unsigned v4 = ((0 + a1) ? (a1 ^ a1) : (+(sizeof(struct S)))); return (v4 / (!0)); }",
        &[0],
        "zero 11 at 46, true 18 at 65, enter 22 at 81, false 32 at 119, enter 41 at 143, zero 40 at 144, false 49 at 171, enter 60 at 193",
    ),
    (
        "int f1(char a1) { u8 *p2 = (u8 *)a1; return (p2 - (p2 - a1)); do { u8 *p3 = p2; int v4 = a1; signed char v5 = ((sizeof(struct S) || 4) == ((char)v4)); } while (a1 > (2147483647 / a1)); return ((31 || a1) * (a1 & a1)); }",
        &[-128],
        "pointer 14 at 52",
    ),
    (
        "int f6(signed char a1, char a2) { unsigned char w3; { if (abs((7 >= w3)) != 5) switch (w3) { case GREEN: break; } gv(((a2 >= 0))); } return (((u8)a2) + (a1 <= 255)); }",
        &[1, 33, 5],
        "true 13 at 64, true 17 at 59, enter 22 at 80, enter 21 at 94, true 27 at 120, true 40 at 154",
    ),
    (
        "inline int f1(void) { u8 w1; unsigned v2 = (w1 - (w1 << w1) > w1); { if ((((int)v2) % v2, 1) || v2) { if (w1) { int v4 = '\\x41' << (w1 - 100); if ((w1 - 100) == 64) die(((BLUE < v2))); } { { v2 &= (64 + (v2 > w1)); (void)((0 + 0)); } } } } short v5 = v2; v2 <<= (((v2 - 2L) != v2) && GREEN); return ((v5 >> RED) + v5 > (v5)); }",
        &[64],
        "shift 8 at 51, false 12 at 45 or false, zero 21 at 75, true 23 at 75, true 26 at 74, enter 74 at 101, true 27 at 107, enter 51 at 111, shift 34 at 122, false 41 at 148, false 57 at 205, true 86 at 265 or true, enter 88 at 285, false 101 at 301 or false",
    ),
    (
        "inline int f1(void) { u8 w1; unsigned v2 = (w1 - (w1 << w1) > w1); { if ((((int)v2) % v2, 1) || v2) { if (w1) { int v4 = '\\x41' << (w1 - 100); if ((w1 - 100) == 64) die(((BLUE < v2))); } { { v2 &= (64 + (v2 > w1)); (void)((0 + 0)); } } } } short v5 = v2; v2 <<= (((v2 - 2L) != v2) && GREEN); return ((v5 >> RED) + v5 > (v5)); }",
        &[31],
        "overflow 10 at 45, false 12 at 45 or true, zero 21 at 75, true 23 at 75, true 26 at 74, enter 74 at 101, true 27 at 107, enter 51 at 111, shift 34 at 122, false 41 at 148, false 57 at 205, true 86 at 265 or true, enter 88 at 285, false 101 at 301 or false",
    ),
    (
        "static int f5(u8 a1) { while (((4 / 127) / (RED == a1))) a1 /= a1; if ((a1 ? (a1 != 0) : abs((a1 != a1)))) { if (((!a1) <= 7ll)) { gv(((a1 < 2147483648))); } unsigned char w2; } else ; return ((a1 *= sizeof(struct S)) / (a1 * a1)); }",
        &[127, 64, 64],
        "false 11 at 45, zero 13 at 32, false 13 at 32, true 20 at 73, enter 24 at 78, true 23 at 79, true 31 at 73, enter 51 at 108, true 37 at 115, enter 47 at 130, true 42 at 137, zero 64 at 194",
    ),
    (
        "static int f2(char a1) { { if (((a1 / 5) * 16777216, 1) && (a1 / 5) > 100) { for (; a1; ) { (void)((100 & RED)); continue; } } } { unsigned char v4 = ((a1 *= a1) / a1--); } _Bool w5; return 4294967295; }",
        &[64, 1],
        "true 12 at 33, enter 19 at 60, false 19 at 60, false 20 at 32, zero 44 at 152",
    ),
    (
        "static int f1(unsigned char a1) { if ((a1 % a1) < (1000 > '\\377')) switch (a1) { case 0: gv(((-a1))); break; } int v2 = a1; if ((v2 | a1) || (9223372036854775807 % '\\x41')) if (((v2 == v2) - v2)) { if (a1) v2 &= v2; unsigned char v3 = 128; } else v2 += (a1 >> (v2 && 1000)); return (127 == 127 + (v2 - 100)); }",
        &[0],
        "zero 7 at 40, true 11 at 52, true 13 at 39, enter 25 at 68, enter 24 at 82, false 32 at 130, enter 37 at 142, true 38 at 129, enter 66 at 174, true 41 at 180, true 44 at 179, enter 55 at 197, false 46 at 203, false 75 at 284 or false",
    ),
    (
        "static int f1(unsigned char a1) { if ((a1 % a1) < (1000 > '\\377')) switch (a1) { case 0: gv(((-a1))); break; } int v2 = a1; if ((v2 | a1) || (9223372036854775807 % '\\x41')) if (((v2 == v2) - v2)) { if (a1) v2 &= v2; unsigned char v3 = 128; } else v2 += (a1 >> (v2 && 1000)); return (127 == 127 + (v2 - 100)); }",
        &[255],
        "true 11 at 52, true 13 at 39, enter 25 at 68, true 32 at 130, true 38 at 129, enter 66 at 174, true 41 at 180, true 44 at 179, enter 55 at 197, true 46 at 203, enter 50 at 207, false 75 at 284 or false",
    ),
    (
        "inline int f3(u8 a1) { switch ('\\x41') { case 0: a1 |= a1; } return (GREEN != a1); a1 >>= ((enum color)(2147483648 ^ a1)); int v2 = (0x80000000 ? ((u8)a1) : 256); return ((256 + v2) <= v2); }",
        &[255],
        "true 15 at 70",
    ),
    (
        "int f0(signed char a1, _Bool a2) { do { u8 v3 = a2; } while (((int)256) >= a1); signed char v4 = ((enum color)a2); char w5; return 200; }",
        &[5, 1, 0],
        "enter 11 at 39, true 18 at 62",
    ),
    (
        "int f2(char a1) { u8 v2 = ((a1 + 1) || (a1, a1)); if (31 >= (0 ^ 127)) if ((a1 | 1) == (a1 || a1)) { { v2 <<= ((v2 + (-1u)) >= (v2)); a1 = a1; u8 *p3 = (u8 *)(a1); } } else while ('\\n' < a1) { break; continue; (void)((a1 ? a1 : 7)); } int v4 = ((v2 >> a1) ? (a1 + v2 != a1) : (v2 != 2)); return (((unsigned)('\\x41')) & a1); }",
        &[-1],
        "false 8 at 29, enter 13 at 40, false 22 at 55, shift 80 at 247, false 80 at 247, enter 91 at 277, true 90 at 278",
    ),
];

/// Runs that are told in plain words beside the definitions.
pub(crate) static WORKED: [Run; 7] = [
    (
        "int f(unsigned char x) { int y = 10 / x; if (x == 0) return 1; return y; }",
        &[0],
        "zero 8 at 34, true 12 at 46, enter 14 at 54",
    ),
    (
        "int f(unsigned char x) { int y = 10 / x; if (x == 0) return 1; return y; }",
        &[1],
        "false 12 at 46",
    ),
    (
        "int f(int k) { int g = 1 << k; if (g == 0) return 1; return g; }",
        &[31],
        "false 12 at 36",
    ),
    (
        "int t[4]; int f(int i) { int v = t[i]; if (i >= 4) return -1; return v; }",
        &[4, 1, 7],
        "bounds 8 at 34, true 12 at 44, enter 15 at 52",
    ),
    (
        "int f(int n) { int i; for (i = 0; i < n; i++) if (i < 0) return 1; return 0; }",
        &[3, 0, 0],
        "true 12 at 35, enter 20 at 47, false 17 at 51",
    ),
    (
        "struct sock; struct tun { int flags; struct sock *sk; }; int poll(struct tun *tun) { struct sock *sk = tun->sk; if (!tun) return 1; return sk != 0; }",
        &[0, 5],
        "null 7 at 104, true 10 at 117, enter 12 at 123",
    ),
    (
        "struct sock; struct tun { int flags; struct sock *sk; }; int poll(struct tun *tun) { struct sock *sk = tun->sk; if (!tun) return 1; return sk != 0; }",
        &[8, 5],
        "false 10 at 117, true 16 at 140",
    ),
];
