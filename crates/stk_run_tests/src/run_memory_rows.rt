//! Runs over memory: loads, stores, kept numbers, calls, strings and members.

use crate::run_rows::Run;

/// What is declared before each function.
pub(crate) static FIRST: &str =
    "typedef unsigned char u8; struct in { u8 lo; signed char hi; }; struct S { unsigned char c; _Bool b; struct in in; int arr[3]; struct S *next; long n; }; extern int g(int *); extern void h(void); extern int abs(int); extern long labs(long); extern void *memcpy(void *, const void *, unsigned long); extern void die(void) __attribute__((noreturn)); int count; unsigned long total; struct S one; int table[4]; extern int open[]; static u8 flag; struct S *list; _Bool ready;";

/// Kept numbers and what removes them.
pub(crate) static KEPT: [Run; 19] = [
    (
        "int m1(int k) { int x = k; int *p = &x; int y = 10 / x; if (x == 0) return *p; return y; }",
        &[0, 98304, 0, -2, 0],
        "zero 15 at 49, true 19 at 61, enter 22 at 69",
    ),
    (
        "int m1(int k) { int x = k; int *p = &x; int y = 10 / x; if (x == 0) return *p; return y; }",
        &[86016, 90112, 128, 64, 1],
        "false 19 at 61",
    ),
    (
        "int m2(int k) { int x = k; int y = 10 / x; g(&x); if (x == 0) return 1; return y; }",
        &[0, 32768, 255, 8, 0],
        "zero 11 at 36, true 20 at 55, enter 22 at 63",
    ),
    (
        "int m2(int k) { int x = k; int y = 10 / x; g(&x); if (x == 0) return 1; return y; }",
        &[2147483646, 57344, 64, 53249, 0],
        "true 20 at 55, enter 22 at 63",
    ),
    (
        "int m3(void) { count = count + 1; if (count < 0) return 1; return count; }",
        &[53248, 2147483647, 100, 2147483647],
        "overflow 5 at 24, true 10 at 39, enter 12 at 50",
    ),
    (
        "int m3(void) { count = count + 1; if (count < 0) return 1; return count; }",
        &[135168, -2147483647, 1, 2147483646],
        "true 10 at 39, enter 12 at 50",
    ),
    (
        "int m4(int i) { count = i; total = 3; if (count == i) return table[i]; return open[i]; }",
        &[64, 176128, 180224, 107, 188416, 2147483647, 196608, 255],
        "true 15 at 43, enter 19 at 55, bounds 18 at 62",
    ),
    (
        "int m5(struct S *s) { s->c = 1; if (s->c) return s->in.hi; return s->arr[2]; }",
        &[0, 3, -1, 33],
        "null 6 at 23, null 11 at 37, true 11 at 37, enter 15 at 43, null 13 at 50",
    ),
    (
        "int m6(int i) { one.c = i; if (one.c == (u8) i) return one.arr[i]; return one.in.lo; }",
        &[-2147483647, 184320, 1, 100, 1],
        "true 16 at 32, enter 21 at 49, bounds 20 at 56",
    ),
    (
        "int m7(int k) { int a[3] = { k, k + 1, 10 / k }; count = 1; return a[k] + count; }",
        &[7, 196608, 200704, 2147483647, 63],
        "bounds 21 at 68, overflow 23 at 68",
    ),
    (
        "int m8(int k) { count = k; int a[2]; a[0] = count; if (count == k) return a[0]; return 0; }",
        &[63, 65536, 69632, 5, 63, 146],
        "true 20 at 56, enter 24 at 68",
    ),
    (
        "int m9(u8 k) { flag = k; flag += 250; flag++; --flag; if (flag > k) return flag; return ready = k; }",
        &[0, 122880, 255, 64, 0, 255, 1, 147456],
        "true 21 at 59, enter 23 at 69",
    ),
    (
        "int m9(u8 k) { flag = k; flag += 250; flag++; --flag; if (flag > k) return flag; return ready = k; }",
        &[7, 151552, 8, 33, 64, 255, 128, 176128],
        "false 21 at 59",
    ),
    (
        "int m10(int n) { int s; int *p = &s; s = 0; for (int i = 0; i < n; i++) { s += i; if (s < 0) return *p; } return s; }",
        &[255, 167936, 2147483647, 0, 31, 64, 100],
        "true 20 at 61, enter 34 at 73, overflow 25 at 75, true 29 at 87, enter 32 at 94",
    ),
    (
        "int m10(int n) { int s; int *p = &s; s = 0; for (int i = 0; i < n; i++) { s += i; if (s < 0) return *p; } return s; }",
        &[2147483646, 45056, -2147483647, 45056, 32, 32, 5],
        "true 20 at 61, enter 34 at 73, true 29 at 87, enter 32 at 94",
    ),
    (
        "int m11(int n) { count = 5; while (n) { count = 6; n = 0; } if (count == 5) return 1; return count; }",
        &[-1, 143360, 100, 1143108037, 139265],
        "true 9 at 36, enter 18 at 39",
    ),
    (
        "int m12(int n) { count = 5; total = 6; do { h(); n--; } while (n > 0); if (count == 5) return 1; return total == 6; }",
        &[5, 102400, 98304, -2, 128, 0],
        "enter 19 at 43, false 22 at 64, false 26 at 76, false 32 at 105",
    ),
    (
        "int m12(int n) { count = 5; total = 6; do { h(); n--; } while (n > 0); if (count == 5) return 1; return total == 6; }",
        &[2, 200704, 204800, 1, 5, 63],
        "enter 19 at 43, false 22 at 64, true 26 at 76, enter 28 at 88",
    ),
    (
        "int m13(int n) { count = 5; for (; n; n--) abs(n); if (count == 5) return 1; return labs(n); }",
        &[1, 102400, -2147483648, 2],
        "true 9 at 36, enter 15 at 44, absolute 14 at 44, overflow 11 at 39",
    ),
];

/// Pointers, strings and members.
pub(crate) static POINTERS: [Run; 18] = [
    (
        "int m14(char *d, char *s, unsigned long n) { memcpy(d, s, n); if (d == s && n) return 1; return 0; }",
        &[0, 0, 1],
        "overlap 15 at 46, true 19 at 67, enter 20 at 77, true 21 at 67, enter 23 at 80",
    ),
    (
        "int m15(int n) { count = n; memcpy(&count, &n, sizeof n); if (count == n) return 1; return 0; }",
        &[33, 147456, 64, 5, 5],
        "true 20 at 63, enter 22 at 75",
    ),
    (
        "char *m16(int i) { char *s = \"abc\"; return s + i > s ? s : \"abc\"; }",
        &[-2147483647, 98304, 102400],
        "pointer 10 at 44, true 12 at 44 or false, enter 13 at 56",
    ),
    (
        "char *m16(int i) { char *s = \"abc\"; return s + i > s ? s : \"abc\"; }",
        &[-1, 155648, 100],
        "false 12 at 44 or false, enter 14 at 60",
    ),
    (
        "int m17(int i) { char s[] = \"abc\"; count = 1; return s[i] == \"xy\"[i] && count; }",
        &[2147483646, 16384, 8, 24576, 2, 32768, 2, 8],
        "bounds 14 at 54, bounds 17 at 62, true 18 at 54, enter 19 at 73",
    ),
    (
        "int m18(struct S *a, struct S *b) { if (a->next && a->next->next == b) return a - b; return &a->arr[1] - &b->arr[2]; }",
        &[135168, 2, 8, 0, 8],
        "true 9 at 41, enter 14 at 52, null 12 at 52, false 14 at 52, false 15 at 41",
    ),
    (
        "int m18(struct S *a, struct S *b) { if (a->next && a->next->next == b) return a - b; return &a->arr[1] - &b->arr[2]; }",
        &[1, 128, 12288, 33, 16384],
        "true 9 at 41, enter 14 at 52, false 14 at 52, false 15 at 41",
    ),
    (
        "int m19(int i) { int *p = table + i; return p >= table && p < table + 4 ? *p : p[-1]; }",
        &[-932388961, 102400, 638785076, 98305],
        "pointer 8 at 27, true 12 at 45, enter 17 at 59, false 17 at 59, false 18 at 45, enter 24 at 80",
    ),
    (
        "int m19(int i) { int *p = table + i; return p >= table && p < table + 4 ? *p : p[-1]; }",
        &[3, 110592, 856760201, 128],
        "true 12 at 45, enter 17 at 59, true 17 at 59, true 18 at 45, enter 20 at 75",
    ),
    (
        "int m20(int *p) { *p = 1; *p += *p / (*p - 1); (*p)++; return p[count] + -*p; }",
        &[0, 8, 1, 0, 0, 139264, 31, 32, 118784],
        "null 6 at 19, null 13 at 33, null 15 at 39, null 11 at 27, null 23 at 49, null 29 at 63, null 31 at 75",
    ),
    (
        "int m21(int x) { static int last; int y = last; last = x; if (last == x) return y; return last; }",
        &[-2147483648, 172032, 2147483646, 0, 127],
        "true 16 at 63, enter 18 at 74",
    ),
    (
        "int m22(int x) { int u; int *p = &u; if (x) u = 3; return u + *p; }",
        &[-1, 159744, 159744, 2147483646],
        "true 11 at 42, enter 15 at 45, overflow 20 at 59",
    ),
    (
        "int m23(int x) { u8 w; _Bool b; w = x; b = x; if (b) w <<= x; return w + b; }",
        &[2147483646, 1, 0],
        "true 17 at 51, enter 21 at 54, shift 20 at 54",
    ),
    (
        "int m23(int x) { u8 w; _Bool b; w = x; b = x; if (b) w <<= x; return w + b; }",
        &[31, 66, 1],
        "true 17 at 51, enter 21 at 54",
    ),
    ("int m24(void) { die(); return count; }", &[180224, 0], ""),
    (
        "int m25(int x) { if (x) die(); else count = 3; return count; }",
        &[127, 204800, 1],
        "true 5 at 22, enter 8 at 25",
    ),
    (
        "int m25(int x) { if (x) die(); else count = 3; return count; }",
        &[0, 81920, 0],
        "false 5 at 22, enter 12 at 37",
    ),
    (
        "int m26(unsigned i) { return (&table[1])[i] + table[i] + *(table + i) + *&table[i]; }",
        &[64, 57344, 8, 2147483646, -1, 57344],
        "bounds 14 at 47, overflow 15 at 30",
    ),
];

/// Stores, tests and calls.
pub(crate) static STORES: [Run; 14] = [
    (
        "int m27(struct S *s, int i) { struct S *t = &s[i]; s[i].arr[i] = i; t->in.lo = i; return t->b + s->b; }",
        &[0, 16385, 1, 1],
        "null 16 at 52, bounds 19 at 52, null 32 at 97",
    ),
    (
        "int m28(int x) { return (one.n = x, &one)->n == x; }",
        &[7, 110592, 0],
        "false 15 at 25",
    ),
    (
        "int m29(int x, int y) { int *p = x ? &x : &y; *p = 4; if (x == 4) return y; return *p; }",
        &[147456, 151552, 147457, 5, 1706328207, 5],
        "true 9 at 34, enter 11 at 38, false 23 at 59",
    ),
    (
        "long m30(long *p, long *q) { long d = p - q; return d < 0 ? labs(d) : d; }",
        &[18446744073709551615, 1],
        "false 15 at 53, enter 19 at 71",
    ),
    (
        "int m31(int x) { switch (count = x) { case 1: count = 2; case 3: return count; default: count = 9; break; case 4: ; } return count; }",
        &[1, 98304, 64, 33],
        "enter 13 at 39, enter 17 at 58",
    ),
    (
        "int m31(int x) { switch (count = x) { case 1: count = 2; case 3: return count; default: count = 9; break; case 4: ; } return count; }",
        &[32, 143360, 33, 1],
        "enter 23 at 80",
    ),
    (
        "int m32(int x) { { int z = x; int *q = &z; g(q); { int z = 2; count = z; } if (z == x) return 1; } return count; }",
        &[-2, 255, 2147483646, 155648, -2, 0],
        "true 26 at 80, enter 28 at 88",
    ),
    (
        "int m33(unsigned char c) { _Bool t = c; t++; t += c; t--; return t ? ~t : !c; }",
        &[3],
        "false 18 at 66, enter 22 at 75",
    ),
    (
        "int m34(int x) { return x > 0 ? (count = 1) : (count = 2), count; }",
        &[159744, 159744, -2],
        "true 7 at 25, enter 11 at 33",
    ),
    (
        "int m35(int x) { return x && (count = x) && count == x || !count; }",
        &[128, 100, 127, 127],
        "true 5 at 25, enter 9 at 30, true 10 at 25, enter 13 at 45, true 13 at 45, true 14 at 25",
    ),
    (
        "int m36(void *p, char *q) { return p == q || (char *) p + 1 > q || (p ? p : 0) == (void *) 0; }",
        &[7, 63],
        "false 10 at 36, enter 18 at 46, false 18 at 46, false 19 at 36, enter 29 at 68, true 20 at 69, enter 21 at 73, false 29 at 68",
    ),
    (
        "int m36(void *p, char *q) { return p == q || (char *) p + 1 > q || (p ? p : 0) == (void *) 0; }",
        &[0, 53249],
        "false 10 at 36, enter 18 at 46, false 18 at 46, false 19 at 36, enter 29 at 68, false 20 at 69, enter 22 at 77, true 29 at 68",
    ),
    (
        "int m37(int x) { int *p = (int *) (long) x; return p == 0 || *p; }",
        &[2147483646, 64],
        "false 16 at 52, enter 18 at 62",
    ),
    (
        "int m38(signed char c, unsigned short s, long l) { return c * s + (c << 3) + (s >> c) + (l / c) + (l % s) + (unsigned) c + -s; }",
        &[0, 0, 1],
        "zero 26 at 90, zero 31 at 100",
    ),
];
