//! Functions over memory: loads, stores, kept objects, loops, library calls, strings and members.

use crate::rows::Row;

/// What is declared before each function.
pub(crate) static FIRST: &str =
    "typedef unsigned char u8; struct in { u8 lo; signed char hi; }; struct S { unsigned char c; _Bool b; struct in in; int arr[3]; struct S *next; long n; }; extern int g(int *); extern void h(void); extern int abs(int); extern long labs(long); extern void *memcpy(void *, const void *, unsigned long); extern void die(void) __attribute__((noreturn)); int count; unsigned long total; struct S one; int table[4]; extern int open[]; static u8 flag; struct S *list; _Bool ready;";

/// Functions.
pub(crate) static MEMORY: [Row; 38] = [
    (
        "int m1(int k) { int x = k; int *p = &x; int y = 10 / x; if (x == 0) return *p; return y; }",
        "86016 90112 128 64 1, 0 98304 0 -2 0",
    ),
    (
        "int m2(int k) { int x = k; int y = 10 / x; g(&x); if (x == 0) return 1; return y; }",
        "100 32768 100 57 2147483647, 2147483646 57344 64 53249 0, 0 36864 36864 -2 127, 0 32768 255 8 0",
    ),
    (
        "int m3(void) { count = count + 1; if (count < 0) return 1; return count; }",
        "126976 2 1 131072, 135168 -2147483647 1 2147483646, 53248 2147483647 100 2147483647",
    ),
    (
        "int m4(int i) { count = i; total = 3; if (count == i) return table[i]; return open[i]; }",
        "64 176128 180224 107 188416 2147483647 196608 255, 2 114688 118784 33 126976 114688 135168 1",
    ),
    (
        "int m5(struct S *s) { s->c = 1; if (s->c) return s->in.hi; return s->arr[2]; }",
        "127 255 33 64, 0 3 -1 33, 127 0 126 63, 0 0 33 127",
    ),
    (
        "int m6(int i) { one.c = i; if (one.c == (u8) i) return one.arr[i]; return one.in.lo; }",
        "0 167936 1 127 7, -2147483647 184320 1 100 1, 0 94208 0 2 128",
    ),
    (
        "int m7(int k) { int a[3] = { k, k + 1, 10 / k }; count = 1; return a[k] + count; }",
        "1 69632 73728 -2 5, 63 61440 65536 1 64, 0 131072 135168 31 -2147483647, 7 196608 200704 2147483647 63",
    ),
    (
        "int m8(int k) { count = k; int a[2]; a[0] = count; if (count == k) return a[0]; return 0; }",
        "100 114688 118784 -2147483648 64 0, 63 65536 69632 5 63 146",
    ),
    (
        "int m9(u8 k) { flag = k; flag += 250; flag++; --flag; if (flag > k) return flag; return ready = k; }",
        "7 151552 8 33 64 255 128 176128, 0 122880 255 64 0 255 1 147456",
    ),
    (
        "int m10(int n) { int s; int *p = &s; s = 0; for (int i = 0; i < n; i++) { s += i; if (s < 0) return *p; } return s; }",
        "-1 163840 3 0 8 0 2147483647, 2147483646 98304 31 100 5 -1 2147483646, 2147483646 45056 -2147483647 45056 32 32 5, 255 167936 2147483647 0 31 64 100",
    ),
    (
        "int m11(int n) { count = 5; while (n) { count = 6; n = 0; } if (count == 5) return 1; return count; }",
        "-1 143360 100 1143108037 139265, 33 114688 0 0 0",
    ),
    (
        "int m12(int n) { count = 5; total = 6; do { h(); n--; } while (n > 0); if (count == 5) return 1; return total == 6; }",
        "8 172032 176128 270 167937 1, 5 102400 98304 -2 128 0, 90113 94208 98304 -2147483648 90 2, 2 200704 204800 1 5 63",
    ),
    (
        "int m13(int n) { count = 5; for (; n; n--) abs(n); if (count == 5) return 1; return labs(n); }",
        "-1 167936 32 100, 5 147456 0 147456, 1 102400 -2147483648 2",
    ),
    (
        "int m14(char *d, char *s, unsigned long n) { memcpy(d, s, n); if (d == s && n) return 1; return 0; }",
        "12288 31 32, 0 64 143361, 0 0 1, 0 0 0",
    ),
    (
        "int m15(int n) { count = n; memcpy(&count, &n, sizeof n); if (count == n) return 1; return 0; }",
        "167936 172032 2 2147483646 167936, 33 147456 64 5 5",
    ),
    (
        "char *m16(int i) { char *s = \"abc\"; return s + i > s ? s : \"abc\"; }",
        "-2147483647 98304 102400, -1 155648 100, 100 192512 196608",
    ),
    (
        "int m17(int i) { char s[] = \"abc\"; count = 1; return s[i] == \"xy\"[i] && count; }",
        "0 3 7 131072 -2 139264 0 3, -2 28672 32768 36864 8 45056 5 94, 2147483646 16384 8 24576 2 32768 2 8, 3 135168 139264 143360 -1 151552 -127 -1",
    ),
    (
        "int m18(struct S *a, struct S *b) { if (a->next && a->next->next == b) return a - b; return &a->arr[1] - &b->arr[2]; }",
        "1 128 12288 33 16384, 0 3 0 18446744073709551615 1, 135168 2 8 0 8, 255 0 0 8916299541106508157 0",
    ),
    (
        "int m19(int i) { int *p = table + i; return p >= table && p < table + 4 ? *p : p[-1]; }",
        "3 110592 856760201 128, 31 12288 33 100, -932388961 102400 638785076 98305, -2 106496 -2 31",
    ),
    (
        "int m20(int *p) { *p = 1; *p += *p / (*p - 1); (*p)++; return p[count] + -*p; }",
        "3 5 284 2147483646 -2147483647 106496 2 100 2147483646, 0 8 1 0 0 139264 31 32 118784, 18446744073709551615 106496 32 5 33 126976 63 -2147483647 3, 18446744073709551614 2 -1 49 63 188416 128 167936 3",
    ),
    (
        "int m21(int x) { static int last; int y = last; last = x; if (last == x) return y; return last; }",
        "-2147483648 172032 2147483646 0 127",
    ),
    (
        "int m22(int x) { int u; int *p = &u; if (x) u = 3; return u + *p; }",
        "194 53248 255 32, -1 159744 159744 2147483646, 0 102400 98305 98305",
    ),
    (
        "int m23(int x) { u8 w; _Bool b; w = x; b = x; if (b) w <<= x; return w + b; }",
        "31 66 1, 2147483646 1 0, 0 0 1",
    ),
    ("int m24(void) { die(); return count; }", "180224 0"),
    (
        "int m25(int x) { if (x) die(); else count = 3; return count; }",
        "127 204800 1, 0 81920 0",
    ),
    (
        "int m26(unsigned i) { return (&table[1])[i] + table[i] + *(table + i) + *&table[i]; }",
        "64 57344 8 2147483646 -1 57344, 1 167936 0 1 72 -2147483648, 128 12288 5 -1 -2147483648 -191416017, 255 167936 127 1 163840 7",
    ),
    (
        "int m27(struct S *s, int i) { struct S *t = &s[i]; s[i].arr[i] = i; t->in.lo = i; return t->b + s->b; }",
        "0 16385 1 1, 296 64 1 1, 8 -2 1 1, 5 2 1 1",
    ),
    (
        "int m28(int x) { return (one.n = x, &one)->n == x; }",
        "7 110592 0, 32 20480 32",
    ),
    (
        "int m29(int x, int y) { int *p = x ? &x : &y; *p = 4; if (x == 4) return y; return *p; }",
        "147456 151552 147457 5 1706328207 5, 102400 106496 0 128 0 128",
    ),
    (
        "long m30(long *p, long *q) { long d = p - q; return d < 0 ? labs(d) : d; }",
        "18446744073709551615 1, 0 100",
    ),
    (
        "int m31(int x) { switch (count = x) { case 1: count = 2; case 3: return count; default: count = 9; break; case 4: ; } return count; }",
        "32 143360 33 1, 1 98304 64 33, 3 255 100 -1",
    ),
    (
        "int m32(int x) { { int z = x; int *q = &z; g(q); { int z = 2; count = z; } if (z == x) return 1; } return count; }",
        "100 131072 64 139264 0 128, -2 255 2147483646 155648 -2 0",
    ),
    (
        "int m33(unsigned char c) { _Bool t = c; t++; t += c; t--; return t ? ~t : !c; }",
        "3",
    ),
    (
        "int m34(int x) { return x > 0 ? (count = 1) : (count = 2), count; }",
        "159744 159744 -2, 0 122880 3",
    ),
    (
        "int m35(int x) { return x && (count = x) && count == x || !count; }",
        "128 100 127 127, 0 139264 -2 5",
    ),
    (
        "int m36(void *p, char *q) { return p == q || (char *) p + 1 > q || (p ? p : 0) == (void *) 0; }",
        "7 63, 0 53249, 128 0, 128 128",
    ),
    (
        "int m37(int x) { int *p = (int *) (long) x; return p == 0 || *p; }",
        "2147483646 64, 0 -394577232",
    ),
    (
        "int m38(signed char c, unsigned short s, long l) { return c * s + (c << 3) + (s >> c) + (l / c) + (l % s) + (unsigned) c + -s; }",
        "127 5 255, 1 65534 5, 0 0 1, 0 65535 7",
    ),
];
