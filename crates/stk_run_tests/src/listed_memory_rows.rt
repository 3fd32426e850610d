//! Functions over memory: loads, stores, kept objects, calls, strings and members.

use crate::listed_rows::Listed;

/// What is declared before each function.
pub(crate) static FIRST: &str =
    "typedef unsigned char u8; struct in { u8 lo; signed char hi; }; struct S { unsigned char c; _Bool b; struct in in; int arr[3]; struct S *next; long n; }; extern int g(int *); extern void h(void); extern int abs(int); extern long labs(long); extern void *memcpy(void *, const void *, unsigned long); extern void die(void) __attribute__((noreturn)); int count; unsigned long total; struct S one; int table[4]; extern int open[]; static u8 flag; struct S *list; _Bool ready;";

/// Kept objects and what removes their numbers.
pub(crate) static KEPT: [Listed; 13] = [
    (
        "int m1(int k) { int x = k; int *p = &x; int y = 10 / x; if (x == 0) return *p; return y; }",
        "28 nodes, 192 bits, 49664",
        "k Int, &x ULong 4 kept, load@2:54 Int, load@2:61 Int, load@2:76 Int",
        "overflow 49, zero 49, null 76",
        "true 61, false 61, enter 69",
    ),
    (
        "int m2(int k) { int x = k; int y = 10 / x; g(&x); if (x == 0) return 1; return y; }",
        "28 nodes, 192 bits, 45584",
        "k Int, &x ULong 4 kept, load@2:41 Int, call@2:44 Int, load@2:55 Int",
        "overflow 36, zero 36",
        "true 55, false 55, enter 63",
    ),
    (
        "int m3(void) { count = count + 1; if (count < 0) return 1; return count; }",
        "18 nodes, 160 bits, 12032",
        "&count ULong 4 kept, load@2:24 Int, load@2:39 Int, load@2:67 Int",
        "overflow 24",
        "true 39, false 39, enter 50",
    ),
    (
        "int m4(int i) { count = i; total = 3; if (count == i) return table[i]; return open[i]; }",
        "27 nodes, 384 bits, 29568",
        "i Int, &count ULong 4 kept, &total ULong 8 kept, load@2:43 Int, &table ULong 16, load@2:62 Int, &open ULong 1, load@2:79 Int",
        "bounds 62, pointer 79",
        "true 43, false 43, enter 55",
    ),
    (
        "int m5(struct S *s) { s->c = 1; if (s->c) return s->in.hi; return s->arr[2]; }",
        "24 nodes, 112 bits, 18688",
        "s ULong, load@2:37 UChar, load@2:50 SChar, load@2:67 Int",
        "null 23, null 37, null 50, null 67, bounds 67",
        "true 37, false 37, enter 43",
    ),
    (
        "int m6(int i) { one.c = i; if (one.c == (u8) i) return one.arr[i]; return one.in.lo; }",
        "29 nodes, 144 bits, 24192",
        "i Int, &one ULong 32, load@2:32 UChar, load@2:56 Int, load@2:75 UChar",
        "bounds 56",
        "true 32, false 32, enter 49",
    ),
    (
        "int m7(int k) { int a[3] = { k, k + 1, 10 / k }; count = 1; return a[k] + count; }",
        "27 nodes, 224 bits, 49552",
        "k Int, &a ULong 12, &count ULong 4 kept, load@2:68 Int, load@2:75 Int",
        "overflow 33, overflow 40, zero 40, bounds 68, overflow 68",
        "",
    ),
    (
        "int m8(int k) { count = k; int a[2]; a[0] = count; if (count == k) return a[0]; return 0; }",
        "30 nodes, 256 bits, 22800",
        "k Int, &count ULong 4 kept, &a ULong 8, load@2:45 Int, load@2:56 Int, load@2:75 Int",
        "bounds 38, bounds 75",
        "true 56, false 56, enter 68",
    ),
    (
        "int m9(u8 k) { flag = k; flag += 250; flag++; --flag; if (flag > k) return flag; return ready = k; }",
        "31 nodes, 176 bits, 19600",
        "k UChar, &flag ULong 1 kept, load@2:26 UChar, load@2:39 UChar, load@2:49 UChar, load@2:59 UChar, load@2:76 UChar, &ready ULong 1 kept",
        "overflow 26, overflow 39, overflow 47",
        "true 59, false 59, enter 69",
    ),
    (
        "int m10(int n) { int s; int *p = &s; s = 0; for (int i = 0; i < n; i++) { s += i; if (s < 0) return *p; } return s; }",
        "40 nodes, 256 bits, 25360",
        "n Int, &s ULong 4 kept, load@2:75 Int, load@2:87 Int, load@2:101 Int, loop@2:45.i Int, load@2:114 Int",
        "overflow 68, overflow 75, null 101",
        "true 61, false 61, true 87, false 87, enter 94, enter 73",
    ),
    (
        "int m11(int n) { count = 5; while (n) { count = 6; n = 0; } if (count == 5) return 1; return count; }",
        "30 nodes, 192 bits, 15376",
        "n Int, &count ULong 4 kept, loop@2:29.n Int, load@2:65 Int, load@2:94 Int",
        "",
        "true 36, false 36, enter 39, true 65, false 65, enter 77",
    ),
    (
        "int m12(int n) { count = 5; total = 6; do { h(); n--; } while (n > 0); if (count == 5) return 1; return total == 6; }",
        "36 nodes, 288 bits, 26432",
        "n Int, &count ULong 4 kept, &total ULong 8 kept, loop@2:40.n Int, load@2:76 Int, load@2:105 ULong",
        "overflow 50",
        "enter 43, true 64, false 64, true 76, false 76, enter 88, true 105, false 105",
    ),
    (
        "int m13(int n) { count = 5; for (; n; n--) abs(n); if (count == 5) return 1; return labs(n); }",
        "29 nodes, 160 bits, 17840",
        "n Int, &count ULong 4 kept, loop@2:29.n Int, load@2:56 Int",
        "overflow 39, absolute 44, absolute 85",
        "true 36, false 36, enter 44, true 56, false 56, enter 68",
    ),
];

/// Pointers, strings and members.
pub(crate) static POINTERS: [Listed; 13] = [
    (
        "int m14(char *d, char *s, unsigned long n) { memcpy(d, s, n); if (d == s && n) return 1; return 0; }",
        "29 nodes, 192 bits, 12928",
        "d ULong, s ULong, n ULong",
        "overlap 46",
        "true 67, false 67, enter 77, true 67, false 67, enter 80",
    ),
    (
        "int m15(int n) { count = n; memcpy(&count, &n, sizeof n); if (count == n) return 1; return 0; }",
        "28 nodes, 224 bits, 20512",
        "&n ULong 4 kept, &count ULong 4 kept, load@2:26 Int, load@2:63 Int, load@2:72 Int",
        "overlap 29",
        "true 63, false 63, enter 75",
    ),
    (
        "char *m16(int i) { char *s = \"abc\"; return s + i > s ? s : \"abc\"; }",
        "19 nodes, 160 bits, 18816",
        "i Int, string@2:30 ULong 4, string@2:60 ULong 4",
        "pointer 44",
        "true 44, false 44, same 44 as i > 0, enter 56, enter 60",
    ),
    (
        "int m17(int i) { char s[] = \"abc\"; count = 1; return s[i] == \"xy\"[i] && count; }",
        "24 nodes, 336 bits, 24080",
        "i Int, string@2:29 ULong 4, &s ULong 4, &count ULong 4 kept, load@2:54 Char, string@2:62 ULong 3, load@2:62 Char, load@2:73 Int",
        "bounds 54, bounds 62",
        "true 54, false 54, enter 73",
    ),
    (
        "int m18(struct S *a, struct S *b) { if (a->next && a->next->next == b) return a - b; return &a->arr[1] - &b->arr[2]; }",
        "35 nodes, 320 bits, 292224",
        "a ULong, b ULong, load@2:41 ULong, load@2:52 ULong, load@2:52 ULong",
        "null 41, null 52, null 52, pointer 94, pointer 107",
        "true 41, false 41, enter 52, true 52, false 52, true 41, false 41, enter 72",
    ),
    (
        "int m19(int i) { int *p = table + i; return p >= table && p < table + 4 ? *p : p[-1]; }",
        "29 nodes, 160 bits, 29312",
        "i Int, &table ULong 16, load@2:75 Int, load@2:80 Int",
        "pointer 27, pointer 63, null 75, overflow 82, null 80, pointer 80",
        "true 45, false 45, enter 59, true 59, false 59, true 45, false 45, enter 75, enter 80",
    ),
    (
        "int m20(int *p) { *p = 1; *p += *p / (*p - 1); (*p)++; return p[count] + -*p; }",
        "37 nodes, 352 bits, 65200",
        "p ULong, load@2:27 Int, load@2:33 Int, load@2:39 Int, load@2:49 Int, &count ULong 4 kept, load@2:65 Int, load@2:63 Int, load@2:75 Int",
        "null 19, null 27, null 33, null 39, overflow 39, overflow 33, zero 33, overflow 27, null 49, overflow 48, null 63, pointer 63, null 75, overflow 74, overflow 63",
        "",
    ),
    (
        "int m21(int x) { static int last; int y = last; last = x; if (last == x) return y; return last; }",
        "24 nodes, 192 bits, 12800",
        "x Int, &last ULong 4 kept, load@2:43 Int, load@2:63 Int, load@2:91 Int",
        "",
        "true 63, false 63, enter 74",
    ),
    (
        "int m22(int x) { int u; int *p = &u; if (x) u = 3; return u + *p; }",
        "24 nodes, 160 bits, 13824",
        "x Int, &u ULong 4 kept, load@2:59 Int, load@2:63 Int",
        "null 63, overflow 59",
        "true 42, false 42, enter 45",
    ),
    (
        "int m23(int x) { u8 w; _Bool b; w = x; b = x; if (b) w <<= x; return w + b; }",
        "29 nodes, 41 bits, 9632",
        "x Int, w@2:21 UChar, b@2:30 Bool",
        "shift 54, overflow 70",
        "true 51, false 51, enter 54",
    ),
    (
        "int m24(void) { die(); return count; }",
        "9 nodes, 96 bits, 4240",
        "&count ULong 4 kept, load@2:31 Int",
        "",
        "",
    ),
    (
        "int m25(int x) { if (x) die(); else count = 3; return count; }",
        "18 nodes, 128 bits, 7952",
        "x Int, &count ULong 4 kept, load@2:55 Int",
        "",
        "true 22, false 22, enter 25, enter 37",
    ),
    (
        "int m26(unsigned i) { return (&table[1])[i] + table[i] + *(table + i) + *&table[i]; }",
        "31 nodes, 224 bits, 33664",
        "i UInt, &table ULong 16, load@2:30 Int, load@2:47 Int, load@2:58 Int, load@2:73 Int",
        "pointer 32, null 30, pointer 30, bounds 47, overflow 30, pointer 60, null 58, overflow 30, pointer 75, null 73, overflow 30",
        "",
    ),
];

/// Stores, tests and calls.
pub(crate) static STORES: [Listed; 13] = [
    (
        "int m27(struct S *s, int i) { struct S *t = &s[i]; s[i].arr[i] = i; t->in.lo = i; return t->b + s->b; }",
        "37 nodes, 98 bits, 32384",
        "s ULong, i Int, load@2:90 Bool, load@2:97 Bool",
        "pointer 46, null 52, pointer 52, bounds 52, null 69, null 90, null 97, overflow 90",
        "",
    ),
    (
        "int m28(int x) { return (one.n = x, &one)->n == x; }",
        "19 nodes, 160 bits, 12672",
        "x Int, &one ULong 32, load@2:25 Long",
        "null 25",
        "true 25, false 25",
    ),
    (
        "int m29(int x, int y) { int *p = x ? &x : &y; *p = 4; if (x == 4) return y; return *p; }",
        "32 nodes, 256 bits, 24608",
        "&x ULong 4 kept, &y ULong 4 kept, load@2:34 Int, load@2:59 Int, load@2:74 Int, load@2:84 Int",
        "null 47, null 84",
        "true 34, false 34, enter 38, enter 43, true 59, false 59, enter 67",
    ),
    (
        "long m30(long *p, long *q) { long d = p - q; return d < 0 ? labs(d) : d; }",
        "24 nodes, 128 bits, 144384",
        "p ULong, q ULong",
        "absolute 61",
        "true 53, false 53, enter 61, enter 71",
    ),
    (
        "int m31(int x) { switch (count = x) { case 1: count = 2; case 3: return count; default: count = 9; break; case 4: ; } return count; }",
        "32 nodes, 160 bits, 15872",
        "x Int, &count ULong 4 kept, load@2:73 Int, load@2:126 Int",
        "",
        "enter 39, enter 58, enter 80, enter 107",
    ),
    (
        "int m32(int x) { { int z = x; int *q = &z; g(q); { int z = 2; count = z; } if (z == x) return 1; } return count; }",
        "35 nodes, 256 bits, 20896",
        "x Int, &z ULong 4 kept, call@2:44 Int, &count ULong 4 kept, load@2:80 Int, load@2:107 Int",
        "",
        "true 80, false 80, enter 88",
    ),
    (
        "int m33(unsigned char c) { _Bool t = c; t++; t += c; t--; return t ? ~t : !c; }",
        "27 nodes, 8 bits, 11904",
        "c UChar",
        "overflow 41, overflow 46, overflow 54",
        "true 66, false 66, enter 70, enter 75",
    ),
    (
        "int m34(int x) { return x > 0 ? (count = 1) : (count = 2), count; }",
        "22 nodes, 128 bits, 11008",
        "x Int, &count ULong 4 kept, load@2:60 Int",
        "",
        "true 25, false 25, enter 33, enter 47",
    ),
    (
        "int m35(int x) { return x && (count = x) && count == x || !count; }",
        "21 nodes, 160 bits, 13440",
        "x Int, &count ULong 4 kept, load@2:45 Int, load@2:60 Int",
        "",
        "true 25, false 25, enter 30, true 25, false 25, enter 45, true 45, false 45, true 25, false 25, enter 59",
    ),
    (
        "int m36(void *p, char *q) { return p == q || (char *) p + 1 > q || (p ? p : 0) == (void *) 0; }",
        "34 nodes, 128 bits, 22784",
        "p ULong, q ULong",
        "pointer 46",
        "true 36, false 36, enter 46, true 46, false 46, true 36, false 36, true 69, false 69, enter 73, enter 77, enter 68, true 68, false 68",
    ),
    (
        "int m37(int x) { int *p = (int *) (long) x; return p == 0 || *p; }",
        "23 nodes, 64 bits, 14208",
        "x Int, load@2:62 Int",
        "null 62",
        "true 52, false 52, enter 62",
    ),
    (
        "int m38(signed char c, unsigned short s, long l) { return c * s + (c << 3) + (s >> c) + (l / c) + (l % s) + (unsigned) c + -s; }",
        "45 nodes, 88 bits, 318592",
        "c SChar, s UShort, l Long",
        "overflow 59, shift 68, overflow 59, shift 79, overflow 59, overflow 90, zero 90, overflow 59, overflow 100, zero 100, overflow 59, overflow 59, overflow 124, overflow 59",
        "",
    ),
    // what isn't evaluated has no condition, no candidate and no replacement, and weighs as sums and comparisons do
    (
        "int m39(int y) { return sizeof(y + 1 < y) + sizeof abs(y) + sizeof memcpy(0, 0, 1); }",
        "27 nodes, 32 bits, 9600",
        "y Int",
        "",
        "",
    ),
];
