//! Functions whose conditions and candidates are told in plain words beside the definitions, each with the column of
//! its node.

/// A function, its conditions and its candidates.
pub(crate) static WORKED: [(&str, &str, &str); 17] = [
    (
        "int f(unsigned char x) { int y = 10 / x; if (x == 0) return 1; return y; }",
        "overflow 34, zero 34",
        "true 46, false 46, enter 54",
    ),
    (
        "int f(unsigned char x, unsigned char y) { int a = 1 / x; int b = 1 / y; if (x * y == 0) return 1; return a + b; }",
        "overflow 51, zero 51, overflow 66, zero 66, overflow 77, overflow 106",
        "true 77, false 77, enter 89",
    ),
    (
        "int f(unsigned char x) { int a = 1 / x; int b = 1 / x; if (x == 0) return 1; return a + b; }",
        "overflow 34, zero 34, overflow 49, zero 49, overflow 85",
        "true 60, false 60, enter 68",
    ),
    (
        "int f(int x) { if (x + 100 < x) return 1; return 0; }",
        "overflow 20",
        "true 20, false 20, same 20 as 100 < 0, enter 33",
    ),
    (
        "int f(unsigned x) { if (x + 100 < x) return 1; return 0; }",
        "",
        "true 25, false 25, same 25 as 100 < 0, enter 38",
    ),
    (
        "int f(char *buf, unsigned len) { if (buf + len < buf) return 1; return 0; }",
        "pointer 38",
        "true 38, false 38, same 38 as len < 0, enter 55",
    ),
    (
        "int f(int *p) { if (!p) return 1; return *p; }",
        "null 42",
        "true 21, false 21, enter 25",
    ),
    (
        "int f(int k) { int g = 1 << k; if (g == 0) return 1; return g; }",
        "shift 24",
        "true 36, false 36, enter 44",
    ),
    (
        "int f(int x, int y) { int r = x % y; if (y == -1 && x == -2147483647 - 1) return 1; return r; }",
        "overflow 31, zero 31, overflow 47, overflow 58, overflow 58",
        "true 42, false 42, enter 53, true 53, false 53, true 42, false 42, enter 75",
    ),
    (
        "int f(int n) { int i; for (i = 0; i < n; i++) if (i < 0) return 1; return 0; }",
        "overflow 42",
        "true 35, false 35, true 51, false 51, enter 58, enter 47",
    ),
    (
        "int t[4]; int f(int i) { int v = t[i]; if (i >= 4) return -1; return v; }",
        "bounds 34, overflow 59",
        "true 44, false 44, enter 52",
    ),
    (
        "int f(int x) { if (x != x) return 1; return 0; }",
        "",
        "true 20, false 20, enter 28",
    ),
    (
        "extern int abs(int __x); int f(int x) { if (abs(x) < 0) return 1; return 0; }",
        "absolute 45",
        "true 45, false 45, enter 57",
    ),
    (
        "int f(unsigned char a, unsigned char b) { if (a + b < 0) return 1; return 0; }",
        "overflow 47",
        "true 47, false 47, enter 58",
    ),
    (
        "int f(unsigned long x, unsigned long y) { if ((x + y) * (x - y) != x * x - y * y) return 1; return 0; }",
        "",
        "true 47, false 47, enter 83",
    ),
    (
        "int f0(int n) { int i; for (i = 0; i < n; i++) if (i == 25) return 1; return 0; }",
        "overflow 43",
        "true 36, false 36, true 52, false 52, enter 61, enter 48",
    ),
    (
        "struct sock; struct tun { int flags; struct sock *sk; }; int poll(struct tun *tun) { struct sock *sk = tun->sk; if (!tun) return 1; return sk != 0; }",
        "null 104",
        "true 117, false 117, enter 123, true 140, false 140",
    ),
];
