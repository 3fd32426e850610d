//! Whole files: functions of all forms, with loops, `switch`, calls that don't return, loads and `_Bool`. Their records
//! were computed by a program that was written apart from this one, from the definitions.

use crate::rows::{CALM, check};
use std::alloc::Global;
use std::test::Fail;
use stk_base::Status;

/// Files and their records; something is unstable in each.
static FILES: [(&str, &str); 3] = [
    (
        "typedef unsigned char u8;\nenum color { RED, GREEN = 5, BLUE = -1 };\nstruct in { u8 lo; signed char hi; };\nstruct S { unsigned char c; _Bool b; signed char sc; struct in in; u8 arr[3]; struct S *next; int n; };\nextern unsigned char gc(int);\nextern _Bool gb(u8 a, long b);\nextern void gv(u8);\nextern void die(int) __attribute__((noreturn));\nextern int abs(int); extern long labs(long); extern long long llabs(long long);\nint table[7];\ninline int f0(u8 a1) { unsigned v2 = a1; if ((v2 + a1) && (!255)) { { if ((a1 - 0)) { v2 << (v2 * v2); } else { v2 << (v2 * v2); } if ((v2 * v2) < 0) { unsigned v4 = ((a1 || v2) != (-a1)); } } if (((v2 || BLUE) || (v2 && v2))) if ((~v2) <= (v2 >> 3U)) { a1 *= v2; v2 = ((v2 % a1) & (v2 - v2)); --a1; } else { return (+1); } } _Bool v5 = ((v2 != v2) | (v2 + a1)); return --a1; }\ninline int f1(_Bool a1) { if (a1 > a1) { gv((a1)); switch (a1) { case 'a': a1 /= ((1, a1) - a1); break; } struct S *p2 = (struct S *)5; } u8 v3 = ((long)256); return a1; }\ninline int f2(char a1) { long v2 = ((a1 / a1) ? (+a1) : a1--); { { if ((1 + 0x7fffffff)) { (long)(a1 & 7) * 0x100000000000000; } else { (long)(a1 & 7) * 0x100000000000000; } if ((a1 & 7) > 1) { int v4 = a1 + 2147483547; if (a1 < -1) { --v2; int v5 = ((0x8000000000000000 + a1) == (0x8000000000000000)); } } } } { if (((long)(a1 * v2) * 0x100000000000000, 1) || (a1 * v2) > 100) a1 *= v2; } return ((v2 >= v2) - (0, a1)); }\nint f3(signed char a1) { { int v2 = --a1 % (a1 >> 1); while ((a1 >> 1)) { return 1; } } { { ; int v3 = ((a1 + (-1)) == 100); { unsigned v4 = (!(BLUE >= v3)); } } } return (sizeof table <= (a1 / a1)); }\nint f4(_Bool a1) { do { if (((0x80000000 / 7) <= (0 ^ a1))) { { u8 v2 = ((_Bool)a1) / (a1 & 1); if ((a1 & 1) < 1) die(((a1 / a1))); } } else gv((2)); { unsigned v3 = (!a1) / (a1 - 100); if ((a1 - 100) == 0) { gv(((a1 ^ a1))); } } } while ((9223372036854775807 < 64) <= (a1 || a1)); signed char v4 = ((a1, a1) / ((100 - a1) < (100))); if (v4) { _Bool w5; } u8 v6 = (~(gb(a1, v4))); unsigned v7 = (+(a1 > 33)); return a1; }\ninline int f5(unsigned char a1) { unsigned v2 = ((a1 % a1) - ((int)a1)); v2 = ((a1 * a1) ^ (a1 / a1)); return (v2 == v2 + a1); }\n",
        "-:13:38: unstable: always true in f2\n  hit: a1=0\n  needs division by zero at -:13:38; without it: a1=0\n-:13:57: unstable: never entered in f2\n  hit: a1=0\n  needs division by zero at -:13:38; without it: a1=0\n-:13:73: unstable: always false in f2\n  hit: a1=0\n  needs signed overflow at -:13:73; without it: a1=1\n-:13:90: unstable: never entered in f2\n  hit: a1=0\n  needs signed overflow at -:13:73; without it: a1=1\n-:13:179: unstable: always true in f2\n  hit: a1=1\n  needs signed overflow at -:13:73; without it: a1=1\n-:13:179: unstable: always false in f2\n  hit: a1=0\n  needs signed overflow at -:13:73; without it: a1=2\n-:13:225: unstable: always true in f2\n  hit: a1=0\n  needs signed overflow at -:13:73; without it: a1=2\n-:13:225: unstable: always false in f2\n  hit: a1=-126\n  needs signed overflow at -:13:73; without it: a1=-126\n-:13:252: unstable: always true in f2\n  hit: a1=-126\n  needs signed overflow at -:13:73; without it: a1=-126\n-:13:234: unstable: never entered in f2\n  hit: a1=-126\n  needs signed overflow at -:13:73; without it: a1=-126\n-:13:193: unstable: never entered in f2\n  hit: a1=0\n  needs signed overflow at -:13:73; without it: a1=2\n-:13:319: unstable: always false in f2\n  hit: a1=0\n  needs signed overflow at -:13:73; without it: a1=1\n-:13:318: unstable: always false in f2\n  hit: a1=0\n  needs signed overflow at -:13:73; without it: a1=1\n-:13:379: unstable: never entered in f2\n  hit: a1=0\n  needs signed overflow at -:13:73; without it: a1=1\n-:13:400: unstable: always false in f2\n  hit: a1=0\n  needs signed overflow at -:13:73; without it: a1=1\n-:14:63: unstable: always true in f3\n  hit: a1=1\n  needs division by zero at -:14:37; without it: a1=1\n-:14:105: unstable: always true in f3\n  hit: a1=1\n  needs division by zero at -:14:37; without it: a1=1\n-:14:145: unstable: always true in f3\n  hit: a1=1\n  needs division by zero at -:14:37; without it: a1=1\n-:14:173: unstable: always true in f3\n  hit: a1=1\n  needs division by zero at -:14:37; without it: a1=1\n-:16:112: unstable: always false in f5\n  hit: a1=0\n  needs division by zero at -:16:51; without it: a1=0\n6 functions, 105 candidates, 20 unstable, 0 undecided, 0 skipped\n",
    ),
    (
        "typedef unsigned char u8;\nenum color { RED, GREEN = 5, BLUE = -1 };\nstruct in { u8 lo; signed char hi; };\nstruct S { unsigned char c; _Bool b; signed char sc; struct in in; u8 arr[3]; struct S *next; int n; };\nextern unsigned char gc(int);\nextern _Bool gb(u8 a, long b);\nextern void gv(u8);\nextern void die(int) __attribute__((noreturn));\nextern int abs(int); extern long labs(long); extern long long llabs(long long);\nint table[7];\nint f0(u8 a1) { signed char v2 = ((9223372036854775807 == a1) ? a1 : (a1 << 0x7fffffff)); v2++; return --a1; }\ninline int f1(_Bool a1) { do { { if (a1 == a1) { -2147483647 - (a1 & 1); } else { -2147483647 - (a1 & 1); } if ((a1 & 1) >= 128) switch (a1) { case 2: die(((a1 / a1))); (void)((a1 ? a1 : 0xffffffff)); break; case 3: default: gv((((-2147483647 - 1) & a1))); break; case RED: gv(((a1, a1))); gv((2)); break; } } u8 *p3 = (u8 *)(a1); } while (((a1 * a1) | (a1 || a1))); enum color v4 = (((unsigned long long)0x7fffffff) <= a1); u8 *p5 = (u8 *)v4; if (((a1 ^ sizeof(int)) / (&p5[0] == (p5 - ((int)9uLL))))) return (a1 ? v4 : v4); long long v6 = (((p5 + 7ll) >= p5) / (a1 / 7)); if (200) while ((v6 / a1) >= v4) switch (a1) { case 5: case 256: *(p5 + v6) /= (7 / v4); break; case 0: return (1u - a1); break; } return ((v6 - a1) < (a1 <= a1)); }\nstatic int f2(void) { struct S *p1 = (struct S *)4; switch ((2 >> '\\377')) { default: case RED: { struct S *p2 = (p1 - (1u < 2147483648)); { p2[9223372036854775807].c = (7 || 200); } } break; } return (+(~1)); }\nstatic int f3(_Bool a1) { u8 *p2 = (u8 *)(0); struct S *p3 = (struct S *)a1; if ((a1 >> 0x8000000000000000) <= (a1 /= a1)) { a1 /= (a1 *= sizeof(struct S)); } return ((p3 > (p3 + BLUE)) + a1); }\nint f4(void) { u8 *p1 = (u8 *)7ll; return (63 ? 1 : '\\377'); return abs((2L, 31)); }\nint f5(_Bool a1) { unsigned char v2 = (('\\x41' < a1) / ((int)2)); u8 *p3 = (u8 *)(GREEN); do { u8 *p4 = p3; } while (a1 < 0xffffffff); _Bool v5 = ((0x80000000 || v2) && (~v2)); { long v6 = (017 * v5) / (v2 & 200); if (0 == (v2 & 200)) { --a1; } } { if (p3) 2L; u8 *p7 = ((!a1) ? p3 : (void *)0); } return ((_Bool)(v2 << a1)); }\n",
        "-:12:472: unstable: always true in f1\n  hit: a1=0 load@12:640=0\n  needs pointer overflow at -:12:483; without it: a1=0 load@12:640=0\n-:12:450: unstable: always true in f1\n  hit: a1=0 load@12:640=0\n  needs pointer overflow at -:12:483; without it: a1=0 load@12:640=0\n-:12:544: unstable: always false in f1\n  hit: a1=0 load@12:640=0\n  needs pointer overflow at -:12:483; without it: a1=0 load@12:640=0\n-:12:579: unstable: always false in f1\n  hit: a1=0 load@12:640=0\n  needs pointer overflow at -:12:483; without it: a1=0 load@12:640=0\n-:12:591: unstable: always false in f1\n  hit: a1=0 load@12:640=0\n  needs pointer overflow at -:12:483; without it: a1=0 load@12:640=0\n-:12:671: unstable: never entered in f1\n  hit: a1=0 load@12:640=0\n  needs pointer overflow at -:12:483; without it: a1=0 load@12:640=0\n-:12:608: unstable: never entered in f1\n  hit: a1=0 load@12:640=0\n  needs pointer overflow at -:12:483; without it: a1=0 load@12:640=0\n-:12:584: unstable: never entered in f1\n  hit: a1=0 load@12:640=0\n  needs pointer overflow at -:12:483; without it: a1=0 load@12:640=0\n-:13:121: unstable: always false in f2\n  hit: none\n  needs oversized shift at -:13:62; without it: none\n-:13:171: unstable: always false in f2\n  hit: none\n  needs oversized shift at -:13:62; without it: none\n-:13:78: unstable: never entered in f2\n  hit: none\n  needs oversized shift at -:13:62; without it: none\n-:14:82: unstable: always false in f3\n  hit: a1=0\n  needs oversized shift at -:14:83; without it: a1=0\n-:14:124: unstable: never entered in f3\n  hit: a1=0\n  needs oversized shift at -:14:83; without it: a1=0\n-:14:169: unstable: always true in f3\n  hit: a1=0\n  needs oversized shift at -:14:83; without it: a1=0\n-:14:169: unstable: same as 0 > BLUE in f3\n  hit: a1=0\n  needs oversized shift at -:14:83; without it: a1=0\n6 functions, 87 candidates, 15 unstable, 0 undecided, 0 skipped\n",
    ),
    (
        "typedef unsigned char u8;\nenum color { RED, GREEN = 5, BLUE = -1 };\nstruct in { u8 lo; signed char hi; };\nstruct S { unsigned char c; _Bool b; signed char sc; struct in in; u8 arr[3]; struct S *next; int n; };\nextern unsigned char gc(int);\nextern _Bool gb(u8 a, long b);\nextern void gv(u8);\nextern void die(int) __attribute__((noreturn));\nextern int abs(int); extern long labs(long); extern long long llabs(long long);\nint table[7];\nint f0(_Bool a1) { return (2 + a1); a1 <<= (0x8000000000000000 <= (a1 != 9223372036854775807)); struct S *p2 = (struct S *)((a1 += a1)); return ((a1 > 0x8000000000000000) / (+9223372036854775807)); }\nstatic int f1(void) { while ((128, 32) <= (0x7fffffff / 0)) { unsigned v1 = 0x7fffffff; } gv(((7ll & (-1)))); return 1; }\ninline int f2(void) { enum color v1 = ((unsigned char)(5UL >= 63)); long long v2 = ((u8)(1 >> v1)); v1 <<= ((2L << v1) && (v1 < 63)); char w3; v2 <<= ((v2 == w3) & (v2 >> 255)); unsigned char v4 = w3; return (((-2147483647 - 1) || v1) - ('\\377' ? v2 : v1)); }\nint f3(char a1) { { return ((unsigned long)a1); } { int v2 = a1 >> (a1 / 200); if ((a1 / 200) == 64) { if ((((long)a1) / a1)) { gv(((sizeof table > 1u))); ; } else { a1 |= ((a1 && sizeof(struct S)) ? a1 : ('\\377' & a1)); } } } { --a1; for (; 0x7fffffff != a1; (a1, a1)) { int v4 = 1 >> a1; int v5 = a1 / a1; if (a1 >= 32) { continue; } } } return a1; }\ninline int f4(unsigned char a1) { { u8 v2 = BLUE >> a1; if (a1 > 63) { { int v3 = a1 << (a1 >> 1); if ((a1 >> 1) > 63) { if (((short)(abs(gb(RED, BLUE))))) { --a1; a1 |= (a1 <= '\\x41'); a1 += (5 && a1); } gv(((a1 / 4294967296))); enum color v4 = (a1++ - (a1 - a1)); } } { unsigned v5 = (-a1) / a1; int v6 = 0 % a1; if (a1 <= 0) { switch (a1) { case 3 - 1: a1 %= 0x7fffffff; die(((a1 / a1))); case 5: ; gv(((a1 ? a1 : a1))); } a1 = ((2147483647 < a1) % (-a1)); a1 -= (--a1 - (a1 = a1)); } } } } unsigned v7 = ((!a1) ^ (a1 / a1)); u8 *p8 = (u8 *)0; return 0; }\nstatic int f5(_Bool a1, _Bool a2) { unsigned char v3 = a1; u8 *p4 = (u8 *)7; long long v5 = ((1 < BLUE) <= (4294967295, a1)); return ((4 && v5) && (*p4)); }\n",
        "-:12:30: unstable: always true in f1\n  hit: none\n  needs division by zero at -:12:44; without it: none\n-:13:212: unstable: always false in f2\n  hit: w3@13:140=0\n  needs oversized shift at -:13:166; without it: w3@13:140=0\n-:13:239: unstable: always false in f2\n  hit: w3@13:140=0\n  needs oversized shift at -:13:166; without it: w3@13:140=0\n-:13:248: unstable: never entered in f2\n  hit: w3@13:140=0\n  needs oversized shift at -:13:166; without it: w3@13:140=0\n-:15:61: unstable: always false in f4\n  hit: a1=64 call@15:139=0\n  needs oversized shift at -:15:45; without it: a1=64 call@15:139=0\n-:15:104: unstable: always true in f4\n  hit: a1=64 call@15:139=0\n  needs oversized shift at -:15:45; without it: a1=64 call@15:139=0\n-:15:104: unstable: always false in f4\n  hit: a1=128 call@15:139=0\n  needs oversized shift at -:15:45; without it: a1=128 call@15:139=0\n-:15:127: unstable: always true in f4\n  hit: a1=128 call@15:139=0\n  needs oversized shift at -:15:45; without it: a1=128 call@15:139=0\n-:15:127: unstable: always false in f4\n  hit: a1=128 call@15:139=1\n  needs oversized shift at -:15:45; without it: a1=128 call@15:139=1\n-:15:172: unstable: always true in f4\n  hit: a1=128 call@15:139=1\n  needs oversized shift at -:15:45; without it: a1=128 call@15:139=1\n-:15:194: unstable: always false in f4\n  hit: a1=128 call@15:139=1\n  needs oversized shift at -:15:45; without it: a1=128 call@15:139=1\n-:15:199: unstable: never entered in f4\n  hit: a1=128 call@15:139=1\n  needs oversized shift at -:15:45; without it: a1=128 call@15:139=1\n-:15:157: unstable: never entered in f4\n  hit: a1=128 call@15:139=1\n  needs oversized shift at -:15:45; without it: a1=128 call@15:139=1\n-:15:120: unstable: never entered in f4\n  hit: a1=128 call@15:139=0\n  needs oversized shift at -:15:45; without it: a1=128 call@15:139=0\n-:15:320: unstable: always true in f4\n  hit: a1=64 call@15:139=0\n  needs oversized shift at -:15:45; without it: a1=64 call@15:139=0\n-:15:320: unstable: always false in f4\n  hit: a1=255 call@15:139=0\n  needs oversized shift at -:15:45; without it: a1=255 call@15:139=0\n-:15:434: unstable: always true in f4\n  hit: a1=255 call@15:139=0\n  needs oversized shift at -:15:45; without it: a1=255 call@15:139=0\n-:15:329: unstable: never entered in f4\n  hit: a1=255 call@15:139=0\n  needs oversized shift at -:15:45; without it: a1=255 call@15:139=0\n-:15:70: unstable: never entered in f4\n  hit: a1=64 call@15:139=0\n  needs oversized shift at -:15:45; without it: a1=64 call@15:139=0\n6 functions, 82 candidates, 19 unstable, 0 undecided, 0 skipped\n",
    ),
];

#[test]
fn each_file_has_its_records(rt: HostRuntime) -> Result<(), Fail> {
    for &(input, records) in &FILES {
        let status = Status::Found;
        check(
            rt.alloc(),
            &rt,
            &CALM,
            input.as_bytes(),
            status,
            records.as_bytes(),
            b"",
        )?;
    }
    Ok(())
}

/// Functions of 16 input bits: with a `switch` whose sections fall through, with a call that doesn't return, and with
/// eight loads of `_Bool`. Which fragments are unstable, and their starts and conditions, were worked out by hand; the
/// columns and the counts of candidates are what this program printed.
static WIDE: [(&str, &str); 3] = [
    (
        "int f(unsigned char x, unsigned char y) { int q = 0; switch (x) { case 0: q = 1 / y; case 300: if (y == 0) return 1; } return q; }",
        "-:1:100: unstable: always false in f\n  hit: x=0 y=0\n  needs division by zero at -:1:79; without it: x=0 y=0\n-:1:108: unstable: never entered in f\n  hit: x=0 y=0\n  needs division by zero at -:1:79; without it: x=0 y=0\n1 functions, 5 candidates, 2 unstable, 0 undecided, 0 skipped\n",
    ),
    (
        "extern void die(int) __attribute__((noreturn)); int f(unsigned char x, unsigned char y) { if (x == 0) die(y); int q = 7 / x; if (x == 0) return 1; int r = 7 / y; if (y == 0) return 2; return q + r; }",
        "-:1:167: unstable: always false in f\n  hit: x=1 y=0\n  needs division by zero at -:1:156; without it: x=1 y=0\n-:1:175: unstable: never entered in f\n  hit: x=1 y=0\n  needs division by zero at -:1:156; without it: x=1 y=0\n1 functions, 9 candidates, 2 unstable, 0 undecided, 0 skipped\n",
    ),
    (
        "struct S { unsigned char c; _Bool b; }; int f(unsigned char x) { struct S *s = (struct S *)16; int n = s->b + s->b + s->b + s->b + s->b + s->b + s->b + s->b; int q = x / n; if (n == 0) return 1; return q; }",
        "-:1:178: unstable: always false in f\n  hit: x=0 load@1:104=0 load@1:111=0 load@1:118=0 load@1:125=0 load@1:132=0 load@1:139=0 load@1:146=0 load@1:153=0\n  needs division by zero at -:1:167; without it: x=0 load@1:104=0 load@1:111=0 load@1:118=0 load@1:125=0 load@1:132=0 load@1:139=0 load@1:146=0 load@1:153=0\n-:1:186: unstable: never entered in f\n  hit: x=0 load@1:104=0 load@1:111=0 load@1:118=0 load@1:125=0 load@1:132=0 load@1:139=0 load@1:146=0 load@1:153=0\n  needs division by zero at -:1:167; without it: x=0 load@1:104=0 load@1:111=0 load@1:118=0 load@1:125=0 load@1:132=0 load@1:139=0 load@1:146=0 load@1:153=0\n1 functions, 3 candidates, 2 unstable, 0 undecided, 0 skipped\n",
    ),
];

#[test]
fn each_function_of_16_bits_has_its_records(rt: HostRuntime) -> Result<(), Fail> {
    for &(input, records) in &WIDE {
        let status = Status::Found;
        check(
            rt.alloc(),
            &rt,
            &CALM,
            input.as_bytes(),
            status,
            records.as_bytes(),
            b"",
        )?;
    }
    Ok(())
}

/// A file of so many functions.
fn of_functions(alloc: Global, count: usize) -> Result<Vec<u8>, Fail> {
    let mut input = Vec::new(alloc);
    for _ in 0..count {
        input.extend_from_slice(b"int f(_Bool x) { if (x) return 2; return x; }\n")?;
    }
    Ok(input)
}

#[test]
fn a_file_of_10000_functions_is_judged(rt: HostRuntime) -> Result<(), Fail> {
    let input = of_functions(rt.alloc(), 10_000)?;
    let records = b"10000 functions, 30000 candidates, 0 unstable, 0 undecided, 0 skipped\n";
    check(
        rt.alloc(),
        &rt,
        &CALM,
        input.as_slice(),
        Status::Stable,
        records,
        b"",
    )
}
