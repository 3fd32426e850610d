//! What the checker prints as a start of each report of `examples/`, replayed over a memory of zeros: each execution
//! hits what its report names, behind the condition that it needs.

use crate::running::{NONE, replayed};
use std::test::Fail;
use stk_replay::ReplayStatus;

/// A source, a function of it with the start of its reports, and the text of the execution.
struct Row {
    source: &'static str,
    script: &'static str,
    text: &'static str,
}

const OVERFLOW: &str =
    "int wraps(unsigned char x) {\n    int y = 2147483647 - x;\n    if (y + 100 < y) return 1;\n    return 0;\n}\nint grows(unsigned char x) {\n    int y = 2147483647 - x;\n    return y + 1 > y;\n}\nfloat none;\nint unknown(void) { return z; }\n";

const COMMON: &str =
    "struct packet {\n    unsigned length;\n};\nunsigned length_of(struct packet *packet) {\n    unsigned length = packet->length;\n    if (!packet) return 0;\n    return length;\n}\nint fits(char *buffer, unsigned length) {\n    if (buffer + length < buffer) return 0;\n    return 1;\n}\nextern int abs(int number);\nint bucket_of(int hash) {\n    int bucket = abs(hash);\n    if (bucket < 0) return 0;\n    return bucket;\n}\n";

static ROWS: [Row; 6] = [
    Row {
        source: "# 1 \"share.h\"\nint share(unsigned char whole, unsigned char parts);\nstruct pair { int first; int second; };\n# 2 \"share.c\"\n\n\nint share(unsigned char whole, unsigned char parts) {\n    int each = whole / parts;\n    if (parts == 0) return 0;\n    return each;\n}\n",
        script: "function share\nstart whole=0 parts=0\nfill 0\nturns 0\nend\n",
        text: "share.c:5:16: ub division by zero\nshare.c:6:9: seen true\nshare.c:6:21: enter\nhits always false at share.c:6:9\nhits never entered at share.c:6:21\nend: returned\n",
    },
    Row {
        source: OVERFLOW,
        script: "function wraps\nstart x=0\nfill 0\nturns 0\nend\n",
        text: "-:3:9: ub signed overflow\n-:3:9: seen true, replacement false\n-:3:22: enter\nhits always false at -:3:9\nhits same as 100 < 0 at -:3:9\nhits never entered at -:3:22\nend: returned\n",
    },
    Row {
        source: OVERFLOW,
        script: "function grows\nstart x=0\nfill 0\nturns 0\nend\n",
        text: "-:8:12: ub signed overflow\n-:8:12: seen false, replacement true\nhits always true at -:8:12\nhits same as 1 > 0 at -:8:12\nend: returned\n",
    },
    Row {
        source: COMMON,
        script: "function length_of\nstart packet=0 load@5:23=0\nfill 0\nturns 0\nend\n",
        text: "-:5:23: ub null dereference\n-:6:9: seen true\n-:6:18: enter\nhits always false at -:6:9\nhits never entered at -:6:18\nend: returned\n",
    },
    Row {
        source: COMMON,
        script: "function fits\nstart buffer=18446744073709551615 length=4294967295\nfill 0\nturns 0\nend\n",
        text: "-:10:9: ub pointer overflow\n-:10:9: seen true, replacement false\n-:10:35: enter\nhits always false at -:10:9\nhits same as length < 0 at -:10:9\nhits never entered at -:10:35\nend: returned\n",
    },
    Row {
        source: COMMON,
        script: "function bucket_of\nstart hash=-2147483648\nfill 0\nturns 0\nend\n",
        text: "-:15:18: ub absolute value overflow\n-:16:9: seen true\n-:16:21: enter\nhits always false at -:16:9\nhits never entered at -:16:21\nend: returned\n",
    },
];

#[test]
fn each_printed_start_hits_what_was_reported(rt: HostRuntime) -> Result<(), Fail> {
    for row in &ROWS {
        let run = replayed(rt.alloc(), &[], row.script, row.source, NONE)?;
        assert!(rt; run.status == ReplayStatus::Done, "{:?}", row.script);
        assert!(rt;
            run.text.as_slice() == row.text.as_bytes(),
            "{:?}",
            row.script
        );
    }
    Ok(())
}
