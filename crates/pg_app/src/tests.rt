// Calls of the program over rooms and sinks in memory.
use crate::run::run;
use pg_io::{MemoryRoom, MemorySink, QuietRoom, QuietSink, Room, Sink};
use std::alloc::{AllocError, Global};
use std::fmt::Debug;
use std::test::Fail;

const USAGE: &[u8] =
    b"usage: check NAME [BUDGET] | obligations NAME | derive NAME [BUDGET] | verify NAME NAME | replay NAME NAME | made N [BUDGET]\n";

// Passes where what was found is what is wanted in this case.
fn agree<T: PartialEq + Debug + Copy>(found: T, wanted: T, case: &[u8]) -> Result<(), Fail> {
    if found == wanted {
        return Ok(());
    }
    let case = case.escape_ascii();
    Err(Fail::new(format_args!("found {found:?}, and not {wanted:?}, in \"{case}\"")))
}

// A file, filled up with blanks to a length.
struct File {
    name: &'static str,
    text: &'static [u8],
    length: usize,
}

const SPLIT: &[u8] =
    b"pierogi 1; values 2; location x = 0; location y = 0; pre (N(1,x) | N(1,y)) & (N(1,x) | !N(1,y));\n\
    thread 1 { [N(1,x) & N(1,y) | N(1,x) & !N(1,y)] }";

const SWAP: &[u8] = b"pierogi 1; values 2; location x = 0; register a of 1; pre L(x,0) & F(1,x);\n\
    thread 1 { [L(x,0) & F(1,x)] a := cas(x, 0, 1); [a = 0 & L(x,1) & N(1,x)] }";

// In `store` a store stands between two assertions, and in `stale` the second one still has the old value. In `flush` a flush stands
// between two stores, and `two` has two threads, one of which has a test. The tree of an obligation of `split` has three nodes, and
// that of the last but one of `swap` has five. `full` is as long as a file may be, and `big` is a byte longer.
static FILES: [File; 11] = [
    File {
        name: "store",
        text: b"pierogi 1; values 2; location x = 0; pre L(x,0); thread 1 { [L(x,0)] x := 1; [L(x,1)] }",
        length: 0,
    },
    File {
        name: "stale",
        text: b"pierogi 1; values 2; location x = 0; pre L(x,0); thread 1 { [L(x,0)] x := 1; [L(x,0)] }",
        length: 0,
    },
    File {
        name: "nothing",
        text: b"pierogi 1; values 2; thread 1 { [ true ] }",
        length: 0,
    },
    File {
        name: "flush",
        text: b"pierogi 1; values 2; location x = 0; location y = 0;\npre !P(y,1); crash y = 1 -> x = 1;\n\
    thread 1 { [!P(y,1)] x := 1; [!P(y,1) & L(x,1) & F(1,x)] flush x;\n  [!P(x,0)] y := 1; [!P(x,0)] }\n",
        length: 0,
    },
    File {
        name: "two",
        text: b"pierogi 1; values 3; location x = 2; register r of 1; auxiliary e;\npre r = 0; crash !(x = 1) | e = 0;\n\
    thread 1 { [(r = 0 | e = 1) & true] if r = 0 { [N(1,x)] r := x; } [C(1,x,0,x,2)] }\nthread 2 { [true] }\n",
        length: 0,
    },
    File {
        name: "split",
        text: SPLIT,
        length: 0,
    },
    File {
        name: "swap",
        text: SWAP,
        length: 0,
    },
    File {
        name: "full",
        text: b"pierogi 1; values 2; thread 1 { [ true ] }",
        length: 1_048_576,
    },
    File {
        name: "big",
        text: b"pierogi 1; values 2; thread 1 { [ true ] }",
        length: 1_048_577,
    },
    File {
        name: "blank",
        text: b"",
        length: 1_048_576,
    },
    File {
        name: "empty",
        text: b"",
        length: 0,
    },
];

fn listed(alloc: Global, file: &'static File) -> Result<(String, Vec<u8>), AllocError> {
    let name = String::from_str(alloc, file.name)?;
    Ok((name, filled(alloc, file.text, file.length, b' ')?))
}

// A text, filled up with a byte to a length.
fn filled(alloc: Global, text: &[u8], length: usize, byte: u8) -> Result<Vec<u8>, AllocError> {
    let mut bytes = Vec::from_slice(alloc, text)?;
    bytes.resize(text.len().max(length), byte)?;
    Ok(bytes)
}

// The files that these words name.
fn files(alloc: Global, words: &[&str]) -> Result<Vec<(String, Vec<u8>)>, AllocError> {
    let mut files = Vec::new(alloc);
    for file in &FILES {
        if words.contains(&file.name) {
            files.push(listed(alloc, file)?)?;
        }
    }
    Ok(files)
}

// The words of a command line.
fn word_list(alloc: Global, words: &[&str]) -> Result<Vec<String>, AllocError> {
    let mut list = Vec::new(alloc);
    for word in words {
        list.push(String::from_str(alloc, *word)?)?;
    }
    Ok(list)
}

// The status that these words end with.
fn status_of<R: Room, K: Sink>(
    alloc: Global,
    words: &[&str],
    room: &mut R,
    out: &mut K,
) -> Result<u8, AllocError> {
    let words = word_list(alloc, words)?;
    Ok(run(alloc, words.as_slice(), room, out))
}

// The obligations of `nothing`, of `two` and of `flush`.
const NOTHING_HELD: &[u8] = b"\
    1 fresh\n\
    goal true\n\
    2 entry 1\n\
    given true\n\
    goal true\n\
    3 entry crash\n\
    given true\n\
    goal crash true\n\
    ";

const TWO_THREADS: &[u8] = b"\
    1 fresh\n\
    given r = 0\n\
    given e = 0\n\
    given L(x,2)\n\
    given N(1,x)\n\
    given N(2,x)\n\
    given !P(x,0)\n\
    given !P(x,1)\n\
    goal r = 0\n\
    2 entry 1\n\
    given r = 0\n\
    goal (r = 0 | e = 1) & true\n\
    3 entry 2\n\
    given r = 0\n\
    goal true\n\
    4 entry crash\n\
    given r = 0\n\
    goal crash !x = 1 | e = 0\n\
    5 local 1.1t\n\
    given (r = 0 | e = 1) & true\n\
    given crash !x = 1 | e = 0\n\
    goal N(1,x)\n\
    6 crash 1.1t\n\
    given (r = 0 | e = 1) & true\n\
    given crash !x = 1 | e = 0\n\
    goal crash !x = 1 | e = 0\n\
    7 interfere 1.1t on 2.1\n\
    given (r = 0 | e = 1) & true\n\
    given true\n\
    given crash !x = 1 | e = 0\n\
    goal true\n\
    8 local 1.1f\n\
    given (r = 0 | e = 1) & true\n\
    given crash !x = 1 | e = 0\n\
    goal C(1,x,0,x,2)\n\
    9 crash 1.1f\n\
    given (r = 0 | e = 1) & true\n\
    given crash !x = 1 | e = 0\n\
    goal crash !x = 1 | e = 0\n\
    10 interfere 1.1f on 2.1\n\
    given (r = 0 | e = 1) & true\n\
    given true\n\
    given crash !x = 1 | e = 0\n\
    goal true\n\
    11 local 1.2\n\
    given N(1,x)\n\
    given crash !x = 1 | e = 0\n\
    goal C(1,x,0,x,2)\n\
    12 crash 1.2\n\
    given N(1,x)\n\
    given crash !x = 1 | e = 0\n\
    goal crash !x = 1 | e = 0\n\
    13 interfere 1.2 on 2.1\n\
    given N(1,x)\n\
    given true\n\
    given crash !x = 1 | e = 0\n\
    goal true\n\
    ";

const ONE_FLUSH: &[u8] = b"\
    1 fresh\n\
    given L(x,0)\n\
    given L(y,0)\n\
    given N(1,x)\n\
    given N(1,y)\n\
    given !P(x,1)\n\
    given !P(y,1)\n\
    goal !P(y,1)\n\
    2 entry 1\n\
    given !P(y,1)\n\
    goal !P(y,1)\n\
    3 entry crash\n\
    given !P(y,1)\n\
    goal crash y = 1 -> x = 1\n\
    4 local 1.1\n\
    given !P(y,1)\n\
    given crash y = 1 -> x = 1\n\
    goal !P(y,1) & L(x,1) & F(1,x)\n\
    5 crash 1.1\n\
    given !P(y,1)\n\
    given crash y = 1 -> x = 1\n\
    goal crash y = 1 -> x = 1\n\
    6 local 1.2\n\
    given !P(y,1) & L(x,1) & F(1,x)\n\
    given crash y = 1 -> x = 1\n\
    goal !P(x,0)\n\
    7 crash 1.2\n\
    given !P(y,1) & L(x,1) & F(1,x)\n\
    given crash y = 1 -> x = 1\n\
    goal crash y = 1 -> x = 1\n\
    8 local 1.3\n\
    given !P(x,0)\n\
    given crash y = 1 -> x = 1\n\
    goal !P(x,0)\n\
    9 crash 1.3\n\
    given !P(x,0)\n\
    given crash y = 1 -> x = 1\n\
    goal crash y = 1 -> x = 1\n\
    ";

// The judgement of `stale`: the state before the store, and behind it, where the last value is 1.
const STALE: &[u8] = b"\
    rejected 4 local 1.1\n\
    before L(x,0)\n\
    before R(1,x,0)\n\
    before P(x,0)\n\
    before A(1,x,0)\n\
    before C(1,x,0,x,0)\n\
    after L(x,1)\n\
    after R(1,x,1)\n\
    after P(x,0)\n\
    after P(x,1)\n\
    after A(1,x,0)\n\
    after A(1,x,1)\n\
    after C(1,x,1,x,1)\n\
    after N(1,x)\n\
    after O(1,x)\n\
    after F(1,x)\n\
    step K(1)\n\
    ";

// The derivation of `nothing`: each obligation is closed by two clauses, the one of which is false where the other is true.
const NOTHING_DERIVED: &[u8] = b"\
    derivation 1\n\
    obligation 1\n\
    leaf 1 2\n\
    obligation 2\n\
    leaf 3 4\n\
    obligation 3\n\
    leaf 3 4\n\
    end\n\
    ";

// Words, the numbers of the fetch and of the put that fail, from 1, and then the status and the text.
struct Call {
    words: &'static [&'static str],
    fetch: u32,
    put: u32,
    status: u8,
    text: &'static [u8],
}

static CALLS: [Call; 70] = [
    Call {
        words: &[],
        fetch: 0,
        put: 0,
        status: 8,
        text: USAGE,
    },
    Call {
        words: &["check"],
        fetch: 0,
        put: 0,
        status: 8,
        text: USAGE,
    },
    Call {
        words: &["check", "full", "big"],
        fetch: 0,
        put: 0,
        status: 8,
        text: USAGE,
    },
    Call {
        words: &["Check", "full"],
        fetch: 0,
        put: 0,
        status: 8,
        text: USAGE,
    },
    Call {
        words: &["check", ""],
        fetch: 0,
        put: 0,
        status: 8,
        text: USAGE,
    },
    Call {
        words: &[],
        fetch: 0,
        put: 1,
        status: 7,
        text: b"",
    },
    Call {
        words: &["check", "store"],
        fetch: 0,
        put: 0,
        status: 0,
        text: b"accepted 5\n",
    },
    Call {
        words: &["check", "stale"],
        fetch: 0,
        put: 0,
        status: 1,
        text: STALE,
    },
    Call {
        words: &["check", "nothing"],
        fetch: 0,
        put: 0,
        status: 0,
        text: b"accepted 3\n",
    },
    Call {
        words: &["check", "full"],
        fetch: 0,
        put: 0,
        status: 0,
        text: b"accepted 3\n",
    },
    Call {
        words: &["check", "blank"],
        fetch: 0,
        put: 0,
        status: 3,
        text: b"refused 1048576 unexpected\n",
    },
    Call {
        words: &["check", "empty"],
        fetch: 0,
        put: 0,
        status: 3,
        text: b"refused 0 unexpected\n",
    },
    Call {
        words: &["check", "gone"],
        fetch: 0,
        put: 0,
        status: 6,
        text: b"",
    },
    Call {
        words: &["check", "gone"],
        fetch: 0,
        put: 1,
        status: 6,
        text: b"",
    },
    Call {
        words: &["check", "store"],
        fetch: 1,
        put: 0,
        status: 6,
        text: b"",
    },
    Call {
        words: &["check", "store"],
        fetch: 2,
        put: 2,
        status: 0,
        text: b"accepted 5\n",
    },
    Call {
        words: &["check", "store"],
        fetch: 0,
        put: 1,
        status: 7,
        text: b"",
    },
    Call {
        words: &["obligations"],
        fetch: 0,
        put: 0,
        status: 8,
        text: USAGE,
    },
    Call {
        words: &["obligations", ""],
        fetch: 0,
        put: 0,
        status: 8,
        text: USAGE,
    },
    Call {
        words: &["obligations", "nothing", "nothing"],
        fetch: 0,
        put: 0,
        status: 8,
        text: USAGE,
    },
    Call {
        words: &["Obligations", "nothing"],
        fetch: 0,
        put: 0,
        status: 8,
        text: USAGE,
    },
    Call {
        words: &["nothing", "obligations"],
        fetch: 0,
        put: 0,
        status: 8,
        text: USAGE,
    },
    Call {
        words: &["obligations", "nothing"],
        fetch: 0,
        put: 0,
        status: 0,
        text: NOTHING_HELD,
    },
    Call {
        words: &["obligations", "full"],
        fetch: 0,
        put: 0,
        status: 0,
        text: NOTHING_HELD,
    },
    Call {
        words: &["obligations", "empty"],
        fetch: 0,
        put: 0,
        status: 3,
        text: b"refused 0 unexpected\n",
    },
    Call {
        words: &["obligations", "gone"],
        fetch: 0,
        put: 1,
        status: 6,
        text: b"",
    },
    Call {
        words: &["obligations", "nothing"],
        fetch: 1,
        put: 0,
        status: 6,
        text: b"",
    },
    Call {
        words: &["obligations", "big"],
        fetch: 0,
        put: 0,
        status: 10,
        text: b"too long big\n",
    },
    Call {
        words: &["obligations", "two"],
        fetch: 0,
        put: 0,
        status: 0,
        text: TWO_THREADS,
    },
    Call {
        words: &["check", "big"],
        fetch: 0,
        put: 0,
        status: 10,
        text: b"too long big\n",
    },
    Call {
        words: &["check", "big"],
        fetch: 0,
        put: 1,
        status: 7,
        text: b"",
    },
    Call {
        words: &["check", "flush", "0"],
        fetch: 0,
        put: 0,
        status: 8,
        text: USAGE,
    },
    Call {
        words: &["check", "flush", "01"],
        fetch: 0,
        put: 0,
        status: 8,
        text: USAGE,
    },
    Call {
        words: &["check", "flush", "1000001"],
        fetch: 0,
        put: 0,
        status: 8,
        text: USAGE,
    },
    Call {
        words: &["check", "flush", "+5"],
        fetch: 0,
        put: 0,
        status: 8,
        text: USAGE,
    },
    Call {
        words: &["check", "flush", "5a"],
        fetch: 0,
        put: 0,
        status: 8,
        text: USAGE,
    },
    Call {
        words: &["check", "flush", ""],
        fetch: 0,
        put: 0,
        status: 8,
        text: USAGE,
    },
    Call {
        words: &["check", "flush", " 5"],
        fetch: 0,
        put: 0,
        status: 8,
        text: USAGE,
    },
    Call {
        words: &["check", "flush", "18446744073709551621"],
        fetch: 0,
        put: 0,
        status: 8,
        text: USAGE,
    },
    Call {
        words: &["check", "flush", "5", "5"],
        fetch: 0,
        put: 0,
        status: 8,
        text: USAGE,
    },
    Call {
        words: &["check", "", "5"],
        fetch: 0,
        put: 0,
        status: 8,
        text: USAGE,
    },
    Call {
        words: &["check", "flush", "1000000"],
        fetch: 0,
        put: 0,
        status: 0,
        text: b"accepted 9\n",
    },
    Call {
        words: &["check", "flush", "1"],
        fetch: 0,
        put: 0,
        status: 0,
        text: b"accepted 9\n",
    },
    Call {
        words: &["check", "split"],
        fetch: 0,
        put: 0,
        status: 0,
        text: b"accepted 3\n",
    },
    Call {
        words: &["check", "split", "3"],
        fetch: 0,
        put: 0,
        status: 0,
        text: b"accepted 3\n",
    },
    Call {
        words: &["check", "split", "2"],
        fetch: 0,
        put: 0,
        status: 2,
        text: b"spent 2 entry 1\n",
    },
    Call {
        words: &["check", "swap", "5"],
        fetch: 0,
        put: 0,
        status: 0,
        text: b"accepted 5\n",
    },
    Call {
        words: &["check", "swap", "4"],
        fetch: 0,
        put: 0,
        status: 2,
        text: b"spent 4 local 1.1\n",
    },
    Call {
        words: &["check", "split", "2"],
        fetch: 0,
        put: 1,
        status: 7,
        text: b"",
    },
    Call {
        words: &["check", "stale"],
        fetch: 0,
        put: 2,
        status: 7,
        text: b"rejected 4 local 1.1\n",
    },
    Call {
        words: &["check", "gone", "5"],
        fetch: 0,
        put: 0,
        status: 6,
        text: b"",
    },
    Call {
        words: &["obligations", "nothing", "5"],
        fetch: 0,
        put: 0,
        status: 8,
        text: USAGE,
    },
    Call {
        words: &["made", "15"],
        fetch: 0,
        put: 0,
        status: 0,
        text: b"made 15\naccepted 544\nnodes 544\n",
    },
    Call {
        words: &["made", "1"],
        fetch: 0,
        put: 0,
        status: 0,
        text: b"made 1\naccepted 12\nnodes 12\n",
    },
    Call {
        words: &["made", "2", "1"],
        fetch: 0,
        put: 0,
        status: 0,
        text: b"made 2\naccepted 24\nnodes 24\n",
    },
    Call {
        words: &["made", "15"],
        fetch: 0,
        put: 2,
        status: 7,
        text: b"made 15\n",
    },
    Call {
        words: &["made", "16"],
        fetch: 0,
        put: 0,
        status: 8,
        text: USAGE,
    },
    Call {
        words: &["made", "01"],
        fetch: 0,
        put: 0,
        status: 8,
        text: USAGE,
    },
    Call {
        words: &["made", "0"],
        fetch: 0,
        put: 0,
        status: 8,
        text: USAGE,
    },
    Call {
        words: &["made"],
        fetch: 0,
        put: 0,
        status: 8,
        text: USAGE,
    },
    Call {
        words: &["made", "1", "0"],
        fetch: 0,
        put: 0,
        status: 8,
        text: USAGE,
    },
    Call {
        words: &["made", "1", "1", "1"],
        fetch: 0,
        put: 0,
        status: 8,
        text: USAGE,
    },
    Call {
        words: &["derive", "nothing"],
        fetch: 0,
        put: 0,
        status: 0,
        text: NOTHING_DERIVED,
    },
    Call {
        words: &["derive", "nothing", "1"],
        fetch: 0,
        put: 0,
        status: 0,
        text: NOTHING_DERIVED,
    },
    Call {
        words: &["derive", "nothing"],
        fetch: 0,
        put: 3,
        status: 7,
        text: b"derivation 1\nobligation 1\n",
    },
    Call {
        words: &["derive", "empty"],
        fetch: 0,
        put: 0,
        status: 3,
        text: b"refused 0 unexpected\n",
    },
    Call {
        words: &["derive", "gone"],
        fetch: 0,
        put: 0,
        status: 6,
        text: b"",
    },
    Call {
        words: &["derive"],
        fetch: 0,
        put: 0,
        status: 8,
        text: USAGE,
    },
    Call {
        words: &["derive", "nothing", "0"],
        fetch: 0,
        put: 0,
        status: 8,
        text: USAGE,
    },
    Call {
        words: &["derive", "nothing", "nothing"],
        fetch: 0,
        put: 0,
        status: 8,
        text: USAGE,
    },
];

// Passes where a call over the files ends as it should.
fn is_answered(alloc: Global, call: &'static Call) -> Result<(), Fail> {
    let mut room = MemoryRoom::make(files(alloc, call.words)?, vec![in alloc; call.fetch]?);
    let mut out = MemorySink::make(alloc, vec![in alloc; call.put]?);
    let status = status_of(alloc, call.words, &mut room, &mut out)?;
    agree((status, out.bytes()), (call.status, call.text), call.text)
}

#[test]
fn memory_calls(rt: HostRuntime) -> Result<(), Fail> {
    for call in &CALLS {
        is_answered(rt.alloc(), call)?;
    }
    Ok(())
}

// The first lines of a text.
fn first_lines(text: &[u8], lines: u32) -> &[u8] {
    let mut end: usize = 0;
    let mut left = lines;
    for byte in text {
        if left == 0 {
            break;
        }
        end = end.saturating_add(1);
        if *byte == b'\n' {
            left = left.saturating_sub(1);
        }
    }
    text.get(..end).unwrap_or(text)
}

// Passes where the obligations of `flush` are put up to a line that fails.
fn is_cut(alloc: Global, failing: u32, status: u8) -> Result<(), Fail> {
    let words = &["obligations", "flush"];
    let mut room = MemoryRoom::make(files(alloc, words)?, Vec::new(alloc));
    let mut out = MemorySink::make(alloc, vec![in alloc; failing]?);
    let found = status_of(alloc, words, &mut room, &mut out)?;
    let wanted = first_lines(ONE_FLUSH, failing.saturating_sub(1));
    agree((found, out.bytes()), (status, wanted), wanted)
}

#[test]
fn failing_puts_cut_lines(rt: HostRuntime) -> Result<(), Fail> {
    for failing in 1..39 {
        is_cut(rt.alloc(), failing, 7)?;
    }
    is_cut(rt.alloc(), 39, 0)
}

// Behind the derivation of an outline that is rejected stands the text of its judgement.
#[test]
fn rejected_derivations_are_told(rt: HostRuntime) -> Result<(), Fail> {
    let words = &["derive", "stale"];
    let mut room = MemoryRoom::make(files(rt.alloc(), words)?, Vec::new(rt.alloc()));
    let mut out = QuietSink::make(rt.alloc());
    let status = status_of(rt.alloc(), words, &mut room, &mut out)?;
    agree(
        (
            status,
            first_lines(out.bytes(), 2),
            out.bytes().ends_with(STALE),
        ),
        (1, &b"derivation 1\nobligation 1\n"[..], true),
        STALE,
    )
}

// A room with one file of these bytes.
fn room_of(alloc: Global, bytes: &[u8]) -> Result<QuietRoom, AllocError> {
    let name = String::from_str(alloc, "o")?;
    let bytes = Vec::from_slice(alloc, bytes)?;
    Ok(QuietRoom::make(vec![in alloc; (name, bytes)]?))
}

// Puts the text of `check` on a file of these bytes, and gives the status.
fn checked(alloc: Global, bytes: &[u8], out: &mut QuietSink) -> Result<u8, AllocError> {
    let mut room = room_of(alloc, bytes)?;
    status_of(alloc, &["check", "o"], &mut room, out)
}

// Passes where a file of these bytes is refused with this line, without its newline.
fn is_refused(alloc: Global, bytes: &[u8], line: &[u8]) -> Result<(), Fail> {
    let mut out = QuietSink::make(alloc);
    let status = checked(alloc, bytes, &mut out)?;
    agree(
        (status, out.bytes().strip_suffix(b"\n")),
        (3, Some(line)),
        line,
    )
}

// Passes where a file of these bytes stands for an outline, or where it does not.
fn is_read(alloc: Global, bytes: &[u8], wanted: bool) -> Result<(), Fail> {
    let mut out = QuietSink::make(alloc);
    let mut room = room_of(alloc, bytes)?;
    let status = status_of(alloc, &["obligations", "o"], &mut room, &mut out)?;
    agree(status, if wanted { 0 } else { 3 }, bytes)
}

// An outline, the words behind its name, the status, the first line, and lines that are among the others.
struct Verdict {
    text: &'static [u8],
    words: &'static [&'static str],
    status: u8,
    first: &'static [u8],
    among: &'static [&'static str],
}

static VERDICTS: [Verdict; 18] = [
    // A flush between two stores, and none.
    Verdict {
        text: b"pierogi 1; values 2; location x = 0; location y = 0; pre !P(y,1); crash y = 1 -> x = 1; thread 1 { [!P(y,1)] x := 1; [!P(y,1) & L(x,1) & F(1,x)] flush x; [!P(x,0)] y := 1; [!P(x,0)] }",
        words: &[],
        status: 0,
        first: b"accepted 9\n",
        among: &[],
    },
    Verdict {
        text: b"pierogi 1; values 2; location x = 0; location y = 0; pre !P(y,1); crash y = 1 -> x = 1; thread 1 { [!P(y,1)] x := 1; [!P(y,1) & L(x,1) & F(1,x)] y := 1; [true] }",
        words: &[],
        status: 1,
        first: b"rejected 7 crash 1.2\n",
        among: &["\nafter P(x,0)\n", "\nafter P(y,1)\n"],
    },
    // A deferred flush with a fence, and without one.
    Verdict {
        text: b"pierogi 1; values 2; location x = 0; location y = 0; pre !P(y,1); crash y = 1 -> x = 1; thread 1 { [!P(y,1)] x := 1; [!P(y,1) & L(x,1) & O(1,x)] flushopt x; [!P(y,1) & !A(1,x,0)] sfence; [!P(x,0)] y := 1; [true] }",
        words: &[],
        status: 0,
        first: b"accepted 11\n",
        among: &[],
    },
    Verdict {
        text: b"pierogi 1; values 2; location x = 0; location y = 0; pre !P(y,1); crash y = 1 -> x = 1; thread 1 { [!P(y,1)] x := 1; [!P(y,1) & L(x,1) & O(1,x)] flushopt x; [!P(y,1) & !A(1,x,0)] y := 1; [true] }",
        words: &[],
        status: 1,
        first: b"rejected 9 crash 1.3\n",
        among: &[],
    },
    Verdict {
        text: b"pierogi 1; values 2; location x = 0; location y = 0; pre !P(y,1); crash y = 1 -> x = 1; thread 1 { [!P(y,1)] x := 1; [!P(y,1) & L(x,1) & O(1,x)] flushopt x; [!P(x,0)] y := 1; [true] }",
        words: &[],
        status: 1,
        first: b"rejected 6 local 1.2\n",
        among: &[],
    },
    // A message that is passed, and one that is flushed and then passed on.
    Verdict {
        text: b"pierogi 1; values 2; location x = 0; location y = 0; register a of 2; register b of 2; pre !R(2,y,1); thread 1 { [true] x := 1; [L(x,1)] y := 1; [true] } thread 2 { [!C(2,y,1,x,0)] a := y; [a = 1 -> !R(2,x,0)] b := x; [a = 1 -> b = 1] }",
        words: &[],
        status: 0,
        first: b"accepted 24\n",
        among: &[],
    },
    Verdict {
        text: b"pierogi 1; values 2; location x = 0; location y = 0; register a of 2; pre !R(2,x,1) & !P(y,1); crash y = 1 -> x = 1; thread 1 { [true] x := 1; [true] } thread 2 { [!C(2,x,1,x,0) & !P(y,1)] a := x; [(a = 1 -> !R(2,x,0)) & !P(y,1)] flush x; [(a = 1 -> !P(x,0)) & !P(y,1)] y := a; [true] }",
        words: &[],
        status: 0,
        first: b"accepted 22\n",
        among: &[],
    },
    Verdict {
        text: b"pierogi 1; values 2; location x = 0; location y = 0; register a of 2; pre !R(2,x,1) & !P(y,1); crash y = 1 -> x = 1; thread 1 { [true] x := 1; [true] } thread 2 { [!P(y,1)] a := x; [(a = 1 -> !R(2,x,0)) & !P(y,1)] flush x; [(a = 1 -> !P(x,0)) & !P(y,1)] y := a; [true] }",
        words: &[],
        status: 1,
        first: b"rejected 11 local 2.1\n",
        among: &[],
    },
    // Both threads may read the old value of the other one's location.
    Verdict {
        text: b"pierogi 1; values 2; location x = 0; location y = 0; register r of 1; register a of 1; register s of 2; register b of 2; auxiliary e; thread 1 { [true] x := 1; [true] r := x; [true] a := y; [e = 1 -> a = 1 | b = 1] } thread 2 { [true] y := 1; [true] s := y; [true] b := x < e := 1 >; [true] }",
        words: &[],
        status: 1,
        first: b"rejected 17 local 1.3\n",
        among: &["\nafter a = 0\n", "\nafter b = 0\n", "\nafter e = 1\n"],
    },
    // A loop, an auxiliary, a test.
    Verdict {
        text: b"pierogi 1; values 2; register a of 1; thread 1 { [true] while a = 0 { } [!a = 0] }",
        words: &[],
        status: 0,
        first: b"accepted 7\n",
        among: &[],
    },
    Verdict {
        text: b"pierogi 1; values 2; location x = 0; auxiliary e; thread 1 { [true] x := 1 < e := 1 >; [e = 1] }",
        words: &[],
        status: 0,
        first: b"accepted 5\n",
        among: &[],
    },
    Verdict {
        text: b"pierogi 1; values 2; location x = 0; location y = 0; location z = 0; register a of 2; pre !R(2,y,1) & !P(z,1); crash z = 1 -> x = 1; thread 1 { [true] x := 1; [L(x,1)] y := 1; [true] } thread 2 { [!C(2,y,1,x,0) & !P(z,1)] a := y; [(a = 1 -> !R(2,x,0)) & !P(z,1)] if a = 1 { [!R(2,x,0) & !P(z,1)] flush x; [!P(x,0)] z := 1; } [true] }",
        words: &[],
        status: 0,
        first: b"accepted 43\n",
        among: &[],
    },
    // Nothing is held, and nothing is there.
    Verdict {
        text: b"pierogi 1; values 2; thread 1 { [ true ] }",
        words: &[],
        status: 0,
        first: b"accepted 3\n",
        among: &[],
    },
    Verdict {
        text: b"pierogi 1; values 4; location a = 0; location b = 0; location c = 0; location d = 0; location e = 0; location f = 0; thread 1 { [true] } thread 2 { [true] } thread 3 { [true] } thread 4 { [true] }",
        words: &[],
        status: 0,
        first: b"accepted 6\n",
        among: &[],
    },
    // Trees of three and of five nodes.
    Verdict {
        text: SPLIT,
        words: &["3"],
        status: 0,
        first: b"accepted 3\n",
        among: &[],
    },
    Verdict {
        text: SPLIT,
        words: &["2"],
        status: 2,
        first: b"spent 2 entry 1\n",
        among: &[],
    },
    Verdict {
        text: SWAP,
        words: &["5"],
        status: 0,
        first: b"accepted 5\n",
        among: &[],
    },
    Verdict {
        text: SWAP,
        words: &["4"],
        status: 2,
        first: b"spent 4 local 1.1\n",
        among: &[],
    },
];

// The words `check o`, with those behind them.
fn words_of(alloc: Global, case: &'static Verdict) -> Result<Vec<String>, AllocError> {
    let mut list = word_list(alloc, &["check", "o"])?;
    for word in case.words {
        list.push(String::from_str(alloc, *word)?)?;
    }
    Ok(list)
}

// Passes where an outline is judged so.
fn is_judged(alloc: Global, case: &'static Verdict) -> Result<(), Fail> {
    let mut room = room_of(alloc, case.text)?;
    let mut out = QuietSink::make(alloc);
    let words = words_of(alloc, case)?;
    let status = run(alloc, words.as_slice(), &mut room, &mut out);
    agree(
        (status, first_lines(out.bytes(), 1)),
        (case.status, case.first),
        case.text,
    )?;
    has_lines(out.bytes(), case.among)
}

// Passes where these lines are among those of a text.
fn has_lines(text: &[u8], lines: &'static [&'static str]) -> Result<(), Fail> {
    let text = std::str::from_utf8(text).unwrap_or("");
    for line in lines {
        agree(text.contains(*line), true, line.as_bytes())?;
    }
    Ok(())
}

#[test]
fn outlines_are_judged(rt: HostRuntime) -> Result<(), Fail> {
    for case in &VERDICTS {
        is_judged(rt.alloc(), case)?;
    }
    Ok(())
}

// A file and the line that it is refused with. Each has a fault of its text, then of its program,
// then of its formulas.
static REFUSED: [(&[u8], &[u8]); 25] = [
    (b"", b"refused 0 unexpected"),
    (
        b"pierogi 9; values 2; thread 1 { [ true ] }",
        b"refused version 9",
    ),
    (b"pierogi 2 B", b"refused version 2"),
    (b"pierogi 1; values 2; \xff", b"refused 21 not ascii"),
    (
        b"pierogi 1; values 2; thread 1 { [ true",
        b"refused 38 unexpected",
    ),
    (
        b"pierogi 1; values 2; thread 1 { [true] } thread 1 { [true] }",
        b"refused 48 unexpected",
    ),
    (
        b"pierogi 1; values 2; location x = 0; thread 1 { [true] x := @; [true] }",
        b"refused 60 bad character",
    ),
    (
        b"pierogi 1; values 2; location x = 0; location x = 0; thread 1 { [true] }",
        b"refused 46 redeclared",
    ),
    (
        b"pierogi 1; values 2; location flush = 0; thread 1 { [true] }",
        b"refused 30 unexpected",
    ),
    (
        b"pierogi 1; values 2; register abcdefghijklmnopqrstuvwxyz0123456 of 1; thread 1 { [true] }",
        b"refused 30 name too long",
    ),
    (
        b"pierogi 1; values 2; location x = 4294967296; thread 1 { [true] }",
        b"refused 34 number too large",
    ),
    (
        b"pierogi 1; values 2; thread 1 { [true] y := 1; [true] }",
        b"refused 39 unknown name",
    ),
    (
        b"pierogi 1; values 2; pre a = 0; thread 1 { [true] }",
        b"refused 25 unknown name",
    ),
    (
        b"pierogi 1; values 2; crash true; pre true; thread 1 { [true] }",
        b"refused 33 unexpected",
    ),
    (
        b"pierogi 1; values 1; thread 1 { [true] }",
        b"refused domain 1",
    ),
    (
        b"pierogi 1; values 2; register a of 2; thread 1 { [true] }",
        b"refused unknown thread 2",
    ),
    (
        b"pierogi 1; values 2; register a of 1; register b of 2; thread 1 { [true] a := b; [true] } thread 2 { [true] }",
        b"refused foreign register b",
    ),
    (
        b"pierogi 1; values 2; location x = 0; auxiliary e; thread 1 { [true] x := e; [true] }",
        b"refused auxiliary e in program",
    ),
    (
        b"pierogi 1; values 2; location x = 0; auxiliary e; thread 1 { [true] x := 1 < e := 1, e := 0 >; [true] }",
        b"refused auxiliary e twice",
    ),
    (
        b"pierogi 1; values 2; location x = 0; thread 1 { [true] x := 1 + 3; [true] }",
        b"refused value 3",
    ),
    (
        b"pierogi 1; values 2; register a of 1; register b of 1; register c of 1; register d of 1; register e of 1; thread 1 { [true] mfence; [true] while a + b = c + d * e { } [true] }",
        b"refused expression 1.2",
    ),
    (
        b"pierogi 1; values 2; location x = 0; pre P(x,9) & N(9,x); thread 1 { [true] }",
        b"refused value 9",
    ),
    (
        b"pierogi 1; values 2; location x = 0; pre R(9,x,9); thread 1 { [true] }",
        b"refused unknown thread 9",
    ),
    (
        b"pierogi 1; values 2; location x = 0; crash x = 2; thread 1 { [N(0,x)] }",
        b"refused value 2",
    ),
    (
        b"pierogi 1; values 2; location a = 0; location b = 0; location c = 0; location d = 0; crash a = 0 | b = 0 | c = 0 | d = 0; thread 1 { [true] }",
        b"refused crash locations 4",
    ),
];

#[test]
fn files_are_refused(rt: HostRuntime) -> Result<(), Fail> {
    for (bytes, line) in &REFUSED {
        is_refused(rt.alloc(), *bytes, *line)?;
    }
    Ok(())
}

const WHOLE: &[u8] =
    b"pierogi 1; values 2; location x = 0; location y = 0;\npre !P(y,1); crash y = 1 -> x = 1;\n\
    thread 1 { [!P(y,1)] x := 1; [!P(y,1) & L(x,1) & F(1,x)] flush x;\n  [!P(x,0)] y := 1; [!P(x,0)] }\n";

// Of an outline that is read whole no part is, but for one without the last newline.
#[test]
fn prefixes_are_refused(rt: HostRuntime) -> Result<(), Fail> {
    for n in 0..WHOLE.len() + 1 {
        is_read(rt.alloc(), &WHOLE[..n], n + 1 >= WHOLE.len())?;
    }
    Ok(())
}

// The parts of a text: `front`, then `open` n times, `middle`, `close` n times, and `back`. With `most`
// repetitions it is read, and with one more it is refused with the line.
struct Limit {
    front: &'static [u8],
    open: &'static [u8],
    most: u32,
    middle: &'static [u8],
    close: &'static [u8],
    back: &'static [u8],
    line: &'static [u8],
}

static LIMITS: [Limit; 13] = [
    Limit {
        front: b"pierogi 1; values 2; location a = 0; location b = 0; location c = 0; location d = 0; location e = 0; location f = 0; ",
        open: b"location g = 0; ",
        most: 0,
        middle: b"",
        close: b"",
        back: b"thread 1 { [true] }",
        line: b"refused 126 too many",
    },
    Limit {
        front: b"pierogi 1; values 2; auxiliary a; auxiliary b; auxiliary c; auxiliary d; auxiliary e; auxiliary f; auxiliary g; auxiliary h; auxiliary i; auxiliary j; auxiliary k; auxiliary l; auxiliary m; auxiliary n; auxiliary o; auxiliary p; ",
        open: b"auxiliary q; ",
        most: 0,
        middle: b"",
        close: b"",
        back: b"thread 1 { [true] }",
        line: b"refused 239 too many",
    },
    Limit {
        front: b"pierogi 1; values 2; thread 1 { [true] } thread 2 { [true] } thread 3 { [true] } thread 4 { [true] } ",
        open: b"thread 5 { [true] } ",
        most: 0,
        middle: b"",
        close: b"",
        back: b"",
        line: b"refused 101 too many",
    },
    Limit {
        front: b"pierogi 1; values 2; auxiliary ",
        open: b"a",
        most: 32,
        middle: b"",
        close: b"",
        back: b"; thread 1 { [true] }",
        line: b"refused 31 name too long",
    },
    Limit {
        front: b"pierogi 1; values 2; location x = 0; thread 1 { ",
        open: b"[true] x := 1; ",
        most: 31,
        middle: b"[true] }",
        close: b"",
        back: b"",
        line: b"refused 528 too many",
    },
    Limit {
        front: b"pierogi 1; values 2; thread 1 { ",
        open: b"[true] while 0 = 1 { ",
        most: 16,
        middle: b"",
        close: b"} ",
        back: b"[true] }",
        line: b"refused 387 too deep",
    },
    Limit {
        front: b"pierogi 1; values 2; location x = 0; auxiliary a; auxiliary b; auxiliary c; auxiliary d; auxiliary e; thread 1 { [true] x := 1 < a := 1, b := 1, c := 1, d := 1",
        open: b", e := 1",
        most: 0,
        middle: b"",
        close: b"",
        back: b">; [true] }",
        line: b"refused 161 too many",
    },
    Limit {
        front: b"pierogi 1; values 2; pre !false",
        open: b" | !false",
        most: 170,
        middle: b"",
        close: b"",
        back: b"; thread 1 { [true] }",
        line: b"refused 1562 too many",
    },
    Limit {
        front: b"pierogi 1; values 4; location a = 0; location b = 0; location c = 0; crash a = 0 | b = 0 | c = 0",
        open: b" | c = 0",
        most: 58,
        middle: b"",
        close: b"",
        back: b"; thread 1 { [true] }",
        line: b"refused crash nodes 8319",
    },
    Limit {
        front: b"pierogi 1; values 2; pre ",
        open: b"(",
        most: 32,
        middle: b"true",
        close: b")",
        back: b"; thread 1 { [true] }",
        line: b"refused 57 too deep",
    },
    Limit {
        front: b"pierogi 1; values 2; pre ",
        open: b"!",
        most: 32,
        middle: b"true",
        close: b"",
        back: b"; thread 1 { [true] }",
        line: b"refused 57 too deep",
    },
    Limit {
        front: b"pierogi 1; values 2; location x = 0; thread 1 { [true] x := 1",
        open: b" + 1",
        most: 15,
        middle: b"",
        close: b"",
        back: b"; [true] }",
        line: b"refused 124 too many",
    },
    Limit {
        front: b"pierogi 1; values 2; location x = 0; thread 1 { [true] x := ",
        open: b"(",
        most: 32,
        middle: b"1",
        close: b")",
        back: b"; [true] }",
        line: b"refused 92 too deep",
    },
];

// Appends a piece so many times.
fn append(text: &mut Vec<u8>, times: u32, piece: &[u8]) -> Result<(), AllocError> {
    for _i in 0..times {
        text.extend_from_slice(piece)?;
    }
    Ok(())
}

// Appends the text with so many repetitions.
fn append_parts(text: &mut Vec<u8>, limit: &'static Limit, times: u32) -> Result<(), AllocError> {
    append(text, 1, limit.front)?;
    append(text, times, limit.open)?;
    append(text, 1, limit.middle)?;
    append(text, times, limit.close)?;
    append(text, 1, limit.back)
}

// The text with so many repetitions.
fn repeated(alloc: Global, limit: &'static Limit, times: u32) -> Result<Vec<u8>, AllocError> {
    let mut text = Vec::new(alloc);
    append_parts(&mut text, limit, times)?;
    Ok(text)
}

fn keeps_limit(alloc: Global, limit: &'static Limit) -> Result<(), Fail> {
    is_short_enough(alloc, limit)?;
    let text = repeated(alloc, limit, limit.most.saturating_add(1))?;
    is_refused(alloc, &text, limit.line)
}

fn is_short_enough(alloc: Global, limit: &'static Limit) -> Result<(), Fail> {
    let text = repeated(alloc, limit, limit.most)?;
    is_read(alloc, &text, true)
}

#[test]
fn limits_are_kept(rt: HostRuntime) -> Result<(), Fail> {
    for limit in &LIMITS {
        keeps_limit(rt.alloc(), limit)?;
    }
    Ok(())
}

// The beginning of a file as long as may be, the byte that all the rest of it is, and its line.
static LONG: [(&[u8], u8, &[u8]); 10] = [
    (b"", b'(', b"refused 0 unexpected"),
    (b"", b'!', b"refused 0 unexpected"),
    (b"", b'#', b"refused 1048576 unexpected"),
    (b"", b'a', b"refused 0 name too long"),
    (b"", b'1', b"refused 0 number too large"),
    (b"pierogi 1; values 2; pre ", b'(', b"refused 57 too deep"),
    (b"pierogi 1; values 2; pre ", b'!', b"refused 57 too deep"),
    (
        b"pierogi 1; values 2; pre ",
        b'a',
        b"refused 25 name too long",
    ),
    (
        b"pierogi 1; values 2; pre a = ",
        b'1',
        b"refused 25 unknown name",
    ),
    (
        b"pierogi 1; values 2; ",
        b'#',
        b"refused 1048576 unexpected",
    ),
];

fn is_filled_refused(alloc: Global, front: &[u8], byte: u8, line: &[u8]) -> Result<(), Fail> {
    let bytes = filled(alloc, front, 1_048_576, byte)?;
    is_refused(alloc, &bytes, line)
}

#[test]
fn long_files_are_refused(rt: HostRuntime) -> Result<(), Fail> {
    for (front, byte, line) in &LONG {
        is_filled_refused(rt.alloc(), *front, *byte, *line)?;
    }
    Ok(())
}

// A command, an outline and its second file, and then the status and the text.
struct Beside {
    command: &'static str,
    outline: &'static [u8],
    second: &'static [u8],
    status: u8,
    text: &'static [u8],
}

const NOTHING: &[u8] = b"pierogi 1; values 2; thread 1 { [ true ] }";

const UNFLUSHED: &[u8] =
    b"pierogi 1; values 2; location x = 0; location y = 0;\npre !P(y,1); crash y = 1 -> x = 1;\nthread 1 { [!P(y,1)] x := 1; [!P(y,1) & L(x,1) & F(1,x)] y := 1; [true] }";

const OWN_READS: &[u8] =
    b"pierogi 1; values 2; location x = 0; location y = 0;\nregister r of 1; register a of 1; register s of 2; register b of 2; auxiliary e;\nthread 1 { [true] x := 1; [true] r := x; [true] a := y; [e = 1 -> a = 1 | b = 1] }\nthread 2 { [true] y := 1; [true] s := y; [true] b := x < e := 1 >; [true] }";

const CHANGED: &[u8] =
    b"pierogi 1; values 2; location x = 0; register a of 2; thread 1 { [true] x := 1; [true] } thread 2 { [true] a := cas(x, 1, 0); [true] }";

const READ_TWICE: &[u8] =
    b"pierogi 1; values 2; location x = 0; register a of 2; register b of 2; thread 1 { [true] x := 1; [true] } thread 2 { [true] a := x; [true] b := x; [true] }";

const MESSAGE: &[u8] =
    b"pierogi 1; values 2; location x = 0; location y = 0;\nregister a of 2; register b of 2; pre !R(2,y,1);\nthread 1 { [true] x := 1; [L(x,1)] y := 1; [true] }\nthread 2 { [!C(2,y,1,x,0)] a := y; [a = 1 -> !R(2,x,0)] b := x; [a = 1 -> b = 1] }";

const LOOP: &[u8] =
    b"pierogi 1; values 2; register a of 1; thread 1 { [true] while a = 0 { } [!a = 0] }";

// A schedule whose crash finds the second store and not the first, and its trace.
const TORN: &[u8] = b"\
    schedule 1\n\
    step 1\n\
    step 1\n\
    crash at 0 2\n\
    ";

const TORN_TRACE: &[u8] = b"\
    2 1.1 > 1.2 write 1 at 1\n\
    3 1.2 > 1.3 write 1 at 2\n\
    4 crash x=0 y=1\n\
    violated line 4 crash\n\
    ";

static BESIDE: [Beside; 23] = [
    // A derivation, and what spoils it: clauses that are no conflict, that there are not, that are no unit; a tree too few, and one too
    // many; no end, nothing at all, another version; a split without its branches.
    Beside {
        command: "verify",
        outline: NOTHING,
        second: NOTHING_DERIVED,
        status: 0,
        text: b"\
    verified 3\n\
    ",
    },
    Beside {
        command: "verify",
        outline: NOTHING,
        second: b"\
    derivation 1\n\
    obligation 1\n\
    leaf 1 2\n\
    obligation 2\n\
    leaf 1 4\n\
    obligation 3\n\
    leaf 3 4\n\
    end\n\
    ",
        status: 5,
        text: b"\
    refused 2 line 5 no conflict\n\
    ",
    },
    Beside {
        command: "verify",
        outline: NOTHING,
        second: b"\
    derivation 1\n\
    obligation 1\n\
    leaf 1 2\n\
    obligation 2\n\
    leaf 5 3\n\
    obligation 3\n\
    leaf 3 4\n\
    end\n\
    ",
        status: 5,
        text: b"\
    refused 2 line 5 bad clause 5\n\
    ",
    },
    Beside {
        command: "verify",
        outline: NOTHING,
        second: b"\
    derivation 1\n\
    obligation 1\n\
    leaf 1 2\n\
    obligation 2\n\
    leaf 3 4\n\
    obligation 3\n\
    leaf 1 2 4\n\
    end\n\
    ",
        status: 5,
        text: b"\
    refused 3 line 7 not unit 2\n\
    ",
    },
    Beside {
        command: "verify",
        outline: NOTHING,
        second: b"\
    derivation 1\n\
    obligation 1\n\
    leaf 1 2\n\
    obligation 2\n\
    leaf 3 4\n\
    end\n\
    ",
        status: 5,
        text: b"\
    missing 3\n\
    ",
    },
    Beside {
        command: "verify",
        outline: NOTHING,
        second: b"\
    derivation 1\n\
    obligation 1\n\
    leaf 1 2\n\
    obligation 2\n\
    leaf 3 4\n\
    obligation 3\n\
    leaf 3 4\n\
    obligation 4\n\
    leaf 3 4\n\
    end\n\
    ",
        status: 5,
        text: b"\
    extra 4\n\
    ",
    },
    Beside {
        command: "verify",
        outline: NOTHING,
        second: b"\
    derivation 1\n\
    obligation 1\n\
    leaf 1 2\n\
    obligation 2\n\
    leaf 3 4\n\
    obligation 3\n\
    leaf 3 4\n\
    ",
        status: 4,
        text: b"\
    refused second 79 unexpected\n\
    ",
    },
    Beside {
        command: "verify",
        outline: NOTHING,
        second: b"",
        status: 4,
        text: b"\
    refused second 0 unexpected\n\
    ",
    },
    Beside {
        command: "verify",
        outline: NOTHING,
        second: b"\
    derivation 2\n\
    ",
        status: 4,
        text: b"\
    refused second version 2\n\
    ",
    },
    Beside {
        command: "verify",
        outline: NOTHING,
        second: b"\
    derivation 1\n\
    obligation 1\n\
    split 1\n\
    obligation 2\n\
    leaf 3 4\n\
    obligation 3\n\
    leaf 3 4\n\
    end\n\
    ",
        status: 5,
        text: b"\
    refused 1 line 3 ends early\n\
    ",
    },
    // Steps that hold, that are violated, and that are refused: reads, swaps and crashes.
    Beside {
        command: "replay",
        outline: UNFLUSHED,
        second: TORN,
        status: 1,
        text: TORN_TRACE,
    },
    Beside {
        command: "replay",
        outline: OWN_READS,
        second: b"\
    schedule 1\n\
    step 1\n\
    step 1 at 1\n\
    step 2\n\
    step 2 at 2\n\
    step 2 at 0\n\
    step 1 at 0\n\
    ",
        status: 1,
        text: b"\
    2 1.1 > 1.2 write 1 at 1\n\
    3 1.2 > 1.3 read 1\n\
    4 2.1 > 2.2 write 1 at 2\n\
    5 2.2 > 2.3 read 1\n\
    6 2.3 > 2.4 read 0\n\
    7 1.3 > 1.4 read 0\n\
    violated line 7 at 1.4\n\
    ",
    },
    Beside {
        command: "replay",
        outline: CHANGED,
        second: b"\
    schedule 1\n\
    step 2\n\
    ",
        status: 5,
        text: b"\
    refused line 2 cas not last 0\n\
    ",
    },
    Beside {
        command: "replay",
        outline: CHANGED,
        second: b"\
    schedule 1\n\
    step 1\n\
    step 2 at 0\n\
    ",
        status: 0,
        text: b"\
    2 1.1 > 1.2 write 1 at 1\n\
    3 2.1 > 2.2 read 0\n\
    held 2\n\
    ",
    },
    Beside {
        command: "replay",
        outline: CHANGED,
        second: b"\
    schedule 1\n\
    step 1\n\
    step 2 at 1\n\
    ",
        status: 5,
        text: b"\
    2 1.1 > 1.2 write 1 at 1\n\
    refused line 3 cas must differ 1\n\
    ",
    },
    Beside {
        command: "replay",
        outline: READ_TWICE,
        second: b"\
    schedule 1\n\
    step 1\n\
    step 2 at 1\n\
    step 2 at 0\n\
    ",
        status: 5,
        text: b"\
    2 1.1 > 1.2 write 1 at 1\n\
    3 2.1 > 2.2 read 1\n\
    refused line 4 below coherence 0 1\n\
    ",
    },
    Beside {
        command: "replay",
        outline: WHOLE,
        second: b"\
    schedule 1\n\
    step 1\n\
    crash at 0 0\n\
    step 1\n\
    crash at 0 0\n\
    ",
        status: 5,
        text: b"\
    2 1.1 > 1.2 write 1 at 1\n\
    3 crash x=0 y=0\n\
    4 1.2 > 1.3\n\
    refused line 5 overwritten x 0 1\n\
    ",
    },
    Beside {
        command: "replay",
        outline: LOOP,
        second: b"\
    schedule 1\n\
    step 1\n\
    step 1\n\
    ",
        status: 0,
        text: b"\
    2 1.1 > 1.1\n\
    3 1.1 > 1.1\n\
    held 2\n\
    ",
    },
    Beside {
        command: "replay",
        outline: SWAP,
        second: b"\
    schedule 1\n\
    step 1\n\
    ",
        status: 0,
        text: b"\
    2 1.1 > 1.2 read 0 write 1 at 1\n\
    held 1\n\
    ",
    },
    Beside {
        command: "replay",
        outline: MESSAGE,
        second: b"schedule 1\nstep 1\nstep 1\nstep 2 at 2\nstep 2 at 0\n",
        status: 5,
        text: b"2 1.1 > 1.2 write 1 at 1\n3 1.2 > 1.3 write 1 at 2\n4 2.1 > 2.2 read 1\nrefused line 5 hidden 0 1\n",
    },
    Beside {
        command: "replay",
        outline: MESSAGE,
        second: b"schedule 1\nstep 1\nstep 2 at 1\n",
        status: 5,
        text: b"2 1.1 > 1.2 write 1 at 1\nrefused line 3 not a position 1\n",
    },
    // An outline is refused before its second file is read, and a document before the work.
    Beside {
        command: "replay",
        outline: b"pierogi 9;",
        second: b"schedule 9",
        status: 3,
        text: b"refused version 9\n",
    },
    Beside {
        command: "replay",
        outline: LOOP,
        second: b"schedule 9",
        status: 4,
        text: b"refused second version 9\n",
    },
];

// A room with an outline and a second file.
fn room_of_two(
    alloc: Global,
    outline: &[u8],
    second: &[u8],
) -> Result<Vec<(String, Vec<u8>)>, AllocError> {
    let mut files = Vec::new(alloc);
    files.push((
        String::from_str(alloc, "o")?,
        Vec::from_slice(alloc, outline)?,
    ))?;
    files.push((
        String::from_str(alloc, "d")?,
        Vec::from_slice(alloc, second)?,
    ))?;
    Ok(files)
}

// Passes where a command on an outline and a second file ends so.
fn is_answered_beside(alloc: Global, case: &'static Beside) -> Result<(), Fail> {
    let mut room = QuietRoom::make(room_of_two(alloc, case.outline, case.second)?);
    let mut out = QuietSink::make(alloc);
    let status = status_of(alloc, &[case.command, "o", "d"], &mut room, &mut out)?;
    agree((status, out.bytes()), (case.status, case.text), case.text)
}

#[test]
fn second_files_are_answered(rt: HostRuntime) -> Result<(), Fail> {
    for case in &BESIDE {
        is_answered_beside(rt.alloc(), case)?;
    }
    Ok(())
}

// Passes where the call of the fetch with this number fails, and nothing is written.
fn is_not_fetched(alloc: Global, command: &str, failing: u32) -> Result<(), Fail> {
    let mut room = MemoryRoom::make(
        room_of_two(alloc, NOTHING, NOTHING_DERIVED)?,
        vec![in alloc; failing]?,
    );
    let mut out = QuietSink::make(alloc);
    let status = status_of(alloc, &[command, "o", "d"], &mut room, &mut out)?;
    agree((status, out.bytes().len()), (6, 0), command.as_bytes())
}

#[test]
fn files_that_fail_are_told(rt: HostRuntime) -> Result<(), Fail> {
    for command in ["verify", "replay"] {
        is_not_fetched(rt.alloc(), command, 1)?;
        is_not_fetched(rt.alloc(), command, 2)?;
    }
    Ok(())
}

// A command on an outline and a second file, whose text has so many lines, and its status.
struct Whole {
    words: &'static [&'static str],
    outline: &'static [u8],
    second: &'static [u8],
    text: &'static [u8],
    lines: u32,
    status: u8,
}

static WHOLES: [Whole; 5] = [
    Whole {
        words: &["check", "o"],
        outline: b"pierogi 1; values 2; location x = 0; pre L(x,0); thread 1 { [L(x,0)] x := 1; [L(x,0)] }",
        second: b"",
        text: STALE,
        lines: 17,
        status: 1,
    },
    Whole {
        words: &["derive", "o"],
        outline: NOTHING,
        second: b"",
        text: NOTHING_DERIVED,
        lines: 8,
        status: 0,
    },
    Whole {
        words: &["verify", "o", "d"],
        outline: NOTHING,
        second: NOTHING_DERIVED,
        text: b"verified 3\n",
        lines: 1,
        status: 0,
    },
    Whole {
        words: &["replay", "o", "d"],
        outline: UNFLUSHED,
        second: TORN,
        text: TORN_TRACE,
        lines: 4,
        status: 1,
    },
    Whole {
        words: &["made", "1"],
        outline: b"",
        second: b"",
        text: b"made 1\naccepted 12\nnodes 12\n",
        lines: 3,
        status: 0,
    },
];

// Passes where the text is put up to the line that fails.
fn is_cut_short(
    alloc: Global,
    whole: &'static Whole,
    failing: u32,
    status: u8,
) -> Result<(), Fail> {
    let mut room = QuietRoom::make(room_of_two(alloc, whole.outline, whole.second)?);
    let mut out = MemorySink::make(alloc, vec![in alloc; failing]?);
    let found = status_of(alloc, whole.words, &mut room, &mut out)?;
    let wanted = first_lines(whole.text, failing.saturating_sub(1));
    agree((found, out.bytes()), (status, wanted), wanted)
}

// Passes where each line that fails cuts the text there, and one behind the last cuts nothing.
fn is_cut_at_lines(alloc: Global, whole: &'static Whole) -> Result<(), Fail> {
    for before in 0..whole.lines {
        is_cut_short(alloc, whole, before.saturating_add(1), 7)?;
    }
    is_cut_short(alloc, whole, whole.lines.saturating_add(1), whole.status)
}

#[test]
fn failing_puts_cut_texts(rt: HostRuntime) -> Result<(), Fail> {
    for whole in &WHOLES {
        is_cut_at_lines(rt.alloc(), whole)?;
    }
    Ok(())
}

// Passes where a command has these statuses on the prefixes of a second file, from the empty one on.
fn has_prefixes(
    alloc: Global,
    command: &str,
    outline: &[u8],
    second: &[u8],
    statuses: &[u8],
) -> Result<(), Fail> {
    for (n, status) in statuses.iter().enumerate() {
        let mut room = QuietRoom::make(room_of_two(
            alloc,
            outline,
            second.get(..n).unwrap_or(second),
        )?);
        let mut out = QuietSink::make(alloc);
        let found = status_of(alloc, &[command, "o", "d"], &mut room, &mut out)?;
        agree(found, status.wrapping_sub(b'0'), statuses)?;
    }
    Ok(())
}

// The statuses of a command on the prefixes of a second file, as digits. A derivation is none before its last newline. A schedule is one
// where no word is cut or missing; the machine refuses a crash without all its positions.
const PREFIXES_OF_DERIVATION: &[u8] =
    b"444444444444444444444444444444444444444444444444444444444444444444444444444444444440";

const TWO_CRASHES: &[u8] = b"\
    schedule 1\n\
    step 1\n\
    crash at 0 0\n\
    step 1\n\
    crash at 0 0\n\
    ";

const PREFIXES_OF_SCHEDULE: &[u8] = b"4444444444004444400444444455550044444004444444555555";

#[test]
fn prefixes_of_second_files_are_answered(rt: HostRuntime) -> Result<(), Fail> {
    has_prefixes(
        rt.alloc(),
        "verify",
        NOTHING,
        NOTHING_DERIVED,
        PREFIXES_OF_DERIVATION,
    )?;
    has_prefixes(
        rt.alloc(),
        "replay",
        WHOLE,
        TWO_CRASHES,
        PREFIXES_OF_SCHEDULE,
    )
}

const STORES: &[u8] =
    b"pierogi 1; values 2; location x = 0; thread 1 { [true] while 0 = 0 { [true] x := 1; } [true] }";

// A message is written by every other step, and the last one that is tried finds no room for its own.
#[test]
fn messages_are_limited(rt: HostRuntime) -> Result<(), Fail> {
    let mut schedule = Vec::from_slice(rt.alloc(), b"schedule 1\n")?;
    append(&mut schedule, 131_072, b"step 1\n")?;
    let mut room = QuietRoom::make(room_of_two(rt.alloc(), STORES, &schedule)?);
    let mut out = QuietSink::make(rt.alloc());
    let status = status_of(rt.alloc(), &["replay", "o", "d"], &mut room, &mut out)?;
    let line = b"refused line 131073 messages full\n";
    agree((status, out.bytes().ends_with(line)), (5, true), line)
}
