//! Texts of outlines that the tests share.

/// A flush between two stores: what is stored second persists after what is stored first.
pub const FLUSHED: &[u8] =
    b"pierogi 1; values 2; location x = 0; location y = 0; pre !P(y,1); crash y = 1 -> x = 1; \
thread 1 { [!P(y,1)] x := 1; [!P(y,1) & L(x,1) & F(1,x)] flush x; [!P(x,0)] y := 1; [!P(x,0)] }";

/// The same without the flush.
pub const UNFLUSHED: &[u8] =
    b"pierogi 1; values 2; location x = 0; location y = 0; pre !P(y,1); crash y = 1 -> x = 1; \
thread 1 { [!P(y,1)] x := 1; [!P(y,1) & L(x,1) & F(1,x)] y := 1; [true] }";

/// A `flushopt` and a fence between two stores.
pub const FENCED: &[u8] =
    b"pierogi 1; values 2; location x = 0; location y = 0; pre !P(y,1); crash y = 1 -> x = 1; \
thread 1 { [!P(y,1)] x := 1; [!P(y,1) & L(x,1) & O(1,x)] flushopt x; [!P(y,1) & !A(1,x,0)] sfence; [!P(x,0)] y := 1; [true] }";

/// The same without the fence, and with an assertion that only the fence would give.
pub const UNFENCED: &[u8] =
    b"pierogi 1; values 2; location x = 0; location y = 0; pre !P(y,1); crash y = 1 -> x = 1; \
thread 1 { [!P(y,1)] x := 1; [!P(y,1) & L(x,1) & O(1,x)] flushopt x; [!P(y,1) & !A(1,x,0)] y := 1; [true] }";

pub const HASTY: &[u8] =
    b"pierogi 1; values 2; location x = 0; location y = 0; pre !P(y,1); crash y = 1 -> x = 1; \
thread 1 { [!P(y,1)] x := 1; [!P(y,1) & L(x,1) & O(1,x)] flushopt x; [!P(x,0)] y := 1; [true] }";

/// Nothing is held.
pub const NOTHING: &[u8] = b"pierogi 1; values 2; thread 1 { [ true ] }";

/// Message passing.
pub const PASSED: &[u8] =
    b"pierogi 1; values 2; location x = 0; location y = 0; register a of 2; register b of 2; pre !R(2,y,1); \
thread 1 { [true] x := 1; [L(x,1)] y := 1; [true] } \
thread 2 { [!C(2,y,1,x,0)] a := y; [a = 1 -> !R(2,x,0)] b := x; [a = 1 -> b = 1] }";

/// A location that is read by another thread, which flushes it.
pub const SHARED: &[u8] = b"pierogi 1; values 2; location x = 0; location y = 0; register a of 2; \
pre !R(2,x,1) & !P(y,1); crash y = 1 -> x = 1; thread 1 { [true] x := 1; [true] } \
thread 2 { [!C(2,x,1,x,0) & !P(y,1)] a := x; [(a = 1 -> !R(2,x,0)) & !P(y,1)] flush x; [(a = 1 -> !P(x,0)) & !P(y,1)] y := a; [true] }";

/// The same with less held at the start of the second thread.
pub const FORGOTTEN: &[u8] =
    b"pierogi 1; values 2; location x = 0; location y = 0; register a of 2; \
pre !R(2,x,1) & !P(y,1); crash y = 1 -> x = 1; thread 1 { [true] x := 1; [true] } \
thread 2 { [!P(y,1)] a := x; [(a = 1 -> !R(2,x,0)) & !P(y,1)] flush x; [(a = 1 -> !P(x,0)) & !P(y,1)] y := a; [true] }";

/// Store buffering with own reads.
pub const BUFFERED: &[u8] = b"pierogi 1; values 2; location x = 0; location y = 0; \
register r of 1; register a of 1; register s of 2; register b of 2; auxiliary e; \
thread 1 { [true] x := 1; [true] r := x; [true] a := y; [e = 1 -> a = 1 | b = 1] } \
thread 2 { [true] y := 1; [true] s := y; [true] b := x < e := 1 >; [true] }";

/// A store, and a cas of another thread.
pub const SWAPPED: &[u8] = b"pierogi 1; values 2; location x = 0; register a of 2; \
thread 1 { [true] x := 1; [true] } thread 2 { [true] a := cas(x, 1, 0); [true] }";

/// A store, and two loads of another thread.
pub const READ_TWICE: &[u8] =
    b"pierogi 1; values 2; location x = 0; register a of 2; register b of 2; \
thread 1 { [true] x := 1; [true] } thread 2 { [true] a := x; [true] b := x; [true] }";

/// A loop without a body.
pub const WAITING: &[u8] =
    b"pierogi 1; values 2; register a of 1; thread 1 { [true] while a = 0 { } [!a = 0] }";

/// An auxiliary.
pub const MARKED: &[u8] =
    b"pierogi 1; values 2; location x = 0; auxiliary e; thread 1 { [true] x := 1 < e := 1 >; [e = 1] }";

/// The tree of the second obligation has three nodes.
pub const SPLIT: &[u8] =
    b"pierogi 1; values 2; location x = 0; location y = 0; pre (N(1,x) | N(1,y)) & (N(1,x) | !N(1,y)); \
thread 1 { [N(1,x) & N(1,y) | N(1,x) & !N(1,y)] }";

/// As many atoms as an outline may have.
pub const LARGE: &[u8] =
    b"pierogi 1; values 4; location a = 0; location b = 0; location c = 0; location d = 0; location e = 0; location f = 0; \
thread 1 { [true] } thread 2 { [true] } thread 3 { [true] } thread 4 { [true] }";

/// Message passing with a flush in a branch.
pub const BRANCHED: &[u8] =
    b"pierogi 1; values 2; location x = 0; location y = 0; location z = 0; register a of 2; \
pre !R(2,y,1) & !P(z,1); crash z = 1 -> x = 1; thread 1 { [true] x := 1; [L(x,1)] y := 1; [true] } \
thread 2 { [!C(2,y,1,x,0) & !P(z,1)] a := y; [(a = 1 -> !R(2,x,0)) & !P(z,1)] \
if a = 1 { [!R(2,x,0) & !P(z,1)] flush x; [!P(x,0)] z := 1; } [true] }";

/// A cas that succeeds. The tree of the fourth obligation has five nodes.
pub const RAISED: &[u8] =
    b"pierogi 1; values 2; location x = 0; register a of 1; pre L(x,0) & F(1,x); \
thread 1 { [L(x,0) & F(1,x)] a := cas(x, 0, 1); [a = 0 & L(x,1) & N(1,x)] }";

/// A store, between two assertions.
pub const STORED: &[u8] =
    b"pierogi 1; values 2; location x = 0; pre L(x,0); thread 1 { [L(x,0)] x := 1; [L(x,1)] }";

/// The same, where the second assertion still has the old value.
pub const STALE: &[u8] =
    b"pierogi 1; values 2; location x = 0; pre L(x,0); thread 1 { [L(x,0)] x := 1; [L(x,0)] }";
