//! Atoms. `r` is a scalar, `x` and `y` are locations, by their places from 0 in the order of declaration; `t` is a
//! thread, from 1; `k`, `v` and `w` are values. The letter in front of each is the one of its spelling.

/// An atom of an assertion, about one state of the machine.
#[derive(Clone, Copy)]
pub enum ViewAtom {
    /// `r = k`: the scalar is `k`.
    Scalar { r: u8, k: u8 },
    /// `L(x,v)`: the last value of `x` is `v`.
    Last { x: u8, v: u8 },
    /// `R(t,x,v)`: thread `t` may read `v` from `x`.
    Read { t: u8, x: u8, v: u8 },
    /// `P(x,v)`: a crash may leave `v` in `x`.
    Persist { x: u8, v: u8 },
    /// `A(t,x,v)`: a crash may leave `v` in `x` once a fence of thread `t` has completed its flushes.
    Async { t: u8, x: u8, v: u8 },
    /// `C(t,x,v,y,w)`: thread `t` may read `v` from `x`, and then `w` from `y`.
    Then { t: u8, x: u8, v: u8, y: u8, w: u8 },
    /// `N(t,x)`: of `x` thread `t` may read the last message alone.
    Newest { t: u8, x: u8 },
    /// `O(t,x)`: what thread `t` flushes by `flushopt x` is ordered after the last store to `x`.
    Ordered { t: u8, x: u8 },
    /// `F(t,x)`: what thread `t` flushes by `flush x`, or fences, is ordered after the last store to `x`.
    Fenced { t: u8, x: u8 },
}

/// An atom of an assertion as a text has it: its values and threads are any numbers, and may be none of the
/// outline's.
#[derive(Clone, Copy)]
pub enum RawAtom {
    Scalar {
        r: u8,
        k: u32,
    },
    Last {
        x: u8,
        v: u32,
    },
    Read {
        t: u32,
        x: u8,
        v: u32,
    },
    Persist {
        x: u8,
        v: u32,
    },
    Async {
        t: u32,
        x: u8,
        v: u32,
    },
    Then {
        t: u32,
        x: u8,
        v: u32,
        y: u8,
        w: u32,
    },
    Newest {
        t: u32,
        x: u8,
    },
    Ordered {
        t: u32,
        x: u8,
    },
    Fenced {
        t: u32,
        x: u8,
    },
}

/// An atom of a crash formula, about a memory that a crash leaves.
#[derive(Clone, Copy)]
pub enum CrashAtom {
    /// `r = k`: the scalar is `k` at the crash.
    Scalar { r: u8, k: u32 },
    /// `x = v`: the memory has `v` in `x`.
    Location { x: u8, v: u32 },
}
