//! Texts of derivations: the first fault of each that is none, and what is printed of one that is.

use pg_cases::agree;
use pg_derivation::{
    Derivation, append_end, append_header, append_leaf, append_obligation, append_split,
    parse_derivation, print_derivation,
};
use pg_document::DocFault;
use pg_region::Lit;
use std::alloc::{AllocError, Global};
use std::test::Fail;

/// The first fault of a text, if it has one.
fn fault_of(alloc: Global, text: &[u8]) -> Result<Option<DocFault>, Fail> {
    if text.len() >= 4294967296 {
        return Err(Fail::new("the text is too long"));
    }
    Ok(parse_derivation(alloc, text).err())
}

/// The derivation of a text that has no fault.
pub fn derivation(alloc: Global, text: &[u8]) -> Result<Derivation, Fail> {
    if text.len() >= 4294967296 {
        return Err(Fail::new("the text is too long"));
    }
    Ok(parse_derivation(alloc, text)?)
}

/// Texts that are no derivations, and the first fault of each.
static REFUSED: [(&[u8], DocFault); 62] = [
    // The first line.
    (b"", DocFault::Unexpected(0)),
    (b"\n", DocFault::Unexpected(0)),
    (b" derivation 1\nend\n", DocFault::Unexpected(0)),
    (b"derivatio", DocFault::Unexpected(0)),
    (b"derivations 1\nend\n", DocFault::Unexpected(0)),
    (b"derivation\t1\nend\n", DocFault::Unexpected(0)),
    (b"Derivation 1\nend\n", DocFault::Unexpected(0)),
    (b"derivation", DocFault::Unexpected(10)),
    (b"derivation\n1\nend\n", DocFault::Unexpected(10)),
    (b"derivation ", DocFault::Unexpected(11)),
    (b"derivation  1\nend\n", DocFault::Unexpected(11)),
    (b"derivation x\nend\n", DocFault::Unexpected(11)),
    (b"derivation 1\r\nend\n", DocFault::Unexpected(11)),
    (b"derivation 1", DocFault::Unexpected(12)),
    (b"derivation 1 \nend\n", DocFault::Unexpected(13)),
    (b"derivation 1 1\nend\n", DocFault::Unexpected(13)),
    // The version, whatever stands behind it.
    (b"derivation 2\n", DocFault::Version(2)),
    (b"derivation 2", DocFault::Version(2)),
    (b"derivation 2 more\xff", DocFault::Version(2)),
    (
        b"derivation 2147483647\nend\n",
        DocFault::Version(2147483647),
    ),
    (b"derivation 2147483648\nend\n", DocFault::Unexpected(11)),
    (b"derivation 0\nend\n", DocFault::Unexpected(11)),
    (b"derivation 01\nend\n", DocFault::Unexpected(11)),
    (b"derivation -1\nend\n", DocFault::Unexpected(11)),
    // The last line.
    (b"derivation 1\n", DocFault::Unexpected(13)),
    (b"derivation 1\nen", DocFault::Unexpected(13)),
    (b"derivation 1\n\nend\n", DocFault::Unexpected(13)),
    (b"derivation 1\n# none\nend\n", DocFault::Unexpected(13)),
    (b"derivation 1\nend", DocFault::Unexpected(16)),
    (b"derivation 1\nend 1\n", DocFault::Unexpected(17)),
    (b"derivation 1\nend \n", DocFault::Unexpected(17)),
    (b"derivation 1\nend\n\n", DocFault::Unexpected(17)),
    (b"derivation 1\nend\nend\n", DocFault::Unexpected(17)),
    // The line of an obligation.
    (b"derivation 1\nleaf 1\nend\n", DocFault::Unexpected(13)),
    (
        b"derivation 1\nobligation\nleaf 1\nend\n",
        DocFault::Unexpected(23),
    ),
    (
        b"derivation 1\nobligation 0\nleaf 1\nend\n",
        DocFault::Unexpected(24),
    ),
    (
        b"derivation 1\nobligation 2\nleaf 1\nend\n",
        DocFault::Unexpected(24),
    ),
    (
        b"derivation 1\nobligation 01\nleaf 1\nend\n",
        DocFault::Unexpected(24),
    ),
    (b"derivation 1\nobligation 1", DocFault::Unexpected(25)),
    (
        b"derivation 1\nobligation 1 1\nleaf 1\nend\n",
        DocFault::Unexpected(26),
    ),
    (
        b"derivation 1\nobligation 1\nend\n",
        DocFault::Unexpected(26),
    ),
    (
        b"derivation 1\nobligation 1\nobligation 2\nleaf 1\nend\n",
        DocFault::Unexpected(26),
    ),
    (
        b"derivation 1\nobligation 1\nleaf 1\nobligation 1\nleaf 1\nend\n",
        DocFault::Unexpected(44),
    ),
    (
        b"derivation 1\nobligation 1\nleaf 1\nobligation 3\nleaf 1\nend\n",
        DocFault::Unexpected(44),
    ),
    // The line of a leaf.
    (
        b"derivation 1\nobligation 1\nleaves 1\nend\n",
        DocFault::Unexpected(26),
    ),
    (
        b"derivation 1\nobligation 1\nleaf\nend\n",
        DocFault::Unexpected(30),
    ),
    (
        b"derivation 1\nobligation 1\nleaf \nend\n",
        DocFault::Unexpected(31),
    ),
    (
        b"derivation 1\nobligation 1\nleaf 0\nend\n",
        DocFault::Unexpected(31),
    ),
    (
        b"derivation 1\nobligation 1\nleaf -1\nend\n",
        DocFault::Unexpected(31),
    ),
    (
        b"derivation 1\nobligation 1\nleaf 1",
        DocFault::Unexpected(32),
    ),
    (
        b"derivation 1\nobligation 1\nleaf 1 02\nend\n",
        DocFault::Unexpected(33),
    ),
    (
        b"derivation 1\nobligation 1\nleaf 1  2\nend\n",
        DocFault::Unexpected(33),
    ),
    (
        b"derivation 1\nobligation 1\nleaf 1 \nend\n",
        DocFault::Unexpected(33),
    ),
    (
        b"derivation 1\nobligation 1\nleaf 10 2147483648\nend\n",
        DocFault::Unexpected(34),
    ),
    (
        b"derivation 1\nobligation 1\nleaf 1\n",
        DocFault::Unexpected(33),
    ),
    // The line of a split.
    (
        b"derivation 1\nobligation 1\nsplit\nleaf 1\nend\n",
        DocFault::Unexpected(31),
    ),
    (
        b"derivation 1\nobligation 1\nsplit 0\nleaf 1\nend\n",
        DocFault::Unexpected(32),
    ),
    (
        b"derivation 1\nobligation 1\nsplit -0\nleaf 1\nend\n",
        DocFault::Unexpected(32),
    ),
    (
        b"derivation 1\nobligation 1\nsplit --1\nleaf 1\nend\n",
        DocFault::Unexpected(32),
    ),
    (
        b"derivation 1\nobligation 1\nsplit - 1\nleaf 1\nend\n",
        DocFault::Unexpected(32),
    ),
    (
        b"derivation 1\nobligation 1\nsplit -2147483648\nleaf 1\nend\n",
        DocFault::Unexpected(32),
    ),
    (
        b"derivation 1\nobligation 1\nsplit -1 2\nleaf 1\nend\n",
        DocFault::Unexpected(35),
    ),
];

/// Passes where each text has this first fault.
fn are_refused(alloc: Global, cases: &[(&[u8], DocFault)]) -> Result<(), Fail> {
    for (text, fault) in cases {
        agree(fault_of(alloc, *text)?, Some(*fault), *text)?;
    }
    Ok(())
}

#[test]
fn other_texts_have_a_first_fault(rt: HostRuntime) -> Result<(), Fail> {
    are_refused(rt.alloc(), &REFUSED)
}

/// Texts that are derivations, whatever their trees are worth. There is no other spelling of the same.
static TAKEN: [&[u8]; 4] = [
    b"derivation 1\nend\n",
    b"derivation 1\nobligation 1\nleaf 1 2\nobligation 2\nleaf 3 4\nobligation 3\nleaf 3 4\nend\n",
    b"derivation 1\nobligation 1\nsplit 1\nobligation 2\nsplit -2147483647\nsplit -1\nleaf 2147483647\nend\n",
    b"derivation 1\nobligation 1\nleaf 10 9 8 10\nleaf 1\nsplit 100\nend\n",
];

/// What is printed of the derivation of a text.
fn printed(alloc: Global, text: &[u8]) -> Result<Vec<u8>, Fail> {
    let d = derivation(alloc, text)?;
    Ok(print_derivation(alloc, &d)?)
}

#[test]
fn derivations_are_printed_as_they_stand(rt: HostRuntime) -> Result<(), Fail> {
    for text in &TAKEN {
        let found = printed(rt.alloc(), *text)?;
        agree(found.as_slice(), *text, *text)?;
    }
    Ok(())
}

/// Appends a line of each kind.
fn append_lines(into: &mut Vec<u8>) -> Result<(), AllocError> {
    append_header(into)?;
    append_obligation(into, 1)?;
    append_split(into, Lit::of(30, false))?;
    append_leaf(into, &[1, 20])?;
    append_leaf(into, &[2147483647])?;
    append_end(into)
}

#[test]
fn lines_are_appended(rt: HostRuntime) -> Result<(), Fail> {
    let wanted = b"derivation 1\nobligation 1\nsplit -30\nleaf 1 20\nleaf 2147483647\nend\n";
    let mut text = Vec::new(rt.alloc());
    append_lines(&mut text)?;
    agree(text.as_slice(), wanted.as_slice(), wanted)
}
