//! Texts of outlines, as the tests write them.

ghost use Rattle.std.specs.Prelude.{IfOk};
ghost use Rattle.pg_program.specs.Program.{IsThread};

use pg_lex::Lexer;
use pg_outline::Outline;
use pg_outline_text::{FileFault, parse_outline};
use pg_program::{Names, ProgramFault, Stmt};
use pg_program_text::{ThreadText, parse_thread};
use std::alloc::{AllocError, Global};
use std::fmt::Debug;
use std::test::Fail;

/// Passes where what was found of a text is what is wanted, and fails a test elsewhere.
pub fn agree<T: PartialEq + Debug + Copy>(found: T, wanted: T, text: &[u8]) -> Result<(), Fail> {
    if found == wanted {
        return Ok(());
    }
    let text = text.escape_ascii();
    Err(Fail::new(format_args!("found {found:?}, and not {wanted:?}, in \"{text}\"")))
}

/// Pieces of a text, each so many times.
pub type Pieces = &'static [(u32, &'static [u8])];

/// The text of these pieces.
pub fn repeated(alloc: Global, pieces: Pieces) -> Result<Vec<u8>, AllocError> {
    let mut text = Vec::new(alloc);
    for (times, piece) in pieces {
        append(&mut text, *times, *piece)?;
    }
    Ok(text)
}

/// Appends a piece so many times.
fn append(text: &mut Vec<u8>, times: u32, piece: &[u8]) -> Result<(), AllocError> {
    for _i in 0..times {
        text.extend_from_slice(piece)?;
    }
    Ok(())
}

/// A text between two others.
pub fn between(
    alloc: Global,
    front: &[u8],
    text: &[u8],
    behind: &[u8],
) -> Result<Vec<u8>, AllocError> {
    let mut whole = Vec::from_slice(alloc, front)?;
    whole.extend_from_slice(text)?;
    whole.extend_from_slice(behind)?;
    Ok(whole)
}

/// A lexer at the start of a text.
pub fn lexer_of(text: &[u8]) -> Result<Lexer<'_>, Fail> {
    if text.len() >= 4294967296 {
        return Err(Fail::new("the text is too long"));
    }
    Ok(Lexer::make(text))
}

/// What a text is read as.
fn read(alloc: Global, text: &[u8]) -> Result<Result<Outline, FileFault>, Fail> {
    if text.len() >= 4294967296 {
        return Err(Fail::new("the text is too long"));
    }
    Ok(parse_outline(alloc, text))
}

/// The outline of a text that has no fault.
fn outline(alloc: Global, text: &[u8]) -> Result<Outline, Fail> {
    Ok(read(alloc, text)??)
}

/// What this makes of the outline of a text.
pub fn on<T, F: FnOnce(&Outline) -> Result<T, Fail> + Drop>(
    alloc: Global,
    text: &[u8],
    makes: F,
) -> Result<T, Fail>
    requires { F.IsAlwaysCallable makes }
{
    let o = outline(alloc, text)?;
    makes(&o)
}

/// The fault of a text as it is written, with the point of an expression, or nothing where the text has none.
pub fn fault_of(alloc: Global, text: &[u8]) -> Result<String, Fail> {
    match read(alloc, text)? {
        Ok(_) => Ok(String::new(alloc)),
        Err(fault) => Ok(written(alloc, &fault)?),
    }
}

fn written(alloc: Global, fault: &FileFault) -> Result<String, AllocError> {
    match fault {
        FileFault::Program(ProgramFault::ExpressionNames(at)) => {
            format!(in alloc; "{fault} at {}.{}", at.thread, at.point)
        }
        _ => format!(in alloc; "{fault}"),
    }
}

/// The statements of a thread over these names.
pub fn thread(alloc: Global, names: &Names, text: &[u8]) -> Result<Vec<Stmt>, Fail>
    ensures { IfOk result (λ ss. IsThread names.now ss.items) }
{
    let mut lexer = lexer_of(text)?;
    let ThreadText { stmts, .. } = parse_thread(alloc, &mut lexer, names)?;
    Ok(stmts)
}
