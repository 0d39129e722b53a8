//! Names that are declared, and what the table gives back.

ghost use Rattle.std.specs.Prelude.{◌≡◌, true};
ghost use Rattle.pg_program.specs.NameTable.{MayJoin};

use pg_cases::{agree, on};
use pg_program::{DeclareFault, NameKind, NameRef, Names};
use std::test::Fail;

const LOCATION: NameKind = NameKind::Location { init: 2 };

const REGISTER: NameKind = NameKind::Register { owner: 3 };

/// Names that are declared in this order, each with its kind and the answer: up to six locations and sixteen scalars.
static DECLARATIONS: [(&str, NameKind, Result<NameRef, DeclareFault>); 30] = [
    ("x", LOCATION, Ok(NameRef::Location(0))),
    ("r", REGISTER, Ok(NameRef::Scalar(0))),
    ("a", NameKind::Auxiliary, Ok(NameRef::Scalar(1))),
    ("x", LOCATION, Err(DeclareFault::Redeclared)),
    ("x", REGISTER, Err(DeclareFault::Redeclared)),
    ("r", LOCATION, Err(DeclareFault::Redeclared)),
    ("a", REGISTER, Err(DeclareFault::Redeclared)),
    ("y", LOCATION, Ok(NameRef::Location(1))),
    ("z", LOCATION, Ok(NameRef::Location(2))),
    ("u", LOCATION, Ok(NameRef::Location(3))),
    ("v", LOCATION, Ok(NameRef::Location(4))),
    ("w", LOCATION, Ok(NameRef::Location(5))),
    ("s", LOCATION, Err(DeclareFault::TooMany)),
    ("w", LOCATION, Err(DeclareFault::Redeclared)),
    ("s", REGISTER, Ok(NameRef::Scalar(2))),
    ("b", NameKind::Auxiliary, Ok(NameRef::Scalar(3))),
    ("c", NameKind::Auxiliary, Ok(NameRef::Scalar(4))),
    ("d", NameKind::Auxiliary, Ok(NameRef::Scalar(5))),
    ("e", NameKind::Auxiliary, Ok(NameRef::Scalar(6))),
    ("f", NameKind::Auxiliary, Ok(NameRef::Scalar(7))),
    ("g", NameKind::Auxiliary, Ok(NameRef::Scalar(8))),
    ("h", NameKind::Auxiliary, Ok(NameRef::Scalar(9))),
    ("i", NameKind::Auxiliary, Ok(NameRef::Scalar(10))),
    ("j", NameKind::Auxiliary, Ok(NameRef::Scalar(11))),
    ("k", NameKind::Auxiliary, Ok(NameRef::Scalar(12))),
    ("l", NameKind::Auxiliary, Ok(NameRef::Scalar(13))),
    ("m", NameKind::Auxiliary, Ok(NameRef::Scalar(14))),
    ("n", NameKind::Auxiliary, Ok(NameRef::Scalar(15))),
    ("t", REGISTER, Err(DeclareFault::TooMany)),
    ("r", REGISTER, Err(DeclareFault::Redeclared)),
];

const JOINED: NameKind = NameKind::LocationWith { init: 1 };

/// Names that are declared in this order in version 2, each with its answer and the lines that there are then: up to eight
/// locations. A location begins a line, or stands on that of the one before it.
static SHARED: [(&str, NameKind, Result<NameRef, DeclareFault>, u8); 12] = [
    ("x", LOCATION, Ok(NameRef::Location(0)), 1),
    ("y", JOINED, Ok(NameRef::Location(1)), 1),
    ("r", REGISTER, Ok(NameRef::Scalar(0)), 1),
    ("z", LOCATION, Ok(NameRef::Location(2)), 2),
    ("y", JOINED, Err(DeclareFault::Redeclared), 2),
    ("u", JOINED, Ok(NameRef::Location(3)), 2),
    ("v", JOINED, Ok(NameRef::Location(4)), 2),
    ("w", LOCATION, Ok(NameRef::Location(5)), 3),
    ("s", LOCATION, Ok(NameRef::Location(6)), 4),
    ("t", JOINED, Ok(NameRef::Location(7)), 4),
    ("a", JOINED, Err(DeclareFault::TooMany), 4),
    ("a", LOCATION, Err(DeclareFault::TooMany), 4),
];

/// The line of each of these locations.
const LINES: [u8; 8] = [0, 0, 1, 1, 1, 2, 3, 3];

/// Whether a name of this kind may be declared: a location on the line of another one in version 2 alone.
fn may_join(names: &Names, kind: NameKind) -> bool
    ensures { result ≡ true → MayJoin kind names.now }
{
    match kind {
        NameKind::LocationWith { .. } => names.version() == 2 && names.locations() > 0,
        _ => true,
    }
}

/// Passes where declaring a name has this answer, after which a name that was not declared is not found.
fn declares(
    names: &mut Names,
    name: &str,
    kind: NameKind,
    answer: Result<NameRef, DeclareFault>,
) -> Result<(), Fail> {
    let wanted = match answer {
        Ok(place) => Some(place),
        Err(_) => names.find(name),
    };
    if !may_join(names, kind) {
        return Err(Fail::new("no location is there whose line it may stand on"));
    }
    agree(names.declare(name, kind) == answer, true, name.as_bytes())?;
    agree(names.find(name) == wanted, true, name.as_bytes())
}

/// Passes where each declaration has its answer.
fn are_declared(names: &mut Names) -> Result<(), Fail> {
    for (name, kind, answer) in &DECLARATIONS {
        declares(names, *name, *kind, *answer)?;
    }
    Ok(())
}

#[test]
fn names_are_declared(rt: HostRuntime) -> Result<(), Fail> {
    let mut names = Names::make(rt.alloc(), 3, 1);
    are_declared(&mut names)
}

/// Passes where each declaration in version 2 has its answer, and then the lines that are wanted.
fn share_lines(names: &mut Names) -> Result<(), Fail> {
    for (name, kind, answer, lines) in &SHARED {
        declares(names, *name, *kind, *answer)?;
        agree(names.lines(), *lines, (*name).as_bytes())?;
    }
    Ok(())
}

#[test]
fn locations_stand_on_lines(rt: HostRuntime) -> Result<(), Fail> {
    let mut names = Names::make(rt.alloc(), 6, 2);
    share_lines(&mut names)?;
    for x in 0..names.locations() {
        agree(
            Some(&names.line(x)),
            LINES.get(usize::from(x)),
            names.location_name(x).as_bytes(),
        )?;
    }
    Ok(())
}

const DECLARED: &[u8] =
    b"pierogi 1; values 4; auxiliary e; location x = 2; register r of 1; thread 1 { [true] }";

/// Whether the names are those of this text.
fn are_given_back(names: &Names) -> bool {
    names.version() == 1
        && names.domain() == 4
        && names.locations() == 1
        && names.lines() == 1
        && names.line(0) == 0
        && names.location_name(0) == "x"
        && names.init(0) == 2
        && names.scalars() == 2
        && names.scalar_name(0) == "e"
        && names.kind(0) == NameKind::Auxiliary
        && names.scalar_name(1) == "r"
        && names.kind(1) == NameKind::Register { owner: 1 }
}

#[test]
fn names_are_given_back(rt: HostRuntime) -> Result<(), Fail> {
    on(rt.alloc(), DECLARED, |o| {
        agree(are_given_back(o.program().names()), true, DECLARED)
    })
}
