//! The values of expressions and tests, and what stands in them.

ghost use Rattle.std.specs.Prelude.{◌≡◌, ◌++◌, ◌*◌, ◌<◌, ◌≤◌, length, All, OnOk};
ghost use Rattle.pg_program.specs.Limits.{IsDomainSize, largest_domain_2};
ghost use Rattle.std.specs.List.{find};
ghost use Rattle.pg_program.specs.Expr.{reads, numbers, value, test_holds};
ghost use Rattle.pg_program.specs.Fault.{first_outside};
ghost use Rattle.pg_program.specs.Clause.{is_sought};

use crate::name_table::Names;
use crate::sought::{Sought, if_sought};
use crate::syntax::{Cond, Expr};
use std::alloc::AllocError;

/// The value of an expression over the values of the scalars, modulo the size of the domain.
pub fn eval(expr: &Expr, scalars: &[u8], domain: u32) -> u8
    requires domain { IsDomainSize domain }
    requires values { All (λ v. v < domain) scalars.now }
    requires names { All (λ r. r < length scalars.now) (reads expr.now) }
    ensures value { result ≡ value scalars.now domain expr.now }
    ensures below { result < domain }
{
    match expr {
        Expr::Value(v) => (*v % domain) as u8,
        Expr::Scalar(r) => scalars[usize::from(*r)],
        Expr::Add(a, b) => {
            let left = eval(a.get(), scalars, domain);
            let right = eval(b.get(), scalars, domain);
            (left + right) % domain as u8
        }
        Expr::Sub(a, b) => {
            let left = eval(a.get(), scalars, domain);
            let right = eval(b.get(), scalars, domain);
            (left + (domain as u8 - right)) % domain as u8
        }
        Expr::Mul(a, b) => {
            let left = eval(a.get(), scalars, domain);
            let right = eval(b.get(), scalars, domain);
            product(left, right) % domain as u8
        }
    }
}

/// The product of two values.
fn product(a: u8, b: u8) -> u8
    requires { (a < largest_domain_2) × (b < largest_domain_2) }
    ensures { result ≡ a * b }
{
    a * b
}

/// Whether a test holds over the values of the scalars.
pub fn holds_cond(test: &Cond, scalars: &[u8], domain: u32) -> bool
    requires domain { IsDomainSize domain }
    requires values { All (λ v. v < domain) scalars.now }
    requires left { All (λ r. r < length scalars.now) (reads test.now.left) }
    requires right { All (λ r. r < length scalars.now) (reads test.now.right) }
    ensures { result ≡ test_holds scalars.now domain test.now }
{
    let left = eval(&test.left, scalars, domain);
    let right = eval(&test.right, scalars, domain);
    (left == right) == test.equal
}

/// Appends the scalars that an expression reads, in the order of the text.
pub fn append_reads(expr: &Expr, into: &mut Vec<u8>) -> Result<(), AllocError>
    ensures { OnOk result (into.new.items ≡ into.old.items ++ reads expr.now) }
{
    match expr {
        Expr::Value(_) => Ok(()),
        Expr::Scalar(r) => {
            into.push(*r)?;
            Ok(())
        }
        Expr::Add(a, b) | Expr::Sub(a, b) | Expr::Mul(a, b) => {
            append_reads(a.get(), into)?;
            append_reads(b.get(), into)
        }
    }
}

/// The first scalar of an expression that is sought.
pub fn sought_in(expr: &Expr, names: &Names, sought: Sought) -> Option<u8>
    ensures { result ≡ find (is_sought sought names.now) (reads expr.now) }
{
    match expr {
        Expr::Value(_) => None,
        Expr::Scalar(r) => if_sought(*r, names, sought),
        Expr::Add(a, b) | Expr::Sub(a, b) | Expr::Mul(a, b) => {
            sought_in(a.get(), names, sought).or(sought_in(b.get(), names, sought))
        }
    }
}

/// The first number of an expression that is not below the size of the domain.
pub fn number_outside(expr: &Expr, domain: u32) -> Option<u32>
    ensures { result ≡ first_outside domain (numbers expr.now) }
{
    match expr {
        Expr::Value(v) => (*v >= domain).then_some(*v),
        Expr::Scalar(_) => None,
        Expr::Add(a, b) | Expr::Sub(a, b) | Expr::Mul(a, b) => {
            number_outside(a.get(), domain).or(number_outside(b.get(), domain))
        }
    }
}
