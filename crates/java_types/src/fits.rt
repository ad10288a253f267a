//! Which types fit operators, targets and parameters.

ghost use Rattle.std.specs.Prelude.{◌≡◌};
ghost use Rattle.java_types.specs.Fits as spec;

use crate::walk::Given;
use java_tree::words::is_text;
use java_tree::{ExprType, ValueType};
use sdg_base::{BinOp, Num, UnOp};

/// The type `int`.
pub const INT: ExprType = ExprType::Value(ValueType::Int);

/// The type `long`.
pub const LONG: ExprType = ExprType::Value(ValueType::Long);

/// The type `boolean`.
pub const BOOLEAN: ExprType = ExprType::Value(ValueType::Boolean);

/// The type of vectors.
pub const VECTOR: ExprType = ExprType::Value(ValueType::Vector);

pub fn is_known(found: ExprType) -> bool
    ensures { result ≡ spec.is_known found }
{
    !matches!(found, ExprType::Unknown)
}

pub fn is_void(found: ExprType) -> bool
    ensures { result ≡ spec.is_void found }
{
    matches!(found, ExprType::Void)
}

fn is_long(found: ExprType) -> bool
    ensures { result ≡ spec.is_long found }
{
    matches!(found, ExprType::Value(ValueType::Long))
}

pub fn is_vector(found: ExprType) -> bool
    ensures { result ≡ spec.is_vector found }
{
    matches!(found, ExprType::Value(ValueType::Vector))
}

fn may_be_int(found: ExprType) -> bool
    ensures { result ≡ spec.may_be_int found }
{
    matches!(found, ExprType::Unknown | ExprType::Value(ValueType::Int))
}

/// Whether it is a number, or has no type.
pub fn may_be_number(found: ExprType) -> bool
    ensures { result ≡ spec.may_be_number found }
{
    matches!(
        found,
        ExprType::Unknown | ExprType::Value(ValueType::Int) | ExprType::Value(ValueType::Long)
    )
}

pub fn may_be_boolean(found: ExprType) -> bool
    ensures { result ≡ spec.may_be_boolean found }
{
    matches!(
        found,
        ExprType::Unknown | ExprType::Value(ValueType::Boolean)
    )
}

fn may_be_vector(found: ExprType) -> bool
    ensures { result ≡ spec.may_be_vector found }
{
    matches!(
        found,
        ExprType::Unknown | ExprType::Value(ValueType::Vector)
    )
}

pub fn may_be_collection(found: ExprType) -> bool
    ensures { result ≡ spec.may_be_collection found }
{
    matches!(found, ExprType::Unknown | ExprType::Collection(_))
}

/// The type of a collection's members.
pub fn item_type(found: ExprType) -> ExprType
    ensures { result ≡ spec.item_type found }
{
    match found {
        ExprType::Collection(item) => ExprType::Value(item),
        _ => ExprType::Unknown,
    }
}

fn is_same(first: ValueType, second: ValueType) -> bool
    ensures { result ≡ spec.is_same first second }
{
    match first {
        ValueType::Int => matches!(second, ValueType::Int),
        ValueType::Long => matches!(second, ValueType::Long),
        ValueType::Boolean => matches!(second, ValueType::Boolean),
        ValueType::Vector => matches!(second, ValueType::Vector),
    }
}

/// The type, unless a rule is broken.
pub fn unless(broken: bool, found: ExprType) -> ExprType
    ensures { result ≡ spec.unless broken found }
{
    if broken { ExprType::Unknown } else { found }
}

/// The type of a whole with one part.
pub fn with_part(broken: bool, part: ExprType, whole: ExprType) -> ExprType
    ensures { result ≡ spec.with_part broken part whole }
{
    if broken || !is_known(part) {
        ExprType::Unknown
    } else {
        whole
    }
}

/// What operands an operator takes, and what it gives.
#[derive(Clone, Copy)]
pub enum Sort {
    /// Numbers, and gives their promoted type.
    Arithmetic,
    /// Numbers, and gives the type of the left one.
    Shift,
    /// Numbers, and gives a boolean.
    Comparison,
    /// Two numbers or two booleans, and gives a boolean.
    Equality,
    /// Two numbers or two booleans, and gives their promoted type.
    Bitwise,
    /// Booleans, and gives one.
    Logical,
}

pub fn sort_of(op: BinOp) -> Sort
    ensures { result ≡ spec.sort_of op }
{
    match op {
        BinOp::Mul | BinOp::Div | BinOp::Rem | BinOp::Add | BinOp::Sub => Sort::Arithmetic,
        BinOp::Shl | BinOp::Shr | BinOp::UShr => Sort::Shift,
        BinOp::Lt | BinOp::Le | BinOp::Gt | BinOp::Ge => Sort::Comparison,
        BinOp::Eq | BinOp::Ne => Sort::Equality,
        BinOp::And | BinOp::Xor | BinOp::Or => Sort::Bitwise,
        BinOp::AndAlso | BinOp::OrElse => Sort::Logical,
    }
}

/// Whether a value may be an operand.
pub fn is_operand(sort: Sort, found: ExprType) -> bool
    ensures { result ≡ spec.is_operand sort found }
{
    match sort {
        Sort::Arithmetic | Sort::Shift | Sort::Comparison => may_be_number(found),
        Sort::Equality | Sort::Bitwise => may_be_number(found) || may_be_boolean(found),
        Sort::Logical => may_be_boolean(found),
    }
}

/// Whether two operands go together: both are numbers, or both booleans.
fn go_together(left: ExprType, right: ExprType) -> bool
    ensures { result ≡ spec.go_together left right }
{
    (may_be_number(left) && may_be_number(right)) || (may_be_boolean(left) && may_be_boolean(right))
}

/// Whether vectors stand where values are compared.
pub fn are_vectors_compared(sort: Sort, left: ExprType, right: ExprType) -> bool
    ensures { result ≡ spec.are_vectors_compared sort left right }
{
    match sort {
        Sort::Equality => is_vector(left) || is_vector(right),
        _ => false,
    }
}

/// Whether the value on the right does not fit, by itself or beside one that does.
pub fn misfits_behind(sort: Sort, left: ExprType, right: ExprType) -> bool
    ensures { result ≡ spec.misfits_behind sort left right }
{
    !is_operand(sort, right) || (is_operand(sort, left) && !go_together(left, right))
}

/// The promoted type of two values that go together (JLS 5.6).
fn promoted(left: ExprType, right: ExprType) -> ExprType
    ensures { result ≡ spec.promoted left right }
{
    if is_long(left) || is_long(right) {
        LONG
    } else {
        left
    }
}

fn given_by(sort: Sort, left: ExprType, right: ExprType) -> ExprType
    ensures { result ≡ spec.given_by sort left right }
{
    match sort {
        Sort::Arithmetic | Sort::Bitwise => promoted(left, right),
        Sort::Shift => left,
        Sort::Comparison | Sort::Equality | Sort::Logical => BOOLEAN,
    }
}

/// What an operator gives.
pub fn outcome(broken: bool, sort: Sort, left: ExprType, right: ExprType) -> ExprType
    ensures { result ≡ spec.outcome broken sort left right }
{
    if broken || (!is_known(left) || !is_known(right)) {
        ExprType::Unknown
    } else {
        given_by(sort, left, right)
    }
}

/// What `?:` gives.
pub fn choice(broken: bool, test: ExprType, first: ExprType, second: ExprType) -> ExprType
    ensures { result ≡ spec.choice broken test first second }
{
    if broken || (!is_known(test) || (!is_known(first) || !is_known(second))) {
        ExprType::Unknown
    } else {
        promoted(first, second)
    }
}

pub fn takes(op: UnOp, found: ExprType) -> bool
    ensures { result ≡ spec.takes op found }
{
    match op {
        UnOp::Plus | UnOp::Minus | UnOp::Complement => may_be_number(found),
        UnOp::Not => may_be_boolean(found),
    }
}

pub fn is_minus(op: UnOp) -> bool
    ensures { result ≡ spec.is_minus op }
{
    matches!(op, UnOp::Minus)
}

pub fn type_of_num(to: Num) -> ExprType
    ensures { result ≡ spec.type_of_num to }
{
    match to {
        Num::Int => INT,
        Num::Long => LONG,
    }
}

pub fn literal(long: bool) -> ExprType
    ensures { result ≡ spec.literal long }
{
    if long { LONG } else { INT }
}

/// Whether the decimal literal is one that only a minus may stand before (JLS 3.10.1).
pub fn is_minimum(digits: u64, decimal: bool, long: bool) -> bool
    ensures { result ≡ spec.is_minimum digits decimal long }
{
    let least = if long {
        0x8000_0000_0000_0000
    } else {
        0x8000_0000
    };
    decimal && digits == least
}

/// Whether a value goes where a type is wanted (JLS 5.2): it has it, or is an `int` where a `long` is
/// wanted.
fn value_fits(wanted: ValueType, found: ExprType) -> bool
    ensures { result ≡ spec.value_fits wanted found }
{
    match wanted {
        ValueType::Int => may_be_int(found),
        ValueType::Long => may_be_number(found),
        ValueType::Boolean => may_be_boolean(found),
        ValueType::Vector => may_be_vector(found),
    }
}

/// The same where there may be no type that is wanted.
pub fn fits(wanted: ExprType, found: ExprType) -> bool
    ensures { result ≡ spec.fits wanted found }
{
    match wanted {
        ExprType::Unknown => true,
        ExprType::Value(wanted) => value_fits(wanted, found),
        _ => !is_known(found),
    }
}

fn is_value_of(item: ValueType, found: ExprType) -> bool
    ensures { result ≡ spec.is_value_of item found }
{
    match found {
        ExprType::Unknown => true,
        ExprType::Value(other) => is_same(item, other),
        _ => false,
    }
}

fn is_collection_of(item: ValueType, found: ExprType) -> bool
    ensures { result ≡ spec.is_collection_of item found }
{
    match found {
        ExprType::Unknown => true,
        ExprType::Collection(other) => is_same(item, other),
        _ => false,
    }
}

/// Whether an argument may be passed for a parameter. `@Global` makes a collection of a value of
/// exactly the members' type.
pub fn may_be_passed(wanted: ExprType, given: Given) -> bool
    ensures { result ≡ spec.may_be_passed wanted given }
{
    match wanted {
        ExprType::Collection(item) => {
            if given.is_global {
                is_value_of(item, given.found)
            } else {
                is_collection_of(item, given.found)
            }
        }
        _ => fits(wanted, given.found),
    }
}

/// Whether this is a name of what stands before its dot: a collection has `length`.
pub fn may_have_length(owner: ExprType, name: &[u8]) -> bool
    ensures { result ≡ spec.may_have_length owner name.now }
{
    match owner {
        ExprType::Unknown => true,
        ExprType::Collection(_) => is_text(name, b"length"),
        _ => false,
    }
}

/// The type of `new` with a name.
pub fn made_type(is_vector: bool) -> ExprType
    ensures { result ≡ spec.made_type is_vector }
{
    if is_vector { VECTOR } else { ExprType::Unknown }
}
