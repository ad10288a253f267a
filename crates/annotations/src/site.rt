//! Where the accesses to state go.

use java_tree::Declaration;
use sqlite_items::Items;

/// How the instances of a field hold its state: each a part of it, chosen by a key, or each a state of its own. Of a
/// field without exactly one annotation it says nothing: such a class is refused.
#[derive(Clone, Copy, Debug, PartialEq, Eq)]
pub enum FieldKind {
    /// `@Partitioned`
    Partitioned,
    /// `@Partial`
    Partial,
}

/// The kind of each field, in text order.
pub type Kinds = Items<FieldKind>;

/// The first argument of an access to a partitioned field, without the parentheses round it.
#[derive(Clone, Copy, Debug)]
pub enum Key {
    /// A literal, by the number that its digits write in two's complement (JLS 3.10.1): in 64 bits with a suffix, and
    /// else in 32, which is then widened.
    Literal(i64),
    /// A name, by what it stands for.
    Variable(Declaration),
    /// Every other expression, also a literal behind a minus or a cast.
    Compound,
}

/// Which instances of its field an access goes to.
#[derive(Clone, Copy, Debug)]
pub enum Reach {
    /// To the part of a partitioned field that has the key.
    Key(Key),
    /// To one instance of a partial field.
    Local,
    /// To each instance of a partial field: `@Global` stands before the access.
    Global,
}

/// Where an access goes: the number of its field, in text order from 0, and which instances.
#[derive(Clone, Copy, Debug)]
pub struct Site {
    pub field: usize,
    pub reach: Reach,
}

/// The site of each access to state of a class, in text order, an outer one before its inner ones.
pub type Sites = Items<Site>;
