//! Why a class is refused.

use java_tree::Place;
use thiserror::Error;

/// Why a class has no sites.
#[derive(Debug, Drop, Error)]
pub enum AnnotError {
    /// A rule of annotations is broken at this place. The rules:
    ///
    /// 1. A field has exactly one of `@Partitioned` and `@Partial`, once. Its first token is named.
    /// 2. A `Counter` isn't `@Partitioned`. The field's first token is named.
    /// 3. A partitioned field is accessed by a method whose first argument is its key. The field's name is named.
    /// 4. Nor is it accessed behind `@Global`, which is named.
    /// 5. An access is the whole of an initialiser, of the right side of `=`, of an expression statement or of a
    ///    value that is returned, and doesn't stand in the header of a `for`. The field's name is named.
    /// 6. It doesn't stand in a helper or in a merge method. The field's name is named.
    /// 7. A `@Partial` local is initialised by an access behind `@Global` that answers a value. The local's first
    ///    token is named.
    /// 8. An access behind `@Global` is such an initialiser or an expression statement. `@Global` is named.
    /// 9. A `@Partial` local is used once, as `@Global x` in a merge call `R r = g(@Global x);`, `r = g(@Global x);` or
    ///    `return g(@Global x);`, the next statement of its list. The local's first token is named.
    /// 10. `@Global` stands before nothing else. It is named.
    /// 11. A method with `@Collection` has one parameter, an array; no other method takes an array. The first token of
    ///     the method is named, or of the array without `@Collection`.
    /// 12. A merge method is called with `@Global x` alone, and a collection is used by `.length` and `[e]` alone. The
    ///     first token of the call is named, or the collection's name.
    #[error("annotation {rule} at {}:{}", .place.line, .place.column)]
    Rule { rule: u8, place: Place },
    /// An allocation failed.
    #[error("out of memory")]
    Memory,
}
