//! The fields of a graph by name, and the signatures of their methods.

ghost use Rattle.std.specs.Prelude.{◌≡◌, ◌<◌, length, IfSome};
ghost use Rattle.std.specs.Option.{option_map, option_copied};
ghost use Rattle.state_classes.specs.Shown.{signature_of};
ghost use Rattle.flat_code.specs.Types.{field_named, number_of, signature_at};

use flat_code::GraphField;
use state_classes::{Method, Signature, state_method};

/// The first field of a name.
fn field_named<'f>(name: &[u8], fields: &'f [GraphField]) -> Option<&'f GraphField>
    ensures { option_copied result ≡ field_named name.now fields.now }
{
    match fields {
        [] => None,
        [field, others @ ..] => {
            if name == field.name.as_slice() {
                Some(field)
            } else {
                field_named(name, others)
            }
        }
    }
}

/// What the class of the field of a name says of a method.
pub fn signature_at(fields: &[GraphField], name: &[u8], method: Method) -> Option<Signature>
    ensures { option_map signature_of result ≡ signature_at fields.now name.now method }
{
    match field_named(name, fields) {
        Some(field) => state_method(field.class, method.text().as_bytes()),
        None => None,
    }
}

/// The number of the first field of a name.
pub fn number_of(name: &[u8], fields: &[GraphField]) -> Option<usize>
    ensures value { result ≡ number_of name.now fields.now }
    ensures within { IfSome result (λ n. n < length fields.now) }
{
    match fields {
        [] => None,
        [field, others @ ..] => {
            if name == field.name.as_slice() {
                return Some(0);
            }
            match number_of(name, others) {
                Some(number) => Some(number + 1),
                None => None,
            }
        }
    }
}
