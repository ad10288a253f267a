//! The arguments of a call as a method takes them.

ghost use Rattle.std.specs.Prelude.{◌≡◌};
ghost use Rattle.std.specs.Option.{option_map};
ghost use Rattle.state_classes.specs.Arguments.{nothing, one_long, two_longs, three_longs, long_and_int, one_vector};

use sdg_base::Val;

pub(crate) fn nothing(args: &[Val]) -> Option<()>
    ensures { result ≡ nothing args.now }
{
    match args {
        [] => Some(()),
        _ => None,
    }
}

pub(crate) fn one_long(args: &[Val]) -> Option<i64>
    ensures { result ≡ one_long args.now }
{
    match args {
        [Val::Long(a)] => Some(*a),
        _ => None,
    }
}

pub(crate) fn two_longs(args: &[Val]) -> Option<(i64, i64)>
    ensures { result ≡ two_longs args.now }
{
    match args {
        [Val::Long(a), Val::Long(b)] => Some((*a, *b)),
        _ => None,
    }
}

pub(crate) fn three_longs(args: &[Val]) -> Option<(i64, i64, i64)>
    ensures { result ≡ three_longs args.now }
{
    match args {
        [Val::Long(a), Val::Long(b), Val::Long(c)] => Some((*a, *b, *c)),
        _ => None,
    }
}

pub(crate) fn long_and_int(args: &[Val]) -> Option<(i64, i32)>
    ensures { result ≡ long_and_int args.now }
{
    match args {
        [Val::Long(a), Val::Int(b)] => Some((*a, *b)),
        _ => None,
    }
}

pub(crate) fn one_vector(args: &[Val]) -> Option<&[i64]>
    ensures { option_map (λ v. v.now) result ≡ one_vector args.now }
{
    match args {
        [Val::Vector(v)] => Some(v.as_slice()),
        _ => None,
    }
}
