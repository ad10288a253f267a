//! What statements and expressions stand in.

ghost use Rattle.std.specs.Prelude.{◌≡◌, slice_get};
ghost use Rattle.std.specs.Option.{option_copied};
ghost use Rattle.body_code.specs.StatementCode as spec;

use body_code::Callee;
use flat_code::GraphField;
use java_tree::ValueType as VariableType;
use sdg_base::ValueType;
use std::marker::Model;

/// The fields and the methods of the class, and the types of the variables of the method. In a merge method also the type of
/// the members of its collection.
#[derive(Drop)]
pub struct Scope<'a> {
    fields: &'a [GraphField],
    methods: &'a [Callee],
    variables: &'a [VariableType],
    members: Option<ValueType>,
}

impl<'a> Model for Scope<'a> {
    ghost use Rattle.body_code.specs.StatementCode as spec;

    ghost Value = { spec.Scope };

    ghost view = { λ s. record { fields = s.fields.now; context = record { variables = s.variables.now; methods = s.methods.now; members = s.members } } };
}

impl<'a> Scope<'a> {
    /// What the statements of a method stand in.
    pub fn new(
        fields: &'a [GraphField],
        methods: &'a [Callee],
        variables: &'a [VariableType],
        members: Option<ValueType>,
    ) -> Scope<'a>
        ensures fields { result.fields ≡ fields.now }
        ensures methods { result.context.methods ≡ methods.now }
        ensures variables { result.context.variables ≡ variables.now }
        ensures members { result.context.members ≡ members }
    {
        Scope {
            fields,
            methods,
            variables,
            members,
        }
    }

    /// The field of a number.
    pub fn field(&self, number: usize) -> Option<&GraphField>
        ensures { option_copied result ≡ slice_get self.now.fields number }
    {
        self.fields.get(number)
    }

    /// The method of a number.
    pub fn method(&self, number: usize) -> Option<&Callee>
        ensures { option_copied result ≡ slice_get self.now.context.methods number }
    {
        self.methods.get(number)
    }

    /// The declared type of a variable.
    pub fn variable(&self, number: usize) -> Option<VariableType>
        ensures { result ≡ slice_get self.now.context.variables number }
    {
        self.variables.get(number).copied()
    }

    /// The type of the members of the collection.
    pub fn members(&self) -> Option<ValueType>
        ensures { result ≡ self.now.context.members }
    {
        self.members
    }
}
