//! The members of a class, with the text around them (JLS 7, 8).

ghost use Rattle.std.specs.Prelude.{◌≡◌, OnOk};
ghost use Rattle.java_flow.specs.Points.{seen};
ghost use Rattle.java_flow.specs.Findings.{behind_name, behind_package, behind_import, behind_imports, is_annotation, behind_modifiers, behind_field, behind_params, is_void, body_start, body_end, behind_header, method_walk, member_walk, members_walk, class_walk};

use crate::finding::Rule;
use crate::names;
use crate::walk::Walk;
use java_tree::{
    Class, Field, FieldModifier, Import, Member, Method, Param, QualifiedName, ResultType,
};
use std::alloc::{AllocError, Global};

fn is_annotation(modifier: FieldModifier) -> bool
    ensures { result ≡ is_annotation modifier }
{
    matches!(
        modifier,
        FieldModifier::Partitioned | FieldModifier::Partial
    )
}

fn is_void(kind: &ResultType) -> bool
    ensures { result ≡ is_void kind.now }
{
    matches!(kind, ResultType::Void)
}

impl<'a> Walk<'a> {
    fn pass_name(&mut self, name: &QualifiedName)
        ensures walked { seen self.new ≡ behind_name name.now (seen self.old) }
        ensures same { self.new.numbers.now ≡ self.old.numbers.now }
    {
        self.pass(1);
        self.pass(name.others.len());
        self.pass(name.others.len());
    }

    fn pass_package(&mut self, name: &Option<QualifiedName>)
        ensures walked { seen self.new ≡ behind_package name.now (seen self.old) }
        ensures same { self.new.numbers.now ≡ self.old.numbers.now }
    {
        if let Some(name) = name {
            self.pass(1);
            self.pass_name(name);
            self.pass(1);
        }
    }

    fn pass_import(&mut self, import: &Import)
        ensures walked { seen self.new ≡ behind_import import.now (seen self.old) }
        ensures same { self.new.numbers.now ≡ self.old.numbers.now }
    {
        self.pass(1);
        self.pass_if(import.is_static, 1);
        self.pass_name(&import.name);
        self.pass_if(import.is_on_demand, 2);
        self.pass(1);
    }

    fn pass_imports(&mut self, imports: &[Import])
        ensures walked { seen self.new ≡ behind_imports imports.now (seen self.old) }
        ensures same { self.new.numbers.now ≡ self.old.numbers.now }
    {
        for import in imports {
            self.pass_import(import);
        }
    }

    fn pass_modifiers(&mut self, modifiers: &[FieldModifier])
        ensures walked { seen self.new ≡ behind_modifiers modifiers.now (seen self.old) }
        ensures same { self.new.numbers.now ≡ self.old.numbers.now }
    {
        for modifier in modifiers {
            self.pass_if(is_annotation(*modifier), 1);
            self.pass(1);
        }
    }

    fn pass_field(&mut self, field: &Field)
        ensures walked { seen self.new ≡ behind_field field.now (seen self.old) }
        ensures same { self.new.numbers.now ≡ self.old.numbers.now }
    {
        self.pass_modifiers(field.modifiers.as_slice());
        self.pass(8);
    }

    fn pass_params(&mut self, params: &[Param])
        ensures walked { seen self.new ≡ behind_params params.now (seen self.old) }
        ensures same { self.new.numbers.now ≡ self.old.numbers.now }
    {
        for param in params {
            self.pass_if(param.is_collection, 2);
            self.pass_if(param.is_array, 2);
            self.pass(3);
        }
    }

    /// Goes past what stands before the body of a method.
    fn pass_header(&mut self, method: &Method)
        ensures walked { seen self.new ≡ behind_header method.now (seen self.old) }
        ensures same { self.new.numbers.now ≡ self.old.numbers.now }
    {
        self.pass(method.modifiers.len());
        self.pass(2);
        self.pass_if(method.params.is_empty(), 1);
        self.pass_params(method.params.as_slice());
        self.pass(1);
    }

    /// The body of a method begins.
    fn start_body(&mut self, alloc: Global)
        ensures walked { seen self.new ≡ body_start (seen self.old) }
        ensures same { self.new.numbers.now ≡ self.old.numbers.now }
    {
        self.is_reachable = true;
        self.unassigned = names::none(alloc);
        self.is_left = false;
        self.at_breaks = names::none(alloc);
        self.at_continues = names::none(alloc);
    }

    /// The body of a method ends at its closing brace.
    fn end_body(&mut self, kind: &ResultType) -> Result<(), AllocError>
        ensures walked { OnOk result (seen self.new ≡ body_end kind.now (seen self.old)) }
        ensures same { self.new.numbers.now ≡ self.old.numbers.now }
    {
        let is_fine = is_void(kind) || !self.is_reachable;
        self.note_unless(is_fine, Rule::MissingReturn)?;
        self.pass(1);
        Ok(())
    }

    fn method(&mut self, alloc: Global, method: &Method) -> Result<(), AllocError>
        ensures walked { OnOk result (seen self.new ≡ method_walk method.now (seen self.old)) }
        ensures same { self.new.numbers.now ≡ self.old.numbers.now }
    {
        self.pass_header(method);
        self.start_body(alloc);
        self.block(alloc, method.body.as_slice())?;
        self.end_body(&method.result)
    }

    fn member(&mut self, alloc: Global, member: &Member) -> Result<(), AllocError>
        ensures walked { OnOk result (seen self.new ≡ member_walk member.now (seen self.old)) }
        ensures same { self.new.numbers.now ≡ self.old.numbers.now }
    {
        match member {
            Member::Field(field) => {
                self.pass_field(field);
                Ok(())
            }
            Member::Method(method) => self.method(alloc, method),
        }
    }

    fn members(&mut self, alloc: Global, members: &[Member]) -> Result<(), AllocError>
        ensures walked { OnOk result (seen self.new ≡ members_walk members.now (seen self.old)) }
        ensures same { self.new.numbers.now ≡ self.old.numbers.now }
    {
        for member in members {
            self.member(alloc, member)?;
        }
        Ok(())
    }

    /// Goes past a class.
    pub fn class(&mut self, alloc: Global, class: &Class) -> Result<(), AllocError>
        ensures walked { OnOk result (seen self.new ≡ class_walk class.now (seen self.old)) }
        ensures same { self.new.numbers.now ≡ self.old.numbers.now }
    {
        self.pass_package(&class.package);
        self.pass_imports(class.imports.as_slice());
        self.pass(class.modifiers.len());
        self.pass(3);
        self.members(alloc, class.members.as_slice())
    }
}
