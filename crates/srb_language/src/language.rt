//! The language of a project.

use crate::calls::answered;
use crate::names::{instance_variable, is_exception, meaning};
use crate::ready::{Ready, built_in, can_be_falsy, can_be_truthy, make_ready};
use crate::signatures::signature;
use crate::types::{instance, is_never};
use rb_outline::outline;
use rb_tree::syntax::Tree;
use srb_judgement::built_in::BuiltIn;
use srb_judgement::language::Language;
use srb_judgement::meaning::Meaning;
use srb_judgement::sent::{Answer, Arguments, GivenBlock};
use srb_judgement::signature::Signature;
use srb_sig::type_or_untyped;
use srb_subtype::is_sub;
use srb_terms::{Name, Names, NoMemory, ParamShape, Span, Ty, TyText, Words, World};
use srb_types::{any, array, hash, meet, show, without};
use std::alloc::Global;
use std::marker::Model;

/// What the judgement asks of a project, answered by its symbol table. A contract sees the table.
#[derive(Drop)]
pub struct ProjectLanguage<'w> {
    world: &'w World,
    ready: Ready,
}

impl<'w> Model for ProjectLanguage<'w> {
    ghost use Rattle.std.specs.Coded.{codes};
    ghost use Rattle.srb_shapes.specs.Lineages.{lineage_at};
    ghost use Rattle.srb_terms.specs.declared.world.World.{World};
    ghost use Rattle.srb_terms.specs.contracts.world.World as symbols;
    ghost use Rattle.srb_language.specs.Ready.{AreReady};

    ghost Value = { World };

    ghost coded = { Prim.hlevel (codes, symbols.the_row.coded) };

    ghost view = { λ l. l.world.now };

    ghost invariant = { λ l. AreReady (lineage_at l.world.now) l.ready };
}

impl<'w> ProjectLanguage<'w> {
    ghost use Rattle.std.specs.Prelude.{◌≡◌, IfOk};

    /// The language of the project whose symbol table this is.
    pub fn new(alloc: Global, world: &'w World) -> Result<ProjectLanguage<'w>, NoMemory>
        ensures { IfOk result (λ l. l ≡ world.now) }
    {
        Ok(ProjectLanguage {
            world,
            ready: make_ready(alloc, world)?,
        })
    }
}

impl<'w> Language for ProjectLanguage<'w> {
    ghost use Rattle.srb_language.specs.Asked.{language_of};
    ghost use Rattle.srb_language.specs.Knowledge.{knowledge_at};

    ghost the = { λ w. language_of (knowledge_at w) };

    fn is_sub(&self, t: &Ty, u: &Ty) -> bool {
        is_sub(self.world, t, u)
    }

    fn any(&self, alloc: Global, t: &Ty, u: &Ty) -> Result<Ty, NoMemory> {
        any(alloc, self.world, t, u)
    }

    fn meet(&self, alloc: Global, t: &Ty, u: &Ty) -> Result<Ty, NoMemory> {
        meet(alloc, self.world, t, u)
    }

    fn without(&self, alloc: Global, t: &Ty, u: &Ty) -> Result<Ty, NoMemory> {
        without(alloc, self.world, t, u)
    }

    fn untyped(&self) -> Ty {
        Ty::Untyped
    }

    fn never(&self) -> Ty {
        Ty::Never
    }

    fn is_never(&self, t: &Ty) -> bool {
        is_never(t)
    }

    fn can_be_truthy(&self, alloc: Global, t: &Ty) -> Result<bool, NoMemory> {
        can_be_truthy(alloc, self.world, &self.ready, t)
    }

    fn can_be_falsy(&self, alloc: Global, t: &Ty) -> Result<bool, NoMemory> {
        can_be_falsy(alloc, self.world, &self.ready, t)
    }

    fn instance(&self, alloc: Global, name: &Name) -> Result<Ty, NoMemory> {
        instance(alloc, name)
    }

    fn built_in(&self, class: BuiltIn) -> &Ty {
        built_in(&self.ready, class)
    }

    fn boolean(&self) -> &Ty {
        &self.ready.boolean.ty
    }

    fn nil_or_false(&self) -> &Ty {
        &self.ready.nil_or_false
    }

    fn class_object(&self, alloc: Global, name: &Name) -> Result<Ty, NoMemory> {
        Ok(Ty::Meta(name.copied()?))
    }

    fn array(&self, alloc: Global, t: &Ty) -> Result<Ty, NoMemory> {
        array(alloc, self.world, t)
    }

    fn hash(&self, alloc: Global, key: &Ty, value: &Ty) -> Result<Ty, NoMemory> {
        hash(alloc, self.world, key, value)
    }

    fn show(&self, alloc: Global, t: &Ty) -> Result<Words, NoMemory> {
        show(alloc, t)
    }

    fn meaning(&self, alloc: Global, scope: &Names, path: &Names) -> Result<Meaning, NoMemory> {
        meaning(self.world, scope, path)
    }

    fn is_exception(&self, name: &Name) -> bool {
        is_exception(self.world, name)
    }

    fn instance_variable(
        &self,
        alloc: Global,
        owner: &Name,
        meta: bool,
        name: &Name,
    ) -> Result<Option<Ty>, NoMemory> {
        instance_variable(self.world, owner, meta, name)
    }

    fn reads(&self, alloc: Global, scope: &Names, text: &Tree) -> Result<Ty, NoMemory> {
        let text = TyText {
            tree: outline(alloc, text)?,
        };
        type_or_untyped(alloc, self.world, scope, &text)
    }

    fn signature(
        &self,
        alloc: Global,
        scope: &Names,
        sig: &Tree,
        params: &[ParamShape],
    ) -> Result<Option<Signature>, NoMemory> {
        signature(alloc, self.world, scope, sig, params)
    }

    fn call(
        &self,
        alloc: Global,
        receiver: &Ty,
        name: &Name,
        name_span: Span,
        arguments: &Arguments,
        block: Option<&GivenBlock>,
    ) -> Result<Answer, NoMemory> {
        answered(
            alloc, self.world, receiver, name, name_span, arguments, block,
        )
    }
}
