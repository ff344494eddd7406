//! What is around an expression.
//!
//! Copies of a context share what it holds. A variable becomes visible by `see`; `in_loop` and `in_block` are the contexts inside a loop
//! and inside a block.

ghost use Rattle.std.specs.Prelude.{◌≡◌, ◌∷◌, ◌++◌, [], None, IfOk, OnOk};
ghost use Rattle.std.specs.Option.{option_copied};
ghost use Rattle.srb_judgement.specs.Environments.{Live};
ghost use Rattle.srb_judgement.specs.Kept.{AtEach, PinsAll, SameContext, last_pin, or_before, own_pin, pin_in, seen_context, sees};
ghost use Rattle.srb_judgement.specs.Pins.{in_loop, in_block};
ghost use Rattle.srb_judgement.specs.States.{is_visible, seeing};
ghost use Rattle.srb_judgement.specs.Steps.{HiddenAfter, PinnedAfter, Pins};
ghost use Rattle.srb_judgement.specs.Views.{seen_environment, seen_rows};

use crate::environments::{Environment, Rows, variable_type};
use crate::language::Language;
use crate::visible::Visible;
use indexmap::IndexMap;
use srb_terms::{Boxed, Items, Name, Names, NoMemory, Ty};
use std::alloc::Global;

/// The types at which a loop or a block pins variables. `None` is for a parameter of the block, which hides an outer variable and isn't
/// pinned.
#[derive(Drop)]
pub struct Layer {
    pub pins: IndexMap<Name, Option<Ty>>,
}

/// What is around an expression.
#[derive(Drop)]
pub struct Context {
    /// The type of `self`.
    pub self_type: Ty,
    /// The full names of the bodies around, the innermost first.
    pub scope: Names,
    /// The class or module whose instances have the instance variables, or whose class object, if `meta`.
    pub owner: Name,
    pub meta: bool,
    /// The type against which results are checked. `None` where none is checked.
    pub result: Option<Ty>,
    /// Whether a loop or block is around.
    pub inside: bool,
    /// Whether a loop is around.
    pub looping: bool,
    /// The pins of the loops and blocks around, the innermost last.
    pub pins: Items<Boxed<Layer>>,
    /// The variables that are visible.
    pub visible: Visible,
}

impl Context {
    /// Whether the variable is visible.
    pub fn is_visible(&self, name: &Name) -> bool
        ensures seen { result ≡ sees self.now name.now }
        ensures each { AtEach self.now (λ c. result ≡ is_visible c name.now) }
    {
        self.visible.contains(name)
    }

    /// The type at which the variable is pinned. `None` where it isn't.
    pub fn pinned(&self, name: &Name) -> Option<&Ty>
        ensures { AtEach self.now (λ c. option_copied result ≡ c.pins name.now) }
    {
        pin_in(self.pins.as_slice(), name)
    }

    /// Makes a variable visible.
    pub fn see(&mut self, alloc: Global, name: Name) -> Result<(), NoMemory>
        ensures { OnOk result (seen_context self.new ≡ seeing (name ∷ []) (seen_context self.old)) }
    {
        if !self.visible.contains(&name) {
            self.visible.add(alloc, name)?;
        }
        Ok(())
    }

    /// Makes variables visible.
    pub fn see_all(&mut self, alloc: Global, names: &[Name]) -> Result<(), NoMemory>
        ensures { OnOk result (seen_context self.new ≡ seeing names.now (seen_context self.old)) }
    {
        'names: for name in names {
            self.see(alloc, name.copied()?)?;
        }
        Ok(())
    }

    /// A copy, which shares the visible variables and the pins.
    pub fn copied(&self, alloc: Global) -> Result<Context, NoMemory>
        ensures { IfOk result (λ x. x ≡ self.now) }
    {
        Ok(Context {
            self_type: self.self_type.copied()?,
            scope: self.scope.copied()?,
            owner: self.owner.copied()?,
            meta: self.meta,
            result: copied_type(&self.result)?,
            inside: self.inside,
            looping: self.looping,
            pins: copied_layers(alloc, self.pins.as_slice())?,
            visible: self.visible.copied()?,
        })
    }

    /// The context in a loop that is entered in this environment: every visible variable is pinned at its type.
    pub fn in_loop<L: Language>(
        &self,
        alloc: Global,
        language: &L,
        entry: &Environment,
    ) -> Result<Context, NoMemory>
        ensures { IfOk result (λ x. SameContext x (in_loop (L.the language.now) (seen_environment entry.now) (seen_context self.now))) }
    {
        let layer = pins_of(alloc, language, entry, &self.visible)?;
        let mut inner = self.copied(alloc)?;
        inner.pins.push(Boxed::new(alloc, layer)?)?;
        inner.inside = true;
        inner.looping = true;
        Ok(inner)
    }

    /// The context in a block with these parameters that is entered in this environment: every visible variable is pinned at its type, but
    /// for the parameters, which are visible.
    pub fn in_block<L: Language>(
        &self,
        alloc: Global,
        language: &L,
        entry: &Environment,
        parameters: &[Name],
    ) -> Result<Context, NoMemory>
        ensures { IfOk result (λ x. SameContext x (in_block (L.the language.now) (seen_environment entry.now) parameters.now (seen_context self.now))) }
    {
        let mut layer = pins_of(alloc, language, entry, &self.visible)?;
        hide(&mut layer, parameters)?;
        let mut inner = self.copied(alloc)?;
        inner.pins.push(Boxed::new(alloc, layer)?)?;
        inner.inside = true;
        inner.see_all(alloc, parameters)?;
        Ok(inner)
    }
}

/// A copy of what may be left out.
fn copied_type(ty: &Option<Ty>) -> Result<Option<Ty>, NoMemory>
    ensures { IfOk result (λ t. t ≡ ty.now) }
{
    match ty {
        Some(ty) => Ok(Some(ty.copied()?)),
        None => Ok(None),
    }
}

/// Copies of layers of pins, which share the pins.
fn copied_layers(alloc: Global, layers: &[Boxed<Layer>]) -> Result<Items<Boxed<Layer>>, NoMemory>
    ensures { IfOk result (λ copies. copies ≡ layers.now) }
{
    let mut copies = Items::new(alloc);
    'layers: for layer in layers {
        copies.push(layer.copied()?)?;
    }
    Ok(copies)
}

/// The pin of a layer, or else that before it.
fn or_before<'a>(
    layer: &'a Layer,
    before: Option<&'a Option<Ty>>,
    name: &Name,
) -> Option<&'a Option<Ty>>
    ensures { option_copied result ≡ or_before (own_pin layer.now name.now) (option_copied before.entry) }
{
    match layer.pins.get(name) {
        None => before,
        Some(pin) => Some(pin),
    }
}

/// The pin of the last layer that has one.
fn last_pin<'a>(layers: &'a [Boxed<Layer>], name: &Name) -> Option<&'a Option<Ty>>
    ensures { option_copied result ≡ last_pin None layers.now name.now }
{
    let mut last = None;
    'layers: for layer in layers {
        last = or_before(layer.get(), last, name);
    }
    last
}

/// The type at which these layers pin a variable. `None` where none does.
fn pin_in<'a>(layers: &'a [Boxed<Layer>], name: &Name) -> Option<&'a Ty>
    ensures { option_copied result ≡ pin_in layers.now name.now }
{
    match last_pin(layers, name) {
        None => None,
        Some(pin) => pin.as_ref(),
    }
}

/// Pins a variable, or hides it.
fn pin(layer: &mut Layer, name: Name, ty: Option<Ty>) -> Result<(), NoMemory>
    ensures { OnOk result (Pins name ty layer.old layer.new) }
{
    layer.pins.insert(name, ty)?;
    Ok(())
}

/// Pins each of these variables at its type.
fn pin_all<L: Language>(
    language: &L,
    rows: &Rows,
    names: &[Name],
    layer: &mut Layer,
) -> Result<(), NoMemory>
    ensures { OnOk result (PinnedAfter (L.the language.now) (seen_rows rows.now.entries) names.now layer.old layer.new) }
{
    'names: for name in names {
        let ty = variable_type(language, rows, name).copied()?;
        pin(layer, name.copied()?, Some(ty))?;
    }
    Ok(())
}

/// Pins each of these variables at its type.
fn pin_list<L: Language>(
    language: &L,
    rows: &Rows,
    names: &Names,
    layer: &mut Layer,
) -> Result<(), NoMemory>
    ensures { OnOk result (PinnedAfter (L.the language.now) (seen_rows rows.now.entries) names.now layer.old layer.new) }
{
    let mut at = names;
    'names: while let Some((name, rest)) = at.split() {
        let ty = variable_type(language, rows, name).copied()?;
        pin(layer, name.copied()?, Some(ty))?;
        at = rest;
    }
    Ok(())
}

/// No pin.
fn no_pins(alloc: Global) -> Layer
    ensures { result.pins.entries ≡ [] }
{
    Layer {
        pins: IndexMap::new(alloc),
    }
}

/// Pins of these variables at their types.
fn pinned_all<L: Language>(
    alloc: Global,
    language: &L,
    rows: &Rows,
    visible: &Visible,
) -> Result<Layer, NoMemory>
    ensures { IfOk result (PinsAll (L.the language.now) (Live (seen_rows rows.now.entries)) visible.now) }
{
    let (recent, settled) = visible.parts();
    let mut layer = no_pins(alloc);
    pin_list(language, rows, recent, &mut layer)?;
    pin_all(language, rows, settled, &mut layer)?;
    Ok(layer)
}

/// The types at which variables are pinned in what is entered in this environment.
fn pins_of<L: Language>(
    alloc: Global,
    language: &L,
    entry: &Environment,
    visible: &Visible,
) -> Result<Layer, NoMemory>
    ensures { IfOk result (PinsAll (L.the language.now) (seen_environment entry.now) visible.now) }
{
    match entry {
        Environment::Live(rows) => pinned_all(alloc, language, rows, visible),
        Environment::Dead => Ok(no_pins(alloc)),
        Environment::Silent => Ok(no_pins(alloc)),
    }
}

/// Hides each of these variables.
fn hide(layer: &mut Layer, parameters: &[Name]) -> Result<(), NoMemory>
    ensures { OnOk result (HiddenAfter parameters.now layer.old layer.new) }
{
    'parameters: for name in parameters {
        pin(layer, name.copied()?, None)?;
    }
    Ok(())
}
