//! The weight after the tokens of a pass from the front.

ghost use Rattle.std.specs.Prelude.{◌≡◌, ◌<◌, ◌≤◌, ◌+◌, ◌^◌, IfOk, length};
ghost use Rattle.rb_weight.specs.Limits as limits;
ghost use Rattle.rb_weight.specs.Scans as spec;

use crate::MOST;
use crate::effect::{Before, Effect, Level, after, effect_of, separated};
use crate::sort::{Sort, sort_of};
use rb_tree::token::{Shape, Token};
use srb_terms::{Items, NoMemory};
use std::alloc::Global;

/// A level around the innermost one: the weight where the innermost one opens, what it falls to at the next separator there, and
/// its kind.
#[derive(Clone, Copy, Debug)]
pub struct Outer {
    pub weight: u32,
    pub base: u32,
    pub level: Level,
}

/// What is known after a token.
#[derive(Debug, Drop)]
pub struct Scan {
    /// The weight.
    pub weight: u32,
    /// The weight without the operators that stand directly in the innermost open level.
    pub base: u32,
    /// The kind of the innermost open level.
    pub level: Level,
    /// What the token says about the next one.
    pub before: Before,
    /// The levels around it that opened after the start, the outermost first.
    pub outer: Items<Outer>,
}

impl Scan {
    /// The start: a weight of which `here` goes at the next separator.
    pub fn new(alloc: Global, weight: u32, here: u32) -> Scan
        requires { here ≤ weight }
        ensures { result ≡ spec.start weight here }
    {
        Scan {
            weight,
            base: weight - here,
            level: Level::Plain,
            before: Before::Plain,
            outer: Items::new(alloc),
        }
    }

    fn open(&mut self, level: Level) -> Result<(), NoMemory>
        requires { self.old.weight ≤ limits.MOST }
        ensures { IfOk result (λ _. self.new ≡ spec.opened level self.old) }
    {
        self.outer.push(Outer {
            weight: self.weight,
            base: self.base,
            level: self.level,
        })?;
        self.weight += 1;
        self.base = self.weight;
        self.level = level;
        Ok(())
    }

    fn close(&mut self) -> bool
        ensures { spec.Goes result self.new (spec.closed self.old) }
    {
        let last = self.outer.len().saturating_sub(1);
        let outer = match self.outer.get(last) {
            Some(outer) => *outer,
            None => return false,
        };
        self.weight = outer.weight;
        self.base = outer.base;
        self.level = outer.level;
        self.outer.truncate(last);
        true
    }

    /// Counts an effect. The answer is false where the level that stood open at the start closes.
    #[tactic(auto, unfolding(crate::specs::Scans::done))]
    fn apply(&mut self, effect: Effect) -> Result<bool, NoMemory>
        requires { self.old.weight ≤ limits.MOST }
        ensures { IfOk result (λ goes. spec.Goes goes self.new (spec.done effect self.old)) }
    {
        match effect {
            Effect::Nothing => (),
            Effect::Opens { level } => self.open(level)?,
            Effect::Closes => return Ok(self.close()),
            Effect::Enters => self.level = Level::Plain,
            Effect::Separates => {
                self.weight = self.base;
                self.level = separated(self.level);
            }
            Effect::Divides => self.weight = self.base,
            Effect::Counts => self.weight += 1,
        }
        Ok(true)
    }

    /// Counts a token. The answer is false where the level that stood open at the start closes.
    pub fn step(&mut self, shape: Shape) -> Result<bool, NoMemory>
        requires { self.old.weight ≤ limits.MOST }
        ensures { IfOk result (λ goes. spec.Goes goes self.new (spec.step shape self.old)) }
    {
        let sort = sort_of(shape);
        let effect = effect_of(self.before, self.level, sort);
        self.before = after(self.before, self.level, sort);
        self.apply(effect)
    }
}

/// The place of the first of these tokens after which the weight is over the greatest, the first of them standing at `at`.
pub fn deep_from(start: Scan, at: usize, tokens: &[Token]) -> Result<Option<usize>, NoMemory>
    requires light { start.weight ≤ limits.MOST }
    requires fits { at + length tokens.now < 2 ^ 64 }
    ensures { IfOk result (λ place. place ≡ spec.deep_from at start tokens.now) }
{
    let mut scan = start;
    let mut at = at;
    let mut rest = tokens;
    while let [token, more @ ..] = rest {
        if !scan.step(token.kind.shape())? {
            return Ok(None);
        }
        if scan.weight > MOST {
            return Ok(Some(at));
        }
        at += 1;
        rest = more;
    }
    Ok(None)
}
