//! `if`, `unless`, `while`, `until`, `case` and `begin`, each with its `end`.

ghost use Rattle.std.specs.Prelude.{◌≡◌};
ghost use Rattle.rb_expr.specs.Branches as branches;
ghost use Rattle.rb_expr.specs.Grammar.{Nests, parsed};
ghost use Rattle.rb_expr.specs.Reading.{Gives};

use crate::form::Form;
use crate::grammar::Grammar;
use crate::reading::{Read, Stop, after, expect, named, sees, skip_separators, take};
use rb_tree::syntax::{Arm, Guarded, Node, PlacedName, Rescue, Test, Tree, When};
use rb_tree::token::{Shape, Token};
use srb_terms::{Boxed, Items, Span};
use std::alloc::Global;

/// Passes over a `then`, if one comes next.
fn after_then(tokens: &[Token]) -> &[Token]
    ensures { result.now ≡ branches.after_then tokens.now }
{
    if sees(Shape::Then, tokens) {
        after(tokens)
    } else {
        tokens
    }
}

/// What stands between a condition and its body: `then`, or one separator and perhaps `then`.
#[tactic(auto, unfolding(crate::specs::Branches::then_word))]
fn then_word<'a>(tokens: &'a [Token]) -> Read<'a, Span>
    ensures { Gives (λ x. (x.0, x.1.now)) result (branches.then_word tokens.now) }
{
    if sees(Shape::Then, tokens) {
        return expect(Shape::Then, tokens);
    }
    let (mark, rest) = expect(Shape::Separator, tokens)?;
    Ok((mark, after_then(rest)))
}

/// What stands between the condition of a loop and its body: `do`, or one separator.
#[tactic(auto, unfolding(crate::specs::Branches::do_word))]
fn do_word<'a>(tokens: &'a [Token]) -> Read<'a, Span>
    ensures { Gives (λ x. (x.0, x.1.now)) result (branches.do_word tokens.now) }
{
    if sees(Shape::Do, tokens) {
        expect(Shape::Do, tokens)
    } else {
        expect(Shape::Separator, tokens)
    }
}

/// Whether no pattern stands after a `rescue`.
#[tactic(auto, unfolding(crate::specs::Branches::rescues_all))]
fn rescues_all(tokens: &[Token]) -> bool
    ensures { result ≡ branches.rescues_all tokens.now }
{
    sees(Shape::Arrow, tokens) || sees(Shape::Then, tokens) || sees(Shape::Separator, tokens)
}

/// `=>` and the variable of a `rescue`, if `=>` comes next.
#[tactic(auto, unfolding(crate::specs::Branches::rescue_variable))]
fn rescue_variable<'a>(alloc: Global, tokens: &'a [Token]) -> Read<'a, Option<PlacedName>>
    ensures { Gives (λ x. (x.0, x.1.now)) result (branches.rescue_variable tokens.now) }
{
    if !sees(Shape::Arrow, tokens) {
        return Ok((None, tokens));
    }
    let (variable, rest) = named(alloc, Shape::Identifier, after(tokens))?;
    Ok((Some(variable), rest))
}

impl<F: Fn(Global, usize, Form, bool, &[Token]) -> Result<(Tree, &[Token]), Stop<'_>>> Grammar<F> {
    /// `else` and a body, if they come next.
    #[tactic(auto, unfolding(crate::specs::Branches::otherwise))]
    fn otherwise<'a>(&self, tokens: &'a [Token]) -> Read<'a, Option<Tree>>
        requires { Nests self.now.depth (F.pre self.now.nested) (F.post self.now.nested) }
        ensures { Gives (λ x. (x.0, x.1.now)) result (branches.otherwise (parsed self.now.depth) self.now.depth self.now.takes_do tokens.now) }
    {
        if !sees(Shape::Else, tokens) {
            return Ok((None, tokens));
        }
        let (body, rest) = self.form(Form::Body, self.takes_do, after(tokens))?;
        Ok((Some(body), rest))
    }

    #[tactic(auto, unfolding(crate::specs::Branches::elsif_arm))]
    fn elsif_arm<'a>(&self, tokens: &'a [Token]) -> Read<'a, Arm<Tree>>
        requires { Nests self.now.depth (F.pre self.now.nested) (F.post self.now.nested) }
        ensures { Gives (λ x. (x.0, x.1.now)) result (branches.elsif_arm (parsed self.now.depth) self.now.depth self.now.takes_do tokens.now) }
    {
        let (_, rest) = expect(Shape::Elsif, tokens)?;
        let (condition, rest) = self.form(Form::Simple, self.takes_do, rest)?;
        let (_, rest) = then_word(rest)?;
        let (body, rest) = self.form(Form::Body, self.takes_do, rest)?;
        Ok((Arm { condition, body }, rest))
    }

    fn elsif_arms<'a>(&self, tokens: &'a [Token]) -> Read<'a, Items<Arm<Tree>>>
        requires { Nests self.now.depth (F.pre self.now.nested) (F.post self.now.nested) }
        ensures { Gives (λ x. (x.0, x.1.now)) result (branches.elsif_arms (parsed self.now.depth) self.now.depth self.now.takes_do tokens.now) }
    {
        let mut found = Items::new(self.alloc);
        let mut rest = tokens;
        for _turn in 0..self.depth {
            if !sees(Shape::Elsif, rest) {
                return Ok((found, rest));
            }
            let (arm, left) = self.elsif_arm(rest)?;
            found.push(arm)?;
            rest = left;
        }
        Err(Stop::Refused(rest))
    }

    /// The `elsif` arms. An `unless` has none.
    #[tactic(auto, unfolding(crate::specs::Branches::arms_of))]
    fn arms_of<'a>(&self, test: Test, tokens: &'a [Token]) -> Read<'a, Items<Arm<Tree>>>
        requires { Nests self.now.depth (F.pre self.now.nested) (F.post self.now.nested) }
        ensures { Gives (λ x. (x.0, x.1.now)) result (branches.arms_of (parsed self.now.depth) self.now.depth self.now.takes_do test tokens.now) }
    {
        match test {
            Test::Positive => self.elsif_arms(tokens),
            Test::Negative => Ok((Items::new(self.alloc), tokens)),
        }
    }

    /// `if` or `unless`, from that word on.
    #[tactic(auto, unfolding(crate::specs::Branches::branch))]
    pub fn branch<'a>(&self, test: Test, tokens: &'a [Token]) -> Read<'a, Tree>
        requires { Nests self.now.depth (F.pre self.now.nested) (F.post self.now.nested) }
        ensures { Gives (λ x. (x.0, x.1.now)) result (branches.branch (parsed self.now.depth) self.now.depth self.now.takes_do test tokens.now) }
    {
        let (mark, rest) = take(tokens)?;
        let (condition, rest) = self.form(Form::Simple, self.takes_do, rest)?;
        let (_, rest) = then_word(rest)?;
        let (body, rest) = self.form(Form::Body, self.takes_do, rest)?;
        let (arms, rest) = self.arms_of(test, rest)?;
        let (otherwise, rest) = self.otherwise(rest)?;
        let (closing, rest) = expect(Shape::End, rest)?;
        let span = Span {
            start: mark.start,
            end: closing.end,
        };
        let node = Node::If {
            test,
            condition,
            body,
            arms,
            otherwise,
            span,
        };
        Ok((Tree::new(self.alloc, node)?, rest))
    }

    /// `while` or `until`, from that word on. Its condition takes no `do`.
    #[tactic(auto, unfolding(crate::specs::Branches::repeated))]
    pub fn repeated<'a>(&self, test: Test, tokens: &'a [Token]) -> Read<'a, Tree>
        requires { Nests self.now.depth (F.pre self.now.nested) (F.post self.now.nested) }
        ensures { Gives (λ x. (x.0, x.1.now)) result (branches.repeated (parsed self.now.depth) self.now.depth self.now.takes_do test tokens.now) }
    {
        let (mark, rest) = take(tokens)?;
        let (condition, rest) = self.form(Form::Simple, false, rest)?;
        let (_, rest) = do_word(rest)?;
        let (body, rest) = self.form(Form::Body, self.takes_do, rest)?;
        let (closing, rest) = expect(Shape::End, rest)?;
        let span = Span {
            start: mark.start,
            end: closing.end,
        };
        let node = Node::While {
            test,
            condition,
            body,
            span,
        };
        Ok((Tree::new(self.alloc, node)?, rest))
    }

    /// What a `case` asks about, if it names that.
    #[tactic(auto, unfolding(crate::specs::Branches::subject))]
    fn subject<'a>(&self, tokens: &'a [Token]) -> Read<'a, Option<Tree>>
        requires { Nests self.now.depth (F.pre self.now.nested) (F.post self.now.nested) }
        ensures { Gives (λ x. (x.0, x.1.now)) result (branches.subject (parsed self.now.depth) self.now.depth self.now.takes_do tokens.now) }
    {
        if sees(Shape::Separator, tokens) || sees(Shape::When, tokens) {
            return Ok((None, tokens));
        }
        let (subject, rest) = self.form(Form::Simple, self.takes_do, tokens)?;
        Ok((Some(subject), rest))
    }

    fn patterns<'a>(&self, tokens: &'a [Token]) -> Read<'a, Items<Tree>>
        requires { Nests self.now.depth (F.pre self.now.nested) (F.post self.now.nested) }
        ensures { Gives (λ x. (x.0, x.1.now)) result (branches.patterns (parsed self.now.depth) self.now.depth self.now.takes_do tokens.now) }
    {
        let mut found = Items::new(self.alloc);
        let mut rest = tokens;
        for _turn in 0..self.depth {
            let (pattern, left) = self.form(Form::Tern, self.takes_do, rest)?;
            found.push(pattern)?;
            if !sees(Shape::Comma, left) {
                return Ok((found, left));
            }
            rest = after(left);
        }
        Err(Stop::Refused(rest))
    }

    #[tactic(auto, unfolding(crate::specs::Branches::when_arm))]
    fn when_arm<'a>(&self, tokens: &'a [Token]) -> Read<'a, When<Tree>>
        requires { Nests self.now.depth (F.pre self.now.nested) (F.post self.now.nested) }
        ensures { Gives (λ x. (x.0, x.1.now)) result (branches.when_arm (parsed self.now.depth) self.now.depth self.now.takes_do tokens.now) }
    {
        let (_, rest) = expect(Shape::When, tokens)?;
        let (patterns, rest) = self.patterns(rest)?;
        let (_, rest) = then_word(rest)?;
        let (body, rest) = self.form(Form::Body, self.takes_do, rest)?;
        Ok((When { patterns, body }, rest))
    }

    /// The arms of a `case`, at least one.
    fn when_arms<'a>(&self, tokens: &'a [Token]) -> Read<'a, Items<When<Tree>>>
        requires { Nests self.now.depth (F.pre self.now.nested) (F.post self.now.nested) }
        ensures { Gives (λ x. (x.0, x.1.now)) result (branches.when_arms (parsed self.now.depth) self.now.depth self.now.takes_do tokens.now) }
    {
        let mut found = Items::new(self.alloc);
        let mut rest = tokens;
        for _turn in 0..self.depth {
            let (arm, left) = self.when_arm(rest)?;
            found.push(arm)?;
            if !sees(Shape::When, left) {
                return Ok((found, left));
            }
            rest = left;
        }
        Err(Stop::Refused(rest))
    }

    /// `case`, from that word on.
    #[tactic(auto, unfolding(crate::specs::Branches::choice))]
    pub fn choice<'a>(&self, tokens: &'a [Token]) -> Read<'a, Tree>
        requires { Nests self.now.depth (F.pre self.now.nested) (F.post self.now.nested) }
        ensures { Gives (λ x. (x.0, x.1.now)) result (branches.choice (parsed self.now.depth) self.now.depth self.now.takes_do tokens.now) }
    {
        let (mark, rest) = take(tokens)?;
        let (subject, rest) = self.subject(rest)?;
        let (arms, rest) = self.when_arms(skip_separators(rest))?;
        let (otherwise, rest) = self.otherwise(rest)?;
        let (closing, rest) = expect(Shape::End, rest)?;
        let span = Span {
            start: mark.start,
            end: closing.end,
        };
        let node = Node::Case {
            subject,
            arms,
            otherwise,
            span,
        };
        Ok((Tree::new(self.alloc, node)?, rest))
    }
    /// What a `rescue` rescues, if it is told.
    #[tactic(auto, unfolding(crate::specs::Branches::raised))]
    fn raised<'a>(&self, tokens: &'a [Token]) -> Read<'a, Items<Tree>>
        requires { Nests self.now.depth (F.pre self.now.nested) (F.post self.now.nested) }
        ensures { Gives (λ x. (x.0, x.1.now)) result (branches.raised (parsed self.now.depth) self.now.depth self.now.takes_do tokens.now) }
    {
        if rescues_all(tokens) {
            Ok((Items::new(self.alloc), tokens))
        } else {
            self.patterns(tokens)
        }
    }

    #[tactic(auto, unfolding(crate::specs::Branches::rescue_clause))]
    fn rescue_clause<'a>(&self, tokens: &'a [Token]) -> Read<'a, Rescue<Tree>>
        requires { Nests self.now.depth (F.pre self.now.nested) (F.post self.now.nested) }
        ensures { Gives (λ x. (x.0, x.1.now)) result (branches.rescue_clause (parsed self.now.depth) self.now.depth self.now.takes_do tokens.now) }
    {
        let (_, rest) = expect(Shape::Rescue, tokens)?;
        let (patterns, rest) = self.raised(rest)?;
        let (variable, rest) = rescue_variable(self.alloc, rest)?;
        let (_, rest) = then_word(rest)?;
        let (body, rest) = self.form(Form::Body, self.takes_do, rest)?;
        let clause = Rescue {
            patterns,
            variable,
            body,
        };
        Ok((clause, rest))
    }

    fn rescues<'a>(&self, tokens: &'a [Token]) -> Read<'a, Items<Rescue<Tree>>>
        requires { Nests self.now.depth (F.pre self.now.nested) (F.post self.now.nested) }
        ensures { Gives (λ x. (x.0, x.1.now)) result (branches.rescues (parsed self.now.depth) self.now.depth self.now.takes_do tokens.now) }
    {
        let mut found = Items::new(self.alloc);
        let mut rest = tokens;
        for _turn in 0..self.depth {
            if !sees(Shape::Rescue, rest) {
                return Ok((found, rest));
            }
            let (clause, left) = self.rescue_clause(rest)?;
            found.push(clause)?;
            rest = left;
        }
        Err(Stop::Refused(rest))
    }

    /// What stands after `else`, if it comes next. It stands after a `rescue` alone.
    #[tactic(auto, unfolding(crate::specs::Branches::otherwise_after))]
    fn otherwise_after<'a>(
        &self,
        rescues: &Items<Rescue<Tree>>,
        tokens: &'a [Token],
    ) -> Read<'a, Option<Tree>>
        requires { Nests self.now.depth (F.pre self.now.nested) (F.post self.now.nested) }
        ensures { Gives (λ x. (x.0, x.1.now)) result (branches.otherwise_after (parsed self.now.depth) self.now.depth self.now.takes_do rescues.now tokens.now) }
    {
        if rescues.is_empty() {
            return Ok((None, tokens));
        }
        self.otherwise(tokens)
    }

    /// `ensure` and a body, if they come next.
    #[tactic(auto, unfolding(crate::specs::Branches::ensure))]
    fn ensure<'a>(&self, tokens: &'a [Token]) -> Read<'a, Option<Tree>>
        requires { Nests self.now.depth (F.pre self.now.nested) (F.post self.now.nested) }
        ensures { Gives (λ x. (x.0, x.1.now)) result (branches.ensure (parsed self.now.depth) self.now.depth self.now.takes_do tokens.now) }
    {
        if !sees(Shape::Ensure, tokens) {
            return Ok((None, tokens));
        }
        let (body, rest) = self.form(Form::Body, self.takes_do, after(tokens))?;
        Ok((Some(body), rest))
    }

    /// A body and what guards it.
    #[tactic(auto, unfolding(crate::specs::Branches::guarded))]
    pub fn guarded<'a>(&self, tokens: &'a [Token]) -> Read<'a, Boxed<Guarded<Tree>>>
        requires { Nests self.now.depth (F.pre self.now.nested) (F.post self.now.nested) }
        ensures { Gives (λ x. (x.0, x.1.now)) result (branches.guarded (parsed self.now.depth) self.now.depth self.now.takes_do tokens.now) }
    {
        let (body, rest) = self.form(Form::Body, self.takes_do, tokens)?;
        let (rescues, rest) = self.rescues(rest)?;
        let (otherwise, rest) = self.otherwise_after(&rescues, rest)?;
        let (ensure, rest) = self.ensure(rest)?;
        let guarded = Guarded {
            body,
            rescues,
            otherwise,
            ensure,
        };
        Ok((Boxed::new(self.alloc, guarded)?, rest))
    }

    /// `begin`, from that word on.
    #[tactic(auto, unfolding(crate::specs::Branches::guards))]
    pub fn guards<'a>(&self, tokens: &'a [Token]) -> Read<'a, Tree>
        requires { Nests self.now.depth (F.pre self.now.nested) (F.post self.now.nested) }
        ensures { Gives (λ x. (x.0, x.1.now)) result (branches.guards (parsed self.now.depth) self.now.depth self.now.takes_do tokens.now) }
    {
        let (mark, rest) = take(tokens)?;
        let (guarded, rest) = self.guarded(rest)?;
        let (closing, rest) = expect(Shape::End, rest)?;
        let span = Span {
            start: mark.start,
            end: closing.end,
        };
        Ok((Tree::new(self.alloc, Node::Begin { guarded, span })?, rest))
    }
}
