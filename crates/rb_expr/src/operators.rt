//! Operators in front of operands and between them.

ghost use Rattle.std.specs.Prelude.{◌≡◌};
ghost use Rattle.rb_expr.specs.Grammar.{Nests, parsed};
ghost use Rattle.rb_expr.specs.Operators as operators;
ghost use Rattle.rb_expr.specs.Reading.{Gives};

use crate::form::Form;
use crate::grammar::Grammar;
use crate::reading::{Read, Stop, expect, peek, sees, take};
use crate::shapes::{ceiling, is_negation, level_of, operator_between, prefix_of};
use rb_tree::syntax::{Binary, Node, Tree, Unary};
use rb_tree::token::{Shape, Token};
use srb_terms::Span;
use std::alloc::Global;

/// The place from the start of the first to the end of the last.
pub fn from_to(first: Span, last: Span) -> Span
    ensures { result ≡ operators.from_to first last }
{
    Span {
        start: first.start,
        end: last.end,
    }
}

/// The place from the first tree to the last.
#[tactic(auto, unfolding(crate::specs::Operators::across))]
pub fn across(first: &Tree, last: &Tree) -> Span
    ensures { result ≡ operators.across first.now last.now }
{
    from_to(first.span(), last.span())
}

impl<F: Fn(Global, usize, Form, bool, &[Token]) -> Result<(Tree, &[Token]), Stop<'_>>> Grammar<F> {
    /// An operator and its operand, which is read as this form.
    #[tactic(auto, unfolding(crate::specs::Operators::unary_operation))]
    fn unary_operation<'a>(
        &self,
        operator: Unary,
        form: Form,
        tokens: &'a [Token],
    ) -> Read<'a, Tree>
        requires { Nests self.now.depth (F.pre self.now.nested) (F.post self.now.nested) }
        ensures { Gives (λ x. (x.0, x.1.now)) result (operators.unary_operation (parsed self.now.depth) self.now.depth self.now.takes_do operator form tokens.now) }
    {
        let (mark, rest) = take(tokens)?;
        let (operand, rest) = self.form(form, self.takes_do, rest)?;
        let span = from_to(mark, operand.span());
        let node = Node::Unary {
            operator,
            operand,
            span,
        };
        Ok((Tree::new(self.alloc, node)?, rest))
    }

    /// An operator after its left side, and its right side, which is read as this form.
    #[tactic(auto, unfolding(crate::specs::Operators::binary_operation))]
    fn binary_operation<'a>(
        &self,
        operator: Binary,
        form: Form,
        left: Tree,
        tokens: &'a [Token],
    ) -> Read<'a, Tree>
        requires { Nests self.now.depth (F.pre self.now.nested) (F.post self.now.nested) }
        ensures { Gives (λ x. (x.0, x.1.now)) result (operators.binary_operation (parsed self.now.depth) self.now.depth self.now.takes_do operator form left tokens.now) }
    {
        let (operator_span, rest) = take(tokens)?;
        let (right, rest) = self.form(form, self.takes_do, rest)?;
        let span = across(&left, &right);
        let node = Node::Binary {
            operator,
            operator_span,
            left,
            right,
            span,
        };
        Ok((Tree::new(self.alloc, node)?, rest))
    }

    /// An operand, perhaps with `!`, `~` or `+` in front.
    #[tactic(auto, unfolding(crate::specs::Operators::prefixed))]
    pub fn prefixed<'a>(&self, tokens: &'a [Token]) -> Read<'a, Tree>
        requires { Nests self.now.depth (F.pre self.now.nested) (F.post self.now.nested) }
        ensures { Gives (λ x. (x.0, x.1.now)) result (operators.prefixed (parsed self.now.depth) self.now.depth self.now.takes_do tokens.now) }
    {
        match prefix_of(tokens) {
            Some(operator) => self.unary_operation(operator, Form::Prefixed, tokens),
            None => self.post(tokens),
        }
    }

    /// Perhaps `**` and its right side after this operand.
    #[tactic(auto, unfolding(crate::specs::Operators::powered))]
    fn powered<'a>(&self, left: Tree, tokens: &'a [Token]) -> Read<'a, Tree>
        requires { Nests self.now.depth (F.pre self.now.nested) (F.post self.now.nested) }
        ensures { Gives (λ x. (x.0, x.1.now)) result (operators.powered (parsed self.now.depth) self.now.depth self.now.takes_do left tokens.now) }
    {
        if sees(Shape::Power, tokens) {
            self.binary_operation(Binary::Power, Form::Negated, left, tokens)
        } else {
            Ok((left, tokens))
        }
    }

    #[tactic(auto, unfolding(crate::specs::Operators::power))]
    fn power<'a>(&self, tokens: &'a [Token]) -> Read<'a, Tree>
        requires { Nests self.now.depth (F.pre self.now.nested) (F.post self.now.nested) }
        ensures { Gives (λ x. (x.0, x.1.now)) result (operators.power (parsed self.now.depth) self.now.depth self.now.takes_do tokens.now) }
    {
        let (left, rest) = self.prefixed(tokens)?;
        self.powered(left, rest)
    }

    /// An operand, perhaps with prefixes and powers.
    #[tactic(auto, unfolding(crate::specs::Operators::negated))]
    pub fn negated<'a>(&self, tokens: &'a [Token]) -> Read<'a, Tree>
        requires { Nests self.now.depth (F.pre self.now.nested) (F.post self.now.nested) }
        ensures { Gives (λ x. (x.0, x.1.now)) result (operators.negated (parsed self.now.depth) self.now.depth self.now.takes_do tokens.now) }
    {
        if is_negation(tokens) {
            self.unary_operation(Unary::Minus, Form::Negated, tokens)
        } else {
            self.power(tokens)
        }
    }

    /// Operations after their first operand, whose operators bind at least as tightly as `least`.
    fn climb<'a>(&self, least: u8, left: Tree, tokens: &'a [Token]) -> Read<'a, Tree>
        requires { Nests self.now.depth (F.pre self.now.nested) (F.post self.now.nested) }
        ensures { Gives (λ x. (x.0, x.1.now)) result (operators.climb (parsed self.now.depth) self.now.depth self.now.takes_do least left tokens.now) }
    {
        let mut most = 9;
        let mut longest = left;
        let mut rest = tokens;
        for _turn in 0..self.depth {
            let Some(operator) = operator_between(peek(rest), least, most) else {
                return Ok((longest, rest));
            };
            let form = Form::Operation {
                least: level_of(operator) + 1,
            };
            let (longer, left) = self.binary_operation(operator, form, longest, rest)?;
            longest = longer;
            most = ceiling(operator);
            rest = left;
        }
        Err(Stop::Refused(rest))
    }

    /// An operation of operators that bind at least as tightly as `least`.
    #[tactic(auto, unfolding(crate::specs::Operators::operation))]
    pub fn operation<'a>(&self, least: u8, tokens: &'a [Token]) -> Read<'a, Tree>
        requires { Nests self.now.depth (F.pre self.now.nested) (F.post self.now.nested) }
        ensures { Gives (λ x. (x.0, x.1.now)) result (operators.operation (parsed self.now.depth) self.now.depth self.now.takes_do least tokens.now) }
    {
        let (left, rest) = self.negated(tokens)?;
        self.climb(least, left, rest)
    }

    /// `?`, `:` and their sides, after their condition.
    #[tactic(auto, unfolding(crate::specs::Operators::alternatives))]
    fn alternatives<'a>(&self, condition: Tree, tokens: &'a [Token]) -> Read<'a, Tree>
        requires { Nests self.now.depth (F.pre self.now.nested) (F.post self.now.nested) }
        ensures { Gives (λ x. (x.0, x.1.now)) result (operators.alternatives (parsed self.now.depth) self.now.depth self.now.takes_do condition tokens.now) }
    {
        let (_, rest) = expect(Shape::Question, tokens)?;
        let (positive, rest) = self.form(Form::Tern, self.takes_do, rest)?;
        let (_, rest) = expect(Shape::Colon, rest)?;
        let (negative, rest) = self.form(Form::Tern, self.takes_do, rest)?;
        let span = across(&condition, &negative);
        let node = Node::Conditional {
            condition,
            positive,
            negative,
            span,
        };
        Ok((Tree::new(self.alloc, node)?, rest))
    }

    #[tactic(auto, unfolding(crate::specs::Operators::chosen))]
    fn chosen<'a>(&self, condition: Tree, tokens: &'a [Token]) -> Read<'a, Tree>
        requires { Nests self.now.depth (F.pre self.now.nested) (F.post self.now.nested) }
        ensures { Gives (λ x. (x.0, x.1.now)) result (operators.chosen (parsed self.now.depth) self.now.depth self.now.takes_do condition tokens.now) }
    {
        if sees(Shape::Question, tokens) {
            self.alternatives(condition, tokens)
        } else {
            Ok((condition, tokens))
        }
    }

    /// An expression with operators, at most `? :`.
    #[tactic(auto, unfolding(crate::specs::Operators::tern))]
    pub fn tern<'a>(&self, tokens: &'a [Token]) -> Read<'a, Tree>
        requires { Nests self.now.depth (F.pre self.now.nested) (F.post self.now.nested) }
        ensures { Gives (λ x. (x.0, x.1.now)) result (operators.tern (parsed self.now.depth) self.now.depth self.now.takes_do tokens.now) }
    {
        let (condition, rest) = self.operation(1, tokens)?;
        self.chosen(condition, rest)
    }

    /// The rest of an expression that begins by this operand.
    #[tactic(auto, unfolding(crate::specs::Operators::tern_after))]
    pub fn tern_after<'a>(&self, first: Tree, tokens: &'a [Token]) -> Read<'a, Tree>
        requires { Nests self.now.depth (F.pre self.now.nested) (F.post self.now.nested) }
        ensures { Gives (λ x. (x.0, x.1.now)) result (operators.tern_after (parsed self.now.depth) self.now.depth self.now.takes_do first tokens.now) }
    {
        let (left, rest) = self.powered(first, tokens)?;
        let (condition, rest) = self.climb(1, left, rest)?;
        self.chosen(condition, rest)
    }
}
