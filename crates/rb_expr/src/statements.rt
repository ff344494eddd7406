//! Statements that are no declarations, and bodies of them.

ghost use Rattle.std.specs.Prelude.{◌≡◌, IfOk};
ghost use Rattle.rb_expr.specs.Grammar.{Nests, parsed};
ghost use Rattle.rb_expr.specs.Reading.{Gives};
ghost use Rattle.rb_expr.specs.Statements as statements;
ghost use Rattle.rb_tree.specs.Nodes as tree;

use crate::ending::{Follower, ending_of, follower_of, modifier_after};
use crate::form::Form;
use crate::grammar::Grammar;
use crate::lists::end_with;
use crate::operators::across;
use crate::reading::{Read, Stop, expect, peek, sees, skip_separators, start_of, take};
use crate::shapes::{begins_statement, has_prefix, has_value, jump_of};
use rb_tree::syntax::{Binary, Jump, Modifier, Node, Tree};
use rb_tree::token::{Shape, Token};
use srb_terms::{Items, NoMemory, Span};
use std::alloc::Global;

/// Where a tree ends, or the place where none is.
fn end_or(end: u32, tree: &Option<Tree>) -> u32
    ensures { result ≡ statements.end_or end tree.now }
{
    match tree {
        Some(tree) => tree.span().end,
        None => end,
    }
}

/// Where the place of a body begins that comes next.
fn body_start(tokens: &[Token]) -> u32
    ensures { result ≡ statements.body_start tokens.now }
{
    if begins_statement(tokens) {
        start_of(tokens)
    } else {
        0
    }
}

impl<F: Fn(Global, usize, Form, bool, &[Token]) -> Result<(Tree, &[Token]), Stop<'_>>> Grammar<F> {
    /// `=` and a value after its target.
    #[tactic(auto, unfolding(crate::specs::Statements::assigned))]
    fn assigned<'a>(&self, target: Tree, tokens: &'a [Token]) -> Read<'a, Tree>
        requires { Nests self.now.depth (F.pre self.now.nested) (F.post self.now.nested) }
        ensures { Gives (λ x. (x.0, x.1.now)) result (statements.assigned (parsed self.now.depth) self.now.depth self.now.takes_do target tokens.now) }
    {
        let (_, rest) = expect(Shape::Assign, tokens)?;
        let (value, rest) = self.form(Form::Value, self.takes_do, rest)?;
        let span = across(&target, &value);
        let node = Node::Assign {
            target,
            value,
            span,
        };
        Ok((Tree::new(self.alloc, node)?, rest))
    }

    /// An operator with `=` and a value after its target.
    #[tactic(auto, unfolding(crate::specs::Statements::operator_assigned))]
    fn operator_assigned<'a>(
        &self,
        operator: Binary,
        target: Tree,
        tokens: &'a [Token],
    ) -> Read<'a, Tree>
        requires { Nests self.now.depth (F.pre self.now.nested) (F.post self.now.nested) }
        ensures { Gives (λ x. (x.0, x.1.now)) result (statements.operator_assigned (parsed self.now.depth) self.now.depth self.now.takes_do operator target tokens.now) }
    {
        let (operator_span, rest) = take(tokens)?;
        let (value, rest) = self.form(Form::Value, self.takes_do, rest)?;
        let span = across(&target, &value);
        let node = Node::OperatorAssign {
            target,
            operator,
            operator_span,
            value,
            span,
        };
        Ok((Tree::new(self.alloc, node)?, rest))
    }

    /// Arguments without brackets and perhaps a block, after what is called.
    #[tactic(auto, unfolding(crate::specs::Statements::command))]
    fn command<'a>(&self, callee: Tree, tokens: &'a [Token]) -> Read<'a, Tree>
        requires { Nests self.now.depth (F.pre self.now.nested) (F.post self.now.nested) }
        ensures { Gives (λ x. (x.0, x.1.now)) result (statements.command (parsed self.now.depth) self.now.depth self.now.takes_do callee tokens.now) }
    {
        let ((arguments, end), rest) = self.bare(tokens)?;
        let (block, rest) = self.command_block(arguments.as_slice(), rest)?;
        let span = Span {
            start: callee.span().start,
            end: end_with(&block, end),
        };
        let node = Node::Command {
            callee,
            arguments,
            block,
            span,
        };
        Ok((Tree::new(self.alloc, node)?, rest))
    }

    /// What begins by this operand: an assignment, a call without brackets, or an expression. `constants` says whether a
    /// constant may be assigned to.
    #[tactic(auto, unfolding(crate::specs::Statements::followed))]
    fn followed<'a>(&self, constants: bool, first: Tree, tokens: &'a [Token]) -> Read<'a, Tree>
        requires { Nests self.now.depth (F.pre self.now.nested) (F.post self.now.nested) }
        ensures { Gives (λ x. (x.0, x.1.now)) result (statements.followed (parsed self.now.depth) self.now.depth self.now.takes_do constants first tokens.now) }
    {
        match follower_of(constants, ending_of(&first), peek(tokens)) {
            Follower::Value => self.assigned(first, tokens),
            Follower::Operator { operator } => self.operator_assigned(operator, first, tokens),
            Follower::Arguments => self.command(first, tokens),
            Follower::Operators => self.tern_after(first, tokens),
        }
    }

    #[tactic(auto, unfolding(crate::specs::Statements::from_operand))]
    fn from_operand<'a>(&self, constants: bool, tokens: &'a [Token]) -> Read<'a, Tree>
        requires { Nests self.now.depth (F.pre self.now.nested) (F.post self.now.nested) }
        ensures { Gives (λ x. (x.0, x.1.now)) result (statements.from_operand (parsed self.now.depth) self.now.depth self.now.takes_do constants tokens.now) }
    {
        let (first, rest) = self.post(tokens)?;
        self.followed(constants, first, rest)
    }

    /// A statement without modifiers that is no jump.
    #[tactic(auto, unfolding(crate::specs::Statements::value))]
    pub fn value<'a>(&self, constants: bool, tokens: &'a [Token]) -> Read<'a, Tree>
        requires { Nests self.now.depth (F.pre self.now.nested) (F.post self.now.nested) }
        ensures { Gives (λ x. (x.0, x.1.now)) result (statements.value (parsed self.now.depth) self.now.depth self.now.takes_do constants tokens.now) }
    {
        if has_prefix(tokens) {
            self.tern(tokens)
        } else {
            self.from_operand(constants, tokens)
        }
    }

    #[tactic(auto, unfolding(crate::specs::Statements::jump_value))]
    fn jump_value<'a>(&self, tokens: &'a [Token]) -> Read<'a, Option<Tree>>
        requires { Nests self.now.depth (F.pre self.now.nested) (F.post self.now.nested) }
        ensures { Gives (λ x. (x.0, x.1.now)) result (statements.jump_value (parsed self.now.depth) self.now.depth self.now.takes_do tokens.now) }
    {
        if !has_value(tokens) {
            return Ok((None, tokens));
        }
        let (value, rest) = self.form(Form::Value, self.takes_do, tokens)?;
        Ok((Some(value), rest))
    }

    #[tactic(auto, unfolding(crate::specs::Statements::jump))]
    fn jump<'a>(&self, word: Jump, tokens: &'a [Token]) -> Read<'a, Tree>
        requires { Nests self.now.depth (F.pre self.now.nested) (F.post self.now.nested) }
        ensures { Gives (λ x. (x.0, x.1.now)) result (statements.jump (parsed self.now.depth) self.now.depth self.now.takes_do word tokens.now) }
    {
        let (mark, rest) = take(tokens)?;
        let (value, rest) = self.jump_value(rest)?;
        let span = Span {
            start: mark.start,
            end: end_or(mark.end, &value),
        };
        let node = Node::Jump {
            jump: word,
            value,
            span,
        };
        Ok((Tree::new(self.alloc, node)?, rest))
    }

    /// A statement without modifiers.
    #[tactic(auto, unfolding(crate::specs::Statements::simple))]
    pub fn simple<'a>(&self, constants: bool, tokens: &'a [Token]) -> Read<'a, Tree>
        requires { Nests self.now.depth (F.pre self.now.nested) (F.post self.now.nested) }
        ensures { Gives (λ x. (x.0, x.1.now)) result (statements.simple (parsed self.now.depth) self.now.depth self.now.takes_do constants tokens.now) }
    {
        match jump_of(peek(tokens)) {
            Some(word) => self.jump(word, tokens),
            None => self.value(constants, tokens),
        }
    }

    /// A modifier and its condition after a statement.
    #[tactic(auto, unfolding(crate::specs::Statements::modified))]
    fn modified<'a>(&self, modifier: Modifier, inner: Tree, tokens: &'a [Token]) -> Read<'a, Tree>
        requires { Nests self.now.depth (F.pre self.now.nested) (F.post self.now.nested) }
        ensures { Gives (λ x. (x.0, x.1.now)) result (statements.modified (parsed self.now.depth) self.now.depth self.now.takes_do modifier inner tokens.now) }
    {
        let (_, rest) = take(tokens)?;
        let (condition, rest) = self.form(Form::Simple, self.takes_do, rest)?;
        let span = across(&inner, &condition);
        let node = Node::Modified {
            statement: inner,
            modifier,
            condition,
            span,
        };
        Ok((Tree::new(self.alloc, node)?, rest))
    }

    /// The modifiers after a statement.
    fn modifiers<'a>(&self, inner: Tree, tokens: &'a [Token]) -> Read<'a, Tree>
        requires { Nests self.now.depth (F.pre self.now.nested) (F.post self.now.nested) }
        ensures { Gives (λ x. (x.0, x.1.now)) result (statements.modifiers (parsed self.now.depth) self.now.depth self.now.takes_do inner tokens.now) }
    {
        let mut longest = inner;
        let mut rest = tokens;
        for _turn in 0..self.depth {
            let Some(modifier) = modifier_after(&longest, peek(rest)) else {
                return Ok((longest, rest));
            };
            let (longer, left) = self.modified(modifier, longest, rest)?;
            longest = longer;
            rest = left;
        }
        Err(Stop::Refused(rest))
    }

    /// A statement that is no declaration, with its modifiers.
    #[tactic(auto, unfolding(crate::specs::Statements::statement))]
    pub fn statement<'a>(&self, constants: bool, tokens: &'a [Token]) -> Read<'a, Tree>
        requires { Nests self.now.depth (F.pre self.now.nested) (F.post self.now.nested) }
        ensures { Gives (λ x. (x.0, x.1.now)) result (statements.statement (parsed self.now.depth) self.now.depth self.now.takes_do constants tokens.now) }
    {
        let (inner, rest) = self.simple(constants, tokens)?;
        self.modifiers(inner, rest)
    }

    fn statements<'a>(&self, constants: bool, tokens: &'a [Token]) -> Read<'a, Tree>
        requires { Nests self.now.depth (F.pre self.now.nested) (F.post self.now.nested) }
        ensures { Gives (λ x. (x.0, x.1.now)) result (statements.statements (parsed self.now.depth) self.now.depth self.now.takes_do constants tokens.now) }
    {
        let start = body_start(tokens);
        let mut end = 0;
        let mut found = Items::new(self.alloc);
        let mut rest = tokens;
        for _turn in 0..self.depth {
            if !begins_statement(rest) {
                return Ok((body_of(self.alloc, found, Span { start, end })?, rest));
            }
            let (next, left) = self.statement(constants, rest)?;
            end = next.span().end;
            found.push(next)?;
            if !sees(Shape::Separator, left) {
                return ended(self.alloc, found, Span { start, end }, left);
            }
            rest = skip_separators(left);
        }
        Err(Stop::Refused(rest))
    }

    /// The longest body without declarations.
    #[tactic(auto, unfolding(crate::specs::Statements::body))]
    pub fn body<'a>(&self, constants: bool, tokens: &'a [Token]) -> Read<'a, Tree>
        requires { Nests self.now.depth (F.pre self.now.nested) (F.post self.now.nested) }
        ensures { Gives (λ x. (x.0, x.1.now)) result (statements.body (parsed self.now.depth) self.now.depth self.now.takes_do constants tokens.now) }
    {
        self.statements(constants, skip_separators(tokens))
    }
}

/// A body of these statements at this place.
fn body_of(alloc: Global, statements: Items<Tree>, span: Span) -> Result<Tree, NoMemory>
    ensures { IfOk result (λ body. body ≡ tree.Body statements span) }
{
    Tree::new(alloc, Node::Body { statements, span })
}

/// The body of these statements, which ends after the last. A `rescue` doesn't stand there without a separator.
#[tactic(auto, unfolding(crate::specs::Statements::ended))]
fn ended<'a>(alloc: Global, found: Items<Tree>, span: Span, tokens: &'a [Token]) -> Read<'a, Tree>
    ensures { Gives (λ x. (x.0, x.1.now)) result (statements.ended found span tokens.now) }
{
    if sees(Shape::Rescue, tokens) {
        return Err(Stop::Refused(tokens));
    }
    Ok((body_of(alloc, found, span)?, tokens))
}
