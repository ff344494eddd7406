//! The arguments and blocks of calls.

ghost use Rattle.std.specs.Prelude.{◌≡◌};
ghost use Rattle.rb_expr.specs.Calls as calls;
ghost use Rattle.rb_expr.specs.Grammar.{Nests, parsed};
ghost use Rattle.rb_expr.specs.Lists as lists;
ghost use Rattle.rb_expr.specs.Reading.{Gives};

use crate::form::Form;
use crate::grammar::Grammar;
use crate::lists::{
    Order, after_argument, end_of_argument, fresh_name, goes_on, is_keyword, note, order_of,
    passes_block,
};
use crate::reading::{Read, Stop, after, expect, named, peek, sees, skip_separators};
use indexmap::IndexSet;
use rb_tree::syntax::{Argument, Block, PlacedName, Tree};
use rb_tree::token::{Shape, Token};
use srb_terms::{Boxed, Items, Span};
use std::alloc::Global;

impl<F: Fn(Global, usize, Form, bool, &[Token]) -> Result<(Tree, &[Token]), Stop<'_>>> Grammar<F> {
    /// `name: value`.
    #[tactic(auto, unfolding(crate::specs::Calls::keyword))]
    fn keyword<'a>(&self, takes: bool, tokens: &'a [Token]) -> Read<'a, Argument<Tree>>
        requires { Nests self.now.depth (F.pre self.now.nested) (F.post self.now.nested) }
        ensures { Gives (λ x. (x.0, x.1.now)) result (calls.keyword (parsed self.now.depth) self.now.depth self.now.takes_do takes tokens.now) }
    {
        let (label, rest) = named(self.alloc, Shape::Label, tokens)?;
        let (value, rest) = self.form(Form::Tern, takes, rest)?;
        let PlacedName { name, span } = label;
        Ok((Argument::Keyword { name, span, value }, rest))
    }

    /// `&value`.
    #[tactic(auto, unfolding(crate::specs::Calls::passed_block))]
    fn passed_block<'a>(&self, takes: bool, tokens: &'a [Token]) -> Read<'a, Argument<Tree>>
        requires { Nests self.now.depth (F.pre self.now.nested) (F.post self.now.nested) }
        ensures { Gives (λ x. (x.0, x.1.now)) result (calls.passed_block (parsed self.now.depth) self.now.depth self.now.takes_do takes tokens.now) }
    {
        let (span, rest) = expect(Shape::Ampersand, tokens)?;
        let (value, rest) = self.form(Form::Tern, takes, rest)?;
        Ok((Argument::Block { span, value }, rest))
    }

    /// An argument by its place.
    #[tactic(auto, unfolding(crate::specs::Calls::positional))]
    fn positional<'a>(&self, takes: bool, tokens: &'a [Token]) -> Read<'a, Argument<Tree>>
        requires { Nests self.now.depth (F.pre self.now.nested) (F.post self.now.nested) }
        ensures { Gives (λ x. (x.0, x.1.now)) result (calls.positional (parsed self.now.depth) self.now.depth self.now.takes_do takes tokens.now) }
    {
        let (value, rest) = self.form(Form::Tern, takes, tokens)?;
        Ok((Argument::Positional { value }, rest))
    }

    /// An argument. `keywords` says whether a keyword argument stands before it, `takes` whether its calls may take a `do`.
    #[tactic(auto, unfolding(crate::specs::Calls::one_argument))]
    fn argument<'a>(
        &self,
        keywords: bool,
        takes: bool,
        tokens: &'a [Token],
    ) -> Read<'a, Argument<Tree>>
        requires { Nests self.now.depth (F.pre self.now.nested) (F.post self.now.nested) }
        ensures { Gives (λ x. (x.0, x.1.now)) result (calls.one_argument (parsed self.now.depth) self.now.depth self.now.takes_do keywords takes tokens.now) }
    {
        match peek(tokens) {
            Some(Shape::Label) => self.keyword(takes, tokens),
            Some(Shape::Ampersand) => self.passed_block(takes, tokens),
            _ => {
                if keywords {
                    Err(Stop::Refused(tokens))
                } else {
                    self.positional(takes, tokens)
                }
            }
        }
    }

    /// At least one argument, and the bracket that closes them.
    fn listed<'a>(
        &self,
        closer: Shape,
        tokens: &'a [Token],
    ) -> Read<'a, (Items<Argument<Tree>>, Span)>
        requires { Nests self.now.depth (F.pre self.now.nested) (F.post self.now.nested) }
        ensures { Gives (λ x. (x.0, x.1.now)) result (calls.listed (parsed self.now.depth) self.now.depth self.now.takes_do closer tokens.now) }
    {
        let mut found = Items::new(self.alloc);
        let mut keywords = false;
        let mut rest = tokens;
        for _turn in 0..self.depth {
            let (next, left) = self.argument(keywords, true, rest)?;
            let order = order_of(&next);
            found.push(next)?;
            let (closing, left) = after_argument(closer, order, left)?;
            if let Some(closing) = closing {
                return Ok(((found, closing), left));
            }
            keywords = is_keyword(order);
            rest = left;
        }
        Err(Stop::Refused(rest))
    }

    /// What stands after the `(` of arguments.
    #[tactic(auto, unfolding(crate::specs::Calls::in_brackets))]
    fn in_brackets<'a>(&self, tokens: &'a [Token]) -> Read<'a, (Items<Argument<Tree>>, Span)>
        requires { Nests self.now.depth (F.pre self.now.nested) (F.post self.now.nested) }
        ensures { Gives (λ x. (x.0, x.1.now)) result (calls.in_brackets (parsed self.now.depth) self.now.depth self.now.takes_do tokens.now) }
    {
        if sees(Shape::CloseParen, tokens) {
            let (closing, rest) = expect(Shape::CloseParen, tokens)?;
            return Ok(((Items::new(self.alloc), closing), rest));
        }
        self.listed(Shape::CloseParen, tokens)
    }

    /// Arguments in brackets, and the closing one.
    #[tactic(auto, unfolding(crate::specs::Calls::brackets))]
    fn brackets<'a>(&self, tokens: &'a [Token]) -> Read<'a, (Items<Argument<Tree>>, Span)>
        requires { Nests self.now.depth (F.pre self.now.nested) (F.post self.now.nested) }
        ensures { Gives (λ x. (x.0, x.1.now)) result (calls.brackets (parsed self.now.depth) self.now.depth self.now.takes_do tokens.now) }
    {
        let (_, rest) = expect(Shape::OpenParen, tokens)?;
        self.in_brackets(skip_separators(rest))
    }

    /// The arguments of an index, and the bracket that closes them.
    #[tactic(auto, unfolding(crate::specs::Calls::index_arguments))]
    pub fn index_arguments<'a>(
        &self,
        tokens: &'a [Token],
    ) -> Read<'a, (Items<Argument<Tree>>, Span)>
        requires { Nests self.now.depth (F.pre self.now.nested) (F.post self.now.nested) }
        ensures { Gives (λ x. (x.0, x.1.now)) result (calls.index_arguments (parsed self.now.depth) self.now.depth self.now.takes_do tokens.now) }
    {
        self.listed(Shape::CloseBracket, skip_separators(tokens))
    }

    /// Arguments in brackets if a bracket comes next, and where they end. `end` is where the name before them does.
    #[tactic(auto, unfolding(crate::specs::Calls::optional_brackets))]
    pub fn optional_brackets<'a>(
        &self,
        end: u32,
        tokens: &'a [Token],
    ) -> Read<'a, (Option<Items<Argument<Tree>>>, u32)>
        requires { Nests self.now.depth (F.pre self.now.nested) (F.post self.now.nested) }
        ensures { Gives (λ x. (x.0, x.1.now)) result (calls.optional_brackets (parsed self.now.depth) self.now.depth self.now.takes_do end tokens.now) }
    {
        if !sees(Shape::OpenParen, tokens) {
            return Ok(((None, end), tokens));
        }
        let ((found, closing), rest) = self.brackets(tokens)?;
        Ok(((Some(found), closing.end), rest))
    }

    /// The arguments of a call without brackets, and where they end.
    pub fn bare<'a>(&self, tokens: &'a [Token]) -> Read<'a, (Items<Argument<Tree>>, u32)>
        requires { Nests self.now.depth (F.pre self.now.nested) (F.post self.now.nested) }
        ensures { Gives (λ x. (x.0, x.1.now)) result (calls.bare (parsed self.now.depth) self.now.depth self.now.takes_do tokens.now) }
    {
        let mut found = Items::new(self.alloc);
        let mut keywords = false;
        let mut rest = tokens;
        for _turn in 0..self.depth {
            let (next, left) = self.argument(keywords, false, rest)?;
            let order = order_of(&next);
            let end = end_of_argument(&next);
            found.push(next)?;
            if !goes_on(order, left) {
                return Ok(((found, end), left));
            }
            keywords = is_keyword(order);
            rest = after(left);
        }
        Err(Stop::Refused(rest))
    }

    /// The names of a block's parameters after the first `|`, to the second.
    fn bar_names<'a>(&self, tokens: &'a [Token]) -> Read<'a, Items<PlacedName>>
        requires { Nests self.now.depth (F.pre self.now.nested) (F.post self.now.nested) }
        ensures { Gives (λ x. (x.0, x.1.now)) result (calls.bar_names (parsed self.now.depth) self.now.depth self.now.takes_do tokens.now) }
    {
        let mut found = Items::new(self.alloc);
        let mut names = IndexSet::new(self.alloc);
        let mut rest = tokens;
        for _turn in 0..self.depth {
            let (next, left) = fresh_name(self.alloc, &names, rest)?;
            if !sees(Shape::Comma, left) {
                found.push(next)?;
                let (_, left) = expect(Shape::Pipe, left)?;
                return Ok((found, left));
            }
            note(&mut names, &next.name)?;
            found.push(next)?;
            rest = after(left);
        }
        Err(Stop::Refused(rest))
    }

    /// The parameters of a block, if it has any.
    #[tactic(auto, unfolding(crate::specs::Calls::bars))]
    fn bars<'a>(&self, tokens: &'a [Token]) -> Read<'a, Items<PlacedName>>
        requires { Nests self.now.depth (F.pre self.now.nested) (F.post self.now.nested) }
        ensures { Gives (λ x. (x.0, x.1.now)) result (calls.bars (parsed self.now.depth) self.now.depth self.now.takes_do tokens.now) }
    {
        if sees(Shape::Pipe, tokens) {
            self.bar_names(after(tokens))
        } else {
            Ok((Items::new(self.alloc), tokens))
        }
    }

    /// A block from its opening token to its closing one.
    #[tactic(auto, unfolding(crate::specs::Calls::block))]
    fn block<'a>(
        &self,
        opener: Shape,
        closer: Shape,
        tokens: &'a [Token],
    ) -> Read<'a, Boxed<Block<Tree>>>
        requires { Nests self.now.depth (F.pre self.now.nested) (F.post self.now.nested) }
        ensures { Gives (λ x. (x.0, x.1.now)) result (calls.block (parsed self.now.depth) self.now.depth self.now.takes_do opener closer tokens.now) }
    {
        let (opening, rest) = expect(opener, tokens)?;
        let (parameters, rest) = self.bars(rest)?;
        let (body, rest) = self.form(Form::Body, true, rest)?;
        let (closing, rest) = expect(closer, rest)?;
        let span = Span {
            start: opening.start,
            end: closing.end,
        };
        let block = Block {
            parameters,
            body,
            span,
        };
        Ok((Boxed::new(self.alloc, block)?, rest))
    }

    /// `do`, a body and `end`, if they come next and may be taken here.
    #[tactic(auto, unfolding(crate::specs::Calls::optional_do))]
    fn optional_do<'a>(&self, tokens: &'a [Token]) -> Read<'a, Option<Boxed<Block<Tree>>>>
        requires { Nests self.now.depth (F.pre self.now.nested) (F.post self.now.nested) }
        ensures { Gives (λ x. (x.0, x.1.now)) result (calls.optional_do (parsed self.now.depth) self.now.depth self.now.takes_do tokens.now) }
    {
        if self.takes_do && sees(Shape::Do, tokens) {
            let (block, rest) = self.block(Shape::Do, Shape::End, tokens)?;
            Ok((Some(block), rest))
        } else {
            Ok((None, tokens))
        }
    }

    /// A block, if one comes next and may be taken here.
    #[tactic(auto, unfolding(crate::specs::Calls::any_block))]
    fn any_block<'a>(&self, tokens: &'a [Token]) -> Read<'a, Option<Boxed<Block<Tree>>>>
        requires { Nests self.now.depth (F.pre self.now.nested) (F.post self.now.nested) }
        ensures { Gives (λ x. (x.0, x.1.now)) result (calls.any_block (parsed self.now.depth) self.now.depth self.now.takes_do tokens.now) }
    {
        if sees(Shape::OpenBrace, tokens) {
            let (block, rest) = self.block(Shape::OpenBrace, Shape::CloseBrace, tokens)?;
            Ok((Some(block), rest))
        } else {
            self.optional_do(tokens)
        }
    }

    /// The block of a call with these arguments, if one comes next and may be taken here.
    #[tactic(auto, unfolding(crate::specs::Calls::optional_block))]
    pub fn optional_block<'a>(
        &self,
        arguments: &Option<Items<Argument<Tree>>>,
        tokens: &'a [Token],
    ) -> Read<'a, Option<Boxed<Block<Tree>>>>
        requires { Nests self.now.depth (F.pre self.now.nested) (F.post self.now.nested) }
        ensures { Gives (λ x. (x.0, x.1.now)) result (calls.optional_block (parsed self.now.depth) self.now.depth self.now.takes_do arguments.now tokens.now) }
    {
        match arguments {
            Some(given) if passes_block(given.as_slice()) => Ok((None, tokens)),
            _ => self.any_block(tokens),
        }
    }

    /// The `do` block of a call with these arguments and no brackets, if one comes next and may be taken here.
    #[tactic(auto, unfolding(crate::specs::Calls::command_block))]
    pub fn command_block<'a>(
        &self,
        arguments: &[Argument<Tree>],
        tokens: &'a [Token],
    ) -> Read<'a, Option<Boxed<Block<Tree>>>>
        requires { Nests self.now.depth (F.pre self.now.nested) (F.post self.now.nested) }
        ensures { Gives (λ x. (x.0, x.1.now)) result (calls.command_block (parsed self.now.depth) self.now.depth self.now.takes_do arguments.now tokens.now) }
    {
        if passes_block(arguments) {
            Ok((None, tokens))
        } else {
            self.optional_do(tokens)
        }
    }
}
