//! Operands: names, brackets, calls, and the suffixes after them.

ghost use Rattle.std.specs.Prelude.{◌≡◌, IfOk};
ghost use Rattle.rb_expr.specs.Grammar.{Nests, parsed};
ghost use Rattle.rb_expr.specs.Operands as operands;
ghost use Rattle.rb_expr.specs.Reading.{Gives};

use crate::form::Form;
use crate::grammar::Grammar;
use crate::lists::{after_element, end_with, span_of_suffix};
use crate::literals::{
    constant, instance_variable, negative, number, signed, symbol, top_constant, word,
};
use crate::reading::{
    Read, Stop, expect, named, peek, sees, skip_separators, start_of, take, worded,
};
use crate::shapes::is_index;
use rb_tree::syntax::{
    Argument, Block, Dot, Node, Pair, Piece, PlacedName, Sign, Suffix, Test, Tree,
};
use rb_tree::token::{Shape, Token};
use srb_terms::{Boxed, Items, NoMemory, Span};
use std::alloc::Global;

/// A name with what stands after it: where nothing does, the name alone.
fn call_of(
    alloc: Global,
    name: PlacedName,
    arguments: Option<Items<Argument<Tree>>>,
    end: u32,
    block: Option<Boxed<Block<Tree>>>,
) -> Result<Tree, NoMemory>
    ensures { IfOk result (λ tree. tree ≡ operands.call_of name arguments end block) }
{
    let PlacedName {
        name,
        span: name_span,
    } = name;
    if arguments.is_none() && block.is_none() {
        return Tree::new(
            alloc,
            Node::Name {
                name,
                span: name_span,
            },
        );
    }
    let span = Span {
        start: name_span.start,
        end: end_with(&block, end),
    };
    let node = Node::Call {
        name,
        name_span,
        arguments,
        block,
        span,
    };
    Tree::new(alloc, node)
}

/// An operand with its suffixes, the last of which ends at `end`.
fn post_of(
    alloc: Global,
    receiver: Tree,
    suffixes: Items<Suffix<Tree>>,
    end: u32,
) -> Result<Tree, NoMemory>
    ensures { IfOk result (λ tree. tree ≡ operands.post_of receiver suffixes end) }
{
    if suffixes.is_empty() {
        return Ok(receiver);
    }
    let span = Span {
        start: receiver.span().start,
        end,
    };
    let node = Node::Post {
        receiver,
        suffixes,
        span,
    };
    Tree::new(alloc, node)
}

impl<F: Fn(Global, usize, Form, bool, &[Token]) -> Result<(Tree, &[Token]), Stop<'_>>> Grammar<F> {
    /// `#{`, a body and `}`.
    #[tactic(auto, unfolding(crate::specs::Operands::interpolation))]
    fn interpolation<'a>(&self, tokens: &'a [Token]) -> Read<'a, Piece<Tree>>
        requires { Nests self.now.depth (F.pre self.now.nested) (F.post self.now.nested) }
        ensures { Gives (λ x. (x.0, x.1.now)) result (operands.interpolation (parsed self.now.depth) self.now.depth self.now.takes_do tokens.now) }
    {
        let (opening, rest) = expect(Shape::Interpolation, tokens)?;
        let (body, rest) = self.form(Form::Body, true, rest)?;
        let (closing, rest) = expect(Shape::CloseBrace, rest)?;
        let span = Span {
            start: opening.start,
            end: closing.end,
        };
        Ok((Piece::Code { body, span }, rest))
    }

    /// A string after its first piece, which has this place.
    fn pieces<'a>(&self, first: Piece<Tree>, place: Span, tokens: &'a [Token]) -> Read<'a, Tree>
        requires { Nests self.now.depth (F.pre self.now.nested) (F.post self.now.nested) }
        ensures { Gives (λ x. (x.0, x.1.now)) result (operands.pieces (parsed self.now.depth) self.now.depth self.now.takes_do first place tokens.now) }
    {
        let mut found = Items::new(self.alloc);
        found.push(first)?;
        let mut end = place.end;
        let mut rest = tokens;
        for _turn in 0..self.depth {
            if !sees(Shape::Interpolation, rest) {
                let span = Span {
                    start: place.start,
                    end,
                };
                let node = Node::Text {
                    pieces: found,
                    span,
                };
                return Ok((Tree::new(self.alloc, node)?, rest));
            }
            let (code, left) = self.interpolation(rest)?;
            let ((words, span), left) = worded(self.alloc, Shape::Text, left)?;
            found.push(code)?;
            found.push(Piece::Words { words, span })?;
            end = span.end;
            rest = left;
        }
        Err(Stop::Refused(rest))
    }

    /// A string.
    #[tactic(auto, unfolding(crate::specs::Operands::text))]
    fn text<'a>(&self, tokens: &'a [Token]) -> Read<'a, Tree>
        requires { Nests self.now.depth (F.pre self.now.nested) (F.post self.now.nested) }
        ensures { Gives (λ x. (x.0, x.1.now)) result (operands.text (parsed self.now.depth) self.now.depth self.now.takes_do tokens.now) }
    {
        let ((words, span), rest) = worded(self.alloc, Shape::Text, tokens)?;
        self.pieces(Piece::Words { words, span }, span, rest)
    }

    /// A name, perhaps with brackets and a block.
    #[tactic(auto, unfolding(crate::specs::Operands::called))]
    fn called<'a>(&self, tokens: &'a [Token]) -> Read<'a, Tree>
        requires { Nests self.now.depth (F.pre self.now.nested) (F.post self.now.nested) }
        ensures { Gives (λ x. (x.0, x.1.now)) result (operands.called (parsed self.now.depth) self.now.depth self.now.takes_do tokens.now) }
    {
        let (name, rest) = named(self.alloc, Shape::Identifier, tokens)?;
        let ((arguments, end), rest) = self.optional_brackets(name.span.end, rest)?;
        let (block, rest) = self.optional_block(&arguments, rest)?;
        Ok((call_of(self.alloc, name, arguments, end, block)?, rest))
    }

    #[tactic(auto, unfolding(crate::specs::Operands::yielding))]
    fn yielding<'a>(&self, tokens: &'a [Token]) -> Read<'a, Tree>
        requires { Nests self.now.depth (F.pre self.now.nested) (F.post self.now.nested) }
        ensures { Gives (λ x. (x.0, x.1.now)) result (operands.yielding (parsed self.now.depth) self.now.depth self.now.takes_do tokens.now) }
    {
        let (mark, rest) = take(tokens)?;
        let ((arguments, end), rest) = self.optional_brackets(mark.end, rest)?;
        let span = Span {
            start: mark.start,
            end,
        };
        let node = Node::Yield { arguments, span };
        Ok((Tree::new(self.alloc, node)?, rest))
    }

    #[tactic(auto, unfolding(crate::specs::Operands::super_call))]
    fn super_call<'a>(&self, tokens: &'a [Token]) -> Read<'a, Tree>
        requires { Nests self.now.depth (F.pre self.now.nested) (F.post self.now.nested) }
        ensures { Gives (λ x. (x.0, x.1.now)) result (operands.super_call (parsed self.now.depth) self.now.depth self.now.takes_do tokens.now) }
    {
        let (mark, rest) = take(tokens)?;
        let ((arguments, end), rest) = self.optional_brackets(mark.end, rest)?;
        let span = Span {
            start: mark.start,
            end,
        };
        let node = Node::Super { arguments, span };
        Ok((Tree::new(self.alloc, node)?, rest))
    }

    /// The elements of an array, at least one, and its closing bracket. It begins at `start`.
    fn elements<'a>(&self, start: u32, tokens: &'a [Token]) -> Read<'a, Tree>
        requires { Nests self.now.depth (F.pre self.now.nested) (F.post self.now.nested) }
        ensures { Gives (λ x. (x.0, x.1.now)) result (operands.elements (parsed self.now.depth) self.now.depth self.now.takes_do start tokens.now) }
    {
        let mut found = Items::new(self.alloc);
        let mut rest = tokens;
        for _turn in 0..self.depth {
            let (element, left) = self.form(Form::Tern, true, rest)?;
            found.push(element)?;
            let (closing, left) = after_element(Shape::CloseBracket, left)?;
            if let Some(closing) = closing {
                let span = Span {
                    start,
                    end: closing.end,
                };
                let node = Node::Array {
                    elements: found,
                    span,
                };
                return Ok((Tree::new(self.alloc, node)?, left));
            }
            rest = left;
        }
        Err(Stop::Refused(rest))
    }

    /// What stands after the `[` of an array and separators.
    #[tactic(auto, unfolding(crate::specs::Operands::array_from))]
    fn array_from<'a>(&self, start: u32, tokens: &'a [Token]) -> Read<'a, Tree>
        requires { Nests self.now.depth (F.pre self.now.nested) (F.post self.now.nested) }
        ensures { Gives (λ x. (x.0, x.1.now)) result (operands.array_from (parsed self.now.depth) self.now.depth self.now.takes_do start tokens.now) }
    {
        if !sees(Shape::CloseBracket, tokens) {
            return self.elements(start, tokens);
        }
        let (closing, rest) = expect(Shape::CloseBracket, tokens)?;
        let span = Span {
            start,
            end: closing.end,
        };
        let node = Node::Array {
            elements: Items::new(self.alloc),
            span,
        };
        Ok((Tree::new(self.alloc, node)?, rest))
    }

    #[tactic(auto, unfolding(crate::specs::Operands::array))]
    fn array<'a>(&self, tokens: &'a [Token]) -> Read<'a, Tree>
        requires { Nests self.now.depth (F.pre self.now.nested) (F.post self.now.nested) }
        ensures { Gives (λ x. (x.0, x.1.now)) result (operands.array (parsed self.now.depth) self.now.depth self.now.takes_do tokens.now) }
    {
        let (opening, rest) = take(tokens)?;
        self.array_from(opening.start, skip_separators(rest))
    }

    #[tactic(auto, unfolding(crate::specs::Operands::label_pair))]
    fn label_pair<'a>(&self, tokens: &'a [Token]) -> Read<'a, Pair<Tree>>
        requires { Nests self.now.depth (F.pre self.now.nested) (F.post self.now.nested) }
        ensures { Gives (λ x. (x.0, x.1.now)) result (operands.label_pair (parsed self.now.depth) self.now.depth self.now.takes_do tokens.now) }
    {
        let (label, rest) = named(self.alloc, Shape::Label, tokens)?;
        let (value, rest) = self.form(Form::Tern, true, rest)?;
        let PlacedName { name, span } = label;
        Ok((Pair::Label { name, span, value }, rest))
    }

    #[tactic(auto, unfolding(crate::specs::Operands::arrow_pair))]
    fn arrow_pair<'a>(&self, tokens: &'a [Token]) -> Read<'a, Pair<Tree>>
        requires { Nests self.now.depth (F.pre self.now.nested) (F.post self.now.nested) }
        ensures { Gives (λ x. (x.0, x.1.now)) result (operands.arrow_pair (parsed self.now.depth) self.now.depth self.now.takes_do tokens.now) }
    {
        let (key, rest) = self.form(Form::Tern, true, tokens)?;
        let (_, rest) = expect(Shape::Arrow, rest)?;
        let (value, rest) = self.form(Form::Tern, true, rest)?;
        Ok((Pair::Arrow { key, value }, rest))
    }

    /// A pair of a hash.
    #[tactic(auto, unfolding(crate::specs::Operands::a_pair))]
    fn pair<'a>(&self, tokens: &'a [Token]) -> Read<'a, Pair<Tree>>
        requires { Nests self.now.depth (F.pre self.now.nested) (F.post self.now.nested) }
        ensures { Gives (λ x. (x.0, x.1.now)) result (operands.a_pair (parsed self.now.depth) self.now.depth self.now.takes_do tokens.now) }
    {
        if sees(Shape::Label, tokens) {
            self.label_pair(tokens)
        } else {
            self.arrow_pair(tokens)
        }
    }

    /// The pairs of a hash, at least one, and its closing bracket. It begins at `start`.
    fn pairs<'a>(&self, start: u32, tokens: &'a [Token]) -> Read<'a, Tree>
        requires { Nests self.now.depth (F.pre self.now.nested) (F.post self.now.nested) }
        ensures { Gives (λ x. (x.0, x.1.now)) result (operands.pairs (parsed self.now.depth) self.now.depth self.now.takes_do start tokens.now) }
    {
        let mut found = Items::new(self.alloc);
        let mut rest = tokens;
        for _turn in 0..self.depth {
            let (next, left) = self.pair(rest)?;
            found.push(next)?;
            let (closing, left) = after_element(Shape::CloseBrace, left)?;
            if let Some(closing) = closing {
                let span = Span {
                    start,
                    end: closing.end,
                };
                let node = Node::Hash { pairs: found, span };
                return Ok((Tree::new(self.alloc, node)?, left));
            }
            rest = left;
        }
        Err(Stop::Refused(rest))
    }

    /// What stands after the `{` of a hash and separators.
    #[tactic(auto, unfolding(crate::specs::Operands::hash_from))]
    fn hash_from<'a>(&self, start: u32, tokens: &'a [Token]) -> Read<'a, Tree>
        requires { Nests self.now.depth (F.pre self.now.nested) (F.post self.now.nested) }
        ensures { Gives (λ x. (x.0, x.1.now)) result (operands.hash_from (parsed self.now.depth) self.now.depth self.now.takes_do start tokens.now) }
    {
        if !sees(Shape::CloseBrace, tokens) {
            return self.pairs(start, tokens);
        }
        let (closing, rest) = expect(Shape::CloseBrace, tokens)?;
        let span = Span {
            start,
            end: closing.end,
        };
        let node = Node::Hash {
            pairs: Items::new(self.alloc),
            span,
        };
        Ok((Tree::new(self.alloc, node)?, rest))
    }

    #[tactic(auto, unfolding(crate::specs::Operands::hash))]
    fn hash<'a>(&self, tokens: &'a [Token]) -> Read<'a, Tree>
        requires { Nests self.now.depth (F.pre self.now.nested) (F.post self.now.nested) }
        ensures { Gives (λ x. (x.0, x.1.now)) result (operands.hash (parsed self.now.depth) self.now.depth self.now.takes_do tokens.now) }
    {
        let (opening, rest) = take(tokens)?;
        self.hash_from(opening.start, skip_separators(rest))
    }

    /// `(`, a body and `)`.
    #[tactic(auto, unfolding(crate::specs::Operands::parens))]
    fn parens<'a>(&self, tokens: &'a [Token]) -> Read<'a, Tree>
        requires { Nests self.now.depth (F.pre self.now.nested) (F.post self.now.nested) }
        ensures { Gives (λ x. (x.0, x.1.now)) result (operands.parens (parsed self.now.depth) self.now.depth self.now.takes_do tokens.now) }
    {
        let (opening, rest) = take(tokens)?;
        let (body, rest) = self.form(Form::Body, true, rest)?;
        let (closing, rest) = expect(Shape::CloseParen, rest)?;
        let span = Span {
            start: opening.start,
            end: closing.end,
        };
        let node = Node::Parens { body, span };
        Ok((Tree::new(self.alloc, node)?, rest))
    }

    /// An operand without suffixes.
    #[tactic(auto, unfolding(crate::specs::Operands::primary))]
    fn primary<'a>(&self, tokens: &'a [Token]) -> Read<'a, Tree>
        requires { Nests self.now.depth (F.pre self.now.nested) (F.post self.now.nested) }
        ensures { Gives (λ x. (x.0, x.1.now)) result (operands.primary (parsed self.now.depth) self.now.depth self.now.takes_do tokens.now) }
    {
        match peek(tokens) {
            Some(Shape::Identifier) => self.called(tokens),
            Some(Shape::Constant) => constant(self.alloc, tokens),
            Some(Shape::InstanceVariable) => instance_variable(self.alloc, tokens),
            Some(Shape::Symbol) => symbol(self.alloc, tokens),
            Some(Shape::Whole) => number(self.alloc, None, start_of(tokens), tokens),
            Some(Shape::Float) => number(self.alloc, None, start_of(tokens), tokens),
            Some(Shape::Minus) => negative(self.alloc, tokens),
            Some(Shape::Plus) => signed(self.alloc, Sign::Plus, tokens),
            Some(Shape::Text) => self.text(tokens),
            Some(Shape::Scope) => top_constant(self.alloc, tokens),
            Some(Shape::SelfWord) => word(self.alloc, tokens),
            Some(Shape::Nil) => word(self.alloc, tokens),
            Some(Shape::True) => word(self.alloc, tokens),
            Some(Shape::False) => word(self.alloc, tokens),
            Some(Shape::Yield) => self.yielding(tokens),
            Some(Shape::Super) => self.super_call(tokens),
            Some(Shape::OpenBracket) => self.array(tokens),
            Some(Shape::OpenBrace) => self.hash(tokens),
            Some(Shape::OpenParen) => self.parens(tokens),
            Some(Shape::If) => self.branch(Test::Positive, tokens),
            Some(Shape::Unless) => self.branch(Test::Negative, tokens),
            Some(Shape::While) => self.repeated(Test::Positive, tokens),
            Some(Shape::Until) => self.repeated(Test::Negative, tokens),
            Some(Shape::Case) => self.choice(tokens),
            Some(Shape::Begin) => self.guards(tokens),
            _ => Err(Stop::Refused(tokens)),
        }
    }

    /// A call after its receiver, from the dot on.
    #[tactic(auto, unfolding(crate::specs::Operands::call_suffix))]
    fn call_suffix<'a>(&self, joint: Dot, tokens: &'a [Token]) -> Read<'a, Suffix<Tree>>
        requires { Nests self.now.depth (F.pre self.now.nested) (F.post self.now.nested) }
        ensures { Gives (λ x. (x.0, x.1.now)) result (operands.call_suffix (parsed self.now.depth) self.now.depth self.now.takes_do joint tokens.now) }
    {
        let (mark, rest) = take(tokens)?;
        let (called, rest) = named(self.alloc, Shape::Identifier, rest)?;
        let ((arguments, end), rest) = self.optional_brackets(called.span.end, rest)?;
        let (block, rest) = self.optional_block(&arguments, rest)?;
        let span = Span {
            start: mark.start,
            end: end_with(&block, end),
        };
        let PlacedName {
            name,
            span: name_span,
        } = called;
        let suffix = Suffix::Call {
            dot: joint,
            name,
            name_span,
            arguments,
            block,
            span,
        };
        Ok((suffix, rest))
    }

    #[tactic(auto, unfolding(crate::specs::Operands::constant_suffix))]
    fn constant_suffix<'a>(&self, tokens: &'a [Token]) -> Read<'a, Suffix<Tree>>
        requires { Nests self.now.depth (F.pre self.now.nested) (F.post self.now.nested) }
        ensures { Gives (λ x. (x.0, x.1.now)) result (operands.constant_suffix (parsed self.now.depth) self.now.depth self.now.takes_do tokens.now) }
    {
        let (mark, rest) = take(tokens)?;
        let (constant, rest) = named(self.alloc, Shape::Constant, rest)?;
        let PlacedName {
            name,
            span: name_span,
        } = constant;
        let span = Span {
            start: mark.start,
            end: name_span.end,
        };
        let suffix = Suffix::Constant {
            name,
            name_span,
            span,
        };
        Ok((suffix, rest))
    }

    #[tactic(auto, unfolding(crate::specs::Operands::index_suffix))]
    fn index_suffix<'a>(&self, tokens: &'a [Token]) -> Read<'a, Suffix<Tree>>
        requires { Nests self.now.depth (F.pre self.now.nested) (F.post self.now.nested) }
        ensures { Gives (λ x. (x.0, x.1.now)) result (operands.index_suffix (parsed self.now.depth) self.now.depth self.now.takes_do tokens.now) }
    {
        let (mark, rest) = take(tokens)?;
        let ((arguments, closing), rest) = self.index_arguments(rest)?;
        let span = Span {
            start: mark.start,
            end: closing.end,
        };
        Ok((Suffix::Index { arguments, span }, rest))
    }

    /// A suffix, if one comes next. `all` are the tokens from the operand on.
    #[tactic(auto, unfolding(crate::specs::Operands::a_suffix))]
    fn suffix<'a>(&self, all: &[Token], tokens: &'a [Token]) -> Read<'a, Option<Suffix<Tree>>>
        requires { Nests self.now.depth (F.pre self.now.nested) (F.post self.now.nested) }
        ensures { Gives (λ x. (x.0, x.1.now)) result (operands.a_suffix (parsed self.now.depth) self.now.depth self.now.takes_do all.now tokens.now) }
    {
        match peek(tokens) {
            Some(Shape::Dot) => {
                let (suffix, rest) = self.call_suffix(Dot::Plain, tokens)?;
                Ok((Some(suffix), rest))
            }
            Some(Shape::SafeDot) => {
                let (suffix, rest) = self.call_suffix(Dot::Safe, tokens)?;
                Ok((Some(suffix), rest))
            }
            Some(Shape::Scope) => {
                let (suffix, rest) = self.constant_suffix(tokens)?;
                Ok((Some(suffix), rest))
            }
            Some(Shape::OpenBracket) => {
                if !is_index(all, tokens) {
                    return Ok((None, tokens));
                }
                let (suffix, rest) = self.index_suffix(tokens)?;
                Ok((Some(suffix), rest))
            }
            _ => Ok((None, tokens)),
        }
    }

    /// The suffixes after an operand. `all` are the tokens from the operand on.
    fn suffixes<'a>(&self, all: &[Token], receiver: Tree, tokens: &'a [Token]) -> Read<'a, Tree>
        requires { Nests self.now.depth (F.pre self.now.nested) (F.post self.now.nested) }
        ensures { Gives (λ x. (x.0, x.1.now)) result (operands.suffixes (parsed self.now.depth) self.now.depth self.now.takes_do all.now receiver tokens.now) }
    {
        let mut found = Items::new(self.alloc);
        let mut end = 0;
        let mut rest = tokens;
        for _turn in 0..self.depth {
            let (next, left) = self.suffix(all, rest)?;
            let Some(next) = next else {
                return Ok((post_of(self.alloc, receiver, found, end)?, left));
            };
            end = span_of_suffix(&next).end;
            found.push(next)?;
            rest = left;
        }
        Err(Stop::Refused(rest))
    }

    /// An operand with its suffixes.
    #[tactic(auto, unfolding(crate::specs::Operands::post))]
    pub fn post<'a>(&self, tokens: &'a [Token]) -> Read<'a, Tree>
        requires { Nests self.now.depth (F.pre self.now.nested) (F.post self.now.nested) }
        ensures { Gives (λ x. (x.0, x.1.now)) result (operands.post (parsed self.now.depth) self.now.depth self.now.takes_do tokens.now) }
    {
        let (receiver, rest) = self.primary(tokens)?;
        self.suffixes(tokens, receiver, rest)
    }
}
