//! The forms that nest, and the one function through which they do. The rules are methods of `Grammar`, which takes that
//! function as a parameter, so that each is proved by itself.

ghost use Rattle.std.specs.Prelude.{◌≡◌};
ghost use Rattle.rb_expr.specs.Grammar as grammar;
ghost use Rattle.rb_expr.specs.Grammar.{Nests, parsed};
ghost use Rattle.rb_expr.specs.Reading.{Gives};

use crate::form::Form;
use crate::reading::{Read, Stop};
use rb_tree::syntax::Tree;
use rb_tree::token::Token;
use std::alloc::Global;

/// What the rules of the grammar share.
#[derive(Clone, Copy)]
pub struct Grammar<F> {
    pub alloc: Global,
    /// How deep forms may still nest, and how many turns a loop may take.
    pub depth: usize,
    /// Whether calls that stand here in no brackets may take a `do`.
    pub takes_do: bool,
    /// Reads a form that nests, by the depth and the flag that it is given.
    pub nested: F,
}

/// Reads a form with others nested in it at most so deep.
pub fn nested<'a>(
    alloc: Global,
    depth: usize,
    form: Form,
    takes_do: bool,
    tokens: &'a [Token],
) -> Read<'a, Tree>
    ensures { Gives (λ x. (x.0, x.1.now)) result (parsed depth form takes_do tokens.now) }
{
    if depth == 0 {
        return Err(Stop::Refused(tokens));
    }
    Grammar {
        alloc,
        depth: depth - 1,
        takes_do,
        nested,
    }
    .by_form(form, tokens)
}

impl<F: Fn(Global, usize, Form, bool, &[Token]) -> Result<(Tree, &[Token]), Stop<'_>>> Grammar<F> {
    /// Reads a form that nests here.
    pub fn form<'a>(&self, form: Form, takes_do: bool, tokens: &'a [Token]) -> Read<'a, Tree>
        requires { Nests self.now.depth (F.pre self.now.nested) (F.post self.now.nested) }
        ensures { Gives (λ x. (x.0, x.1.now)) result (parsed self.now.depth form takes_do tokens.now) }
    {
        (self.nested)(self.alloc, self.depth, form, takes_do, tokens)
    }

    fn by_form<'a>(&self, form: Form, tokens: &'a [Token]) -> Read<'a, Tree>
        requires { Nests self.now.depth (F.pre self.now.nested) (F.post self.now.nested) }
        ensures { Gives (λ x. (x.0, x.1.now)) result (grammar.by_form (parsed self.now.depth) self.now.depth self.now.takes_do form tokens.now) }
    {
        match form {
            Form::Body => self.body(false, tokens),
            Form::Simple => self.simple(false, tokens),
            Form::Value => self.value(false, tokens),
            Form::Tern => self.tern(tokens),
            Form::Operation { least } => self.operation(least, tokens),
            Form::Negated => self.negated(tokens),
            Form::Prefixed => self.prefixed(tokens),
        }
    }
}
