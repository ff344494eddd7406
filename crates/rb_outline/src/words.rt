ghost use Rattle.std.specs.Prelude.{◌≡◌, [], ◌++◌, IfOk};
ghost use Rattle.rb_tree.specs.declared.syntax.Node.{out-Node};
ghost use Rattle.rb_outline.specs.Outlines as spec;

use rb_tree::syntax::{Binary, Jump, Modifier, Node, PlacedName, Sign, Test, Unary, Visibility};
use srb_terms::{Name, NoMemory, NodeKind, ParamKind, Words};
use std::alloc::Global;

/// The kind of a node.
pub fn kind_of(node: &Node) -> NodeKind
    ensures { result ≡ spec.kind_at (out-Node node.now) }
{
    match node {
        Node::Body { .. } => NodeKind::Body,
        Node::Modified { .. } => NodeKind::Modified,
        Node::Jump { .. } => NodeKind::Jump,
        Node::Assign { .. } => NodeKind::Assign,
        Node::OperatorAssign { .. } => NodeKind::OperatorAssign,
        Node::Command { .. } => NodeKind::Command,
        Node::Conditional { .. } => NodeKind::Conditional,
        Node::Binary { .. } => NodeKind::Binary,
        Node::Unary { .. } => NodeKind::Unary,
        Node::Post { .. } => NodeKind::Post,
        Node::Whole { .. } => NodeKind::Whole,
        Node::Float { .. } => NodeKind::Float,
        Node::Text { .. } => NodeKind::Text,
        Node::Symbol { .. } => NodeKind::Symbol,
        Node::InstanceVariable { .. } => NodeKind::InstanceVariable,
        Node::Constant { .. } => NodeKind::Constant,
        Node::TopConstant { .. } => NodeKind::TopConstant,
        Node::SelfWord { .. } => NodeKind::SelfWord,
        Node::Nil { .. } => NodeKind::Nil,
        Node::True { .. } => NodeKind::True,
        Node::False { .. } => NodeKind::False,
        Node::Name { .. } => NodeKind::Name,
        Node::Call { .. } => NodeKind::Call,
        Node::Yield { .. } => NodeKind::Yield,
        Node::Super { .. } => NodeKind::Super,
        Node::Array { .. } => NodeKind::Array,
        Node::Hash { .. } => NodeKind::Hash,
        Node::Parens { .. } => NodeKind::Parens,
        Node::If { .. } => NodeKind::If,
        Node::While { .. } => NodeKind::While,
        Node::Case { .. } => NodeKind::Case,
        Node::Begin { .. } => NodeKind::Begin,
        Node::Class { .. } => NodeKind::Class,
        Node::Module { .. } => NodeKind::Module,
        Node::Def { .. } => NodeKind::Def,
    }
}

fn modifier_words(modifier: Modifier) -> &'static str
    ensures { result.now ≡ spec.modifier_words modifier }
{
    match modifier {
        Modifier::If => "if",
        Modifier::Unless => "unless",
        Modifier::While => "while",
        Modifier::Until => "until",
    }
}

fn jump_words(jump: Jump) -> &'static str
    ensures { result.now ≡ spec.jump_words jump }
{
    match jump {
        Jump::Return => "return",
        Jump::Break => "break",
        Jump::Next => "next",
    }
}

fn if_words(test: Test) -> &'static str
    ensures { result.now ≡ spec.if_words test }
{
    match test {
        Test::Positive => "if",
        Test::Negative => "unless",
    }
}

fn while_words(test: Test) -> &'static str
    ensures { result.now ≡ spec.while_words test }
{
    match test {
        Test::Positive => "while",
        Test::Negative => "until",
    }
}

/// How a sign is spelled.
pub fn sign_words(sign: Sign) -> &'static str
    ensures { result.now ≡ spec.sign_words sign }
{
    match sign {
        Sign::Minus => "-",
        Sign::Plus => "+",
    }
}

fn unary_words(operator: Unary) -> &'static str
    ensures { result.now ≡ spec.unary_words operator }
{
    match operator {
        Unary::Minus => "-",
        Unary::Plus => "+",
        Unary::Not => "!",
        Unary::Tilde => "~",
    }
}

fn binary_words(operator: Binary) -> &'static str
    ensures { result.now ≡ spec.binary_words operator }
{
    match operator {
        Binary::Or => "||",
        Binary::And => "&&",
        Binary::Equal => "==",
        Binary::NotEqual => "!=",
        Binary::CaseEqual => "===",
        Binary::Compare => "<=>",
        Binary::Less => "<",
        Binary::Greater => ">",
        Binary::LessEqual => "<=",
        Binary::GreaterEqual => ">=",
        Binary::Pipe => "|",
        Binary::Caret => "^",
        Binary::Ampersand => "&",
        Binary::ShiftLeft => "<<",
        Binary::ShiftRight => ">>",
        Binary::Plus => "+",
        Binary::Minus => "-",
        Binary::Star => "*",
        Binary::Slash => "/",
        Binary::Percent => "%",
        Binary::Power => "**",
    }
}

/// What stands before a parameter's name: its kind.
pub fn param_words(kind: ParamKind) -> &'static str
    ensures { result.now ≡ spec.param_words kind }
{
    match kind {
        ParamKind::Required => "req ",
        ParamKind::Optional => "opt ",
        ParamKind::Key => "keyreq ",
        ParamKind::KeyOptional => "key ",
        ParamKind::Block => "block ",
        ParamKind::Rest => "rest ",
    }
}

fn visibility_words(visibility: Option<Visibility>) -> &'static str
    ensures { result.now ≡ spec.visibility_words visibility }
{
    match visibility {
        None => "",
        Some(Visibility::Private) => "private ",
        Some(Visibility::Protected) => "protected ",
        Some(Visibility::Public) => "public ",
        Some(Visibility::PrivateClassMethod) => "private_class_method ",
    }
}

fn own_mark(own: bool) -> &'static str
    ensures { result.now ≡ spec.own_mark own }
{
    if own { "def ." } else { "def #" }
}

/// Whether a superclass begins with `::`, as it is spelled.
pub fn top_words(top: bool) -> &'static str
    ensures { result.now ≡ spec.top_words top }
{
    if top { "::" } else { "" }
}

/// No words. It takes no memory.
pub fn no_words(alloc: Global) -> Result<Words, NoMemory>
    ensures { IfOk result (λ w. w ≡ []) }
{
    Words::from_str(alloc, "")
}

/// A name after what stands before it.
pub fn marked(alloc: Global, mark: &str, name: &Name) -> Result<Words, NoMemory>
    ensures { IfOk result (λ w. w ≡ mark.now ++ name.now) }
{
    let mut text = String::from_str(alloc, mark)?;
    text.push_str(name.as_str())?;
    Words::from_string(text)
}

/// The words of a `rescue` clause.
pub fn variable_words(alloc: Global, variable: &Option<PlacedName>) -> Result<Words, NoMemory>
    ensures { IfOk result (λ w. w ≡ spec.variable_words variable.now) }
{
    match variable {
        None => no_words(alloc),
        Some(name) => marked(alloc, "=> ", &name.name),
    }
}

// The words of a method.
fn def_words(
    alloc: Global,
    visibility: Option<Visibility>,
    own: bool,
    name: &Name,
) -> Result<Words, NoMemory>
    ensures { IfOk result (λ w. w ≡ spec.visibility_words visibility ++ (spec.own_mark own ++ name.now)) }
{
    let mut text = String::from_str(alloc, visibility_words(visibility))?;
    let own = marked(alloc, own_mark(own), name)?;
    text.push_str(own.as_str())?;
    Words::from_string(text)
}

/// The words of a node.
pub fn words_of(alloc: Global, node: &Node) -> Result<Words, NoMemory>
    ensures { IfOk result (λ w. w ≡ spec.words_at (out-Node node.now)) }
{
    match node {
        Node::Modified { modifier, .. } => Words::from_str(alloc, modifier_words(*modifier)),
        Node::Jump { jump, .. } => Words::from_str(alloc, jump_words(*jump)),
        Node::OperatorAssign { operator, .. } | Node::Binary { operator, .. } => {
            Words::from_str(alloc, binary_words(*operator))
        }
        Node::Unary { operator, .. } => Words::from_str(alloc, unary_words(*operator)),
        Node::Whole { words, .. } | Node::Float { words, .. } | Node::Symbol { words, .. } => {
            words.copied()
        }
        Node::InstanceVariable { name, .. }
        | Node::Constant { name, .. }
        | Node::TopConstant { name, .. }
        | Node::Name { name, .. }
        | Node::Call { name, .. } => name.to_words(),
        Node::If { test, .. } => Words::from_str(alloc, if_words(*test)),
        Node::While { test, .. } => Words::from_str(alloc, while_words(*test)),
        Node::Def {
            visibility,
            own,
            name,
            ..
        } => def_words(alloc, *visibility, *own, name),
        Node::Body { .. }
        | Node::Assign { .. }
        | Node::Command { .. }
        | Node::Conditional { .. }
        | Node::Post { .. }
        | Node::Text { .. }
        | Node::SelfWord { .. }
        | Node::Nil { .. }
        | Node::True { .. }
        | Node::False { .. }
        | Node::Yield { .. }
        | Node::Super { .. }
        | Node::Array { .. }
        | Node::Hash { .. }
        | Node::Parens { .. }
        | Node::Case { .. }
        | Node::Begin { .. }
        | Node::Class { .. }
        | Node::Module { .. } => no_words(alloc),
    }
}
