//! What a token does to the weight, by what stands before it.

ghost use Rattle.std.specs.Prelude.{◌≡◌};
ghost use Rattle.rb_weight.specs.Effects as spec;

use crate::sort::Sort;

/// What the token before says about the next one.
#[derive(Clone, Copy, PartialEq, Eq, Debug)]
pub enum Before {
    /// Nothing.
    Plain,
    /// An `if`, `unless`, `while` or `until` after it is a modifier.
    Operand,
    /// `{` or `do`: a `|` after it opens block parameters.
    Block,
    /// It stands in block parameters.
    Bars,
    /// `def`.
    Def,
    /// The `self` of `def self`.
    DefSelf,
    /// The `.` of `def self.`.
    DefDot,
    /// The name after `def`: a `(` after it opens parameters.
    Name,
}

/// A kind of levels.
#[derive(Clone, Copy, PartialEq, Eq, Debug)]
pub enum Level {
    /// A level in which nothing is special.
    Plain,
    /// That of a `while` or `until`, before the `do` or separator that ends its condition.
    Condition,
    /// The brackets around the parameters of a method.
    Parameters,
}

/// What a token does.
#[derive(Clone, Copy, PartialEq, Eq, Debug)]
pub enum Effect {
    Nothing,
    /// It opens a level.
    Opens { level: Level },
    /// It closes the innermost level.
    Closes,
    /// It is the `do` of a `while` or `until`.
    Enters,
    /// It is a separator.
    Separates,
    /// The operators before it in this level no longer count.
    Divides,
    /// It is an operator or modifier that counts.
    Counts,
}

fn is_operand(before: Before) -> bool
    ensures { result ≡ spec.is_operand before }
{
    match before {
        Before::Operand => true,
        _ => false,
    }
}

fn is_block(before: Before) -> bool
    ensures { result ≡ spec.is_block before }
{
    match before {
        Before::Block => true,
        _ => false,
    }
}

fn is_bars(before: Before) -> bool
    ensures { result ≡ spec.is_bars before }
{
    match before {
        Before::Bars => true,
        _ => false,
    }
}

fn is_name(before: Before) -> bool
    ensures { result ≡ spec.is_name before }
{
    match before {
        Before::Name => true,
        _ => false,
    }
}

fn is_condition(level: Level) -> bool
    ensures { result ≡ spec.is_condition level }
{
    match level {
        Level::Condition => true,
        _ => false,
    }
}

fn is_parameters(level: Level) -> bool
    ensures { result ≡ spec.is_parameters level }
{
    match level {
        Level::Parameters => true,
        _ => false,
    }
}

fn conditional(is_modifier: bool, level: Level) -> Effect
    ensures { result ≡ spec.conditional is_modifier level }
{
    if is_modifier {
        Effect::Counts
    } else {
        Effect::Opens { level }
    }
}

fn paren(before: Before) -> Effect
    ensures { result ≡ spec.paren before }
{
    Effect::Opens {
        level: if is_name(before) {
            Level::Parameters
        } else {
            Level::Plain
        },
    }
}

fn do_word(level: Level) -> Effect
    ensures { result ≡ spec.do_word level }
{
    if is_condition(level) {
        Effect::Enters
    } else {
        Effect::Opens {
            level: Level::Plain,
        }
    }
}

fn pipe(before: Before) -> Effect
    ensures { result ≡ spec.pipe before }
{
    if is_block(before) || is_bars(before) {
        Effect::Nothing
    } else {
        Effect::Counts
    }
}

/// What a token does after such a token, where the innermost open level is of this kind.
#[tactic(auto, unfolding(crate::specs::Effects::effect_of))]
pub fn effect_of(before: Before, level: Level, sort: Sort) -> Effect
    ensures { result ≡ spec.effect_of before level sort }
{
    match sort {
        Sort::Operand | Sort::SelfWord | Sort::Other => Effect::Nothing,
        Sort::Close => Effect::Closes,
        Sort::Open | Sort::Brace | Sort::Def => Effect::Opens {
            level: Level::Plain,
        },
        Sort::Paren => paren(before),
        Sort::Do => do_word(level),
        Sort::Choice => conditional(is_operand(before), Level::Plain),
        Sort::Loop => conditional(is_operand(before), Level::Condition),
        Sort::Separator => Effect::Separates,
        Sort::Divider => Effect::Divides,
        Sort::Operator | Sort::Dot | Sort::Assign => Effect::Counts,
        Sort::Pipe => pipe(before),
    }
}

/// What a token says about the next one, outside of a method's head and of block parameters.
#[tactic(auto, unfolding(crate::specs::Effects::after_plain))]
fn after_plain(before: Before, level: Level, sort: Sort) -> Before
    ensures { result ≡ spec.after_plain before level sort }
{
    match sort {
        Sort::Operand | Sort::SelfWord => Before::Operand,
        Sort::Close => {
            if is_parameters(level) {
                Before::Plain
            } else {
                Before::Operand
            }
        }
        Sort::Brace | Sort::Do => Before::Block,
        Sort::Def => Before::Def,
        Sort::Pipe => {
            if is_block(before) {
                Before::Bars
            } else {
                Before::Plain
            }
        }
        Sort::Open
        | Sort::Paren
        | Sort::Choice
        | Sort::Loop
        | Sort::Separator
        | Sort::Divider
        | Sort::Operator
        | Sort::Dot
        | Sort::Assign
        | Sort::Other => Before::Plain,
    }
}

fn after_def(sort: Sort) -> Before
    ensures { result ≡ spec.after_def sort }
{
    match sort {
        Sort::SelfWord => Before::DefSelf,
        _ => Before::Name,
    }
}

fn after_self(sort: Sort) -> Before
    ensures { result ≡ spec.after_self sort }
{
    match sort {
        Sort::Dot => Before::DefDot,
        _ => Before::Plain,
    }
}

fn after_bar(sort: Sort) -> Before
    ensures { result ≡ spec.after_bar sort }
{
    match sort {
        Sort::Pipe => Before::Plain,
        _ => Before::Bars,
    }
}

fn is_assign(sort: Sort) -> bool
    ensures { result ≡ spec.is_assign sort }
{
    match sort {
        Sort::Assign => true,
        _ => false,
    }
}

fn after_name(level: Level, sort: Sort) -> Before
    ensures { result ≡ spec.after_name level sort }
{
    if is_assign(sort) {
        Before::Name
    } else {
        after_plain(Before::Name, level, sort)
    }
}

/// What a token after such a token says about the next one, where the innermost open level before it is of this kind.
#[tactic(auto, unfolding(crate::specs::Effects::after))]
pub fn after(before: Before, level: Level, sort: Sort) -> Before
    ensures { result ≡ spec.after before level sort }
{
    match before {
        Before::Def => after_def(sort),
        Before::DefSelf => after_self(sort),
        Before::DefDot => Before::Name,
        Before::Name => after_name(level, sort),
        Before::Bars => after_bar(sort),
        Before::Plain | Before::Operand | Before::Block => after_plain(before, level, sort),
    }
}

/// The kind of a level after a separator in it.
pub fn separated(level: Level) -> Level
    ensures { result ≡ spec.separated level }
{
    if is_condition(level) {
        Level::Plain
    } else {
        level
    }
}
