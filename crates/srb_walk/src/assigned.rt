//! The variables that a tree assigns.

ghost use Rattle.std.specs.Prelude.{◌≡◌, ◌++◌, OnOk};
ghost use Rattle.std.specs.List.{flat_map};
ghost use Rattle.rb_views.specs.Calls.{arguments_of};
ghost use Rattle.srb_judgement.specs.Guards.{caught_names};
ghost use Rattle.srb_judgement.specs.Variables as variables;
ghost use Rattle.srb_walk.specs.Assigned as spec;
ghost use Rattle.srb_walk.specs.Known as known;

use rb_tree::syntax::{
    Argument, Arm, Block, Guarded, Node, Pair, Piece, PlacedName, Rescue, Suffix, Tree, When,
};
use srb_judgement::language::Language;
use srb_terms::{Boxed, Items, Name, NoMemory};
use std::alloc::Global;

/// Adds the name that a tree is, if it is one.
#[tactic(auto, unfolding(crate::specs::Assigned::target_by_node))]
fn name_alone(tree: &Tree, found: &mut Items<Name>) -> Result<(), NoMemory>
    ensures { OnOk result (found.new ≡ found.old ++ spec.target_by_node tree.now) }
{
    match tree.get() {
        Node::Name { name, .. } => found.push(name.copied()?),
        _ => Ok(()),
    }
}

/// Adds the variable that an assignment to this assigns.
#[tactic(auto, using(crate::proofs::Naming::target_is))]
fn target<L: Language>(language: &L, tree: &Tree, found: &mut Items<Name>) -> Result<(), NoMemory>
    ensures { OnOk result (found.new ≡ found.old ++ spec.target_of (L.the language.now) tree.now) }
{
    name_alone(tree, found)
}

/// Adds the variable after the `=>` of a `rescue` clause.
fn caught(variable: &Option<PlacedName>, found: &mut Items<Name>) -> Result<(), NoMemory>
    ensures { OnOk result (found.new ≡ found.old ++ caught_names variable.now) }
{
    match variable {
        Some(variable) => found.push(variable.name.copied()?),
        None => Ok(()),
    }
}

/// Adds the variables after the `=>` of `rescue` clauses.
fn all_caught<L: Language>(
    language: &L,
    row: &[Rescue<Tree>],
    found: &mut Items<Name>,
) -> Result<(), NoMemory>
    ensures { OnOk result (found.new ≡ found.old ++ variables.all_caught (known.known_rescues (L.the language.now) row.now)) }
{
    'row: for clause in row {
        caught(&clause.variable, found)?;
    }
    Ok(())
}

/// Whether one of these names is this.
fn has_name(row: &[PlacedName], name: &Name) -> bool
    ensures { result ≡ spec.is_parameter row.now name.now }
{
    'row: for each in row {
        if each.name.as_str() == name.as_str() {
            return true;
        }
    }
    false
}

/// Adds a name, unless it is one of a block's parameters.
fn outer_name(
    parameters: &[PlacedName],
    name: &Name,
    found: &mut Items<Name>,
) -> Result<(), NoMemory>
    ensures { OnOk result (found.new ≡ found.old ++ spec.unless_parameter parameters.now name.now) }
{
    if has_name(parameters, name) {
        Ok(())
    } else {
        found.push(name.copied()?)
    }
}

/// Adds the names that are none of a block's parameters.
fn outer_names(
    parameters: &[PlacedName],
    names: &[Name],
    found: &mut Items<Name>,
) -> Result<(), NoMemory>
    ensures { OnOk result (found.new ≡ found.old ++ flat_map (spec.unless_parameter parameters.now) names.now) }
{
    'names: for name in names {
        outer_name(parameters, name, found)?;
    }
    Ok(())
}

/// Adds the variables that each of these trees assigns.
#[cycle(names)]
fn trees<L: Language>(
    alloc: Global,
    language: &L,
    blocks: bool,
    row: &[Tree],
    found: &mut Items<Name>,
) -> Result<(), NoMemory>
    ensures { OnOk result (found.new ≡ found.old ++ flat_map (spec.names_in blocks) (known.known_trees (L.the language.now) row.now)) }
{
    'row: for tree in row {
        assigned(alloc, language, blocks, tree, found)?;
    }
    Ok(())
}

/// Adds those of what may be left out.
#[cycle(names)]
fn if_any<L: Language>(
    alloc: Global,
    language: &L,
    blocks: bool,
    tree: &Option<Tree>,
    found: &mut Items<Name>,
) -> Result<(), NoMemory>
    ensures { OnOk result (found.new ≡ found.old ++ flat_map (spec.names_in blocks) (variables.if_any (known.known_option (L.the language.now) tree.now))) }
{
    match tree {
        Some(tree) => assigned(alloc, language, blocks, tree, found),
        None => Ok(()),
    }
}

/// Adds those of an argument.
#[cycle(names)]
fn argument<L: Language>(
    alloc: Global,
    language: &L,
    blocks: bool,
    argument: &Argument<Tree>,
    found: &mut Items<Name>,
) -> Result<(), NoMemory>
    ensures { OnOk result (found.new ≡ found.old ++ flat_map (spec.names_in blocks) (variables.in_argument (known.known_argument (L.the language.now) argument.now))) }
{
    match argument {
        Argument::Positional { value } => assigned(alloc, language, blocks, value, found),
        Argument::Keyword { value, .. } => assigned(alloc, language, blocks, value, found),
        Argument::Block { value, .. } => assigned(alloc, language, blocks, value, found),
    }
}

/// Adds those of arguments.
#[cycle(names)]
fn arguments<L: Language>(
    alloc: Global,
    language: &L,
    blocks: bool,
    row: &[Argument<Tree>],
    found: &mut Items<Name>,
) -> Result<(), NoMemory>
    ensures { OnOk result (found.new ≡ found.old ++ flat_map (spec.names_in blocks) (flat_map variables.in_argument (known.known_arguments (L.the language.now) row.now))) }
{
    'row: for each in row {
        argument(alloc, language, blocks, each, found)?;
    }
    Ok(())
}

/// Adds those of arguments in brackets, if there are brackets.
#[cycle(names)]
fn brackets<L: Language>(
    alloc: Global,
    language: &L,
    blocks: bool,
    row: &Option<Items<Argument<Tree>>>,
    found: &mut Items<Name>,
) -> Result<(), NoMemory>
    ensures { OnOk result (found.new ≡ found.old ++ flat_map (spec.names_in blocks) (flat_map variables.in_argument (arguments_of (known.known_brackets (L.the language.now) row.now)))) }
{
    match row {
        Some(row) => arguments(alloc, language, blocks, row.as_slice(), found),
        None => Ok(()),
    }
}

/// Adds those that a block assigns but for its parameters.
#[cycle(names)]
#[tactic(auto, using(crate::proofs::Naming::outer_are))]
fn in_block<L: Language>(
    alloc: Global,
    language: &L,
    block: &Block<Tree>,
    found: &mut Items<Name>,
) -> Result<(), NoMemory>
    ensures { OnOk result (found.new ≡ found.old ++ spec.in_block (L.the language.now) block.now) }
{
    let mut names = Items::new(alloc);
    assigned(alloc, language, true, &block.body, &mut names)?;
    outer_names(block.parameters.as_slice(), names.as_slice(), found)
}

/// Adds those of a block, if blocks are asked for and there is one.
#[cycle(names)]
fn in_blocks<L: Language>(
    alloc: Global,
    language: &L,
    blocks: bool,
    block: &Option<Boxed<Block<Tree>>>,
    found: &mut Items<Name>,
) -> Result<(), NoMemory>
    ensures { OnOk result (found.new ≡ found.old ++ spec.in_blocks blocks (known.known_blocks (L.the language.now) block.now)) }
{
    match block {
        Some(block) => {
            if blocks {
                in_block(alloc, language, block.get(), found)
            } else {
                Ok(())
            }
        }
        None => Ok(()),
    }
}

/// Adds those of the arguments of a suffix.
#[cycle(names)]
fn suffix_arguments<L: Language>(
    alloc: Global,
    language: &L,
    blocks: bool,
    suffix: &Suffix<Tree>,
    found: &mut Items<Name>,
) -> Result<(), NoMemory>
    ensures { OnOk result (found.new ≡ found.old ++ flat_map (spec.names_in blocks) (variables.suffix_arguments (known.known_suffix (L.the language.now) suffix.now))) }
{
    match suffix {
        Suffix::Call { arguments, .. } => brackets(alloc, language, blocks, arguments, found),
        Suffix::Constant { .. } => Ok(()),
        Suffix::Index { arguments: row, .. } => {
            arguments(alloc, language, blocks, row.as_slice(), found)
        }
    }
}

/// Adds those of the arguments of suffixes.
#[cycle(names)]
fn all_arguments<L: Language>(
    alloc: Global,
    language: &L,
    blocks: bool,
    row: &[Suffix<Tree>],
    found: &mut Items<Name>,
) -> Result<(), NoMemory>
    ensures { OnOk result (found.new ≡ found.old ++ flat_map (spec.names_in blocks) (flat_map variables.suffix_arguments (known.known_suffixes (L.the language.now) row.now))) }
{
    'row: for each in row {
        suffix_arguments(alloc, language, blocks, each, found)?;
    }
    Ok(())
}

/// Adds those of the block of a suffix.
#[cycle(names)]
fn suffix_block<L: Language>(
    alloc: Global,
    language: &L,
    blocks: bool,
    suffix: &Suffix<Tree>,
    found: &mut Items<Name>,
) -> Result<(), NoMemory>
    ensures { OnOk result (found.new ≡ found.old ++ variables.block_names (spec.in_blocks blocks) (known.known_suffix (L.the language.now) suffix.now)) }
{
    match suffix {
        Suffix::Call { block, .. } => in_blocks(alloc, language, blocks, block, found),
        Suffix::Constant { .. } => Ok(()),
        Suffix::Index { .. } => Ok(()),
    }
}

/// Adds those of the blocks of suffixes.
#[cycle(names)]
fn all_blocks<L: Language>(
    alloc: Global,
    language: &L,
    blocks: bool,
    row: &[Suffix<Tree>],
    found: &mut Items<Name>,
) -> Result<(), NoMemory>
    ensures { OnOk result (found.new ≡ found.old ++ flat_map (variables.block_names (spec.in_blocks blocks)) (known.known_suffixes (L.the language.now) row.now)) }
{
    'row: for each in row {
        suffix_block(alloc, language, blocks, each, found)?;
    }
    Ok(())
}

/// Adds those of a piece of a string.
#[cycle(names)]
fn piece<L: Language>(
    alloc: Global,
    language: &L,
    blocks: bool,
    piece: &Piece<Tree>,
    found: &mut Items<Name>,
) -> Result<(), NoMemory>
    ensures { OnOk result (found.new ≡ found.old ++ flat_map (spec.names_in blocks) (variables.in_piece (known.known_piece (L.the language.now) piece.now))) }
{
    match piece {
        Piece::Words { .. } => Ok(()),
        Piece::Code { body, .. } => assigned(alloc, language, blocks, body, found),
    }
}

/// Adds those of the pieces of a string.
#[cycle(names)]
fn pieces<L: Language>(
    alloc: Global,
    language: &L,
    blocks: bool,
    row: &[Piece<Tree>],
    found: &mut Items<Name>,
) -> Result<(), NoMemory>
    ensures { OnOk result (found.new ≡ found.old ++ flat_map (spec.names_in blocks) (flat_map variables.in_piece (known.known_pieces (L.the language.now) row.now))) }
{
    'row: for each in row {
        piece(alloc, language, blocks, each, found)?;
    }
    Ok(())
}

/// Adds those of a pair of a hash.
#[cycle(names)]
fn pair<L: Language>(
    alloc: Global,
    language: &L,
    blocks: bool,
    pair: &Pair<Tree>,
    found: &mut Items<Name>,
) -> Result<(), NoMemory>
    ensures { OnOk result (found.new ≡ found.old ++ flat_map (spec.names_in blocks) (variables.in_pair (known.known_pair (L.the language.now) pair.now))) }
{
    match pair {
        Pair::Arrow { key, value } => {
            assigned(alloc, language, blocks, key, found)?;
            assigned(alloc, language, blocks, value, found)
        }
        Pair::Label { value, .. } => assigned(alloc, language, blocks, value, found),
    }
}

/// Adds those of the pairs of a hash.
#[cycle(names)]
fn pairs<L: Language>(
    alloc: Global,
    language: &L,
    blocks: bool,
    row: &[Pair<Tree>],
    found: &mut Items<Name>,
) -> Result<(), NoMemory>
    ensures { OnOk result (found.new ≡ found.old ++ flat_map (spec.names_in blocks) (flat_map variables.in_pair (known.known_pairs (L.the language.now) row.now))) }
{
    'row: for each in row {
        pair(alloc, language, blocks, each, found)?;
    }
    Ok(())
}

/// Adds those of an `elsif` arm.
#[cycle(names)]
fn arm<L: Language>(
    alloc: Global,
    language: &L,
    blocks: bool,
    arm: &Arm<Tree>,
    found: &mut Items<Name>,
) -> Result<(), NoMemory>
    ensures { OnOk result (found.new ≡ found.old ++ flat_map (spec.names_in blocks) (variables.in_arm (known.known_arm (L.the language.now) arm.now))) }
{
    assigned(alloc, language, blocks, &arm.condition, found)?;
    assigned(alloc, language, blocks, &arm.body, found)
}

/// Adds those of `elsif` arms.
#[cycle(names)]
fn arms<L: Language>(
    alloc: Global,
    language: &L,
    blocks: bool,
    row: &[Arm<Tree>],
    found: &mut Items<Name>,
) -> Result<(), NoMemory>
    ensures { OnOk result (found.new ≡ found.old ++ flat_map (spec.names_in blocks) (flat_map variables.in_arm (known.known_arms (L.the language.now) row.now))) }
{
    'row: for each in row {
        arm(alloc, language, blocks, each, found)?;
    }
    Ok(())
}

/// Adds those of a `when` arm.
#[cycle(names)]
fn when<L: Language>(
    alloc: Global,
    language: &L,
    blocks: bool,
    when: &When<Tree>,
    found: &mut Items<Name>,
) -> Result<(), NoMemory>
    ensures { OnOk result (found.new ≡ found.old ++ flat_map (spec.names_in blocks) (variables.in_when (known.known_when (L.the language.now) when.now))) }
{
    trees(alloc, language, blocks, when.patterns.as_slice(), found)?;
    assigned(alloc, language, blocks, &when.body, found)
}

/// Adds those of `when` arms.
#[cycle(names)]
fn whens<L: Language>(
    alloc: Global,
    language: &L,
    blocks: bool,
    row: &[When<Tree>],
    found: &mut Items<Name>,
) -> Result<(), NoMemory>
    ensures { OnOk result (found.new ≡ found.old ++ flat_map (spec.names_in blocks) (flat_map variables.in_when (known.known_whens (L.the language.now) row.now))) }
{
    'row: for each in row {
        when(alloc, language, blocks, each, found)?;
    }
    Ok(())
}

/// Adds those of the trees in a `rescue` clause.
#[cycle(names)]
fn rescue<L: Language>(
    alloc: Global,
    language: &L,
    blocks: bool,
    clause: &Rescue<Tree>,
    found: &mut Items<Name>,
) -> Result<(), NoMemory>
    ensures { OnOk result (found.new ≡ found.old ++ flat_map (spec.names_in blocks) (variables.in_rescue (known.known_rescue (L.the language.now) clause.now))) }
{
    trees(alloc, language, blocks, clause.patterns.as_slice(), found)?;
    assigned(alloc, language, blocks, &clause.body, found)
}

/// Adds those of the trees in `rescue` clauses.
#[cycle(names)]
fn rescues<L: Language>(
    alloc: Global,
    language: &L,
    blocks: bool,
    row: &[Rescue<Tree>],
    found: &mut Items<Name>,
) -> Result<(), NoMemory>
    ensures { OnOk result (found.new ≡ found.old ++ flat_map (spec.names_in blocks) (flat_map variables.in_rescue (known.known_rescues (L.the language.now) row.now))) }
{
    'row: for each in row {
        rescue(alloc, language, blocks, each, found)?;
    }
    Ok(())
}

/// Adds those of a body, its clauses, and what stands after `else` and `ensure`, with the variables of the clauses first.
#[cycle(names)]
fn guarded<L: Language>(
    alloc: Global,
    language: &L,
    blocks: bool,
    guarded: &Guarded<Tree>,
    found: &mut Items<Name>,
) -> Result<(), NoMemory>
    ensures { OnOk result (found.new ≡ found.old ++ (variables.all_caught (known.known_rescues (L.the language.now) guarded.now.rescues)
        ++ flat_map (spec.names_in blocks) (variables.in_guarded (known.known_guarded (L.the language.now) guarded.now)))) }
{
    all_caught(language, guarded.rescues.as_slice(), found)?;
    assigned(alloc, language, blocks, &guarded.body, found)?;
    rescues(alloc, language, blocks, guarded.rescues.as_slice(), found)?;
    if_any(alloc, language, blocks, &guarded.otherwise, found)?;
    if_any(alloc, language, blocks, &guarded.ensure, found)
}

/// Adds the variables that a tree assigns, of which each is visible after it; if `blocks`, also those that blocks in it assign.
#[cycle(names)]
#[tactic(auto, using(crate::proofs::Naming::names_are))]
pub fn assigned<L: Language>(
    alloc: Global,
    language: &L,
    blocks: bool,
    tree: &Tree,
    found: &mut Items<Name>,
) -> Result<(), NoMemory>
    ensures { OnOk result (found.new ≡ found.old ++ spec.names_of (L.the language.now) blocks tree.now) }
{
    by_node(alloc, language, blocks, tree, found)
}

/// The same by the node of the tree. Words, names and declarations assign nothing.
#[cycle(names)]
#[tactic(auto, unfolding(crate::specs::Assigned::names_by_node))]
fn by_node<L: Language>(
    alloc: Global,
    language: &L,
    blocks: bool,
    tree: &Tree,
    found: &mut Items<Name>,
) -> Result<(), NoMemory>
    ensures { OnOk result (found.new ≡ found.old ++ spec.names_by_node (L.the language.now) blocks tree.now) }
{
    match tree.get() {
        Node::Body { statements, .. } => {
            trees(alloc, language, blocks, statements.as_slice(), found)
        }
        Node::Modified {
            statement,
            condition,
            ..
        } => {
            assigned(alloc, language, blocks, statement, found)?;
            assigned(alloc, language, blocks, condition, found)
        }
        Node::Jump { value, .. } => if_any(alloc, language, blocks, value, found),
        Node::Assign {
            target: to,
            value,
            ..
        } => {
            assigned(alloc, language, blocks, to, found)?;
            target(language, to, found)?;
            assigned(alloc, language, blocks, value, found)
        }
        Node::OperatorAssign {
            target: to,
            value,
            ..
        } => {
            assigned(alloc, language, blocks, to, found)?;
            target(language, to, found)?;
            assigned(alloc, language, blocks, value, found)
        }
        Node::Conditional {
            condition,
            positive,
            negative,
            ..
        } => {
            assigned(alloc, language, blocks, condition, found)?;
            assigned(alloc, language, blocks, positive, found)?;
            assigned(alloc, language, blocks, negative, found)
        }
        Node::Binary { left, right, .. } => {
            assigned(alloc, language, blocks, left, found)?;
            assigned(alloc, language, blocks, right, found)
        }
        Node::Unary { operand, .. } => assigned(alloc, language, blocks, operand, found),
        Node::Text { pieces: row, .. } => pieces(alloc, language, blocks, row.as_slice(), found),
        Node::Array { elements, .. } => trees(alloc, language, blocks, elements.as_slice(), found),
        Node::Hash { pairs: row, .. } => pairs(alloc, language, blocks, row.as_slice(), found),
        Node::Parens { body, .. } => assigned(alloc, language, blocks, body, found),
        Node::Command {
            callee,
            arguments: row,
            block,
            ..
        } => {
            assigned(alloc, language, blocks, callee, found)?;
            arguments(alloc, language, blocks, row.as_slice(), found)?;
            in_blocks(alloc, language, blocks, block, found)
        }
        Node::Post {
            receiver,
            suffixes,
            ..
        } => {
            assigned(alloc, language, blocks, receiver, found)?;
            all_arguments(alloc, language, blocks, suffixes.as_slice(), found)?;
            all_blocks(alloc, language, blocks, suffixes.as_slice(), found)
        }
        Node::Call {
            arguments,
            block,
            ..
        } => {
            brackets(alloc, language, blocks, arguments, found)?;
            in_blocks(alloc, language, blocks, block, found)
        }
        Node::Yield { arguments, .. } => brackets(alloc, language, blocks, arguments, found),
        Node::Super { arguments, .. } => brackets(alloc, language, blocks, arguments, found),
        Node::If {
            condition,
            body,
            arms: row,
            otherwise,
            ..
        } => {
            assigned(alloc, language, blocks, condition, found)?;
            assigned(alloc, language, blocks, body, found)?;
            arms(alloc, language, blocks, row.as_slice(), found)?;
            if_any(alloc, language, blocks, otherwise, found)
        }
        Node::While {
            condition,
            body,
            ..
        } => {
            assigned(alloc, language, blocks, condition, found)?;
            assigned(alloc, language, blocks, body, found)
        }
        Node::Case {
            subject,
            arms: row,
            otherwise,
            ..
        } => {
            if_any(alloc, language, blocks, subject, found)?;
            whens(alloc, language, blocks, row.as_slice(), found)?;
            if_any(alloc, language, blocks, otherwise, found)
        }
        Node::Begin { guarded: inner, .. } => {
            guarded(alloc, language, blocks, inner.get(), found)
        }
        _ => Ok(()),
    }
}
