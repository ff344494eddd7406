//! Bodies: the program, classes, modules and methods, each with its own context and the errors that come from it.

ghost use Rattle.std.specs.Prelude.{◌≡◌, ◌++◌, [], ◌∷◌, false, map, Some, None, IfOk, OnOk};
ghost use Rattle.std.specs.Option.{option_copied, option_map};
ghost use Rattle.srb_terms.specs.declared.ty.Ty.{Ty};
ghost use Rattle.srb_judgement.specs.Bodies as bodies_spec;
ghost use Rattle.srb_judgement.specs.Judgements.{errors_of, part_of};
ghost use Rattle.srb_judgement.specs.Kept.{seen_context};
ghost use Rattle.srb_judgement.specs.Sequences as sequences;
ghost use Rattle.srb_judgement.specs.States.{judged, seeing};
ghost use Rattle.srb_judgement.specs.Views.{seen_signature, seen_state, text_in};
ghost use Rattle.srb_walk.specs.Assigned.{names_of};
ghost use Rattle.srb_infer.specs.Bodies as spec;
ghost use Rattle.srb_walk.specs.Known as known;

use crate::levels::Levels;
use rb_tree::syntax::{Guarded, Node, Parameter, PlacedName, Tree};
use srb_judgement::bodies::{
    class_context, declared_name, leave_default, method_context, method_end, param_type,
    program_context, sig_errors,
};
use srb_judgement::contexts::Context;
use srb_judgement::ends::empty_type;
use srb_judgement::language::Language;
use srb_judgement::signature::{Signature, Typed};
use srb_judgement::states::{State, fresh};
use srb_judgement::types::nil_type;
use srb_terms::{Diag, Items, Name, Names, NoMemory, ParamShape, Span, Ty};
use srb_walk::around::Beside;
use srb_walk::assigned::assigned;
use srb_walk::walking::Walk;
use srb_walk::written::{Standing, is_empty, last, standing_of};
use srb_walk_control::guards::guard;
use std::alloc::Global;

/// Judges a statement of a class or module body. What declares there isn't judged.
fn in_class_statement<W: Walk, L: Language>(
    alloc: Global,
    walk: &W,
    language: &L,
    context: &Context,
    state: &mut State,
    statement: &Tree,
) -> Result<Ty, NoMemory>
    ensures { IfOk result (λ ty. judged ty (seen_state state.new) ≡ sequences.judge_in_class (L.the language.now) (part_of (L.the language.now) statement.now).standing (part_of (L.the language.now) statement.now) (seen_context context.now) (seen_state state.old)) }
{
    match standing_of(statement) {
        Standing::Plain => walk.judge(alloc, language, context, state, statement),
        Standing::Sig => nil_type(language),
        Standing::Declaring => nil_type(language),
    }
}

/// Judges the statements of a class or module body.
fn in_class<W: Walk, L: Language>(
    alloc: Global,
    walk: &W,
    language: &L,
    context: &Context,
    state: &mut State,
    statements: &[Tree],
) -> Result<Ty, NoMemory>
    ensures { IfOk result (λ ty. judged ty (seen_state state.new) ≡ sequences.class_body (L.the language.now) (known.known_trees (L.the language.now) statements.now) (seen_context context.now) (seen_state state.old)) }
{
    let mut beside = Beside::new();
    let mut ty = empty_type(language, &state.environment)?;
    'statements: for statement in statements {
        ty = in_class_statement(alloc, walk, language, beside.of(context), state, statement)?;
        beside.see(alloc, language, context, statement)?;
    }
    Ok(ty)
}

/// Judges the body of a class or module, by its node.
#[tactic(auto, unfolding(crate::specs::Bodies::in_class_by_node))]
fn class_by_node<W: Walk, L: Language>(
    alloc: Global,
    walk: &W,
    language: &L,
    context: &Context,
    state: &mut State,
    body: &Tree,
) -> Result<Ty, NoMemory>
    ensures { IfOk result (λ ty. judged ty (seen_state state.new) ≡ spec.in_class_by_node (L.the language.now) body.now (seen_context context.now) (seen_state state.old)) }
{
    match body.get() {
        Node::Body { statements, .. } => {
            in_class(alloc, walk, language, context, state, statements.as_slice())
        }
        _ => walk.judge(alloc, language, context, state, body),
    }
}

/// Judges the body of a class or module.
fn class_judged<W: Walk, L: Language>(
    alloc: Global,
    walk: &W,
    language: &L,
    context: &Context,
    state: &mut State,
    body: &Tree,
) -> Result<Ty, NoMemory>
    ensures { IfOk result (λ ty. judged ty (seen_state state.new) ≡ (part_of (L.the language.now) body.now).in_class (seen_context context.now) (seen_state state.old)) }
{
    class_by_node(alloc, walk, language, context, state, body)
}

/// The errors of the body of a class or module, in its own context.
fn class_body<W: Walk, L: Language>(
    alloc: Global,
    walk: &W,
    language: &L,
    context: &Context,
    body: &Tree,
) -> Result<Items<Diag>, NoMemory>
    ensures { IfOk result (λ errors. errors ≡ ((part_of (L.the language.now) body.now).in_class (seen_context context.now) bodies_spec.fresh).state.errors) }
{
    let mut state = fresh(alloc);
    class_judged(alloc, walk, language, context, &mut state, body)?;
    let State { errors, .. } = state;
    Ok(errors)
}

/// Judges the default value of a parameter, if it has one.
fn with_default<W: Walk, L: Language>(
    alloc: Global,
    walk: &W,
    language: &L,
    context: &Context,
    state: &mut State,
    method: &Name,
    ty: &Ty,
    parameter: &Parameter<Tree>,
) -> Result<(), NoMemory>
    ensures { OnOk result (seen_state state.new ≡ bodies_spec.with_default (L.the language.now) method.now parameter.now.name ty.now (known.known_option (L.the language.now) parameter.now.default) (seen_context context.now) (seen_state state.old)) }
{
    match &parameter.default {
        None => Ok(()),
        Some(value) => {
            let before = state.environment.copied(alloc)?;
            let found = walk.judge(alloc, language, context, state, value)?;
            leave_default(
                alloc,
                language,
                method,
                &parameter.name,
                ty,
                value.span(),
                before,
                &found,
                state,
            )
        }
    }
}

/// Makes what a tree assigns visible.
fn see<L: Language>(
    alloc: Global,
    language: &L,
    context: &mut Context,
    tree: &Tree,
) -> Result<(), NoMemory>
    ensures { OnOk result (seen_context context.new ≡ seeing (names_of (L.the language.now) false tree.now) (seen_context context.old)) }
{
    let mut names = Items::new(alloc);
    assigned(alloc, language, false, tree, &mut names)?;
    context.see_all(alloc, names.as_slice())?;
    Ok(())
}

/// Makes what the default value of a parameter assigns visible, if there is one.
fn see_default<L: Language>(
    alloc: Global,
    language: &L,
    context: &mut Context,
    default: &Option<Tree>,
) -> Result<(), NoMemory>
    ensures { OnOk result (seen_context context.new ≡ seeing (bodies_spec.declared_by (L.the language.now) (known.known_option (L.the language.now) default.now)) (seen_context context.old)) }
{
    match default {
        None => Ok(()),
        Some(value) => see(alloc, language, context, value),
    }
}

/// Judges a parameter of a method, and makes its name and what its default value assigns visible.
fn parameter<W: Walk, L: Language>(
    alloc: Global,
    walk: &W,
    language: &L,
    context: &mut Context,
    state: &mut State,
    method: &Name,
    params: &[Typed],
    parameter: &Parameter<Tree>,
) -> Result<(), NoMemory>
    ensures judged { OnOk result (seen_state state.new ≡ spec.with_parameters (L.the language.now) method.now params.now (known.known_parameter (L.the language.now) parameter.now ∷ []) (seen_context context.old) (seen_state state.old)) }
    ensures seen { OnOk result (seen_context context.new ≡ seeing (spec.names_with (L.the language.now) (known.known_parameter (L.the language.now) parameter.now)) (seen_context context.old)) }
{
    let ty = param_type(language, params, &parameter.name)?;
    state.set_type(&parameter.name, ty.copied()?)?;
    context.see(alloc, parameter.name.copied()?)?;
    with_default(
        alloc, walk, language, context, state, method, &ty, parameter,
    )?;
    see_default(alloc, language, context, &parameter.default)?;
    Ok(())
}

/// Judges the parameters of a method, and answers the context after them.
fn parameters<W: Walk, L: Language>(
    alloc: Global,
    walk: &W,
    language: &L,
    context: &Context,
    state: &mut State,
    method: &Name,
    params: &[Typed],
    row: &[Parameter<Tree>],
) -> Result<Context, NoMemory>
    ensures judged { OnOk result (seen_state state.new ≡ spec.with_parameters (L.the language.now) method.now params.now (known.known_parameters (L.the language.now) row.now) (seen_context context.now) (seen_state state.old)) }
    ensures seen { IfOk result (λ x. seen_context x ≡ spec.seeing_parameters (L.the language.now) (known.known_parameters (L.the language.now) row.now) (seen_context context.now)) }
{
    let mut inner = context.copied(alloc)?;
    'row: for each in row {
        parameter(
            alloc, walk, language, &mut inner, state, method, params, each,
        )?;
    }
    Ok(inner)
}

/// The parameters of a method, as a signature asks for them.
fn shapes(alloc: Global, row: &[Parameter<Tree>]) -> Result<Items<ParamShape>, NoMemory>
    ensures { IfOk result (λ all. all ≡ map spec.shape row.now) }
{
    let mut all = Items::new(alloc);
    'row: for parameter in row {
        all.push(ParamShape {
            name: parameter.name.copied()?,
            kind: parameter.kind,
        })?;
    }
    Ok(all)
}

/// A method without types.
fn no_types(alloc: Global) -> Signature
    ensures { seen_signature result ≡ spec.no_types }
{
    Signature {
        params: Items::new(alloc),
        result: None,
    }
}

/// The types of a signature, and none where there is none.
fn or_no_types(alloc: Global, found: Option<Signature>) -> Signature
    ensures { seen_signature result ≡ spec.or_no_types (option_map seen_signature found) }
{
    match found {
        Some(signature) => signature,
        None => no_types(alloc),
    }
}

/// The types that a `sig` statement gives a method, if it is well-formed.
fn types_by<L: Language>(
    alloc: Global,
    language: &L,
    scope: &Names,
    sig: &Tree,
    row: &[Parameter<Tree>],
) -> Result<Signature, NoMemory>
    ensures { IfOk result (λ s. seen_signature s ≡ bodies_spec.signature_by (L.the language.now) (Some (text_in (L.the language.now) sig.now)) scope.now (known.known_parameters (L.the language.now) row.now)) }
{
    let params = shapes(alloc, row)?;
    let found = language.signature(alloc, scope, sig, params.as_slice())?;
    Ok(or_no_types(alloc, found))
}

/// The types that the `sig` statement before a method gives it, if there is one and it is well-formed.
fn types_of<L: Language>(
    alloc: Global,
    language: &L,
    scope: &Names,
    sig: Option<&Tree>,
    row: &[Parameter<Tree>],
) -> Result<Signature, NoMemory>
    ensures { IfOk result (λ s. seen_signature s ≡ bodies_spec.signature_by (L.the language.now) (option_map (text_in (L.the language.now)) (option_copied sig.entry)) scope.now (known.known_parameters (L.the language.now) row.now)) }
{
    match sig {
        None => Ok(no_types(alloc)),
        Some(sig) => types_by(alloc, language, scope, sig, row),
    }
}

/// The place of a method's last expression, or of its name where there is none or the method has a `rescue` or `ensure` of its own.
fn result_place(guarded: &Guarded<Tree>, name: Span) -> Span
    ensures { result ≡ spec.result_place guarded.now name }
{
    if !guarded.rescues.is_empty() || guarded.ensure.is_some() || is_empty(&guarded.body) {
        name
    } else {
        last(&guarded.body)
    }
}

/// The errors of a method in its own context, whose parameters have these types.
fn method_within<W: Walk, L: Language>(
    alloc: Global,
    walk: &W,
    language: &L,
    context: &Context,
    name: &Name,
    name_span: Span,
    row: &[Parameter<Tree>],
    guarded: &Guarded<Tree>,
    params: &[Typed],
) -> Result<Items<Diag>, NoMemory>
    ensures { IfOk result (λ errors. errors ≡ spec.method_within (L.the language.now) name.now name_span row.now guarded.now params.now (seen_context context.now)) }
{
    let mut state = fresh(alloc);
    let inner = parameters(
        alloc, walk, language, context, &mut state, name, params, row,
    )?;
    let ty = guard(alloc, walk, language, &inner, &mut state, guarded)?;
    let place = result_place(guarded, name_span);
    method_end(alloc, language, context.result.as_ref(), place, &ty, state)
}

/// The errors of the body of a method with these types.
fn method_body<W: Walk, L: Language>(
    alloc: Global,
    walk: &W,
    language: &L,
    scope: &Names,
    own: bool,
    name: &Name,
    name_span: Span,
    row: &[Parameter<Tree>],
    guarded: &Guarded<Tree>,
    signature: Signature,
) -> Result<Items<Diag>, NoMemory>
    ensures { IfOk result (λ errors. errors ≡ bodies_spec.method_body (L.the language.now) own name.now name_span (known.known_parameters (L.the language.now) row.now) (known.known_guarded (L.the language.now) guarded.now) scope.now (seen_signature signature)) }
{
    let Signature { params, result } = signature;
    let context = method_context(alloc, language, own, scope.copied()?, result)?;
    method_within(
        alloc,
        walk,
        language,
        &context,
        name,
        name_span,
        row,
        guarded,
        params.as_slice(),
    )
}

/// The errors of a method.
fn method<W: Walk, L: Language>(
    alloc: Global,
    walk: &W,
    language: &L,
    scope: &Names,
    sig: Option<&Tree>,
    own: bool,
    name: &Name,
    name_span: Span,
    row: &[Parameter<Tree>],
    guarded: &Guarded<Tree>,
) -> Result<Items<Diag>, NoMemory>
    ensures { IfOk result (λ errors. errors ≡ bodies_spec.method_errors (L.the language.now) own name.now name_span (known.known_parameters (L.the language.now) row.now) (known.known_guarded (L.the language.now) guarded.now) (option_map (text_in (L.the language.now)) (option_copied sig.entry)) scope.now) }
{
    let mut errors = sig_errors(alloc, sig.is_some(), name, name_span)?;
    let signature = types_of(alloc, language, scope, sig, row)?;
    let more = method_body(
        alloc, walk, language, scope, own, name, name_span, row, guarded, signature,
    )?;
    errors.append(more)?;
    Ok(errors)
}

/// Adds the errors of a method.
fn add_method<W: Walk, L: Language>(
    alloc: Global,
    walk: &W,
    language: &L,
    scope: &Names,
    sig: Option<&Tree>,
    own: bool,
    name: &Name,
    name_span: Span,
    row: &[Parameter<Tree>],
    guarded: &Guarded<Tree>,
    errors: &mut Items<Diag>,
) -> Result<(), NoMemory>
    ensures { OnOk result (errors.new ≡ errors.old ++ bodies_spec.method_errors (L.the language.now) own name.now name_span (known.known_parameters (L.the language.now) row.now) (known.known_guarded (L.the language.now) guarded.now) (option_map (text_in (L.the language.now)) (option_copied sig.entry)) scope.now) }
{
    let more = method(
        alloc, walk, language, scope, sig, own, name, name_span, row, guarded,
    )?;
    errors.append(more)?;
    Ok(())
}

/// Adds the errors of the body of the class or module with this full name, in the bodies `inner`, of which it is the innermost.
fn add_class<W: Walk, L: Language>(
    alloc: Global,
    walk: &W,
    language: &L,
    name: &Name,
    inner: &Names,
    body: &Tree,
    errors: &mut Items<Diag>,
) -> Result<(), NoMemory>
    ensures { OnOk result (errors.new ≡ errors.old ++ ((part_of (L.the language.now) body.now).in_class (bodies_spec.class_context (L.the language.now) name.now inner.now) bodies_spec.fresh).state.errors) }
{
    let context = class_context(alloc, language, name, inner.copied()?)?;
    let more = class_body(alloc, walk, language, &context, body)?;
    errors.append(more)?;
    Ok(())
}

/// Adds the errors of a class or module: those of its body, and of the bodies that stand in it.
#[cycle(bodies)]
fn class<W: Walk, L: Language>(
    alloc: Global,
    walk: &W,
    language: &L,
    scope: &Names,
    path: &[PlacedName],
    body: &Tree,
    errors: &mut Items<Diag>,
) -> Result<(), NoMemory>
    ensures { OnOk result (errors.new ≡ errors.old ++ bodies_spec.class_errors (L.the language.now) path.now (part_of (L.the language.now) body.now) scope.now) }
{
    let name = declared_name(alloc, scope, path)?;
    let inner = scope.copied()?.pushed(alloc, name.copied()?)?;
    add_class(alloc, walk, language, &name, &inner, body, errors)?;
    inner_bodies(alloc, walk, language, &inner, body, errors)?;
    Ok(())
}

/// A statement, where it is a `sig` statement.
fn sig_of<'a>(statement: &'a Tree) -> Option<&'a Tree>
    ensures { option_copied result ≡ spec.sig_of statement.now }
{
    match standing_of(statement) {
        Standing::Sig => Some(statement),
        Standing::Declaring => None,
        Standing::Plain => None,
    }
}

/// Adds the errors of the bodies that the statements of a class or module body declare, each by the statement before it.
#[cycle(bodies)]
fn class_statements<W: Walk, L: Language>(
    alloc: Global,
    walk: &W,
    language: &L,
    row: &[Tree],
    scope: &Names,
    errors: &mut Items<Diag>,
) -> Result<(), NoMemory>
    ensures { OnOk result (errors.new ≡ errors.old ++ bodies_spec.inner_bodies (L.the language.now) None (known.known_trees (L.the language.now) row.now) scope.now) }
{
    let mut sig = None;
    'row: for statement in row {
        bodies(alloc, walk, language, scope, sig, statement, errors)?;
        sig = sig_of(statement);
    }
    Ok(())
}

/// Adds the errors of the bodies that stand in the body of a class or module.
#[cycle(bodies)]
fn inner_bodies<W: Walk, L: Language>(
    alloc: Global,
    walk: &W,
    language: &L,
    scope: &Names,
    body: &Tree,
    errors: &mut Items<Diag>,
) -> Result<(), NoMemory>
    ensures { OnOk result (errors.new ≡ errors.old ++ (part_of (L.the language.now) body.now).inner scope.now) }
{
    inner_by_node(alloc, walk, language, scope, body, errors)
}

/// The same by the node of the body.
#[cycle(bodies)]
#[tactic(auto, unfolding(crate::specs::Bodies::inner_by_node))]
fn inner_by_node<W: Walk, L: Language>(
    alloc: Global,
    walk: &W,
    language: &L,
    scope: &Names,
    body: &Tree,
    errors: &mut Items<Diag>,
) -> Result<(), NoMemory>
    ensures { OnOk result (errors.new ≡ errors.old ++ spec.inner_by_node (L.the language.now) body.now scope.now) }
{
    match body.get() {
        Node::Body { statements, .. } => {
            class_statements(alloc, walk, language, statements.as_slice(), scope, errors)
        }
        _ => Ok(()),
    }
}

/// Adds the errors of the bodies that the statements of a program declare.
#[cycle(bodies)]
fn program_statements<W: Walk, L: Language>(
    alloc: Global,
    walk: &W,
    language: &L,
    row: &[Tree],
    scope: &Names,
    errors: &mut Items<Diag>,
) -> Result<(), NoMemory>
    ensures { OnOk result (errors.new ≡ errors.old ++ bodies_spec.program_bodies (L.the language.now) (known.known_trees (L.the language.now) row.now) scope.now) }
{
    'row: for statement in row {
        bodies(alloc, walk, language, scope, None, statement, errors)?;
    }
    Ok(())
}

/// Adds the errors of the bodies that a tree declares, by the `sig` statement before it and the full names of the bodies around.
#[cycle(bodies)]
fn bodies<W: Walk, L: Language>(
    alloc: Global,
    walk: &W,
    language: &L,
    scope: &Names,
    sig: Option<&Tree>,
    tree: &Tree,
    errors: &mut Items<Diag>,
) -> Result<(), NoMemory>
    ensures { OnOk result (errors.new ≡ errors.old ++ (part_of (L.the language.now) tree.now).bodies (option_map (text_in (L.the language.now)) (option_copied sig.entry)) scope.now) }
{
    bodies_by_node(alloc, walk, language, scope, sig, tree, errors)
}

/// The same by the node of the tree.
#[cycle(bodies)]
#[tactic(auto, unfolding(crate::specs::Bodies::bodies_by_node))]
fn bodies_by_node<W: Walk, L: Language>(
    alloc: Global,
    walk: &W,
    language: &L,
    scope: &Names,
    sig: Option<&Tree>,
    tree: &Tree,
    errors: &mut Items<Diag>,
) -> Result<(), NoMemory>
    ensures { OnOk result (errors.new ≡ errors.old ++ spec.bodies_by_node (L.the language.now) tree.now (option_map (text_in (L.the language.now)) (option_copied sig.entry)) scope.now) }
{
    match tree.get() {
        Node::Body { statements, .. } => {
            program_statements(alloc, walk, language, statements.as_slice(), scope, errors)
        }
        Node::Class { path, body, .. } => {
            class(alloc, walk, language, scope, path.as_slice(), body, errors)
        }
        Node::Module { path, body, .. } => {
            class(alloc, walk, language, scope, path.as_slice(), body, errors)
        }
        Node::Def {
            own,
            name,
            name_span,
            parameters: row,
            guarded,
            ..
        } => add_method(
            alloc,
            walk,
            language,
            scope,
            sig,
            *own,
            name,
            *name_span,
            row.as_slice(),
            guarded.get(),
            errors,
        ),
        _ => Ok(()),
    }
}

/// The number of statements of a program's body, for which there is room for what they assign.
fn statements_of(tree: &Tree) -> usize {
    match tree.get() {
        Node::Body { statements, .. } => statements.len(),
        _ => 0,
    }
}

/// The state in which a body begins, with room for as many assignments. The list of them is long in a long program, and grows no more.
fn begun(alloc: Global, room: usize) -> Result<State, NoMemory>
    ensures { IfOk result (λ state. seen_state state ≡ bodies_spec.fresh) }
{
    let mut state = fresh(alloc);
    state.assigned = Items::from_vec(Vec::with_capacity(alloc, room)?);
    Ok(state)
}

/// The errors of the judgement of a program, by what judges its parts.
fn program<W: Walk, L: Language>(
    alloc: Global,
    walk: &W,
    language: &L,
    tree: &Tree,
) -> Result<Items<Diag>, NoMemory>
    ensures { IfOk result (λ errors. errors ≡ errors_of (L.the language.now) tree.now) }
{
    let context = program_context(alloc, language)?;
    let mut state = begun(alloc, statements_of(tree))?;
    walk.judge(alloc, language, &context, &mut state, tree)?;
    let State { mut errors, .. } = state;
    bodies(
        alloc,
        walk,
        language,
        &Names::new(),
        None,
        tree,
        &mut errors,
    )?;
    Ok(errors)
}

/// The errors of the judgement of a program, by as many levels as are tried at most.
fn by_most<L: Language>(alloc: Global, language: &L, tree: &Tree) -> Result<Items<Diag>, NoMemory>
    ensures { IfOk result (λ errors. errors ≡ errors_of (L.the language.now) tree.now) }
{
    let levels = Levels::most(alloc)?;
    program(alloc, &levels, language, tree)
}

/// The errors of the judgement of a program. Most programs nest no deeper than the usual levels, so these are given, and tried first.
pub fn infer<L: Language>(
    alloc: Global,
    usual: &Levels,
    language: &L,
    tree: &Tree,
) -> Result<Items<Diag>, NoMemory>
    ensures { IfOk result (λ errors. errors ≡ errors_of (L.the language.now) tree.now) }
{
    match program(alloc, usual, language, tree) {
        Ok(errors) => Ok(errors),
        Err(_) => by_most(alloc, language, tree),
    }
}
