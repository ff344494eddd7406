ghost use Rattle.std.specs.Prelude.{◌≡◌, List, bytes_eq};
ghost use Rattle.std.specs.Option.{option_copied};
ghost use Rattle.srb_rules.specs.FullNames.{OBJECT};
ghost use Rattle.srb_rules.specs.Lookup as rules;
ghost use Rattle.srb_rules.specs.Parents.{alone_by};
ghost use Rattle.srb_rules.specs.Resolves.{resolves};
ghost use Rattle.srb_rules.specs.Standing.{Stands, ancestors_at, resolved_at};
ghost use Rattle.srb_terms.specs.Worlds.{kind_at, within_at};
ghost use Rattle.srb_terms.specs.declared.fact.Fact.{Fact};

use srb_rules::Position;
use srb_terms::{Kind, Name, Names, Path, World};

/// The table's own name of the class, module or value constant for which `path` stands in the body with this scope: the list of the
/// full names of the enclosing bodies, the innermost first. A path that begins with `::` has an empty first name. `None` exactly where
/// it stands for nothing. Where the table stands for some facts, this is what the rules say of these facts.
pub fn resolve<'w>(w: &'w World, scope: &Names, path: &Path, position: Position) -> Option<&'w Name>
    ensures table { option_copied result ≡ resolved_at w.now scope.now path.now position }
    ensures facts { (fs : List Fact) → Stands w.now fs → option_copied result ≡ resolves fs scope.now path.now position }
{
    find(w, scope, path, position)
}

// The name for which a path stands.
fn find<'w>(w: &'w World, scope: &Names, path: &Path, position: Position) -> Option<&'w Name>
    ensures { option_copied result ≡ resolved_at w.now scope.now path.now position }
{
    let (first, rest) = path.split()?;
    if first.is_empty() {
        let (top, rest) = rest.split()?;
        follow(w, w.within(None, top)?, rest, position)
    } else {
        follow(w, named(w, scope, first, position)?, rest, position)
    }
}

// The name for which a single name stands.
fn named<'w>(w: &'w World, scope: &Names, name: &Name, position: Position) -> Option<&'w Name>
    ensures { option_copied result ≡ rules.named (within_at w.now) (ancestors_at w.now position) scope.now name.now }
{
    match in_bodies(w, scope, name) {
        Some(found) => Some(found),
        None => match around(w, scope, name, position) {
            Some(found) => Some(found),
            None => w.within(None, name),
        },
    }
}

// The first constant of this name in the enclosing bodies.
fn in_bodies<'w>(w: &'w World, scope: &Names, name: &Name) -> Option<&'w Name>
    ensures { option_copied result ≡ rules.in_bodies (within_at w.now) scope.now name.now }
{
    let mut at = scope;
    while let Some((body, rest)) = at.split() {
        match in_body(w, body, name) {
            Some(found) => {
                return Some(found);
            }
            None => {
                at = rest;
            }
        }
    }
    None
}

// The constant of this name in one body.
fn in_body<'w>(w: &'w World, body: &Name, name: &Name) -> Option<&'w Name>
    ensures { option_copied result ≡ rules.in_body (within_at w.now) body.now name.now }
{
    match w.within(Some(body), name) {
        Some(found) => Some(found),
        None => {
            if is_object(body) {
                w.within(None, name)
            } else {
                None
            }
        }
    }
}

// The constant of this name in the ancestors of the innermost body, where no enclosing body has one: so it is not in that body itself.
fn around<'w>(w: &'w World, scope: &Names, name: &Name, position: Position) -> Option<&'w Name>
    requires { rules.in_bodies (within_at w.now) scope.now name.now ≡ None }
    ensures { option_copied result
        ≡ rules.in_members (within_at w.now) (rules.around (ancestors_at w.now position) scope.now) name.now }
{
    match scope.split() {
        None => None,
        Some((innermost, _bodies)) => match position {
            Position::Parent => None,
            Position::Value => match w.lin(innermost) {
                None => None,
                Some(lin) => in_others(w, innermost, lin, name),
            },
        },
    }
}

// The first constant of this name in some ancestors, where `member`, mostly the first of them, has none.
fn in_others<'w>(w: &'w World, member: &Name, members: &Names, name: &Name) -> Option<&'w Name>
    requires { rules.in_member (within_at w.now) member.now name.now ≡ None }
    ensures { option_copied result ≡ rules.in_members (within_at w.now) members.now name.now }
{
    match members.split() {
        None => None,
        Some((first, others)) => {
            if first == member {
                in_members(w, others, name)
            } else {
                in_members(w, members, name)
            }
        }
    }
}

// The constant of this name after `owner::`.
fn after<'w>(w: &'w World, owner: &Name, name: &Name, position: Position) -> Option<&'w Name>
    ensures { option_copied result
        ≡ rules.in_members (within_at w.now) (rules.members_of (ancestors_at w.now position) owner.now) name.now }
{
    match position {
        Position::Parent => in_alone(w, owner, name),
        Position::Value => match w.lin(owner) {
            None => None,
            Some(lin) => {
                if is_object(owner) {
                    in_members(w, lin, name)
                } else {
                    in_front(w, lin, name)
                }
            }
        },
    }
}

// The constant at the end of a path, from the name before its further names on.
fn follow<'w>(w: &'w World, owner: &'w Name, names: &Names, position: Position) -> Option<&'w Name>
    ensures { option_copied result
        ≡ rules.followed (within_at w.now) (ancestors_at w.now position) names.now owner.now }
{
    let mut found = owner;
    let mut at = names;
    while let Some((name, rest)) = at.split() {
        match after(w, found, name, position) {
            None => {
                return None;
            }
            Some(next) => {
                found = next;
                at = rest;
            }
        }
    }
    Some(found)
}

// The first constant of this name in some ancestors.
fn in_members<'w>(w: &'w World, members: &Names, name: &Name) -> Option<&'w Name>
    ensures { option_copied result ≡ rules.in_members (within_at w.now) members.now name.now }
{
    let mut at = members;
    while let Some((member, rest)) = at.split() {
        match in_member(w, member, name) {
            Some(found) => {
                return Some(found);
            }
            None => {
                at = rest;
            }
        }
    }
    None
}

// The first constant of this name in the ancestors in front of `Object`.
fn in_front<'w>(w: &'w World, members: &Names, name: &Name) -> Option<&'w Name>
    ensures { option_copied result
        ≡ rules.in_members (within_at w.now) (rules.before_object members.now) name.now }
{
    let mut at = members;
    while let Some((member, rest)) = at.split() {
        if is_object(member) {
            return None;
        }
        match w.within(Some(member), name) {
            Some(found) => {
                return Some(found);
            }
            None => {
                at = rest;
            }
        }
    }
    None
}

// The constant of this name in a class or module without its ancestors, as one of its own ancestors.
fn in_alone<'w>(w: &'w World, c: &Name, name: &Name) -> Option<&'w Name>
    ensures { option_copied result ≡ rules.in_members (within_at w.now) (alone_by (kind_at w.now) c.now) name.now }
{
    match w.kind(c) {
        Some(Kind::Class) => in_member(w, c, name),
        Some(Kind::Module) => in_member(w, c, name),
        Some(Kind::Value) => None,
        None => None,
    }
}

// The constant of this name in an ancestor: `Object` has those of the root.
fn in_member<'w>(w: &'w World, member: &Name, name: &Name) -> Option<&'w Name>
    ensures { option_copied result ≡ rules.in_member (within_at w.now) member.now name.now }
{
    if is_object(member) {
        w.within(None, name)
    } else {
        w.within(Some(member), name)
    }
}

fn is_object(name: &Name) -> bool
    ensures { result ≡ bytes_eq name.now OBJECT }
{
    name.as_str() == "Object"
}
