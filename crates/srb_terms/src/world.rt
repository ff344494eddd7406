ghost use Rattle.std.specs.Prelude.{◌≡◌, bytes_eq};
ghost use Rattle.std.specs.Map.{lookup_key};
ghost use Rattle.std.specs.Option.{option_copied};
ghost use Rattle.srb_terms.specs.Worlds.{IsEmptyWorld, circular_at, extended_at, has_colon, inner_at, ivar_at, joined, kind_at, lin_at, method_at, superclass_at, value_at, within_at};

use crate::{Kind, Method, Name, Names, Ty};
use indexmap::IndexMap;
use std::alloc::Global;
use std::fmt;

/// The symbol table of a project. Its names of classes, modules and value constants are full names.
pub struct World {
    /// The kind of each class, module and value constant.
    pub kinds: IndexMap<Name, Kind>,
    /// The full names again, by the name of the scope and by the last part: the text after the last `::`.
    pub inner: IndexMap<Name, IndexMap<Name, Name>>,
    /// The deciding superclass of each class that has one.
    pub superclasses: IndexMap<Name, Name>,
    /// The linearization of each class and module.
    pub lins: IndexMap<Name, Names>,
    /// The modules that the `extend`s of each class and module name.
    pub extended: IndexMap<Name, Names>,
    /// The methods of instances, by the class or module and by name.
    pub methods: IndexMap<Name, IndexMap<Name, Method>>,
    /// The methods of class objects, by the class or module and by name.
    pub own_methods: IndexMap<Name, IndexMap<Name, Method>>,
    /// The types of instance variables of instances, by the class or module and by name.
    pub ivars: IndexMap<Name, IndexMap<Name, Ty>>,
    /// The types of instance variables of class objects, by the class or module and by name.
    pub own_ivars: IndexMap<Name, IndexMap<Name, Ty>>,
    /// Where the circular references of each class and module lead: those to a superclass or an included module that leads back.
    pub circles: IndexMap<Name, Names>,
    /// The type of each value constant.
    pub values: IndexMap<Name, Ty>,
}

impl World {
    /// The table without entries. It takes no memory.
    pub fn new(alloc: Global) -> World
        ensures { IsEmptyWorld result }
    {
        World {
            kinds: IndexMap::new(alloc),
            inner: IndexMap::new(alloc),
            superclasses: IndexMap::new(alloc),
            lins: IndexMap::new(alloc),
            extended: IndexMap::new(alloc),
            methods: IndexMap::new(alloc),
            own_methods: IndexMap::new(alloc),
            ivars: IndexMap::new(alloc),
            own_ivars: IndexMap::new(alloc),
            circles: IndexMap::new(alloc),
            values: IndexMap::new(alloc),
        }
    }

    /// What the name `c` stands for. `None` exactly where it is no name of a class, a module or a value constant.
    pub fn kind(&self, c: &Name) -> Option<Kind>
        ensures { result ≡ kind_at self.now c.now }
    {
        self.kinds.get(c).copied()
    }

    /// The table's own name for `scope`, `::` and `last`, or for `last` alone where there is no scope. It takes the time of a look-up,
    /// but that of a pass over all names where `last` holds a colon.
    pub fn within(&self, scope: Option<&Name>, last: &Name) -> Option<&Name>
        ensures { option_copied result ≡ within_at self.now (option_copied scope.entry) last.now }
    {
        match scope {
            None => own_key(&self.kinds, last),
            Some(scope) => {
                if holds_colon(last) {
                    joined_key(&self.kinds, scope, last)
                } else {
                    inner_value(&self.inner, scope, last)
                }
            }
        }
    }

    /// The linearization of the class or module `c`.
    pub fn lin(&self, c: &Name) -> Option<&Names>
        ensures { option_copied result ≡ lin_at self.now c.now }
    {
        self.lins.get(c)
    }

    /// The deciding superclass of the class `c`, also where its link is circular.
    pub fn superclass(&self, c: &Name) -> Option<&Name>
        ensures { option_copied result ≡ superclass_at self.now c.now }
    {
        self.superclasses.get(c)
    }

    /// The modules that the `extend`s of the class or module `c` name, perhaps none.
    pub fn extended(&self, c: &Name) -> Option<&Names>
        ensures { option_copied result ≡ extended_at self.now c.now }
    {
        self.extended.get(c)
    }

    /// The method `name` that the class or module `owner` declares: one of the class object where `meta` is true, one of instances
    /// otherwise.
    pub fn method(&self, owner: &Name, meta: bool, name: &Name) -> Option<&Method>
        ensures { option_copied result ≡ method_at self.now owner.now meta name.now }
    {
        if meta {
            inner_value(&self.own_methods, owner, name)
        } else {
            inner_value(&self.methods, owner, name)
        }
    }

    /// The type of the instance variable `name` that the class or module `owner` declares: one of the class object where `meta` is
    /// true, one of instances otherwise.
    pub fn ivar(&self, owner: &Name, meta: bool, name: &Name) -> Option<&Ty>
        ensures { option_copied result ≡ ivar_at self.now owner.now meta name.now }
    {
        if meta {
            inner_value(&self.own_ivars, owner, name)
        } else {
            inner_value(&self.ivars, owner, name)
        }
    }

    /// Whether a reference from the class or module `c` to its superclass or its module `to` is circular.
    pub fn is_circular(&self, c: &Name, to: &Name) -> bool
        ensures { result ≡ circular_at self.now c.now to.now }
    {
        match self.circles.get(c) {
            None => false,
            Some(names) => names.contains(to),
        }
    }

    /// The type of the value constant `c`.
    pub fn value(&self, c: &Name) -> Option<&Ty>
        ensures { option_copied result ≡ value_at self.now c.now }
    {
        self.values.get(c)
    }
}

impl fmt::Debug for World {
    fn fmt<W: fmt::Write>(&self, f: &mut fmt::Formatter<W>) -> fmt::Result {
        f.write_str("World { .. }")
    }
}

// Written out, since each function that holds a world would be slow to check with a derived one.
impl Drop for World {
    fn drop(self) {
        let World {
            kinds,
            inner,
            superclasses,
            lins,
            extended,
            methods,
            own_methods,
            ivars,
            own_ivars,
            circles,
            values,
        } = self;
        drop(kinds);
        drop(inner);
        drop(superclasses);
        drop(lins);
        drop(extended);
        drop(methods);
        drop(own_methods);
        drop(ivars);
        drop(own_ivars);
        drop(circles);
        drop(values);
    }
}

// The value at two names.
fn inner_value<'a, V>(
    tables: &'a IndexMap<Name, IndexMap<Name, V>>,
    outer: &Name,
    name: &Name,
) -> Option<&'a V>
    ensures { option_copied result ≡ inner_at outer.now name.now tables.now.entries }
{
    match tables.get(outer) {
        None => None,
        Some(table) => table.get(name),
    }
}

// The table's own key for a name.
fn own_key<'a>(kinds: &'a IndexMap<Name, Kind>, name: &Name) -> Option<&'a Name>
    ensures { option_copied result ≡ lookup_key (bytes_eq name.now) kinds.now.entries }
{
    match kinds.get_key_value(name) {
        None => None,
        Some((key, _kind)) => Some(key),
    }
}

// The first key that is `scope`, `::` and `last`.
fn joined_key<'a>(kinds: &'a IndexMap<Name, Kind>, scope: &Name, last: &Name) -> Option<&'a Name>
    ensures { option_copied result ≡ lookup_key (bytes_eq (joined scope.now last.now)) kinds.now.entries }
{
    'kinds: for index in 0..kinds.len() {
        match kinds.get_index(index) {
            None => {}
            Some((key, _kind)) => {
                if is_joined(key.as_bytes(), scope.as_bytes(), last.as_bytes()) {
                    return Some(key);
                }
            }
        }
    }
    None
}

// Whether `whole` is `scope`, `::` and `last`.
fn is_joined(whole: &[u8], scope: &[u8], last: &[u8]) -> bool
    ensures { result ≡ bytes_eq (joined scope.now last.now) whole.now }
{
    match whole.strip_prefix(scope) {
        None => false,
        Some(rest) => match rest.strip_prefix(b"::".as_slice()) {
            None => false,
            Some(end) => *last == *end,
        },
    }
}

// Whether a colon stands in the name.
fn holds_colon(name: &Name) -> bool
    ensures { result ≡ has_colon name.now }
{
    name.as_bytes().contains(&b':')
}
