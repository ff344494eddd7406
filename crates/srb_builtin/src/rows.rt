ghost use Rattle.std.specs.Prelude.{◌≡◌, ◌++◌, map, OnOk};
ghost use Rattle.srb_builtin.specs.Rows.{facts_of_row};
ghost use Rattle.srb_builtin.specs.Table.{all_of};

use crate::row::{Row, add_row};
use srb_terms::{Fact, Items, NoMemory};
use std::alloc::Global;

/// The rows of the table.
pub const ROWS: [Row; 93] = [
    Row::Top("BasicObject"),
    Row::Class("Object", "BasicObject"),
    Row::Include("Object", "Kernel"),
    Row::Class("Module", "Object"),
    Row::Class("Class", "Module"),
    Row::Class("NilClass", "Object"),
    Row::Class("TrueClass", "Object"),
    Row::Class("FalseClass", "Object"),
    Row::Class("Numeric", "Object"),
    Row::Include("Numeric", "Comparable"),
    Row::Class("Integer", "Numeric"),
    Row::Class("Float", "Numeric"),
    Row::Class("String", "Object"),
    Row::Include("String", "Comparable"),
    Row::Class("Symbol", "Object"),
    Row::Include("Symbol", "Comparable"),
    Row::Class("Array", "Object"),
    Row::Include("Array", "Enumerable"),
    Row::Class("Hash", "Object"),
    Row::Include("Hash", "Enumerable"),
    Row::Class("Proc", "Object"),
    Row::Class("Exception", "Object"),
    Row::Class("ScriptError", "Exception"),
    Row::Class("StandardError", "Exception"),
    Row::Class("NotImplementedError", "ScriptError"),
    Row::Class("RuntimeError", "StandardError"),
    Row::Class("ArgumentError", "StandardError"),
    Row::Class("TypeError", "StandardError"),
    Row::Class("NameError", "StandardError"),
    Row::Class("IndexError", "StandardError"),
    Row::Class("ZeroDivisionError", "StandardError"),
    Row::Class("NoMethodError", "NameError"),
    Row::Class("KeyError", "IndexError"),
    Row::Module("Kernel"),
    Row::Module("Comparable"),
    Row::Module("Enumerable"),
    Row::Module("T"),
    Row::Module("T::Sig"),
    Row::Module("T::Helpers"),
    Row::Methods("BasicObject", "`initialize` u; `== equal?`(u) b"),
    Row::Methods("Kernel", "`class` Class; `nil? frozen? block_given?` b"),
    Row::Methods(
        "Kernel",
        "`is_a? kind_of? instance_of?`(Module) b; `respond_to?`(u, ?u) b; `===`(u) b",
    ),
    Row::Methods(
        "Kernel",
        "`<=>`(u) T.nilable(Integer); `to_s inspect` String; `hash object_id` Integer",
    ),
    Row::Methods(
        "Kernel",
        "`freeze dup` self; `tap` {self} self; `puts print`(*u) NilClass; `p send`(*u) u",
    ),
    Row::Methods(
        "Kernel",
        "`raise`(*u) T.noreturn; `require require_relative`(String) b",
    ),
    Row::Methods(
        "Kernel",
        "`format`(String, *u) String; `loop` {} u; `lambda proc` {} Proc",
    ),
    Row::Methods("Kernel", "`__method__` T.nilable(Symbol)"),
    Row::Methods("Module", "`name` T.nilable(String); `const_get`(u) u"),
    Row::Methods(
        "Module",
        "`private protected public private_class_method private_constant module_function`(*u) u",
    ),
    Row::Methods("Class", "`superclass` T.nilable(Class)"),
    Row::Methods("T::Helpers", "`abstract! interface! final! sealed!` u"),
    Row::Methods(
        "Comparable",
        "`< > <= >=`(u) b; `between?`(u, u) b; `clamp`(u, u) u",
    ),
    Row::Methods("NilClass", "`to_a` T::Array[u]; `to_i` Integer"),
    Row::Methods("TrueClass", "`& | ^`(u) b"),
    Row::Methods("FalseClass", "`& | ^`(u) b"),
    Row::Methods(
        "Numeric",
        "`< > <= >=`(Numeric) b; `zero? positive? negative?` b; `to_i` Integer; `to_f` Float",
    ),
    Row::Methods("Numeric", "`abs -@ +@` self"),
    Row::Methods(
        "Integer",
        "`+ - * / % **`(Numeric) N; `& | ^ << >>`(Integer) Integer; `~ succ pred` Integer",
    ),
    Row::Methods(
        "Integer",
        "`even? odd?` b; `chr` String; `to_s`(?Integer) String; `digits` T::Array[Integer]",
    ),
    Row::Methods(
        "Integer",
        "`times` {Integer} Integer; `upto downto`(Integer) {Integer} Integer",
    ),
    Row::Methods(
        "Float",
        "`+ - * / % **`(Numeric) Float; `floor ceil` Integer; `round`(?Integer) u; `nan?` b",
    ),
    Row::Methods(
        "String",
        "`+`(String) String; `*`(Integer) String; `% <<`(u) String; `length size` Integer",
    ),
    Row::Methods(
        "String",
        "`upcase downcase capitalize strip reverse` String; `empty?` b; `include?`(String) b",
    ),
    Row::Methods(
        "String",
        "`start_with? end_with?`(*String) b; `to_i`(?Integer) Integer; `to_f` Float",
    ),
    Row::Methods(
        "String",
        "`to_sym` Symbol; `split`(?String, ?Integer) T::Array[String]",
    ),
    Row::Methods(
        "String",
        "`chars lines` T::Array[String]; `[]`(u, ?u) T.nilable(String)",
    ),
    Row::Methods(
        "String",
        "`sub gsub`(u, u) String; `index`(String, ?Integer) T.nilable(Integer)",
    ),
    Row::Methods(
        "String",
        "`center ljust rjust`(Integer, ?String) String; `chomp`(?String) String",
    ),
    Row::Methods("String", "`each_char` {String} self"),
    Row::Methods(
        "Symbol",
        "`to_sym` Symbol; `to_proc` Proc; `length size` Integer",
    ),
    Row::Methods("Proc", "`call`(*u) u; `arity` Integer; `to_proc` Proc"),
    Row::Methods(
        "Exception",
        "`initialize`(?u) u; `message full_message` String",
    ),
    Row::Methods("Exception", "`backtrace` T.nilable(T::Array[String])"),
    Row::Methods(
        "Array",
        "`[]`(Integer) T.nilable(E); `[]=`(Integer, E) E; `<<`(E) self",
    ),
    Row::Methods(
        "Array",
        "`push unshift`(*E) self; `pop shift first last min max` T.nilable(E)",
    ),
    Row::Methods(
        "Array",
        "`length size` Integer; `count` {E} Integer; `empty?` b; `include?`(u) b",
    ),
    Row::Methods(
        "Array",
        "`index`(u) T.nilable(Integer); `+ concat`(T::Array[u]) T::Array[u]; `each` {E} self",
    ),
    Row::Methods(
        "Array",
        "`each_with_index` {E, Integer} self; `each_slice`(Integer) {T::Array[E]} self",
    ),
    Row::Methods("Array", "`map` {E} T::Array[B]; `flat_map` {E} T::Array[u]"),
    Row::Methods("Array", "`select filter reject sort_by` {E} T::Array[E]"),
    Row::Methods(
        "Array",
        "`find detect min_by max_by` {E} T.nilable(E); `any? all? none?` {E} b",
    ),
    Row::Methods(
        "Array",
        "`group_by` {E} T::Hash[B,T::Array[E]]; `sum` {E} u; `inject reduce`(?u, ?u) {u, u} u",
    ),
    Row::Methods(
        "Array",
        "`join`(?String) String; `reverse sort uniq to_a` T::Array[E]",
    ),
    Row::Methods(
        "Array",
        "`compact` T::Array[E without NilClass]; `take drop`(Integer) T::Array[E]",
    ),
    Row::Methods(
        "Array",
        "`delete`(u) T.nilable(E); `flatten zip`(*u) T::Array[u]; `to_h` T::Hash[u,u]",
    ),
    Row::Methods("Array", "`clear` self"),
    Row::Methods(
        "Hash",
        "`[]`(K) T.nilable(V); `[]=`(K, V) V; `fetch`(K, ?V) V; `delete`(K) T.nilable(V)",
    ),
    Row::Methods(
        "Hash",
        "`key? has_key? include? value?`(u) b; `keys` T::Array[K]; `values` T::Array[V]",
    ),
    Row::Methods(
        "Hash",
        "`each each_pair` {K, V} self; `each_key` {K} self; `each_value` {V} self",
    ),
    Row::Methods(
        "Hash",
        "`map` {K, V} T::Array[B]; `select filter reject` {K, V} self; `any? all?` {K, V} b",
    ),
    Row::Methods(
        "Hash",
        "`find` {K, V} u; `sort_by` {K, V} T::Array[u]; `transform_values` {V} T::Hash[K,B]",
    ),
    Row::Methods(
        "Hash",
        "`merge`(T::Hash[u,u]) T::Hash[u,u]; `length size` Integer; `count` {K, V} Integer",
    ),
    Row::Methods(
        "Hash",
        "`empty?` b; `dig`(*u) u; `to_a` T::Array[u]; `to_h` self; `clear` self",
    ),
];

/// Adds the facts of each row, in order.
pub fn add_rows(alloc: Global, facts: &mut Items<Fact>, rows: &[Row]) -> Result<(), NoMemory>
    ensures { OnOk result (facts.new ≡ facts.old ++ all_of (map facts_of_row rows.now)) }
{
    'rows: for row in rows {
        add_row(alloc, facts, *row)?;
    }
    Ok(())
}
