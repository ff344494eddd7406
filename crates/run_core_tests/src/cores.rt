//! The calls of a core, one after the other.

ghost use Rattle.std.specs.Prelude.{◌≡◌, ◌<◌};

use lsp_msg::{Change, INVALID_REQUEST, Id, Msg, Out, Placed, Reason, SERVER_NOT_INITIALIZED};
use run_core::{Core, Landed};
use run_watch::{EndCause, Inp, Step};
use srb_samples::three_files;
use srb_terms::{Items, NoMemory, Project, Steps, Words};
use std::alloc::Global;
use std::marker::Brand;
use std::process::Abort;
use std::sync::ledger::{Blank, Ledger};

const NIL: &str = "# typed: true\nT.reveal_type(nil)\n";

const ONE: &str = "# typed: true\nT.reveal_type(1)\n";

fn initialize(alloc: Global) -> Result<Inp, NoMemory> {
    Ok(Inp::Msg(Msg::Initialize {
        id: Id::Number(1),
        root: Some(Words::from_str(alloc, "file:///p")?),
        encodings: Items::new(alloc),
    }))
}

fn open(alloc: Global, uri: &str, text: &str) -> Result<Inp, NoMemory> {
    Ok(Inp::Msg(Msg::Opened {
        uri: Words::from_str(alloc, uri)?,
        text: Words::from_str(alloc, text)?,
    }))
}

fn say(rt: &impl Abort, alloc: Global, core: &mut Core, inp: Inp) -> Result<Option<Out>, NoMemory> {
    assert!(rt; core.end().is_none());
    core.take(alloc, inp)
}

fn build(rt: &impl Abort, alloc: Global, core: &mut Core) -> Result<(), NoMemory> {
    core.looked();
    assert!(rt; core.is_stale());
    assert!(rt; core.next_own().is_none());
    core.build(alloc)?;
    Ok(())
}

fn check<L: Ledger>(
    rt: &impl Abort,
    alloc: Global,
    core: &mut Core,
    steps: &mut Steps<L>,
) -> Result<Landed, NoMemory> {
    assert!(rt; core.next_own().is_none() || core.is_looked());
    core.looked();
    assert!(rt; core.next_own().is_some());
    core.check_own(alloc, steps)
}

fn is_only(items: &[Placed], text: &str) -> bool {
    match items {
        [one] => one.text.as_str() == text,
        _ => false,
    }
}

fn is_work(step: &Step, path: &str, epoch: u64) -> bool {
    match step {
        Step::Work {
            path: worked,
            epoch: at,
            list: _,
            shown: _,
        } => worked.as_str() == path && *at == epoch,
        _ => false,
    }
}

fn is_list(out: &Out, uri: &str, epoch: u64, text: &str) -> bool {
    match out {
        Out::List {
            uri: shown,
            epoch: at,
            items,
        } => shown.as_str() == uri && *at == epoch && is_only(items.as_slice(), text),
        _ => false,
    }
}

fn is_shown(landed: &Landed, path: &str, uri: &str, epoch: u64, text: &str) -> bool {
    match landed {
        Landed::Quiet(_) | Landed::Dropped(_) | Landed::Later(_) => false,
        Landed::Shown(step, out) => is_work(step, path, epoch) && is_list(out, uri, epoch, text),
    }
}

// What a list of a check is to say: the path and the URI of its file, the epoch and the text.
type Wanted = (&'static str, &'static str, u64, &'static str);

fn shows<L: Ledger>(
    rt: &impl Abort,
    alloc: Global,
    core: &mut Core,
    steps: &mut Steps<L>,
    wanted: Wanted,
) -> Result<(), NoMemory> {
    let (path, uri, epoch, text) = wanted;
    let landed = check(rt, alloc, core, steps)?;
    assert!(rt; is_shown(&landed, path, uri, epoch, text));
    Ok(())
}

const FIRST: Wanted = ("a.rb", "file:///p/a.rb", 0, "type is NilClass");

const EDITED: Wanted = ("c.rb", "file:///p/c.rb", 1, "type is Integer");

const WAITING: Wanted = ("b.rb", "file:///p/b.rb", 1, "type is NilClass");

fn first_round<L: Ledger>(
    rt: &impl Abort,
    alloc: Global,
    core: &mut Core,
    steps: &mut Steps<L>,
) -> Result<(), NoMemory> {
    build(rt, alloc, core)?;
    shows(rt, alloc, core, steps, FIRST)?;
    assert!(rt; !core.rest());
    assert!(rt; !core.owes());
    Ok(())
}

fn is_edited(core: &Core) -> bool {
    core.owes() && !core.is_stale()
}

fn second_round<L: Ledger>(
    rt: &impl Abort,
    alloc: Global,
    core: &mut Core,
    steps: &mut Steps<L>,
) -> Result<(), NoMemory> {
    assert!(rt; is_edited(core));
    shows(rt, alloc, core, steps, EDITED)?;
    shows(rt, alloc, core, steps, WAITING)
}

fn is_done(core: &Core) -> bool {
    core.rest() && core.own_checks() == 2
}

fn session<L: Ledger>(rt: &impl Abort, alloc: Global, blank: Blank) -> Result<(), NoMemory>
    requires name { blank.name ≡ L.name }
    requires parts { blank.parts ≡ L.parts }
    requires some { 0 < blank.parts }
{
    let mut steps = Steps::<L>::new(blank);
    let mut core = Core::new(alloc, three_files(alloc, NIL)?)?;
    let begun = say(rt, alloc, &mut core, initialize(alloc)?)?;
    assert!(rt; matches!(&begun, Some(Out::Initialized { .. })));
    first_round(rt, alloc, &mut core, &mut steps)?;
    let opened = say(rt, alloc, &mut core, open(alloc, "file:///p/c.rb", ONE)?)?;
    assert!(rt; opened.is_none());
    second_round(rt, alloc, &mut core, &mut steps)?;
    assert!(rt; is_done(&core));
    Ok(())
}

#[test]
fn an_edited_file_goes_before_those_that_wait(rt: HostRuntime) -> Result<(), NoMemory> {
    session::<Brand>(&rt, rt.alloc(), Blank::new(1))
}

fn is_error(out: &Option<Out>, id: i64, code: i32) -> bool {
    match out {
        Some(
            Out::Error {
                id: Some(Id::Number(number)),
                code: given,
            },
        ) => *number == id && *given == code,
        _ => false,
    }
}

fn asked(id: i64) -> Inp {
    Inp::Msg(Msg::Unknown { id: Id::Number(id) })
}

/// Before `initialize` each request is refused.
fn early(rt: &impl Abort, alloc: Global, core: &mut Core) -> Result<(), NoMemory> {
    let early = say(rt, alloc, core, asked(7))?;
    assert!(rt; is_error(&early, 7, SERVER_NOT_INITIALIZED));
    let _begun = say(rt, alloc, core, initialize(alloc)?)?;
    Ok(())
}

/// After `shutdown` each request is refused.
fn late(rt: &impl Abort, alloc: Global, core: &mut Core) -> Result<(), NoMemory> {
    let shutdown = Inp::Msg(Msg::Shutdown { id: Id::Number(2) });
    let owed = say(rt, alloc, core, shutdown)?;
    assert!(rt; owed.is_none());
    let late = say(rt, alloc, core, asked(3))?;
    assert!(rt; is_error(&late, 3, INVALID_REQUEST));
    Ok(())
}

/// The reply to `shutdown` is written when all is built.
fn at_rest(rt: &impl Abort, alloc: Global, core: &mut Core) -> Result<(), NoMemory> {
    assert!(rt; core.is_looked());
    build(rt, alloc, core)?;
    assert!(rt; core.is_looked());
    assert!(rt; core.rest());
    let reply = core.idle(alloc)?;
    assert!(rt; matches!(&reply, Some(Out::Null { id: Id::Number(2) })));
    Ok(())
}

#[test]
fn each_time_of_a_session_has_its_answers(rt: HostRuntime) -> Result<(), NoMemory> {
    let alloc = rt.alloc();
    let mut core = Core::new(alloc, Project::new(alloc))?;
    early(&rt, alloc, &mut core)?;
    late(&rt, alloc, &mut core)?;
    at_rest(&rt, alloc, &mut core)?;
    let _end = say(&rt, alloc, &mut core, Inp::End(EndCause::Exit))?;
    assert!(rt; matches!(core.end(), Some((EndCause::Exit, true))));
    Ok(())
}

fn is_log(out: &Option<Out>, refused: &str, why: Reason) -> bool {
    match out {
        Some(Out::Log { method, reason }) => method.as_str() == refused && *reason == why,
        _ => false,
    }
}

fn change(alloc: Global, uri: &str) -> Result<Inp, NoMemory> {
    let changes: Items<Change> = Items::new(alloc);
    Ok(Inp::Msg(Msg::Changed {
        uri: Words::from_str(alloc, uri)?,
        changes,
    }))
}

#[test]
fn a_refused_change_is_logged_and_is_no_edit(rt: HostRuntime) -> Result<(), NoMemory> {
    let alloc = rt.alloc();
    let mut core = Core::new(alloc, Project::new(alloc))?;
    let _begun = say(&rt, alloc, &mut core, initialize(alloc)?)?;
    build(&rt, alloc, &mut core)?;
    let log = say(&rt, alloc, &mut core, change(alloc, "file:///p/z.rb")?)?;
    assert!(rt; is_log(&log, "textDocument/didChange", Reason::NotOpen));
    assert!(rt; core.rest());
    Ok(())
}

/// Texts of a file before and after an edit, and whether the symbol table stays.
const EDITS: [(&str, &str, bool); 9] = [
    ("def f\n  1\nend\n", "def f\n  # one\n  2\nend\n", true),
    ("X = 1\n", "\nX = 2\n", true),
    ("1\n", "2 )\n", true),
    ("X = 1\n", "X = 'a'\n", false),
    ("class A\nend\n", "class A < B\nend\n", false),
    ("class A < B\nend\n", "class A < C\nend\n", false),
    (
        "class A\n  sig { returns(Integer) }\n  def f\n    1\n  end\nend\n",
        "class A\n  sig { returns(String) }\n  def f\n    1\n  end\nend\n",
        false,
    ),
    (
        "class A\n  attr_reader :x\nend\n",
        "class A\n  attr_reader :y\nend\n",
        false,
    ),
    (
        "class A\n  include M\nend\n",
        "class A\n  extend M\nend\n",
        false,
    ),
];

fn keeps(rt: &impl Abort, alloc: Global, before: &str, after: &str) -> Result<bool, NoMemory> {
    let mut core = Core::new(alloc, Project::new(alloc))?;
    let _begun = say(rt, alloc, &mut core, initialize(alloc)?)?;
    let _first = say(rt, alloc, &mut core, open(alloc, "file:///p/a.rb", before)?)?;
    build(rt, alloc, &mut core)?;
    let _second = say(rt, alloc, &mut core, open(alloc, "file:///p/a.rb", after)?)?;
    Ok(!core.is_stale())
}

#[test]
fn an_edit_that_declares_the_same_keeps_the_symbol_table(rt: HostRuntime) -> Result<(), NoMemory> {
    for (before, after, kept) in EDITS {
        assert!(rt; keeps(&rt, rt.alloc(), before, after)? == kept);
    }
    Ok(())
}
