//! Files of a build land, wait, or are thrown away.

ghost use Rattle.std.specs.Prelude.{◌≡◌, ◌<◌, IfOk};
ghost use Rattle.srb_check.specs.Found.{IsFoundIn};

use lsp_msg::{Id, Msg, Out};
use run_core::{Core, Landed};
use run_queues::Item;
use run_watch::{Inp, Step};
use srb_check::Job;
use srb_samples::three_files;
use srb_terms::{Boxed, Items, NoMemory, Steps, Words};
use std::alloc::Global;
use std::marker::Brand;
use std::process::Abort;
use std::sync::ledger::{Blank, Ledger};

/// The core takes this message.
fn take(rt: &impl Abort, alloc: Global, core: &mut Core, message: Msg) -> Result<(), NoMemory>
    ensures { core.new.job ≡ core.old.job }
{
    assert!(rt; core.end().is_none());
    let _answer = core.take(alloc, Inp::Msg(message))?;
    Ok(())
}

/// The text of the file at this URI is this from now on.
fn open(
    rt: &impl Abort,
    alloc: Global,
    core: &mut Core,
    uri: &str,
    text: &str,
) -> Result<(), NoMemory>
    ensures { core.new.job ≡ core.old.job }
{
    let uri = Words::from_str(alloc, uri)?;
    let text = Words::from_str(alloc, text)?;
    take(rt, alloc, core, Msg::Opened { uri, text })
}

/// A core over three files, each with an error, that was initialized.
fn begun(rt: &impl Abort, alloc: Global) -> Result<Core, NoMemory> {
    let mut core = Core::new(
        alloc,
        three_files(alloc, "# typed: true\nT.reveal_type(nil)\n")?,
    )?;
    let root = Some(Words::from_str(alloc, "file:///p")?);
    let encodings = Items::new(alloc);
    let id = Id::Number(1);
    let message = Msg::Initialize {
        id,
        root,
        encodings,
    };
    take(rt, alloc, &mut core, message)?;
    Ok(core)
}

/// The core looks at the inbox, and builds.
fn build(rt: &impl Abort, alloc: Global, core: &mut Core) -> Result<Boxed<Job>, NoMemory>
    ensures { IfOk result (λ job. core.new.job ≡ job) }
{
    core.looked();
    assert!(rt; core.is_stale());
    core.build(alloc)
}

/// What a check by the job finds in the file with this number.
fn item_of<L: Ledger>(
    rt: &impl Abort,
    alloc: Global,
    job: &Job,
    number: u64,
    steps: &mut Steps<L>,
) -> Result<Item, NoMemory>
    ensures { IfOk result (λ item. IsFoundIn job.now item.number item.list) }
{
    assert!(rt; number < job.len() as u64);
    let list = job.check_at(alloc, number as usize, steps)?;
    Ok(Item { number, list })
}

/// What comes of the errors of a file.
#[derive(PartialEq, Drop)]
enum Outcome {
    /// A list with so many items is written, of this epoch.
    Shown(usize, u64),
    Quiet,
    Dropped,
    Later,
}

fn what_came(landed: &Landed) -> Outcome {
    match landed {
        Landed::Shown(_, Out::List { items, epoch, .. }) => Outcome::Shown(items.len(), *epoch),
        Landed::Shown(..) | Landed::Quiet(_) => Outcome::Quiet,
        Landed::Dropped(_) => Outcome::Dropped,
        Landed::Later(_) => Outcome::Later,
    }
}

/// What comes of the errors of the file with this number, by the job of the last build.
fn land<L: Ledger>(
    rt: &impl Abort,
    alloc: Global,
    core: &mut Core,
    job: &Job,
    number: u64,
    steps: &mut Steps<L>,
) -> Result<Outcome, NoMemory>
    requires { core.old.job ≡ job.now }
    ensures { core.new.job ≡ core.old.job }
{
    let item = item_of(rt, alloc, job, number, steps)?;
    let landed = core.land(alloc, item)?;
    Ok(what_came(&landed))
}

/// The core looks at the inbox and checks the next file itself. Answers whether it is this file, and this comes of it.
fn checks<L: Ledger>(
    rt: &impl Abort,
    alloc: Global,
    core: &mut Core,
    steps: &mut Steps<L>,
    path: &str,
    wanted: Outcome,
) -> Result<bool, NoMemory>
    ensures { core.new.job ≡ core.old.job }
{
    core.looked();
    assert!(rt; core.next_own().is_some());
    let landed = core.check_own(alloc, steps)?;
    let is_path = match &landed {
        Landed::Shown(Step::Work { path: worked, .. }, _) => worked.as_str() == path,
        _ => false,
    };
    Ok(is_path && what_came(&landed) == wanted)
}

/// A file lands; the next waits until the inbox was looked at, and then until an edited file was checked, whose own errors are thrown away.
fn lands_in_turn<L: Ledger>(
    rt: &impl Abort,
    alloc: Global,
    core: &mut Core,
    job: &Job,
    steps: &mut Steps<L>,
) -> Result<(), NoMemory>
    requires { core.old.job ≡ job.now }
{
    assert!(rt; land(rt, alloc, core, job, 0, steps)? == Outcome::Shown(1, 0));
    assert!(rt; land(rt, alloc, core, job, 1, steps)? == Outcome::Later);
    open(
        rt,
        alloc,
        core,
        "file:///p/c.rb",
        "# typed: true\nT.reveal_type(1)\n",
    )?;
    core.looked();
    assert!(rt; !core.is_stale());
    assert!(rt; land(rt, alloc, core, job, 2, steps)? == Outcome::Dropped);
    assert!(rt; land(rt, alloc, core, job, 1, steps)? == Outcome::Later);
    assert!(rt; checks(rt, alloc, core, steps, "c.rb", Outcome::Shown(1, 1))?);
    core.looked();
    assert!(rt; land(rt, alloc, core, job, 1, steps)? == Outcome::Shown(1, 1));
    Ok(())
}

/// `a.rb` is edited so that it declares a class: errors that were found before are thrown away, and after the next build all files are checked.
fn older_are_thrown_away<L: Ledger>(
    rt: &impl Abort,
    alloc: Global,
    core: &mut Core,
    job: &Job,
    steps: &mut Steps<L>,
) -> Result<(), NoMemory>
    requires { core.old.job ≡ job.now }
{
    open(rt, alloc, core, "file:///p/a.rb", "class Z\nend\n")?;
    assert!(rt; land(rt, alloc, core, job, 0, steps)? == Outcome::Dropped);
    assert!(rt; land(rt, alloc, core, job, 1, steps)? == Outcome::Dropped);
    let _next = build(rt, alloc, core)?;
    assert!(rt; checks(rt, alloc, core, steps, "a.rb", Outcome::Shown(0, 1))?);
    assert!(rt; checks(rt, alloc, core, steps, "b.rb", Outcome::Shown(1, 1))?);
    assert!(rt; checks(rt, alloc, core, steps, "c.rb", Outcome::Shown(1, 1))?);
    assert!(rt; core.rest());
    Ok(())
}

/// A list that was written before isn't written again where a file is checked anew.
fn same_is_quiet<L: Ledger>(
    rt: &impl Abort,
    alloc: Global,
    core: &mut Core,
    steps: &mut Steps<L>,
) -> Result<(), NoMemory> {
    open(rt, alloc, core, "file:///p/a.rb", "class Y\nend\n")?;
    let job = build(rt, alloc, core)?;
    assert!(rt; checks(rt, alloc, core, steps, "a.rb", Outcome::Shown(0, 2))?);
    core.looked();
    assert!(rt; land(rt, alloc, core, job.get(), 1, steps)? == Outcome::Quiet);
    Ok(())
}

fn in_turn<L: Ledger>(rt: &impl Abort, alloc: Global, blank: Blank) -> Result<(), NoMemory>
    requires name { blank.name ≡ L.name }
    requires parts { blank.parts ≡ L.parts }
    requires some { 0 < blank.parts }
{
    let mut steps = Steps::<L>::new(blank);
    let mut core = begun(rt, alloc)?;
    let job = build(rt, alloc, &mut core)?;
    lands_in_turn(rt, alloc, &mut core, job.get(), &mut steps)
}

fn of_an_older_build<L: Ledger>(
    rt: &impl Abort,
    alloc: Global,
    blank: Blank,
) -> Result<(), NoMemory>
    requires name { blank.name ≡ L.name }
    requires parts { blank.parts ≡ L.parts }
    requires some { 0 < blank.parts }
{
    let mut steps = Steps::<L>::new(blank);
    let mut core = begun(rt, alloc)?;
    let job = build(rt, alloc, &mut core)?;
    older_are_thrown_away(rt, alloc, &mut core, job.get(), &mut steps)?;
    same_is_quiet(rt, alloc, &mut core, &mut steps)
}

#[test]
fn errors_of_files_land_in_turn(rt: HostRuntime) -> Result<(), NoMemory> {
    in_turn::<Brand>(&rt, rt.alloc(), Blank::new(1))
}

#[test]
fn errors_of_an_older_build_are_thrown_away(rt: HostRuntime) -> Result<(), NoMemory> {
    of_an_older_build::<Brand>(&rt, rt.alloc(), Blank::new(1))
}
