//! Sessions, their rounds and their reader.

ghost use Rattle.std.specs.Prelude.{◌≡◌, ◌==◌, ◌<◌, ◌≤◌, None, length, IfOk, IsTrue};
ghost use Rattle.lsp_docs.specs.Documents.{MOST_FILES};
ghost use Rattle.lsp_docs.specs.Projects.{total_bytes};
ghost use Rattle.srb_text.specs.Limits.{MOST_BYTES};

use lsp_msg::{Id, Msg};
use run_core::Core;
use run_gate::{Gate, Seat};
use run_pool::Open;
use run_queues::{Inbox, PutPass, TakePass};
use run_serve::{ServeEnd, read, serve, turn};
use run_watch::{EndCause, Inp, Keep, MemTrace, NoTrace, Step, Trace, Watcher, Watchers};
use srb_io::{Failed, MemSink, MemSource, Sink, Source};
use srb_samples::three_files;
use srb_terms::{Items, NoMemory, Project, Steps, Words};
use std::alloc::{AllocError, Global};
use std::marker::Brand;
use std::process::Abort;
use std::sync::atomic::{AtomicU64, Ordering};
use std::sync::ledger::{Blank, Ledger};
use std::sync::{Arc, Wait};
use std::test::Fail;
use std::thread::Threads;

const NIL: &str = "# typed: true\nT.reveal_type(nil)\n";

const ONE: &str = "# typed: true\nT.reveal_type(1)\n";

const CLASS: &str = "class C\nend\n";

const INITIALIZE: &str =
    r#"{"id":1,"jsonrpc":"2.0","method":"initialize","params":{"capabilities":{},"rootUri":"file:///p"}}"#;

const SHUTDOWN: &str = r#"{"id":2,"jsonrpc":"2.0","method":"shutdown"}"#;

const EXIT: &str = r#"{"jsonrpc":"2.0","method":"exit"}"#;

const INITIALIZED: &str =
    r#"{"id":1,"jsonrpc":"2.0","result":{"capabilities":{"positionEncoding":"utf-16","textDocumentSync":{"change":2,"openClose":true,"save":{"includeText":false}}},"serverInfo":{"name":"srb"}}}"#;

const NULL: &str = r#"{"id":2,"jsonrpc":"2.0","result":null}"#;

/// The input of `initialize`.
fn initialize(alloc: Global) -> Result<Inp, NoMemory> {
    Ok(Inp::Msg(Msg::Initialize {
        id: Id::Number(1),
        root: Some(Words::from_str(alloc, "file:///p")?),
        encodings: Items::new(alloc),
    }))
}

/// The input that opens `c.rb` with this text.
fn open(alloc: Global, text: &str) -> Result<Inp, NoMemory> {
    Ok(Inp::Msg(Msg::Opened {
        uri: Words::from_str(alloc, "file:///p/c.rb")?,
        text: Words::from_str(alloc, text)?,
    }))
}

/// A sink that holds nothing yet and takes all that is written.
fn sink_of(alloc: Global) -> MemSink
    ensures { ⟦<MemSink as Sink>⟧.faults result ≡ 0 }
{
    MemSink::new(Vec::new(alloc), Vec::new(alloc))
}

/// A source of the frames of these bodies, in pieces of these sizes.
fn source_of(alloc: Global, bodies: &[&str], pieces: &[u32]) -> Result<MemSource, AllocError>
    ensures { IfOk result (λ s. ⟦<MemSource as Source>⟧.faults s ≡ 0) }
{
    Ok(MemSource::new(
        frames_of(alloc, bodies)?,
        pieces.to_vec(alloc)?,
        Vec::new(alloc),
    ))
}

/// The frames of these bodies.
fn frames_of(alloc: Global, bodies: &[&str]) -> Result<Vec<u8>, AllocError> {
    let mut frames = Vec::new(alloc);
    for body in bodies {
        let size = body.len();
        let frame = format!(in alloc; "Content-Length: {size}\r\n\r\n{body}")?;
        frames.extend_from_slice(frame.as_bytes())?;
    }
    Ok(frames)
}

/// Makes one round of the coordinator, and answers whether it went well. Where the round would wait it isn't made.
fn round<R: Threads + Wait + Sync, K: Sink, T: Trace, L: Ledger>(
    rt: &R,
    alloc: Global,
    core: &mut Core,
    inbox: &Inbox,
    pass: &mut TakePass,
    gate: &Gate,
    seat: &mut Seat,
    sink: &mut K,
    trace: &mut T,
    steps: &mut Steps<L>,
) -> bool
    requires writes { K.faults sink.old ≡ 0 }
    requires inbox { pass.old.queue ≡ inbox.now.name }
    requires none { pass.old.kept ≡ None }
    requires gate { seat.old.gate ≡ gate.now }
    ensures writes { IsTrue result → K.faults sink.new ≡ 0 }
    ensures inbox { pass.new.queue ≡ pass.old.queue }
    ensures none { IsTrue result → pass.new.kept ≡ None }
    ensures gate { seat.new.gate ≡ seat.old.gate }
{
    if core.is_looked() && core.rest() && core.is_idle() {
        return false;
    }
    match turn(
        rt, alloc, core, inbox, pass, gate, seat, 0, sink, trace, &Open, steps,
    ) {
        Ok(()) => true,
        Err(ServeEnd::WriteFault | ServeEnd::NoMemory) => false,
    }
}

/// Makes so many rounds, and answers whether all went well.
fn rounds<R: Threads + Wait + Sync, K: Sink, T: Trace, L: Ledger>(
    rt: &R,
    alloc: Global,
    core: &mut Core,
    inbox: &Inbox,
    pass: &mut TakePass,
    gate: &Gate,
    seat: &mut Seat,
    sink: &mut K,
    trace: &mut T,
    steps: &mut Steps<L>,
    count: u64,
) -> bool
    requires writes { K.faults sink.old ≡ 0 }
    requires inbox { pass.old.queue ≡ inbox.now.name }
    requires none { pass.old.kept ≡ None }
    requires gate { seat.old.gate ≡ gate.now }
    ensures writes { IsTrue result → K.faults sink.new ≡ 0 }
    ensures inbox { pass.new.queue ≡ pass.old.queue }
    ensures none { IsTrue result → pass.new.kept ≡ None }
    ensures gate { seat.new.gate ≡ seat.old.gate }
{
    'rounds: for _ in 0..count {
        if !round(rt, alloc, core, inbox, pass, gate, seat, sink, trace, steps) {
            return false;
        }
    }
    true
}

/// Puts an input and makes so many rounds after it, and answers whether all went well.
fn answer<R: Threads + Wait + Sync, K: Sink, T: Trace, L: Ledger>(
    rt: &R,
    alloc: Global,
    core: &mut Core,
    inbox: &Inbox,
    putting: &mut PutPass,
    taking: &mut TakePass,
    gate: &Gate,
    seat: &mut Seat,
    sink: &mut K,
    trace: &mut T,
    steps: &mut Steps<L>,
    inp: Inp,
    count: u64,
) -> bool
    requires writes { K.faults sink.old ≡ 0 }
    requires putting { putting.old.queue ≡ inbox.now.name }
    requires taking { taking.old.queue ≡ inbox.now.name }
    requires none { taking.old.kept ≡ None }
    requires gate { seat.old.gate ≡ gate.now }
    ensures writes { IsTrue result → K.faults sink.new ≡ 0 }
    ensures putting { putting.new.queue ≡ putting.old.queue }
    ensures taking { taking.new.queue ≡ taking.old.queue }
    ensures none { IsTrue result → taking.new.kept ≡ None }
    ensures gate { seat.new.gate ≡ seat.old.gate }
{
    match inbox.put(rt, putting, inp) {
        Ok(()) => rounds(
            rt, alloc, core, inbox, taking, gate, seat, sink, trace, steps, count,
        ),
        Err(_) => false,
    }
}

/// Puts the first input and makes four rounds, puts the second one and makes so many more, and answers whether all went well.
fn play<R: Threads + Wait + Sync, K: Sink, T: Trace, L: Ledger>(
    rt: &R,
    alloc: Global,
    core: &mut Core,
    inbox: &Inbox,
    putting: &mut PutPass,
    taking: &mut TakePass,
    gate: &Gate,
    seat: &mut Seat,
    sink: &mut K,
    trace: &mut T,
    steps: &mut Steps<L>,
    first: Inp,
    second: Inp,
    more: u64,
) -> bool
    requires writes { K.faults sink.old ≡ 0 }
    requires putting { putting.old.queue ≡ inbox.now.name }
    requires taking { taking.old.queue ≡ inbox.now.name }
    requires none { taking.old.kept ≡ None }
    requires gate { seat.old.gate ≡ gate.now }
{
    answer(
        rt, alloc, core, inbox, putting, taking, gate, seat, sink, trace, steps, first, 4,
    ) && answer(
        rt, alloc, core, inbox, putting, taking, gate, seat, sink, trace, steps, second, more,
    )
}

/// The same with an inbox and a gate of its own.
fn begin<R: Threads + Wait + Sync, K: Sink, T: Trace, L: Ledger>(
    rt: &R,
    alloc: Global,
    core: &mut Core,
    sink: &mut K,
    trace: &mut T,
    steps: &mut Steps<L>,
    first: Inp,
    second: Inp,
    more: u64,
) -> Result<bool, NoMemory>
    requires { K.faults sink.old ≡ 0 }
{
    let (inbox, mut putting, mut taking) = Inbox::new(alloc)?;
    let (gate, mut seat) = Gate::new(alloc)?;
    Ok(play(
        rt,
        alloc,
        core,
        &inbox,
        &mut putting,
        &mut taking,
        &gate,
        &mut seat,
        sink,
        trace,
        steps,
        first,
        second,
        more,
    ))
}

/// The same over this project, with its checks counted on this blank.
fn session<R: Threads + Wait + Sync, K: Sink, T: Trace, L: Ledger>(
    rt: &R,
    alloc: Global,
    project: Project,
    sink: &mut K,
    trace: &mut T,
    first: Inp,
    second: Inp,
    more: u64,
    blank: Blank,
) -> Result<bool, NoMemory>
    requires name { blank.name ≡ L.name }
    requires parts { blank.parts ≡ L.parts }
    requires some { 0 < blank.parts }
    requires count { length project ≤ MOST_FILES }
    requires bytes { total_bytes project ≤ MOST_BYTES }
    requires writes { K.faults sink.old ≡ 0 }
{
    let mut steps = Steps::<L>::new(blank);
    let mut core = Core::new(alloc, project)?;
    begin(
        rt, alloc, &mut core, sink, trace, &mut steps, first, second, more,
    )
}

/// The steps over three files: four of a session that begins, and then so many more once `c.rb` is opened with this text.
fn steps_of<R: Threads + Wait + Sync + Abort>(
    rt: &R,
    alloc: Global,
    text: &str,
    more: u64,
) -> Result<MemTrace, NoMemory> {
    let project = three_files(alloc, NIL)?;
    let first = initialize(alloc)?;
    let second = open(alloc, text)?;
    let mut sink = sink_of(alloc);
    let mut trace = MemTrace::new(alloc);
    let well = session::<R, MemSink, MemTrace, Brand>(
        rt,
        alloc,
        project,
        &mut sink,
        &mut trace,
        first,
        second,
        more,
        Blank::new(1),
    )?;
    assert!(rt; well);
    Ok(trace)
}

/// The number of a step's kind, by its letter.
fn kind_of(letter: u8) -> u64 {
    match letter {
        b'T' => 1,
        b'L' => 2,
        b'B' => 3,
        b'W' => 4,
        b'D' => 5,
        _ => 6,
    }
}

/// The sum with one more step of this kind, which tells its place too.
fn with_kind(sum: u64, letter: u8) -> u64 {
    sum.wrapping_mul(31).wrapping_add(kind_of(letter))
}

/// The sum of steps of these kinds, in order.
fn sum_of(letters: &str) -> u64 {
    let mut sum = 0;
    for letter in letters.as_bytes() {
        sum = with_kind(sum, *letter);
    }
    sum
}

/// A watcher that sums up the kinds of the steps that it is told, where others see the sum, and leaves after some.
#[derive(Drop)]
struct Summing {
    sum: Arc<AtomicU64>,
    stays_for: u64,
}

impl Watcher for Summing {
    ghost seen = { λ _. None };

    ghost leaves = { λ w _. w.stays_for == 0 };

    fn saw(&mut self, s: &Step) -> Keep {
        let sum = self.sum.load(Ordering::SeqCst);
        let letter = letter_of(s).as_bytes();
        if let Some(letter) = letter.first() {
            self.sum.store(with_kind(sum, *letter), Ordering::SeqCst);
        }
        if self.stays_for == 0 {
            return Keep::Leave;
        }
        self.stays_for -= 1;
        Keep::Stay
    }
}

/// Adds a box with a watcher that leaves after so many steps. Answers where its sum is seen.
fn watched_by(
    alloc: Global,
    watchers: &mut Watchers,
    stays_for: u64,
) -> Result<Arc<AtomicU64>, AllocError> {
    let seen = Arc::new(alloc, AtomicU64::new(0))?;
    let sum = Arc::try_clone(&seen)?;
    let watcher = Box::new(alloc, Summing { sum, stays_for })?;
    watchers.boxes.push(watcher)?;
    Ok(seen)
}

/// Makes the worked session with these watchers as its trace: four steps, and seven more once `c.rb` is opened.
fn watch<R: Threads + Wait + Sync + Abort>(
    rt: &R,
    alloc: Global,
    watchers: &mut Watchers,
) -> Result<(), NoMemory> {
    let project = three_files(alloc, NIL)?;
    let first = initialize(alloc)?;
    let second = open(alloc, ONE)?;
    let mut sink = sink_of(alloc);
    let well = session::<R, MemSink, Watchers, Brand>(
        rt,
        alloc,
        project,
        &mut sink,
        watchers,
        first,
        second,
        7,
        Blank::new(1),
    )?;
    assert!(rt; well);
    Ok(())
}

/// Of two boxed watchers over the worked session the first is told all its steps, and the second, which leaves, the first three.
#[test]
fn boxed_watchers_are_told_the_worked_session(rt: HostRuntime) -> Result<(), Fail> {
    let alloc = rt.alloc();
    let mut watchers = Watchers {
        boxes: Vec::new(alloc),
    };
    let staying = watched_by(alloc, &mut watchers, 1000)?;
    let leaving = watched_by(alloc, &mut watchers, 2)?;
    watch(&rt, alloc, &mut watchers)?;
    assert_eq!(rt; staying.load(Ordering::SeqCst), sum_of("TLBWTLWLWLI"));
    assert_eq!(rt; leaving.load(Ordering::SeqCst), sum_of("TLB"));
    assert_eq!(rt; watchers.boxes.len(), 1);
    Ok(())
}

/// The letter of a step's kind.
fn letter_of(step: &Step) -> &'static str {
    match step {
        Step::Take { .. } => "T",
        Step::Look => "L",
        Step::Build => "B",
        Step::Work { .. } => "W",
        Step::Dropped { .. } => "D",
        Step::Idle => "I",
    }
}

/// The letters of the steps' kinds, in order.
fn letters_of(alloc: Global, steps: &[Step]) -> Result<String, AllocError> {
    let mut letters = String::new(alloc);
    for step in steps {
        letters.push_str(letter_of(step))?;
    }
    Ok(letters)
}

/// The files that the steps work on, each with its epoch, in order.
fn works_of(alloc: Global, steps: &[Step]) -> Result<String, AllocError> {
    let mut works = String::new(alloc);
    for step in steps {
        if let Step::Work { path, epoch, .. } = step {
            let work = format!(in alloc; "{} {epoch};", path.as_str())?;
            works.push_str(work.as_str())?;
        }
    }
    Ok(works)
}

/// An edit that declares the same is taken between two files: its file goes next, then the one that waits, and the first isn't checked again.
#[test]
fn an_edit_is_checked_between_two_files(rt: HostRuntime) -> Result<(), Fail> {
    let alloc = rt.alloc();
    let trace = steps_of(&rt, alloc, ONE, 7)?;
    let steps = trace.steps.as_slice();
    assert_eq!(rt; letters_of(alloc, steps)?.as_str(), "TLBWTLWLWLI");
    assert_eq!(rt; works_of(alloc, steps)?.as_str(), "a.rb 0;c.rb 1;b.rb 1;");
    Ok(())
}

/// After an edit that declares a class the symbol table is built anew, and every file is checked again, the edited one first.
#[test]
fn an_edit_that_changes_declarations_cancels_the_check(rt: HostRuntime) -> Result<(), Fail> {
    let alloc = rt.alloc();
    let trace = steps_of(&rt, alloc, CLASS, 10)?;
    let steps = trace.steps.as_slice();
    assert_eq!(rt; letters_of(alloc, steps)?.as_str(), "TLBWTLBWLWLWLI");
    assert_eq!(rt;
        works_of(alloc, steps)?.as_str(),
        "a.rb 0;c.rb 1;a.rb 1;b.rb 1;"
    );
    Ok(())
}

/// What an input is, in a word.
fn word_of(inp: &Inp) -> &'static str {
    match inp {
        Inp::Msg(
            Msg::Initialize {
                id: Id::Number(1),
                ..
            },
        ) => "initialize",
        Inp::Msg(Msg::Shutdown { id: Id::Number(2) }) => "shutdown",
        Inp::Msg(Msg::Exit) => "exit",
        Inp::End(EndCause::Exit) => "end",
        _ => "other",
    }
}

/// The next input of the inbox in a word, or `none` where it finds none.
fn next_word<R: Wait>(rt: &R, inbox: &Inbox, pass: &mut TakePass) -> &'static str
    requires { pass.old.queue ≡ inbox.now.name }
    ensures { pass.new.queue ≡ pass.old.queue }
{
    match inbox.take(rt, pass, &mut NoTrace) {
        Ok(Some(inp)) => word_of(&inp),
        Ok(None) => "none",
        Err(_) => "refused",
    }
}

/// Whether the next inputs of the inbox are these, in words.
fn are_next<R: Wait>(rt: &R, inbox: &Inbox, pass: &mut TakePass, words: &[&str]) -> bool
    requires { pass.old.queue ≡ inbox.now.name }
    ensures { pass.new.queue ≡ pass.old.queue }
{
    'words: for word in words {
        if next_word(rt, inbox, pass) != *word {
            return false;
        }
    }
    true
}

/// A source in memory that counts its reads.
#[derive(Drop)]
struct Counted {
    source: MemSource,
    reads: u64,
}

impl Source for Counted {
    ghost left = { λ s. ⟦<MemSource as Source>⟧.left s.source };

    ghost faults = { λ s. ⟦<MemSource as Source>⟧.faults s.source };

    fn read(&mut self, into: &mut [u8]) -> Result<usize, Failed> {
        self.reads = self.reads.saturating_add(1);
        self.source.read(into)
    }
}

/// This source with a count of its reads.
fn with_count(source: MemSource) -> Counted
    ensures { ⟦<Counted as Source>⟧.faults result ≡ ⟦<MemSource as Source>⟧.faults source }
{
    Counted { source, reads: 0 }
}

/// Where the gate was raised before, the reader reads nothing and puts nothing.
#[test]
fn nothing_is_read_once_the_gate_is_raised(rt: HostRuntime) -> Result<(), Fail> {
    let alloc = rt.alloc();
    let mut source = with_count(source_of(alloc, &[INITIALIZE, SHUTDOWN, EXIT], &[])?);
    let (inbox, mut putting, mut taking) = Inbox::new(alloc)?;
    let (gate, mut seat) = Gate::new(alloc)?;
    let mut reader_seat = gate.split(alloc, &mut seat)?;
    gate.raise(&mut seat);
    read(
        &rt,
        alloc,
        &mut source,
        &inbox,
        &mut putting,
        &gate,
        &mut reader_seat,
    );
    assert_eq!(rt; source.reads, 0);
    assert_eq!(rt; next_word(&rt, &inbox, &mut taking), "none");
    Ok(())
}

/// The reader puts each message in order, and then the end.
#[test]
fn messages_and_the_end_are_put_in_order(rt: HostRuntime) -> Result<(), Fail> {
    let alloc = rt.alloc();
    let mut source = source_of(alloc, &[INITIALIZE, SHUTDOWN, EXIT], &[])?;
    let (inbox, mut putting, mut taking) = Inbox::new(alloc)?;
    let (gate, mut seat) = Gate::new(alloc)?;
    read(
        &rt,
        alloc,
        &mut source,
        &inbox,
        &mut putting,
        &gate,
        &mut seat,
    );
    let words = ["initialize", "shutdown", "exit", "end", "none"];
    assert!(rt; are_next(&rt, &inbox, &mut taking, &words));
    Ok(())
}

/// The inputs that the steps take, in words.
fn taken_of(alloc: Global, steps: &[Step]) -> Result<String, AllocError> {
    let mut taken = String::new(alloc);
    for step in steps {
        if let Step::Take { inp } = step {
            let word = format!(in alloc; "{};", word_of(inp))?;
            taken.push_str(word.as_str())?;
        }
    }
    Ok(taken)
}

/// A session over no files, read byte by byte: its status, what it writes, and the inputs that it takes.
#[test]
fn a_session_is_served(rt: HostRuntime) -> Result<(), Fail> {
    let alloc = rt.alloc();
    let mut source = source_of(alloc, &[INITIALIZE, SHUTDOWN, EXIT], &[1])?;
    let mut sink = sink_of(alloc);
    let mut trace = MemTrace::new(alloc);
    let ended = serve(
        &rt,
        alloc,
        Project::new(alloc),
        2,
        &mut source,
        &mut sink,
        &mut trace,
        &Open,
    );
    assert_eq!(rt; ended.status, 0);
    let replies = frames_of(alloc, &[INITIALIZED, NULL])?;
    assert_eq!(rt; sink.held.as_slice(), replies.as_slice());
    let taken = taken_of(alloc, trace.steps.as_slice())?;
    assert_eq!(rt; taken.as_str(), "initialize;shutdown;exit;end;");
    Ok(())
}
