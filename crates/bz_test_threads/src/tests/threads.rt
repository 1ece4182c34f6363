//! Threads that make the calls of their workers, while the first pass makes events happen.
ghost use Rattle.std.specs.Prelude.{◌≡◌, ◌<◌, ◌∷◌, ◌++◌, [], All};
ghost use Rattle.std.specs.Thread.{IsSync};
ghost use Rattle.bz_index.specs.Passes.{origin_in, worker_of, IsPassOf};

use super::bench::{Said, close, join_back, key, open, payload, recover, same, short, split_off};
use super::reader::{Tally, read};
use super::stages::{Hold, Stages, Until};
use bz_call::Call;
use bz_index::{Index, IndexPass};
use bz_key::{Key, PageBuf};
use bz_layout::Config;
use bz_world::{Applied, Event, World};
use std::alloc::Global;
use std::process::Abort;
use std::sync::Wait;
use std::thread;
use std::thread::Threads;

/// Calls of a thread.
#[derive(Clone, Copy)]
pub(crate) enum Kind {
    /// Inserts of keys that no other worker inserts.
    Own,
    /// Inserts of keys that each worker inserts.
    Same,
    /// Gets of the worker's own keys.
    GetOwn,
    /// Gets of the keys that each worker inserts.
    GetSame,
    /// Pages from the least key on.
    Page,
}

/// So many calls of a kind, each of another key but pages, once what they wait for has come.
#[derive(Clone, Copy)]
pub(crate) struct Part {
    pub(crate) kind: Kind,
    pub(crate) many: u32,
    pub(crate) after: Until,
}

/// What the first pass does.
#[derive(Clone, Copy)]
pub(crate) enum Deed {
    Cut,
    On,
    Recover,
}

/// What a test makes: a world; the workers, in the order in which they are split off, the reverse of that in which they
/// come back; the calls of worker 1 and those of each other worker; what the first pass does; and where calls are held.
#[derive(Clone, Copy)]
pub(crate) struct Case<'a> {
    pub(crate) config: Config,
    pub(crate) workers: &'a [u8],
    pub(crate) one: &'a [Part],
    pub(crate) others: &'a [Part],
    pub(crate) deeds: &'a [(Deed, Until)],
    pub(crate) hold: Option<Hold>,
}

/// A call that a thread makes, what it was answered, and the page of the answer.
#[derive(Drop)]
pub(crate) struct Asked {
    pub(crate) call: Call,
    after: Until,
    pub(crate) said: Said,
    pub(crate) page: PageBuf,
}

// A worker's pass, and its calls.
#[derive(Drop)]
struct Job {
    pass: IndexPass,
    asked: Vec<Asked, Global>,
}

/// What the calls of a worker were answered.
#[derive(Drop)]
pub(crate) struct Told {
    pub(crate) worker: u8,
    pub(crate) asked: Vec<Asked, Global>,
}

/// The key of a call: a letter for whose it is, and two digits.
fn numbered(rt: &impl Abort, of: u8, number: u32) -> Key {
    let tens = b'0' + (number / 10 % 10) as u8;
    let ones = b'0' + (number % 10) as u8;
    key(rt, &[b'a'.saturating_add(of), tens, ones])
}

fn call_of(rt: &impl Abort, kind: Kind, worker: u8, number: u32) -> Call {
    let value = payload(rt, &[b'A'.saturating_add(worker)]);
    match kind {
        Kind::Own => Call::Insert(numbered(rt, worker, number), value),
        Kind::Same => Call::Insert(numbered(rt, 0, number), value),
        Kind::GetOwn => Call::Get(numbered(rt, worker, number)),
        Kind::GetSame => Call::Get(numbered(rt, 0, number)),
        Kind::Page => Call::Page(numbered(rt, 0, 0)),
    }
}

// A call that was not made yet.
fn asked_of(rt: &impl Abort, alloc: Global, part: &Part, worker: u8, number: u32) -> Asked {
    Asked {
        call: call_of(rt, part.kind, worker, number),
        after: part.after,
        said: Said::Nothing,
        page: PageBuf::open(alloc).expect(rt, "a page"),
    }
}

fn ask(rt: &impl Abort, alloc: Global, asked: &mut Vec<Asked, Global>, part: &Part, worker: u8) {
    for number in 0..part.many {
        let one = asked_of(rt, alloc, part, worker, number);
        asked.push(one).expect(rt, "room for a call");
    }
}

fn calls_of(rt: &impl Abort, alloc: Global, parts: &[Part], worker: u8) -> Vec<Asked, Global> {
    let mut asked = Vec::with_capacity(alloc, 64).expect(rt, "room for the calls");
    for part in parts {
        ask(rt, alloc, &mut asked, part, worker);
    }
    asked
}

// A pass of one of the world's workers, of which there are `many`.
fn split_any<R: Abort>(
    rt: &R,
    index: &Index,
    first: &mut IndexPass,
    worker: u8,
    many: u32,
) -> IndexPass
    requires first { IsPassOf index.now first.old × (worker_of first.old ≡ 0) }
    requires workers { (origin_in index.now).config.workers ≡ many }
    ensures first { IsPassOf index.now first.new × (worker_of first.new ≡ 0) }
    ensures pass { IsPassOf index.now result × (0 < worker_of result) }
{
    assert!(rt; 0 < worker && u32::from(worker) <= many);
    split_off(rt, index, first, worker)
}

// Puts a job behind the others.
fn keep(rt: &impl Abort, jobs: &mut Vec<Job, Global>, job: Job)
    ensures { jobs.new.items ≡ jobs.old.items ++ job ∷ [] }
{
    match jobs.push(job) {
        Ok(()) => {}
        Err(_) => panic!(rt; "no room for a job"),
    }
}

// A pass and the calls of each worker of a case.
fn split_all<R: Abort>(
    rt: &R,
    alloc: Global,
    index: &Index,
    first: &mut IndexPass,
    case: &Case<'_>,
    many: u32,
) -> Vec<Job, Global>
    requires first { IsPassOf index.now first.old × (worker_of first.old ≡ 0) }
    requires workers { (origin_in index.now).config.workers ≡ many }
    ensures first { IsPassOf index.now first.new × (worker_of first.new ≡ 0) }
    ensures jobs { All (λ j. IsPassOf index.now j.pass × (0 < worker_of j.pass)) result.items }
{
    let mut jobs = Vec::with_capacity(alloc, case.workers.len()).expect(rt, "room for the jobs");
    for worker in case.workers {
        let parts = if *worker == 1 { case.one } else { case.others };
        let asked = calls_of(rt, alloc, parts, *worker);
        let pass = split_any(rt, index, first, *worker, many);
        keep(rt, &mut jobs, Job { pass, asked });
    }
    jobs
}

// Makes a call, once what it waits for has come.
fn make<R: Wait>(rt: &R, index: &Index, pass: &mut IndexPass, asked: &mut Asked, stages: &Stages)
    requires { IsPassOf index.now pass.old × (0 < worker_of pass.old) }
    ensures { IsPassOf index.now pass.new × (0 < worker_of pass.new) }
{
    stages.wait(asked.after);
    let answer = index.call(rt, pass, asked.call, &mut asked.page, stages);
    asked.said = short(&answer);
    stages.tell_answer();
}

fn make_all<R: Wait>(
    rt: &R,
    index: &Index,
    pass: &mut IndexPass,
    asked: &mut [Asked],
    stages: &Stages,
)
    requires { IsPassOf index.now pass.old × (0 < worker_of pass.old) }
    ensures { IsPassOf index.now pass.new × (0 < worker_of pass.new) }
{
    for one in asked {
        make(rt, index, pass, one, stages);
    }
}

fn make_as<R: Wait>(rt: &R, index: &Index, job: Job, stages: &Stages) -> Job
    requires { IsPassOf index.now job.pass × (0 < worker_of job.pass) }
    ensures { IsPassOf index.now result.pass × (0 < worker_of result.pass) }
{
    let Job {
        mut pass,
        mut asked,
    } = job;
    make_all(rt, index, &mut pass, &mut asked, stages);
    Job { pass, asked }
}

// Makes the calls of each worker, in a thread of its own.
fn make_by_threads<R: Abort + Threads + Wait + Sync>(
    rt: &R,
    index: &Index,
    jobs: Vec<Job, Global>,
    stages: &Stages,
) -> Vec<Job, Global>
    requires { All (λ j. IsPassOf index.now j.pass × (0 < worker_of j.pass)) jobs.items }
    ensures { All (λ j. IsPassOf index.now j.pass × (0 < worker_of j.pass)) result.items }
{
    let made = thread::map_vec(
        rt,
        jobs,
        &|job: Job| -> Job
            requires { IsPassOf index.now job.pass × (0 < worker_of job.pass) }
            ensures { IsPassOf index.entry.now result.pass × (0 < worker_of result.pass) }
        { make_as(rt, index, job, stages) },
    );
    made.expect(rt, "room for the threads")
}

fn happen<R: Abort + Wait>(rt: &R, index: &Index, first: &mut IndexPass, deed: Deed)
    requires { IsPassOf index.now first.old × (worker_of first.old ≡ 0) }
    ensures { IsPassOf index.now first.new × (worker_of first.new ≡ 0) }
{
    match deed {
        Deed::Cut => same(rt, index.apply(rt, first, Event::Cut), Applied::Cut),
        Deed::On => same(rt, index.apply(rt, first, Event::On), Applied::On),
        Deed::Recover => recover(rt, index, first),
    }
}

// Makes each deed, once what it waits for has come.
fn happen_all<R: Abort + Wait>(
    rt: &R,
    index: &Index,
    mut first: IndexPass,
    deeds: &[(Deed, Until)],
    stages: &Stages,
) -> IndexPass
    requires { IsPassOf index.now first × (worker_of first ≡ 0) }
    ensures { IsPassOf index.now result × (worker_of result ≡ 0) }
{
    for (deed, after) in deeds {
        stages.wait(*after);
        happen(rt, index, &mut first, *deed);
        stages.tell_deed();
    }
    first
}

// The threads of the workers, and beside them the first pass.
fn together<R: Abort + Threads + Wait + Sync>(
    rt: &R,
    index: &Index,
    jobs: Vec<Job, Global>,
    first: IndexPass,
    deeds: &[(Deed, Until)],
    stages: &Stages,
) -> (Vec<Job, Global>, IndexPass)
    requires jobs { All (λ j. IsPassOf index.now j.pass × (0 < worker_of j.pass)) jobs.items }
    requires first { IsPassOf index.now first × (worker_of first ≡ 0) }
    ensures jobs { All (λ j. IsPassOf index.now j.pass × (0 < worker_of j.pass)) result.0.items }
    ensures first { IsPassOf index.now result.1 × (worker_of result.1 ≡ 0) }
{
    thread::join(
        rt,
        move || -> Vec<Job, Global>
            requires { IsSync R.row × All (λ j. IsPassOf index.now j.pass × (0 < worker_of j.pass)) jobs.items }
            ensures { All (λ j. IsPassOf index.entry.now j.pass × (0 < worker_of j.pass)) result.items }
        { make_by_threads(rt, index, jobs, stages) },
        move || -> IndexPass
            requires { IsPassOf index.now first × (worker_of first ≡ 0) }
            ensures { IsPassOf index.entry.now result × (worker_of result ≡ 0) }
        { happen_all(rt, index, first, deeds, stages) },
    )
}

// Joins the passes, the last one first.
fn join_all<R: Abort>(
    rt: &R,
    alloc: Global,
    index: &Index,
    first: &mut IndexPass,
    mut jobs: Vec<Job, Global>,
) -> Vec<Told, Global>
    requires first { IsPassOf index.now first.old × (worker_of first.old ≡ 0) }
    requires jobs { All (λ j. IsPassOf index.now j.pass × (0 < worker_of j.pass)) jobs.items }
    ensures { IsPassOf index.now first.new × (worker_of first.new ≡ 0) }
{
    let mut told = Vec::with_capacity(alloc, jobs.len()).expect(rt, "room for the answers");
    while let Some(job) = jobs.pop() {
        let Job { pass, asked } = job;
        let worker = pass.worker();
        join_back(rt, index, first, pass);
        told.push(Told { worker, asked })
            .expect(rt, "room for an answer");
    }
    told
}

/// The world after a case, and what its calls were answered.
pub(crate) fn run<R: Abort + Threads + Wait + Sync>(
    rt: &R,
    alloc: Global,
    case: &Case<'_>,
) -> (World, Vec<Told, Global>) {
    let (index, mut first) = open(alloc, &case.config).expect(rt, "an index");
    let jobs = split_all(rt, alloc, &index, &mut first, case, case.config.workers);
    let stages = Stages::new(case.hold);
    let (jobs, mut first) = together(rt, &index, jobs, first, case.deeds, &stages);
    let told = join_all(rt, alloc, &index, &mut first, jobs);
    (close(rt, index, first), told)
}

/// Makes a case, and reads its journal and what its threads were told: how the calls were answered.
pub(crate) fn tell<R: Abort + Threads + Wait + Sync>(
    rt: &R,
    alloc: Global,
    case: &Case<'_>,
) -> Tally {
    let (world, told) = run(rt, alloc, case);
    read(rt, alloc, &world, &told)
}

/// The calls of a case are answered so.
pub(crate) fn expect<R: Abort + Threads + Wait + Sync>(
    rt: &R,
    alloc: Global,
    case: &Case<'_>,
    tally: &Tally,
) {
    same(rt, tell(rt, alloc, case), *tally);
}
