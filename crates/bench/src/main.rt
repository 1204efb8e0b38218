//! Benchmarks. The words are a benchmark and its sizes; what is printed is the same at each run, and the time is taken
//! from outside.
#![tactic(auto)]

mod answers;
mod changes;
mod checking;
mod congruence;
mod keeper;
mod pieces;
mod projects;
mod runs;

ghost use Rattle.std.specs.Prelude.{◌≤◌, IfOk};

use projects::{Project, project_of};
use std::alloc::Global;
use std::process::ExitCode;
use std::{env, io};
use ur_base::Memory;
use ur_keeper::KeeperEnd;

/// The status where the words name no benchmark, or a size is out of range.
const USAGE: u8 = 2;

/// Why a run gave no counts.
#[derive(Debug, Drop)]
enum BenchEnd {
    Usage,
    Keeper,
    Memory,
    Io(io::Error),
}

impl From<Memory> for BenchEnd {
    fn from(_: Memory) -> BenchEnd {
        BenchEnd::Memory
    }
}

impl From<io::Error> for BenchEnd {
    fn from(error: io::Error) -> BenchEnd {
        BenchEnd::Io(error)
    }
}

impl From<KeeperEnd> for BenchEnd {
    fn from(end: KeeperEnd) -> BenchEnd {
        match end {
            KeeperEnd::Failed => BenchEnd::Keeper,
            KeeperEnd::Memory => BenchEnd::Memory,
        }
    }
}

fn main(rt: HostRuntime) -> ExitCode {
    match bench(&rt) {
        Ok(()) => ExitCode::SUCCESS,
        Err(BenchEnd::Usage) => ExitCode::from(USAGE),
        Err(_) => ExitCode::FAILURE,
    }
}

/// Runs the benchmark that the words name.
fn bench(rt: &HostRuntime) -> Result<(), BenchEnd> {
    let mut words = env::args(rt)?.skip(1);
    let Some(name) = words.next() else {
        return Err(BenchEnd::Usage);
    };
    match name.as_str() {
        "keeper" => change_rows(rt, words.next()),
        "keys" => plan_changes(rt, words.next()),
        "request" => {
            let empty_lines = size(words.next(), pieces::MOST)?;
            let short_fields = size(words.next(), pieces::MOST)?;
            let long_field = size(words.next(), pieces::MOST)?;
            let body = size(words.next(), pieces::MOST)?;
            let parts = pieces::Parts {
                empty_lines,
                short_fields,
                long_field,
                body,
            };
            request(rt, parts)
        }
        "pipelined" => pipelined(rt, words.next()),
        "check" => {
            let project = project_named(words.next())?;
            let size = size(words.next(), checking::MOST)?;
            checked(rt, project, size)
        }
        "nested" => {
            let levels = size(words.next(), runs::MOST_LEVELS)?;
            let times = size(words.next(), runs::MOST_TIMES)?;
            nested(rt, levels, times)
        }
        name => count(rt, name, words.next()),
    }
}

/// A run that gives one count.
#[derive(Clone, Copy)]
enum Run {
    Join,
    Group,
    Order,
    Chain,
    Pairwise,
    Powers,
    Rows,
}

fn run_of(name: &str) -> Option<Run> {
    match name {
        "join" => Some(Run::Join),
        "group" => Some(Run::Group),
        "order" => Some(Run::Order),
        "chain" => Some(Run::Chain),
        "pairwise" => Some(Run::Pairwise),
        "powers" => Some(Run::Powers),
        "rows" => Some(Run::Rows),
        _ => None,
    }
}

/// The greatest size.
fn most(run: Run) -> u32 {
    match run {
        Run::Join | Run::Group | Run::Order | Run::Rows => keeper::MOST_ROWS,
        Run::Chain | Run::Pairwise | Run::Powers => congruence::MOST_TERMS,
    }
}

fn counted(alloc: Global, run: Run, size: u32) -> Result<usize, Memory> {
    match run {
        Run::Join => answers::join(alloc, size),
        Run::Group => answers::group(alloc, size),
        Run::Order => answers::order(alloc, size),
        Run::Chain => congruence::chain(alloc, size),
        Run::Pairwise => congruence::pairwise(alloc, size),
        Run::Powers => congruence::powers(alloc, size),
        Run::Rows => runs::count_rows(alloc, size),
    }
}

fn count(rt: &HostRuntime, name: &str, word: Option<String>) -> Result<(), BenchEnd> {
    let Some(run) = run_of(name) else {
        return Err(BenchEnd::Usage);
    };
    let size = size(word, most(run))?;
    let count = counted(rt.alloc(), run, size)?;
    println!(rt; "{name} {count}")?;
    Ok(())
}

fn request(rt: &HostRuntime, parts: pieces::Parts) -> Result<(), BenchEnd> {
    let cut = pieces::cut_bytes(rt.alloc(), parts)?;
    println!(rt; "request {cut}")?;
    Ok(())
}

fn nested(rt: &HostRuntime, levels: u32, times: u32) -> Result<(), BenchEnd> {
    let sum = runs::sum_nested(rt.alloc(), levels, times)?;
    println!(rt; "nested {sum}")?;
    Ok(())
}

fn pipelined(rt: &HostRuntime, word: Option<String>) -> Result<(), BenchEnd> {
    let requests = size(word, pieces::MOST)?;
    let cut = pieces::cut_pipelined(rt.alloc(), requests)?;
    println!(rt; "pipelined {cut}")?;
    Ok(())
}

/// The project that a word names.
fn project_named(word: Option<String>) -> Result<Project, BenchEnd> {
    let Some(word) = word else {
        return Err(BenchEnd::Usage);
    };
    match project_of(word.as_str()) {
        Some(project) => Ok(project),
        None => Err(BenchEnd::Usage),
    }
}

fn checked(rt: &HostRuntime, project: Project, size: u32) -> Result<(), BenchEnd> {
    let Some(counts) = checking::check_all(rt.alloc(), project, size)? else {
        return Err(BenchEnd::Usage);
    };
    println!(rt;
        "check {} bytes {} functions",
        counts.bytes, counts.functions
    )?;
    Ok(())
}

fn change_rows(rt: &HostRuntime, word: Option<String>) -> Result<(), BenchEnd> {
    let rows = size(word, keeper::MOST_ROWS)?;
    let counts = keeper::change_all(rt.alloc(), rows)?;
    println!(rt; "keeper {counts}")?;
    Ok(())
}

fn plan_changes(rt: &HostRuntime, word: Option<String>) -> Result<(), BenchEnd> {
    let rows = size(word, keeper::MOST_ROWS)?;
    let plans = changes::plan_all(rt.alloc(), rows)?;
    println!(rt; "keys {plans}")?;
    Ok(())
}

/// A size that is at most this.
fn size(word: Option<String>, most: u32) -> Result<u32, BenchEnd>
    ensures { IfOk result (λ size. size ≤ most) }
{
    let Some(word) = word else {
        return Err(BenchEnd::Usage);
    };
    match word.as_str().parse::<u32>() {
        Ok(size) if size <= most => Ok(size),
        _ => Err(BenchEnd::Usage),
    }
}
