//! Runs over devices in memory.
ghost use Rattle.std.specs.Prelude.{◌≡◌, false, IfOk};

use crate::devices::{Devices, devices_of};
use crate::given::{put_given, put_line, put_outcome};
use crate::start::{Fails, Start};
use crate::stores::Store;
use case_files::Printer;
use sqlite::{FileStore, MemStore};
use sqlite_disk::Memory as MemoryFile;
use std::alloc::Global;
use std::rt::HostRuntime;
use std::str;
use ur_base::{Memory, Text};
use ur_keeper::MemoryKeeper;
use ur_sqlkeeper::SqlKeeper;
use ur_top::{Outcome, run};

/// What comes of a run with the words of the first line, over what the others say: the status, the sessions and the scans; what is given on
/// each connection; what the tables hold; and what is printed. Where no call of the keeper is to fail, the same has to come of the same run
/// over tables in a database, in memory and in files: else a line more tells what came.
pub fn put_runs(rt: HostRuntime, text: &str, p: &mut Printer) -> Result<(), Memory> {
    let alloc = rt.alloc();
    let (words, lines) = text.split_once('\n').unwrap_or((text, ""));
    let words = words_of(alloc, words)?;
    let start = Start::read(alloc, lines)?;
    let told = told_of::<MemoryKeeper>(rt, words.as_slice(), &start)?;
    p.put(told.as_slice());
    if start.fails.keeper != 0 {
        return Ok(());
    }
    let other = told_of::<SqlKeeper<MemStore>>(rt, words.as_slice(), &start)?;
    put_other(b"\n! over a database: ", &told, &other, p);
    let other = told_of::<SqlKeeper<FileStore<MemoryFile>>>(rt, words.as_slice(), &start)?;
    put_other(b"\n! over files: ", &told, &other, p);
    Ok(())
}

/// A line with what came, where it differs.
fn put_other(mark: &[u8], told: &Text, other: &Text, p: &mut Printer) {
    if told.as_slice() != other.as_slice() {
        put_line(p, mark, other.as_slice());
    }
}

/// The words with blanks between, `-` for none.
fn words_of(alloc: Global, text: &str) -> Result<Vec<String>, Memory> {
    let mut words = Vec::new(alloc);
    for word in text.split_ascii_whitespace() {
        if word != "-" {
            words.push(String::from_str(alloc, word)?)?;
        }
    }
    Ok(words)
}

/// `run`, of which the proofs here need to know one thing: no transaction is left under way.
fn outcome_of<K: Store>(
    alloc: Global,
    words: &[String],
    devices: &mut Devices,
    keeper: &mut K,
) -> Outcome
    requires { K.under_way keeper.old ≡ false }
    ensures { K.under_way keeper.new ≡ false }
{
    run(
        alloc,
        words,
        &mut devices.shelf,
        &mut devices.wire,
        keeper,
        &mut devices.sink,
    )
}

/// What comes of a run over a store of this kind.
fn told_of<K: Store + Drop>(
    rt: HostRuntime,
    words: &[String],
    start: &Start,
) -> Result<Text, Memory> {
    let mut p = Printer::new(rt.alloc());
    put_run::<K>(rt, words, start, &mut p)?;
    p.finish()
}

fn put_run<K: Store + Drop>(
    rt: HostRuntime,
    words: &[String],
    start: &Start,
    p: &mut Printer,
) -> Result<(), Memory> {
    let mut keeper = kept_before::<K>(rt, start)?;
    let mut devices = all_devices(rt.alloc(), start, start.inputs.len())?;
    put_all(rt, words, start, &mut devices, &mut keeper, p)
}

/// The devices of a run over the first so many connections.
fn all_devices(alloc: Global, start: &Start, count: usize) -> Result<Devices, Memory> {
    devices_of(alloc, start, start.inputs.as_slice(), count, start.fails)
}

fn put_all<K: Store + Drop>(
    rt: HostRuntime,
    words: &[String],
    start: &Start,
    devices: &mut Devices,
    keeper: &mut K,
    p: &mut Printer,
) -> Result<(), Memory>
    requires { K.under_way keeper.old ≡ false }
{
    let before = keeper.scans();
    put_ends(rt.alloc(), words, devices, keeper, p);
    let scans = keeper.scans().saturating_sub(before);
    put_reads::<K>(rt, words, start, scans, p)?;
    put_given(p, &devices.wire);
    keeper.put_tables(rt.alloc(), p);
    put_line(p, b"\n! ", devices.sink.given());
    Ok(())
}

fn put_ends<K: Store>(
    alloc: Global,
    words: &[String],
    devices: &mut Devices,
    keeper: &mut K,
    p: &mut Printer,
)
    requires { K.under_way keeper.old ≡ false }
    ensures { K.under_way keeper.new ≡ false }
{
    let outcome = outcome_of(alloc, words, devices, keeper);
    put_outcome(p, &outcome);
}

// ---- the run before

/// The store that the run before leaves, opened again, or an empty one.
fn kept_before<K: Store + Drop>(rt: HostRuntime, start: &Start) -> Result<K, Memory>
    ensures { IfOk result (λ keeper. K.under_way keeper ≡ false) }
{
    let mut keeper = K::made(rt, start.fails)?;
    if run_first(rt.alloc(), start, &mut keeper)? {
        return Ok(keeper.again(rt.alloc()));
    }
    Ok(keeper)
}

/// The run before, and whether there is one.
fn run_first<K: Store>(alloc: Global, start: &Start, keeper: &mut K) -> Result<bool, Memory>
    requires { K.under_way keeper.old ≡ false }
    ensures { K.under_way keeper.new ≡ false }
{
    let words = words_of(alloc, str::from_utf8(start.first.as_slice()).unwrap_or(""))?;
    if words.is_empty() {
        return Ok(false);
    }
    let mut devices = first_devices(alloc, start)?;
    let _ = outcome_of(alloc, words.as_slice(), &mut devices, keeper);
    Ok(true)
}

/// The devices of the run before, of which the wire and the sink do not fail.
fn first_devices(alloc: Global, start: &Start) -> Result<Devices, Memory> {
    let inputs = start.first_inputs.as_slice();
    let fails = Fails {
        shelf: start.fails.shelf,
        wire: 0,
        sink: 0,
        keeper: 0,
        keeper_too: 0,
    };
    devices_of(alloc, start, inputs, inputs.len(), fails)
}

// ---- scans

/// How often the keeper scanned: in all, or for each connection where that is asked.
fn put_reads<K: Store + Drop>(
    rt: HostRuntime,
    words: &[String],
    start: &Start,
    all: u64,
    p: &mut Printer,
) -> Result<(), Memory> {
    p.word(b"reads");
    if !start.each {
        p.number(all);
        return Ok(());
    }
    let mut before = first_scans::<K>(rt, start)?;
    for count in 1..start.inputs.len().saturating_add(1) {
        let reads = reads_of::<K>(rt, words, start, count)?;
        p.number(reads.saturating_sub(before));
        before = reads;
    }
    Ok(())
}

/// The scans that are counted before the run.
fn first_scans<K: Store + Drop>(rt: HostRuntime, start: &Start) -> Result<u64, Memory> {
    let keeper = kept_before::<K>(rt, start)?;
    Ok(keeper.scans())
}

/// The scans of a run over the first so many connections.
fn reads_of<K: Store + Drop>(
    rt: HostRuntime,
    words: &[String],
    start: &Start,
    count: usize,
) -> Result<u64, Memory> {
    let mut keeper = kept_before::<K>(rt, start)?;
    let mut devices = all_devices(rt.alloc(), start, count)?;
    let _ = outcome_of(rt.alloc(), words, &mut devices, &mut keeper);
    Ok(keeper.scans())
}
