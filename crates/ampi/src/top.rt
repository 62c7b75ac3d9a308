//! The top call: words, files, sources, and then their run or their listing.
ghost use Rattle.std.specs.Prelude.{◌≡◌, ◌≤◌, ◌⊎◌, ◌∷◌, [], ℕ, length, map, string_bytes, Some};
ghost use Rattle.am_io.specs.Faults.{Rose};
ghost use Rattle.run_words.specs.Words.{AskForCode};
ghost use Rattle.run_words.specs.Asks.{bytes_of_words, IsAskedBy};
ghost use Rattle.c_compile.specs.Programs.{IsCompiled};
ghost use Rattle.c_types.specs.Segment.{SegmentOf};
ghost use Rattle.codegen.specs.Answers.{IsMade};
ghost use Rattle.vm_code.specs.Listing.{listing_from};
ghost use Rattle.rank_machine.specs.Ran.{is_mpi};
ghost use Rattle.cluster.specs.Job.{IsJob};
ghost use Rattle.ampi.specs.Answers.{Answers, Explains, IsUsage, reads, status_of};
ghost use Rattle.ampi.specs.Sources.{AreLoaded, AreRun, AreFewAndShort, calls_mpi};
ghost use Rattle.ampi.specs.Puts.{ToOut, puts};
ghost use Rattle.ampi.specs.Yields.{Yields, Comes};

use crate::Status;
use crate::loading::{load_files, names_of};
use crate::run::put_run;
use crate::telling::{refuse_source, tell};
use am_base::Bytes;
use am_io::{Files, SayError, Sink};
use c_compile::{Cause, CompileError, Compiled, Refusal, answers_are_one, compile};
use cluster::Job;
use run_words::{Command, WordsError, code_files, files_are_few, one_command, read_words};
use std::alloc::{AllocError, Global};
use vm_code::{Code, Instr, listing};
use w_model::End;

/// The usage text.
const USAGE: &[u8] =
    b"usage: ampi run [options] FILE...\n       ampi code FILE...\n       ampi make-schedule --seed S --events M --ranks N --procs P\n";

/// The program over any files, output and journal. `words` are the command line without the program's name.
pub fn ampi<F: Files, K: Sink, J: Sink>(
    alloc: Global,
    words: &Vec<String>,
    files: &mut F,
    out: &mut K,
    journal: &mut J,
) -> Status
    // What was put at each answer, and what it tells of the words and files. At `Done` it is the headline, or a listing.
    ensures answers { Answers (bytes_of_words words.now)
        (reads (F.held files.old) (F.faults files.old) (F.faults files.new))
        (puts (K.written out.old) (K.written out.new) (J.written journal.old) (J.written journal.new)) result }

    // When each answer comes: it yields to no other but a write that fails and want of memory.
    ensures usage { IsUsage (bytes_of_words words.now) → Yields Status.Usage result }
    ensures complete { (Rose (F.faults files.old) (F.faults files.new) → ⊥)
        → Comes (bytes_of_words words.now) (F.held files.old) result }
    ensures read_fault { (file : ℕ) → result ≡ Status.ReadFault file → Rose (F.faults files.old) (F.faults files.new) }
    ensures write_fault { result ≡ Status.WriteFault
        → Rose (K.faults out.old) (K.faults out.new) ⊎ Rose (J.faults journal.old) (J.faults journal.new) }
    ensures kept { (result ≡ Status.WriteFault → ⊥)
        → (K.faults out.new ≡ K.faults out.old) × (J.faults journal.new ≡ J.faults journal.old) }
{
    one_command();
    files_are_few();
    answers_are_one();
    match code_files(words) {
        Some(names) => show_code(alloc, names, files, out),
        None => match read_words(alloc, words) {
            Ok(command) => run_files(alloc, &command, files, out, journal),
            Err(WordsError::Bad) => tell(out, USAGE, Status::Usage),
            Err(WordsError::Memory) => Status::NoMemory,
        },
    }
}

fn run_files<F: Files, K: Sink, J: Sink>(
    alloc: Global,
    command: &Command,
    files: &mut F,
    out: &mut K,
    journal: &mut J,
) -> Status
    requires some { length command.now.files.items ≤ 16 }
    requires few { command.now.ranks ≤ 256 }
    requires bounded { command.now.ticks ≤ 16000000 }
    ensures answers { (words : _) → IsAskedBy words command.now
        → Answers words (reads (F.held files.old) (F.faults files.old) (F.faults files.new))
        (puts (K.written out.old) (K.written out.new) (J.written journal.old) (J.written journal.new)) result }
    ensures read_fault { (file : ℕ) → result ≡ Status.ReadFault file → Rose (F.faults files.old) (F.faults files.new) }
    ensures write_fault { result ≡ Status.WriteFault
        → Rose (K.faults out.old) (K.faults out.new) ⊎ Rose (J.faults journal.old) (J.faults journal.new) }
    ensures kept { (result ≡ Status.WriteFault → ⊥)
        → (K.faults out.new ≡ K.faults out.old) × (J.faults journal.new ≡ J.faults journal.old) }
{
    match load_files(alloc, command.files.as_slice(), files, out) {
        Ok(texts) => run_texts(alloc, command, texts.as_slice(), out, journal),
        Err(status) => status,
    }
}

fn run_texts<K: Sink, J: Sink>(
    alloc: Global,
    command: &Command,
    texts: &[Bytes],
    out: &mut K,
    journal: &mut J,
) -> Status
    requires few { command.now.ranks ≤ 256 }
    requires bounded { command.now.ticks ≤ 16000000 }
    requires short { AreFewAndShort texts.now }
    ensures answers { (words : _) (r : _) → IsAskedBy words command.now
        → AreLoaded r.held (map string_bytes command.now.files.items) texts.now → Answers words r
        (puts (K.written out.old) (K.written out.new) (J.written journal.old) (J.written journal.new)) result }
    ensures no_read_fault { (file : ℕ) → result ≡ Status.ReadFault file → ⊥ }
    ensures write_fault { result ≡ Status.WriteFault
        → Rose (K.faults out.old) (K.faults out.new) ⊎ Rose (J.faults journal.old) (J.faults journal.new) }
    ensures kept { (result ≡ Status.WriteFault → ⊥)
        → (K.faults out.new ≡ K.faults out.old) × (J.faults journal.new ≡ J.faults journal.old) }
{
    match names_of(alloc, command.files.as_slice()) {
        Ok(names) => run_named(alloc, command, names.as_slice(), texts, out, journal),
        Err(AllocError) => Status::NoMemory,
    }
}

fn run_named<K: Sink, J: Sink>(
    alloc: Global,
    command: &Command,
    names: &[Bytes],
    texts: &[Bytes],
    out: &mut K,
    journal: &mut J,
) -> Status
    requires few { command.now.ranks ≤ 256 }
    requires bounded { command.now.ticks ≤ 16000000 }
    requires named { names.now ≡ map string_bytes command.now.files.items }
    requires short { AreFewAndShort texts.now }
    ensures answers { (words : _) (r : _) → IsAskedBy words command.now → AreLoaded r.held names.now texts.now → Answers words r
        (puts (K.written out.old) (K.written out.new) (J.written journal.old) (J.written journal.new)) result }
    ensures no_read_fault { (file : ℕ) → result ≡ Status.ReadFault file → ⊥ }
    ensures write_fault { result ≡ Status.WriteFault
        → Rose (K.faults out.old) (K.faults out.new) ⊎ Rose (J.faults journal.old) (J.faults journal.new) }
    ensures kept { (result ≡ Status.WriteFault → ⊥)
        → (K.faults out.new ≡ K.faults out.old) × (J.faults journal.new ≡ J.faults journal.old) }
{
    match compile(alloc, texts) {
        Ok(compiled) => run_compiled(alloc, command, names, &compiled, out, journal),
        Err(CompileError::Refused(refusal)) => refuse_source(alloc, out, names, refusal),
        Err(CompileError::Memory) => Status::NoMemory,
    }
}

/// Runs a compiled program that doesn't call MPI, and answers how it ended.
fn run_compiled<K: Sink, J: Sink>(
    alloc: Global,
    command: &Command,
    names: &[Bytes],
    compiled: &Compiled,
    out: &mut K,
    journal: &mut J,
) -> Status
    requires few { command.now.ranks ≤ 256 }
    requires bounded { command.now.ticks ≤ 16000000 }
    requires named { names.now ≡ map string_bytes command.now.files.items }
    requires segment { SegmentOf compiled.now.program compiled.now.segment }
    requires made { IsMade compiled.now.code compiled.now.program compiled.now.segment }
    ensures answers { (words : _) (r : _) (texts : _) → IsAskedBy words command.now
        → AreLoaded r.held names.now texts → IsCompiled texts compiled.now → Answers words r
        (puts (K.written out.old) (K.written out.new) (J.written journal.old) (J.written journal.new)) result }
    ensures no_read_fault { (file : ℕ) → result ≡ Status.ReadFault file → ⊥ }
    ensures write_fault { result ≡ Status.WriteFault
        → Rose (K.faults out.old) (K.faults out.new) ⊎ Rose (J.faults journal.old) (J.faults journal.new) }
    ensures kept { (result ≡ Status.WriteFault → ⊥)
        → (K.faults out.new ≡ K.faults out.old) × (J.faults journal.new ≡ J.faults journal.old) }
{
    if calls_mpi(&compiled.code) {
        let refusal = Refusal {
            cause: Cause::NotBuilt,
            unit: 0,
            line: 1,
        };
        return refuse_source(alloc, out, names, refusal);
    }
    run_job(alloc, command, names, compiled, out, journal)
}

/// Whether an instruction is a call of MPI.
fn calls_mpi(code: &Code) -> bool
    ensures { result ≡ calls_mpi code.now }
{
    code.instrs.as_slice().iter().any(|instr| is_call(*instr))
}

fn is_call(instr: Instr) -> bool
    ensures { result ≡ is_mpi (Some instr) }
{
    match instr {
        Instr::Mpi {
            call: _,
            arguments: _,
            second: _,
        } => true,
        _ => false,
    }
}

/// Runs a compiled program, and answers how it ended.
fn run_job<K: Sink, J: Sink>(
    alloc: Global,
    command: &Command,
    names: &[Bytes],
    compiled: &Compiled,
    out: &mut K,
    journal: &mut J,
) -> Status
    requires few { command.now.ranks ≤ 256 }
    requires bounded { command.now.ticks ≤ 16000000 }
    requires named { names.now ≡ map string_bytes command.now.files.items }
    requires job { IsJob compiled.now.program compiled.now.segment compiled.now.code }
    ensures answers { (words : _) (r : _) (texts : _) → IsAskedBy words command.now
        → AreLoaded r.held names.now texts → AreRun texts compiled.now → Answers words r
        (puts (K.written out.old) (K.written out.new) (J.written journal.old) (J.written journal.new)) result }
    ensures no_read_fault { (file : ℕ) → result ≡ Status.ReadFault file → ⊥ }
    ensures write_fault { result ≡ Status.WriteFault
        → Rose (K.faults out.old) (K.faults out.new) ⊎ Rose (J.faults journal.old) (J.faults journal.new) }
    ensures kept { (result ≡ Status.WriteFault → ⊥)
        → (K.faults out.new ≡ K.faults out.old) × (J.faults journal.new ≡ J.faults journal.old) }
{
    let job = Job {
        program: &compiled.program,
        segment: &compiled.segment,
        code: &compiled.code,
        files: names,
        ranks: command.ranks,
        bound: command.ticks,
    };
    match put_run(alloc, &job, out, journal) {
        Ok(end) => status_of(end),
        Err(SayError::Failed) => Status::WriteFault,
        Err(SayError::Memory) => Status::NoMemory,
    }
}

/// The answer that tells of this end.
fn status_of(end: End) -> Status
    ensures { result ≡ status_of end }
{
    match end {
        End::Done => Status::Done,
        End::Deadlock => Status::Deadlock,
        End::OutOfTicks => Status::OutOfTicks,
        End::Trapped(rank) => Status::Trapped {
            rank: u32::from(rank.0),
        },
    }
}

/// Puts the listing of the code of the program in files.
fn show_code<F: Files, K: Sink>(
    alloc: Global,
    names: &[String],
    files: &mut F,
    out: &mut K,
) -> Status
    requires some { length names.now ≤ 16 }
    ensures answers { (words : _) (journal : _) → AskForCode words (map string_bytes names.now)
        → Answers words (reads (F.held files.old) (F.faults files.old) (F.faults files.new))
        (puts (K.written out.old) (K.written out.new) journal journal) result }
    ensures read_fault { (file : ℕ) → result ≡ Status.ReadFault file → Rose (F.faults files.old) (F.faults files.new) }
    ensures write_fault { result ≡ Status.WriteFault → Rose (K.faults out.old) (K.faults out.new) }
    ensures kept { (result ≡ Status.WriteFault → ⊥) → K.faults out.new ≡ K.faults out.old }
{
    match load_files(alloc, names, files, out) {
        Ok(texts) => show_texts(alloc, names, texts.as_slice(), out),
        Err(status) => status,
    }
}

fn show_texts<K: Sink>(alloc: Global, names: &[String], texts: &[Bytes], out: &mut K) -> Status
    requires short { AreFewAndShort texts.now }
    ensures answers { (words : _) (r : _) (journal : _) → AskForCode words (map string_bytes names.now)
        → AreLoaded r.held (map string_bytes names.now) texts.now
        → Answers words r (puts (K.written out.old) (K.written out.new) journal journal) result }
    ensures no_read_fault { (file : ℕ) → result ≡ Status.ReadFault file → ⊥ }
    ensures write_fault { result ≡ Status.WriteFault → Rose (K.faults out.old) (K.faults out.new) }
    ensures kept { (result ≡ Status.WriteFault → ⊥) → K.faults out.new ≡ K.faults out.old }
{
    match names_of(alloc, names) {
        Ok(names) => show_named(alloc, names.as_slice(), texts, out),
        Err(AllocError) => Status::NoMemory,
    }
}

fn show_named<K: Sink>(alloc: Global, names: &[Bytes], texts: &[Bytes], out: &mut K) -> Status
    requires short { AreFewAndShort texts.now }
    ensures answers { (words : _) (r : _) (journal : _) → AskForCode words names.now → AreLoaded r.held names.now texts.now
        → Answers words r (puts (K.written out.old) (K.written out.new) journal journal) result }
    ensures no_read_fault { (file : ℕ) → result ≡ Status.ReadFault file → ⊥ }
    ensures write_fault { result ≡ Status.WriteFault → Rose (K.faults out.old) (K.faults out.new) }
    ensures kept { (result ≡ Status.WriteFault → ⊥) → K.faults out.new ≡ K.faults out.old }
{
    match compile(alloc, texts) {
        Ok(compiled) => show_listing(alloc, &compiled.code, out),
        Err(CompileError::Refused(refusal)) => refuse_source(alloc, out, names, refusal),
        Err(CompileError::Memory) => Status::NoMemory,
    }
}

fn show_listing<K: Sink>(alloc: Global, code: &Code, out: &mut K) -> Status
    ensures told { (words : _) (r : _) (journal : _) → Explains words r Status.Done (ToOut (listing_from 0 code.now.instrs) ∷ [])
        → Answers words r (puts (K.written out.old) (K.written out.new) journal journal) result }
    ensures yields { Yields Status.Done result }
    ensures write_fault { result ≡ Status.WriteFault → Rose (K.faults out.old) (K.faults out.new) }
    ensures kept { (result ≡ Status.WriteFault → ⊥) → K.faults out.new ≡ K.faults out.old }
{
    match listing(alloc, code) {
        Ok(text) => tell(out, text.as_slice(), Status::Done),
        Err(AllocError) => Status::NoMemory,
    }
}
