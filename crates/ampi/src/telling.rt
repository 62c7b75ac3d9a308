//! The texts that tell why nothing was done, and their answers.
ghost use Rattle.std.specs.Prelude.{◌≡◌, ◌++◌, [], ◌∷◌, IfOk};
ghost use Rattle.am_io.specs.Faults.{Rose};
ghost use Rattle.c_compile.specs.Causes.{cause_number};
ghost use Rattle.ampi.specs.Answers.{Answers, Explains};
ghost use Rattle.ampi.specs.Sources.{source_text};
ghost use Rattle.ampi.specs.Puts.{ToOut, puts};
ghost use Rattle.ampi.specs.Yields.{Yields};

use crate::Status;
use am_base::{Bytes, decimal};
use am_io::{SayError, Sink, say};
use c_compile::Refusal;
use std::alloc::{AllocError, Global};
use w_model::name_of;

/// Puts the text of an answer, and gives it.
pub fn tell<K: Sink>(out: &mut K, text: &[u8], status: Status) -> Status
    requires { status ≡ Status.WriteFault → ⊥ }
    ensures told { (words : _) (r : _) (journal : _) → Explains words r status (ToOut text.now ∷ [])
        → Answers words r (puts (K.written out.old) (K.written out.new) journal journal) result }
    ensures yields { Yields status result }
    ensures write_fault { result ≡ Status.WriteFault → Rose (K.faults out.old) (K.faults out.new) }
    ensures kept { (result ≡ Status.WriteFault → ⊥) → K.faults out.new ≡ K.faults out.old }
{
    match say(out, text) {
        Ok(()) => status,
        Err(SayError::Failed) => Status::WriteFault,
        Err(SayError::Memory) => Status::NoMemory,
    }
}

/// Puts the text of a refusal that names a file, and answers it.
pub fn refuse_file<K: Sink>(
    alloc: Global,
    out: &mut K,
    before: &[u8],
    name: &str,
    behind: &[u8],
    status: Status,
) -> Status
    requires { status ≡ Status.WriteFault → ⊥ }
    ensures told { (words : _) (r : _) (journal : _) → Explains words r status (ToOut (before.now ++ name.now ++ behind.now) ∷ [])
        → Answers words r (puts (K.written out.old) (K.written out.new) journal journal) result }
    ensures yields { Yields status result }
    ensures write_fault { result ≡ Status.WriteFault → Rose (K.faults out.old) (K.faults out.new) }
    ensures kept { (result ≡ Status.WriteFault → ⊥) → K.faults out.new ≡ K.faults out.old }
{
    match joined(alloc, before, name.as_bytes(), behind) {
        Ok(text) => tell(out, text.as_slice(), status),
        Err(AllocError) => Status::NoMemory,
    }
}

/// Puts a refusal of the source, by the names of its files, and answers it.
pub fn refuse_source<K: Sink>(
    alloc: Global,
    out: &mut K,
    names: &[Bytes],
    refusal: Refusal,
) -> Status
    ensures told { (words : _) (r : _) (journal : _)
        → Explains words r (Status.Source refusal.unit refusal.line (cause_number refusal.cause)) (ToOut (source_text names.now refusal) ∷ [])
        → Answers words r (puts (K.written out.old) (K.written out.new) journal journal) result }
    ensures yields { Yields (Status.Source refusal.unit refusal.line (cause_number refusal.cause)) result }
    ensures write_fault { result ≡ Status.WriteFault → Rose (K.faults out.old) (K.faults out.new) }
    ensures kept { (result ≡ Status.WriteFault → ⊥) → K.faults out.new ≡ K.faults out.old }
{
    let status = Status::Source {
        file: u32::from(refusal.unit),
        line: refusal.line,
        cause: refusal.cause.number(),
    };
    match source_text(alloc, names, refusal) {
        Ok(text) => tell(out, text.as_slice(), status),
        Err(AllocError) => Status::NoMemory,
    }
}

fn source_text(alloc: Global, names: &[Bytes], refusal: Refusal) -> Result<Bytes, AllocError>
    ensures { IfOk result (λ text. text ≡ source_text names.now refusal) }
{
    let mut text = Bytes::from_slice(alloc, b"ampi: ")?;
    text.append(name_of(names, refusal.unit))?;
    text.append(b":")?;
    decimal(&mut text, u64::from(refusal.line))?;
    text.append(b": ")?;
    text.append(refusal.cause.text())?;
    text.append(b"\n")?;
    Ok(text)
}

fn joined(alloc: Global, before: &[u8], name: &[u8], behind: &[u8]) -> Result<Bytes, AllocError>
    ensures { IfOk result (λ text. text ≡ before.now ++ name.now ++ behind.now) }
{
    let mut text = Bytes::from_slice(alloc, before)?;
    text.append(name)?;
    text.append(behind)?;
    Ok(text)
}
