//! The files of a program: their texts and their names.
ghost use Rattle.std.specs.Prelude.{◌≡◌, ◌≤◌, ◌∷◌, [], ◌++◌, ℕ, length, map, string_bytes, Err, IfOk, IfErr, OnOk};
ghost use Rattle.am_io.specs.Faults.{Rose};
ghost use Rattle.ampi.specs.Answers.{Answers, reads};
ghost use Rattle.ampi.specs.Sources.{AskForFiles, IsLoaded, AreLoaded, IsReached};
ghost use Rattle.ampi.specs.Puts.{puts};

use crate::Status;
use crate::telling::refuse_file;
use am_base::Bytes;
use am_io::{Files, LoadError, Sink};
use std::alloc::{AllocError, Global};

/// The longest source, in bytes.
const SOURCE_LIMIT: u64 = 1_048_576;

/// The texts of files in order, or the answer that tells why there are none: of the first file that has none.
pub fn load_files<F: Files, K: Sink>(
    alloc: Global,
    names: &[String],
    files: &mut F,
    out: &mut K,
) -> Result<Vec<Bytes>, Status>
    requires few { length names.now ≤ 16 }
    ensures loaded { IfOk result (λ texts. AreLoaded (F.held files.old) (map string_bytes names.now) texts.items) }
    ensures quiet { OnOk result (K.written out.new ≡ K.written out.old) }
    ensures told { IfErr result (λ status. (words : _) (journal : _) → AskForFiles words (map string_bytes names.now)
        → Answers words (reads (F.held files.old) (F.faults files.old) (F.faults files.new))
        (puts (K.written out.old) (K.written out.new) journal journal) status) }
    ensures read_fault { IfErr result (λ status. (file : ℕ) → status ≡ Status.ReadFault file → Rose (F.faults files.old) (F.faults files.new)) }
    ensures write_fault { IfErr result (λ status. status ≡ Status.WriteFault → Rose (K.faults out.old) (K.faults out.new)) }
    ensures kept { (result ≡ Err Status.WriteFault → ⊥) → K.faults out.new ≡ K.faults out.old }
{
    let mut texts = Vec::new(alloc);
    for at in 0..names.len() {
        if let Err(status) = load_next(
            alloc,
            at as u32,
            names[at].as_str(),
            &mut texts,
            files,
            out,
        ) {
            drop(texts);
            return Err(status);
        }
    }
    Ok(texts)
}

/// Appends the text of the file of this number, or gives the answer that tells why there is none; then the texts are only to be dropped.
fn load_next<F: Files, K: Sink>(
    alloc: Global,
    file: u32,
    name: &str,
    texts: &mut Vec<Bytes>,
    files: &mut F,
    out: &mut K,
) -> Result<(), Status>
    ensures loaded { OnOk result ((text : _) × IsLoaded (F.held files.old) name.now text × (texts.new.items ≡ texts.old.items ++ text ∷ [])) }
    ensures quiet { OnOk result (K.written out.new ≡ K.written out.old) }
    ensures same { OnOk result ((F.held files.new ≡ F.held files.old) × (F.faults files.new ≡ F.faults files.old)) }
    ensures told { IfErr result (λ status. (words : _) (journal : _) (names : _) → AskForFiles words names
        → IsReached (F.held files.old) names file name.now
        → Answers words (reads (F.held files.old) (F.faults files.old) (F.faults files.new))
        (puts (K.written out.old) (K.written out.new) journal journal) status) }
    ensures read_fault { IfErr result (λ status. (file : ℕ) → status ≡ Status.ReadFault file → Rose (F.faults files.old) (F.faults files.new)) }
    ensures write_fault { IfErr result (λ status. status ≡ Status.WriteFault → Rose (K.faults out.old) (K.faults out.new)) }
    ensures kept { (result ≡ Err Status.WriteFault → ⊥) → K.faults out.new ≡ K.faults out.old }
{
    match load_file(alloc, file, name, files, out) {
        Ok(text) => append(texts, text),
        Err(status) => Err(status),
    }
}

/// Appends a text. Where memory runs out, the texts are only to be dropped.
fn append(texts: &mut Vec<Bytes>, text: Bytes) -> Result<(), Status>
    ensures appended { OnOk result (texts.new.items ≡ texts.old.items ++ text ∷ []) }
    ensures memory { IfErr result (λ status. status ≡ Status.NoMemory) }
{
    match texts.push(text) {
        Ok(()) => Ok(()),
        Err(_) => Err(Status::NoMemory),
    }
}

/// The text of the file of this number, or the answer that tells why there is none.
fn load_file<F: Files, K: Sink>(
    alloc: Global,
    file: u32,
    name: &str,
    files: &mut F,
    out: &mut K,
) -> Result<Bytes, Status>
    ensures loaded { IfOk result (IsLoaded (F.held files.old) name.now) }
    ensures quiet { OnOk result (K.written out.new ≡ K.written out.old) }
    ensures same { OnOk result ((F.held files.new ≡ F.held files.old) × (F.faults files.new ≡ F.faults files.old)) }
    ensures told { IfErr result (λ status. (words : _) (journal : _) (names : _) → AskForFiles words names
        → IsReached (F.held files.old) names file name.now
        → Answers words (reads (F.held files.old) (F.faults files.old) (F.faults files.new))
        (puts (K.written out.old) (K.written out.new) journal journal) status) }
    ensures read_fault { IfErr result (λ status. (file : ℕ) → status ≡ Status.ReadFault file → Rose (F.faults files.old) (F.faults files.new)) }
    ensures write_fault { IfErr result (λ status. status ≡ Status.WriteFault → Rose (K.faults out.old) (K.faults out.new)) }
    ensures kept { (result ≡ Err Status.WriteFault → ⊥) → K.faults out.new ≡ K.faults out.old }
{
    match files.load(alloc, name, SOURCE_LIMIT) {
        Ok(text) if text.len() as u64 > SOURCE_LIMIT => {
            Err(refuse_file(
                alloc,
                out,
                b"ampi: ",
                name,
                b" is too long\n",
                Status::TooLong { file },
            ))
        }
        Ok(text) => Ok(Bytes::from_vec(text)),
        Err(LoadError::Failed) => {
            Err(refuse_file(
                alloc,
                out,
                b"ampi: cannot read ",
                name,
                b"\n",
                Status::ReadFault { file },
            ))
        }
        Err(LoadError::Memory) => Err(Status::NoMemory),
    }
}

/// The names of files, as bytes.
pub fn names_of(alloc: Global, names: &[String]) -> Result<Vec<Bytes>, AllocError>
    ensures { IfOk result (λ all. all.items ≡ map string_bytes names.now) }
{
    let mut all = Vec::new(alloc);
    for name in names {
        all.push(Bytes::from_slice(alloc, name.as_bytes())?)?;
    }
    Ok(all)
}
