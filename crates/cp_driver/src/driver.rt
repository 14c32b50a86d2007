// The top call.
ghost use Rattle.std.specs.Prelude.{◌≡◌, ◌≢◌, ◌≤◌, ℕ, List, [], length, Some, None, IfOk, IfErr, OnOk};
ghost use Rattle.cp_base.specs.Outside.{Tells};
ghost use Rattle.cp_driver.specs.declared.job.Stage.{Stage};
ghost use Rattle.cp_driver.specs.Jobs.{compile, dump, job_of};
ghost use Rattle.cp_driver.specs.Making.{Shows};
ghost use Rattle.cp_first.specs.FirstForm.{IsFirst};
ghost use Rattle.cp_first.specs.FirstAssembly.{MachineWrites};
ghost use Rattle.cp_driver.specs.Answers.{NoFault, IsRead, IsMade, Compiles, Writes, Answers, file_limit};
ghost use Rattle.cp_driver.specs.Causes.{ReadCause, Cause, Leaves};
ghost use Rattle.cp_driver.specs.Messages.{HasPlace, IsTold};

use crate::job::Job;
use crate::make::make;
use crate::message::put_fault;
use crate::report::{Done, Fault, Report};
use crate::words::job_of;
use cp_base::{Bytes, Failed, Files, Names, Sink, TakeFault, put_all};
use std::alloc::{AllocError, Global};

// The greatest number of bytes of a file.
const FILE_LIMIT: usize = 4_194_304;

/// Does the job that the words ask for, over these files and sinks. The first word is the
/// program's name.
///
/// The job is to write the assembly of a file, its tokens or its syntax tree; `-` is standard input. Only
/// units of the first form are compiled so far.
pub fn cparser<F: Files, O: Sink, E: Sink>(
    alloc: Global,
    words: &Names,
    files: &mut F,
    out: &mut O,
    err: &mut E,
) -> Done
    // A unit of the first form is compiled, and its text written.
    ensures compiles { (file text bytes : List ℕ) (status : ℕ) → job_of words.now ≡ Some (compile file)
        → Tells (F.contents files.old) file text → length text ≤ file_limit → IsFirst text bytes status
        → NoFault (F.faults files.old) (F.faults files.new) (O.faults out.old) (O.faults out.new) (E.faults err.old) (E.faults err.new)
        → result.fault ≢ Some Fault.OutOfMemory
        → Compiles bytes status result (O.written out.old) (O.written out.new) (E.written err.old) (E.written err.new) }
    // Wherever its report is there, from some number of steps on the machine that runs the assembly has written the
    // bytes and ended with the status.
    ensures runs { (file text bytes : List ℕ) (status : ℕ) → job_of words.now ≡ Some (compile file)
        → Tells (F.contents files.old) file text → IsFirst text bytes status
        → (report : Report) → result.report ≡ Some report → MachineWrites report.asm bytes status }
    // A file's text at a stage is written.
    ensures dumps { (stage : Stage) (file bytes text : List ℕ) → job_of words.now ≡ Some (dump stage file)
        → Tells (F.contents files.old) file bytes → length bytes ≤ file_limit → Shows stage bytes text
        → NoFault (F.faults files.old) (F.faults files.new) (O.faults out.old) (O.faults out.new) (E.faults err.old) (E.faults err.new)
        → result.fault ≢ Some Fault.OutOfMemory
        → Writes text result (O.written out.old) (O.written out.new) (E.written err.old) (E.written err.new) }
    // Each fault comes for its cause and in its turn, and leaves what it may.
    ensures answers { Answers (job_of words.now) result (record {
      contents = F.contents files.old;
      read_faults = F.faults files.old;
      read_faults' = F.faults files.new;
      write_faults = O.faults out.old;
      write_faults' = O.faults out.new;
      line_faults = E.faults err.old;
      line_faults' = E.faults err.new;
      out = O.written out.old;
      out' = O.written out.new;
      err = E.written err.old;
      err' = E.written err.new;
    }) }
    // The files stay as they are, and no count falls.
    ensures contents { F.contents files.new ≡ F.contents files.old }
    ensures counts { (F.faults files.old ≤ F.faults files.new) × (O.faults out.old ≤ O.faults out.new) × (E.faults err.old ≤ E.faults err.new) }
    // Words that are no job read no file.
    ensures unread { job_of words.now ≡ None → files.new ≡ files.old }
{
    let job = match job_of(alloc, words.as_slice()) {
        Ok(Some(job)) => job,
        Ok(None) => return refuse(err, "", b"", Fault::Usage),
        Err(AllocError) => return refuse(err, "", b"", Fault::OutOfMemory),
    };
    let mut bytes = Bytes::new(alloc);
    match do_job(alloc, job, files, &mut bytes, out) {
        Ok(report) => Done {
            status: 0,
            fault: None,
            report,
        },
        Err(fault) => refuse(err, job.file, bytes.as_slice(), fault),
    }
}

// Answers a fault that came with this file, with its line on the error sink.
fn refuse<E: Sink>(err: &mut E, file: &str, bytes: &[u8], fault: Fault) -> Done
    requires { HasPlace bytes.now fault }
    ensures count { E.faults err.old ≤ E.faults err.new }
    ensures told { IsTold fault file.now bytes.now result (E.faults err.old) (E.faults err.new) (E.written err.old) (E.written err.new) }
{
    let fault = match put_fault(err, file, bytes, &fault) {
        Ok(()) => fault,
        Err(Failed) => Fault::WriteFault,
    };
    Done {
        status: fault.status(),
        fault: Some(fault),
        report: None,
    }
}

// Reads FILE into `bytes`, which is empty, and writes what the task makes of it.
fn do_job<F: Files, O: Sink>(
    alloc: Global,
    job: Job<'_>,
    files: &mut F,
    bytes: &mut Bytes,
    out: &mut O,
) -> Result<Option<Report>, Fault>
    requires { bytes.now ≡ [] }
    ensures contents { F.contents files.new ≡ F.contents files.old }
    ensures reads { F.faults files.old ≤ F.faults files.new }
    ensures writes { O.faults out.old ≤ O.faults out.new }
    ensures ok { IfOk result (λ report. IsMade (F.contents files.old) report (O.written out.old) (O.written out.new) job.entry.task job.entry.file.now) }
    ensures cause { IfErr result (λ fault. Cause fault (F.contents files.old) (F.faults files.old) (F.faults files.new) (O.faults out.old) (O.faults out.new) bytes.new job.entry.task job.entry.file.now) }
    ensures leaves { IfErr result (λ fault. Leaves fault (F.contents files.old) (O.written out.old) (O.written out.new) job.entry.task job.entry.file.now) }
    ensures place { IfErr result (λ fault. HasPlace bytes.new fault) }
{
    read_file(job.file, files, bytes)?;
    let made = make(alloc, job.task, bytes.as_slice())?;
    match put_all(out, made.text.as_slice()) {
        Ok(()) => Ok(made.report),
        Err(Failed) => Err(Fault::WriteFault),
    }
}

fn read_file<F: Files>(file: &str, files: &mut F, bytes: &mut Bytes) -> Result<(), Fault>
    requires { bytes.now ≡ [] }
    ensures contents { F.contents files.new ≡ F.contents files.old }
    ensures reads { F.faults files.old ≤ F.faults files.new }
    ensures ok { OnOk result (IsRead (F.contents files.old) file.now bytes.new) }
    ensures cause { IfErr result (λ fault. ReadCause fault (F.contents files.old) (F.faults files.old) (F.faults files.new) file.now) }
{
    match files.take(file, bytes, FILE_LIMIT) {
        Ok(()) => Ok(()),
        Err(TakeFault::Failed) => Err(Fault::ReadFault { input: false }),
        Err(TakeFault::TooLong) => Err(Fault::TooLong { input: false }),
        Err(TakeFault::OutOfMemory) => Err(Fault::OutOfMemory),
    }
}
