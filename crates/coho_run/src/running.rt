ghost use Rattle.std.specs.Prelude.{◌≡◌, ◌⊎◌, ℕ, List, IfOk, None, Some};
ghost use Rattle.std.specs.List.{Contains};
ghost use Rattle.coho_io.specs.Content.{Content};
ghost use Rattle.coho_io.specs.Causes.{NoneFell, Rose};
ghost use Rattle.coho_words.specs.Words.{AskForValue, IsWithin, asked, command, from_of, path_of, paths_of};
ghost use Rattle.coho_words.specs.Words.{save_of, texts};
ghost use Rattle.coho_steps.specs.Lines.{contents};
ghost use Rattle.coho_run.specs.Outcome.{Answer, Ask, Comes, Ending, Given, Outcome};
ghost use Rattle.coho_steps.specs.Refusals.{read_refused};
ghost use Rattle.coho_run.specs.RingAnswers.{TellsRingOf};
ghost use Rattle.coho_run.specs.ClassAnswers.{HasCocycleClassesOf};
ghost use Rattle.coho_steps.specs.Stops.{HasReadCause, Meets, OnlyReads, Settles};
ghost use Rattle.coho_steps.specs.Told.{OfFiles, Tells, OfTold};
ghost use Rattle.coho_run.specs.Run.{IsSettled, MayWrite, EndsAs, WantsMemory, FailsOnOut, FailsOnSave};
ghost use Rattle.coho_run.specs.Run.{IsReadFault, IsSaveFault, NoReadFault, NoSaveFault, Stays};
ghost use Rattle.coho_run.specs.Stopping.{stop_of};
ghost use Rattle.coho_run.specs.Saving.{Answered, ComesToSave, CommandLeaves, WordsLeave, reads_twice};
ghost use Rattle.stage_answers.specs.Works.{Works};
ghost use Rattle.std.specs.Prelude.{Ok};
ghost use Rattle.std.specs.List.{concat};
ghost use Rattle.coho_run.specs.RingAnswers.{AnswersOver, IsRingTextOf};

use coho_io::{Files, Sink};
use coho_steps::{Cause, FilePart, Status, Stop, accept, load, report, write_lines};
use coho_words::{Command, WordsFault, read_words};
use pc_group::Consistent;
use ring_answers::{answer_ring, answer_sample, answer_value};
use sample_groups::sample_presentation;
use stage_answers::{answer_check, answer_group, answer_resolve};
use std::alloc::Global;

// The program's stop at a fault.
fn stop_of<'a>(fault: WordsFault) -> Stop<'a>
    ensures { result ≡ stop_of fault }
{
    match fault {
        WordsFault::Refused => Stop::Refused(Cause::Words),
        WordsFault::Memory => Stop::Memory,
    }
}

// The command of the words.
fn ask<'a>(alloc: Global, words: &'a [String]) -> Result<Command<'a>, Stop<'a>>
    ensures step { Settles asked (Ask (texts words.now)) result }
    ensures command { IfOk result (λ found. command (texts words.now) ≡ Some (asked found)) }
    ensures within { IfOk result (λ found. IsWithin (asked found)) }
{
    match read_words(alloc, words) {
        Ok(command) => Ok(command),
        Err(fault) => Err(stop_of(fault)),
    }
}

// The lines of the answer to a command on its presentation.
fn answer_on<'a, F: Files>(
    alloc: Global,
    command: Command<'a>,
    consistent: &Consistent,
    files: &mut F,
) -> Result<Vec<Vec<u8>>, Stop<'a>>
    requires { IsWithin (asked command) }
    ensures { Works (λ lines. contents lines.items) (Answer (asked command.entry) consistent.now)
        (from_of (asked command.entry)) (save_of (asked command.entry))
        (CommandLeaves (asked command.entry) consistent.now)
        (ComesToSave (asked command.entry) consistent.now)
        (F.content files.old) (F.content files.new) (F.read_faults files.old) (F.read_faults files.new)
        (F.write_faults files.old) (F.write_faults files.new) result }
{
    match command {
        Command::Group(_) => answer_group(alloc, consistent),
        Command::Resolve(_, n) => answer_resolve(alloc, consistent, n),
        Command::Ring(_, n, named) => answer_ring(alloc, consistent, n, named, files),
        Command::Check(_, stages) => answer_check(alloc, consistent, stages, files),
        Command::Value(_, class, elements) => { answer_value(alloc, consistent, class, &elements) }
        Command::Sample(k) => answer_sample(alloc, consistent, k),
    }
}

// The consistent presentation that a command is asked about.
fn given<'a, F: Files>(
    alloc: Global,
    command: &Command<'a>,
    files: &mut F,
) -> Result<Consistent, Stop<'a>>
    requires { IsWithin (asked command.now) }
    ensures step { OfFiles (F.content files.old)
        (λ seen. Meets (λ c. c) (Given (asked command.now)) seen seen result) }
    ensures reads { OnlyReads (HasReadCause (λ path. Contains (paths_of (path_of (asked command.now))) path))
        (F.content files.old) (F.content files.new)
        (F.read_faults files.old) (F.read_faults files.new) result }
    ensures later_writes { NoneFell (F.write_faults files.old) (F.write_faults files.new) }
{
    match *command {
        Command::Group(path)
        | Command::Resolve(path, _)
        | Command::Ring(path, _, _)
        | Command::Check(path, _)
        | Command::Value(path, _, _) => load(alloc, files, path),
        Command::Sample(k) => accept(alloc, sample_presentation(alloc, k)?),
    }
}

// The stage file that the command reads is the file of its presentation.
fn reads_twice(command: &Command<'_>) -> bool
    ensures { result ≡ reads_twice (asked command.now) }
{
    match *command {
        Command::Ring(path, _, named) => match named.from {
            Some(from) => path == from,
            None => false,
        },
        Command::Check(path, stages) => path == stages,
        _ => false,
    }
}

// The lines of the answer to the words.
fn answer<'a, F: Files>(
    alloc: Global,
    words: &'a [String],
    files: &mut F,
) -> Result<Vec<Vec<u8>>, Stop<'a>>
    ensures { Answered (texts words.now) (F.content files.old) (F.content files.new)
        (F.read_faults files.old) (F.read_faults files.new)
        (F.write_faults files.old) (F.write_faults files.new) result }
{
    let command = ask(alloc, words)?;
    let consistent = given(alloc, &command, files)?;
    // A text that was read is no stage file: its first byte is another.
    if reads_twice(&command) {
        return Err(Stop::Refused(Cause::StageFile(FilePart::Header)));
    }
    answer_on(alloc, command, &consistent, files)
}

/// Does all that the program does: answers the words over the files, writes the answer to `out`, or
/// one line to `err`, and says how it ended.
pub fn run<F: Files, O: Sink, E: Sink>(
    alloc: Global,
    words: &[String],
    files: &mut F,
    out: &mut O,
    err: &mut E,
) -> Status
    // A status that is no fault is that of the outcome over the files that are told, and over some
    // files where none are. So are the bytes, the line and the files afterwards.
    ensures outcome { IsSettled result → OfFiles (F.content files.old) (λ seen. (e : Ending)
        × Outcome (texts words.now) seen e
        × EndsAs e result (F.content files.old) (F.content files.new)
        (O.written out.old) (O.written out.new)
        (E.written err.old) (E.written err.new)
        (E.faults err.old) (E.faults err.new)) }

    // Where `ring` is answered, the printed quotient ring is the cohomology ring of the group through the
    // degree, and the tables are the restrictions to its maximal elementary abelian subgroups.
    ensures ring { result ≡ Status.Answered → OfFiles (F.content files.old)
        (TellsRingOf (texts words.now) (O.written out.old) (O.written out.new)) }

    // Where `resolve` or `ring` is answered, the classes of the file's group in each degree through the last
    // are the cocycles of its bar complex up to coboundaries.
    ensures classes { result ≡ Status.Answered → OfFiles (F.content files.old)
        (HasCocycleClassesOf (texts words.now)) }

    // An answer is all of this over one choice of files, and the text of the report is the outcome's, whether
    // out tells its bytes or not.
    ensures answer { result ≡ Status.Answered → OfFiles (F.content files.old)
        (AnswersOver (texts words.now) result (F.content files.old) (F.content files.new)
        (O.written out.old) (O.written out.new)
        (E.written err.old) (E.written err.new)
        (E.faults err.old) (E.faults err.new)) }

    // Whether files are told or not, the words decide alone whether they are refused, but for those of
    // `value`, where the group decides too.
    ensures usage { result ≡ Status.Usage
        → (command (texts words.now) ≡ None) ⊎ AskForValue (texts words.now) }
    ensures words { command (texts words.now) ≡ None
        → (result ≡ Status.Usage) ⊎ (result ≡ Status.Memory) }

    // A read fault is that of a path that the words name. Where files are told, no step before the first
    // reading of the path refuses.
    ensures read { result ≡ Status.Read → (path : List ℕ)
        × IsReadFault (texts words.now) (F.content files.old) (F.read_faults files.old)
        (F.read_faults files.new) path
        × Tells (E.written err.old) (E.written err.new) (E.faults err.old) (E.faults err.new)
        (read_refused path).line }

    // A write fault is that of out, and comes where the outcome is an answer, or that of the file that the
    // words save to; then, where files are told, no step before that file is made refuses.
    ensures write { result ≡ Status.Write
        → FailsOnOut (texts words.now) (F.content files.old) (O.written out.old) (O.written out.new)
        (E.written err.old) (E.written err.new) (O.faults out.old) (O.faults out.new)
        (E.faults err.old) (E.faults err.new)
        ⊎ FailsOnSave (texts words.now) (F.content files.old) (O.written out.old) (O.written out.new)
        (E.written err.old) (E.written err.new) (F.write_faults files.old) (F.write_faults files.new)
        (E.faults err.old) (E.faults err.new) }

    // Want of memory.
    ensures memory { result ≡ Status.Memory → OfFiles (F.content files.old)
        (WantsMemory (texts words.now)
        (IsReadFault (texts words.now) (F.content files.old) (F.read_faults files.old)
        (F.read_faults files.new))
        (IsSaveFault (texts words.now) (F.content files.old) (F.write_faults files.old)
        (F.write_faults files.new))
        (Rose (O.faults out.old) (O.faults out.new))
        (O.written out.old) (O.written out.new)
        (E.written err.old) (E.written err.new)) }

    // What stays.
    ensures files { Stays (texts words.now) (F.content files.old) (F.content files.new) }
    ensures kept { result ≡ Status.Read → F.content files.new ≡ F.content files.old }
    ensures saved { OfTold (F.content files.old) (F.content files.new) (WordsLeave (texts words.now)) }
    ensures unwritten { (MayWrite result → ⊥) → O.written out.new ≡ O.written out.old }

    // Where no count rose, the status is that of the outcome, or memory was wanting.
    ensures complete { (told : Content) (e : Ending)
        → F.content files.old ≡ Some told
        → Outcome (texts words.now) told e
        → NoReadFault (texts words.now) (F.read_faults files.old) (F.read_faults files.new)
        → NoSaveFault (texts words.now) (F.write_faults files.old) (F.write_faults files.new)
        → (e.status ≡ Status.Answered → Rose (O.faults out.old) (O.faults out.new) → ⊥)
        → (result ≡ e.status) ⊎ (result ≡ Status.Memory) }
{
    match answer(alloc, words, files) {
        Ok(lines) => match write_lines(out, &lines) {
            Ok(()) => Status::Answered,
            Err(stop) => report(alloc, stop, err),
        },
        Err(stop) => report(alloc, stop, err),
    }
}

/// The answer that words and files come to, where the words ask for a ring, is the text of a report that is
/// of the cohomology ring of the group of the presentation in the file.
pub fn ring_outcome()
    ensures { (words : List (List ℕ)) (files left : Content) (lines : List (List ℕ))
        → Comes words files (Ok lines) left → IsRingTextOf words files (concat lines) }
{}

/// Words and files have an outcome.
pub fn outcome_exists()
    ensures { (words : List (List ℕ)) (files : Content) → (e : Ending) × Outcome words files e }
{}

/// The outcome of words over files is one.
pub fn outcome_is_unique()
    ensures { (words : List (List ℕ)) (files : Content) (e d : Ending)
        → Outcome words files e → Outcome words files d → e ≡ d }
{}
