//! A command and what it is asked for, found in the words of the command line.

ghost use Rattle.std.specs.Prelude.{◌≡◌, ◌≤◌, None, Some, IfSome, MatchOption, map, string_bytes};
ghost use Rattle.command_words.specs.Words.{has_name, names_of, are_names, workers_of, run_with, run_of, width_of, ring_with, ring_of, ring_twin_with, ring_twin_of, resume_with, resume_of, registers_of_word, registers_with, registers_of, size_of, audit_of, twin_with, twin_of, pooled_with, pooled_of, make_of, load_with, load_of, convert_of, public_of, parts_of, inspect_with, inspect_of, alone, asks_help, asks_version, command_by, command_of, period_of, place_of, bill_with, bill_of, hide_with, hide_of};
ghost use Rattle.command_words.specs.Commands.{size_in, name_in, asked, IsSize, IsWithin, twin_names_of, resume_names_of, register_names_of, hide_names_of};
ghost use Rattle.command_words.specs.Known.{IsKnown, known_in};

use crate::known::names_meters;
use crate::meter_parts::parts_words;
use crate::role_parts::{collect_words, meter_words};
use crate::words::{
    AuditFiles, BillFiles, BillWords, Command, ConvertFiles, HideFiles, HideWords, InspectFiles,
    LoadWords, MakeWords, Period, PlaceWords, PooledWords, PublicFiles, RegisterFiles,
    RegisterWords, ResumeFiles, ResumeWords, RingTwinWords, RingWords, RunFiles, RunWords, Size,
    TwinFiles,
};
use field_texts::{read_number, read_number_within};
use load_maker::is_within;
/// The number of workers where the words name none.
const USUAL_WORKERS: u32 = 4;

/// The greatest number of workers.
const MOST_WORKERS: u64 = 16;

/// The greatest width of a ring.
const MOST_WIDTH: u64 = 128;

/// The most registers.
const MOST_REGISTERS: u64 = 8;

/// The most rounds that a plan can have.
const MOST_ROUNDS: u64 = 4096;

/// The most groups that a plan can have, and the most meters of a group.
pub(crate) const MOST_OF_EACH: u64 = 256;

// Whether some of the names is this one.
fn has_name(names: &[&str], name: &str) -> bool
    ensures { result ≡ has_name name.now (map (λ other. other.now) names.now) }
{
    match names {
        [] => false,
        [first, rest @ ..] => *first == name || has_name(rest, name),
    }
}

/// Whether each word is a name, and no two are the same.
pub(crate) fn are_names(names: &[&str]) -> bool
    ensures { result ≡ are_names (map (λ name. name.now) names.now) }
{
    match names {
        [] => true,
        [first, rest @ ..] => !first.is_empty() && !has_name(rest, first) && are_names(rest),
    }
}

// A number of workers.
fn workers(word: &str) -> Option<u32>
    ensures value { result ≡ workers_of word.now }
    ensures few { IfSome result (λ n. (1 ≤ n) × (n ≤ 16)) }
{
    let workers = read_number_within(word.as_bytes(), 1, MOST_WORKERS + 1)?;
    Some(workers as u32)
}

// `run` with these files and so many workers, where the words are names.
#[tactic(auto, unfolding(crate::specs::Words::run_with))]
fn run_with<'a>(
    plan: &'a str,
    readings: &'a str,
    report: &'a str,
    transcript: &'a str,
    workers: u32,
) -> Option<Command<'a>>
    requires least { 1 ≤ workers }
    requires most { workers ≤ 16 }
    ensures command { MatchOption result (run_with plan.now readings.now report.now transcript.now workers ≡ None)
        (λ command. run_with plan.now readings.now report.now transcript.now workers ≡ Some (asked command)) }
    ensures within { IfSome result (λ command. IsWithin command) }
{
    if are_names(&[plan, readings, report, transcript]) {
        let files = RunFiles {
            plan,
            readings,
            report,
            transcript,
        };
        Some(Command::Run(RunWords { files, workers }))
    } else {
        None
    }
}

// `run` by the words behind the verb.
fn run_words(words: &[String]) -> Option<Command<'_>>
    ensures command { MatchOption result (run_of (map string_bytes words.now) ≡ None) (λ command. run_of (map string_bytes words.now) ≡ Some (asked command)) }
    ensures within { IfSome result (λ command. IsWithin command) }
{
    match words {
        [plan, readings, report, transcript] => {
            run_with(plan, readings, report, transcript, USUAL_WORKERS)
        }
        [plan, readings, report, transcript, number] => {
            let workers = workers(number)?;
            run_with(plan, readings, report, transcript, workers)
        }
        _ => None,
    }
}

// The width of a ring.
fn width(word: &str) -> Option<u8>
    ensures value { result ≡ width_of word.now }
    ensures few { IfSome result (λ n. (1 ≤ n) × (n ≤ 128)) }
{
    let width = read_number_within(word.as_bytes(), 1, MOST_WIDTH + 1)?;
    Some(width as u8)
}

// `ring` with these files, this width and so many workers, where the words are names.
#[tactic(auto, unfolding(crate::specs::Words::ring_with))]
fn ring_with<'a>(files: RunFiles<'a>, width: u8, workers: u32) -> Option<Command<'a>>
    requires width { (1 ≤ width) × (width ≤ 128) }
    requires workers { (1 ≤ workers) × (workers ≤ 16) }
    ensures command { MatchOption result (ring_with (names_of files.entry) width workers ≡ None)
        (λ command. ring_with (names_of files.entry) width workers ≡ Some (asked command)) }
    ensures within { IfSome result (λ command. IsWithin command) }
{
    if are_names(&[files.plan, files.readings, files.report, files.transcript]) {
        Some(Command::Ring(RingWords {
            files,
            width,
            workers,
        }))
    } else {
        None
    }
}

// `ring` by the words behind the verb.
fn ring_words(words: &[String]) -> Option<Command<'_>>
    ensures command { MatchOption result (ring_of (map string_bytes words.now) ≡ None) (λ command. ring_of (map string_bytes words.now) ≡ Some (asked command)) }
    ensures within { IfSome result (λ command. IsWithin command) }
{
    match words {
        [plan, readings, places, report, transcript] => {
            let width = width(places)?;
            let files = RunFiles {
                plan,
                readings,
                report,
                transcript,
            };
            ring_with(files, width, USUAL_WORKERS)
        }
        [plan, readings, places, report, transcript, number] => {
            let width = width(places)?;
            let workers = workers(number)?;
            let files = RunFiles {
                plan,
                readings,
                report,
                transcript,
            };
            ring_with(files, width, workers)
        }
        _ => None,
    }
}

// `resume` with these files and so many workers, where the words are names.
#[tactic(auto, unfolding(crate::specs::Words::resume_with))]
fn resume_with<'a>(files: ResumeFiles<'a>, workers: u32) -> Option<Command<'a>>
    requires { (1 ≤ workers) × (workers ≤ 16) }
    ensures command { MatchOption result (resume_with (resume_names_of files.entry) workers ≡ None)
        (λ command. resume_with (resume_names_of files.entry) workers ≡ Some (asked command)) }
    ensures within { IfSome result (λ command. IsWithin command) }
{
    if are_names(&[
        files.plan,
        files.readings,
        files.cut,
        files.report,
        files.transcript,
    ]) {
        Some(Command::Resume(ResumeWords { files, workers }))
    } else {
        None
    }
}

// `resume` by the words behind the verb.
fn resume_words(words: &[String]) -> Option<Command<'_>>
    ensures command { MatchOption result (resume_of (map string_bytes words.now) ≡ None) (λ command. resume_of (map string_bytes words.now) ≡ Some (asked command)) }
    ensures within { IfSome result (λ command. IsWithin command) }
{
    match words {
        [plan, readings, cut, report, transcript] => {
            let files = ResumeFiles {
                plan,
                readings,
                cut,
                report,
                transcript,
            };
            resume_with(files, USUAL_WORKERS)
        }
        [plan, readings, cut, report, transcript, number] => {
            let workers = workers(number)?;
            let files = ResumeFiles {
                plan,
                readings,
                cut,
                report,
                transcript,
            };
            resume_with(files, workers)
        }
        _ => None,
    }
}

// A number of registers.
fn registers(word: &str) -> Option<u8>
    ensures value { result ≡ registers_of_word word.now }
    ensures few { IfSome result (λ n. (2 ≤ n) × (n ≤ 8)) }
{
    let registers = read_number_within(word.as_bytes(), 2, MOST_REGISTERS + 1)?;
    Some(registers as u8)
}

// `registers` with these files, so many registers and so many workers, where the words are names.
#[tactic(auto, unfolding(crate::specs::Words::registers_with))]
fn registers_with<'a>(files: RegisterFiles<'a>, registers: u8, workers: u32) -> Option<Command<'a>>
    requires registers { (2 ≤ registers) × (registers ≤ 8) }
    requires workers { (1 ≤ workers) × (workers ≤ 16) }
    ensures command { MatchOption result (registers_with (register_names_of files.entry) registers workers ≡ None)
        (λ command. registers_with (register_names_of files.entry) registers workers ≡ Some (asked command)) }
    ensures within { IfSome result (λ command. IsWithin command) }
{
    if are_names(&[
        files.plan,
        files.readings,
        files.report,
        files.transcript,
        files.words,
    ]) {
        Some(Command::Registers(RegisterWords {
            files,
            registers,
            workers,
        }))
    } else {
        None
    }
}

// `registers` by the words behind the verb.
fn register_words(words: &[String]) -> Option<Command<'_>>
    ensures command { MatchOption result (registers_of (map string_bytes words.now) ≡ None) (λ command. registers_of (map string_bytes words.now) ≡ Some (asked command)) }
    ensures within { IfSome result (λ command. IsWithin command) }
{
    match words {
        [count, plan, readings, report, transcript, words] => {
            let registers = registers(count)?;
            let files = RegisterFiles {
                plan,
                readings,
                report,
                transcript,
                words,
            };
            registers_with(files, registers, USUAL_WORKERS)
        }
        [count, plan, readings, report, transcript, words, number] => {
            let registers = registers(count)?;
            let workers = workers(number)?;
            let files = RegisterFiles {
                plan,
                readings,
                report,
                transcript,
                words,
            };
            registers_with(files, registers, workers)
        }
        _ => None,
    }
}

// `audit` by the words behind the verb.
#[tactic(auto, unfolding(crate::specs::Words::audit_with))]
fn audit_words(words: &[String]) -> Option<Command<'_>>
    ensures command { MatchOption result (audit_of (map string_bytes words.now) ≡ None) (λ command. audit_of (map string_bytes words.now) ≡ Some (asked command)) }
    ensures within { IfSome result (λ command. IsWithin command) }
{
    match words {
        [transcript, report] => {
            if are_names(&[transcript, report]) {
                Some(Command::Audit(AuditFiles { transcript, report }))
            } else {
                None
            }
        }
        _ => None,
    }
}

// `twin` with these files, where the words are names.
#[tactic(auto, unfolding(crate::specs::Words::twin_with))]
fn twin_with<'a>(
    plan: &'a str,
    readings: &'a str,
    other: &'a str,
    transcript: &'a str,
    masks: &'a str,
) -> Option<Command<'a>>
    ensures command { MatchOption result (twin_with plan.now readings.now other.now transcript.now masks.now ≡ None)
        (λ command. twin_with plan.now readings.now other.now transcript.now masks.now ≡ Some (asked command)) }
    ensures within { IfSome result (λ command. IsWithin command) }
{
    if are_names(&[plan, readings, other, transcript, masks]) {
        Some(Command::Twin(TwinFiles {
            plan,
            readings,
            other,
            transcript,
            masks,
        }))
    } else {
        None
    }
}

// `twin` by the words behind the verb.
fn twin_words(words: &[String]) -> Option<Command<'_>>
    ensures command { MatchOption result (twin_of (map string_bytes words.now) ≡ None) (λ command. twin_of (map string_bytes words.now) ≡ Some (asked command)) }
    ensures within { IfSome result (λ command. IsWithin command) }
{
    match words {
        [plan, readings, other, transcript, masks] => {
            twin_with(plan, readings, other, transcript, masks)
        }
        _ => None,
    }
}

// `ringtwin` with these files, where the words are names, and this width.
#[tactic(auto, unfolding(crate::specs::Words::ring_twin_with))]
fn ring_twin_with<'a>(files: TwinFiles<'a>, width: u8) -> Option<Command<'a>>
    requires { (1 ≤ width) × (width ≤ 128) }
    ensures command { MatchOption result (ring_twin_with (twin_names_of files.entry) width ≡ None)
        (λ command. ring_twin_with (twin_names_of files.entry) width ≡ Some (asked command)) }
    ensures within { IfSome result (λ command. IsWithin command) }
{
    if are_names(&[
        files.plan,
        files.readings,
        files.other,
        files.transcript,
        files.masks,
    ]) {
        Some(Command::RingTwin(RingTwinWords { files, width }))
    } else {
        None
    }
}

// `ringtwin` by the words behind the verb.
fn ring_twin_words(words: &[String]) -> Option<Command<'_>>
    ensures command { MatchOption result (ring_twin_of (map string_bytes words.now) ≡ None) (λ command. ring_twin_of (map string_bytes words.now) ≡ Some (asked command)) }
    ensures within { IfSome result (λ command. IsWithin command) }
{
    match words {
        [plan, readings, other, places, transcript, masks] => {
            let width = width(places)?;
            let files = TwinFiles {
                plan,
                readings,
                other,
                transcript,
                masks,
            };
            ring_twin_with(files, width)
        }
        _ => None,
    }
}

// `pooled` with these files, where the words are names, and meters.
#[tactic(auto, unfolding(crate::specs::Words::pooled_with))]
fn pooled_with<'a>(known: &'a str, files: TwinFiles<'a>) -> Option<Command<'a>>
    requires { IsKnown known.now }
    ensures command { MatchOption result (pooled_with (twin_names_of files.entry) (known_in known.now) ≡ None)
        (λ command. pooled_with (twin_names_of files.entry) (known_in known.now) ≡ Some (asked command)) }
    ensures within { IfSome result (λ command. IsWithin command) }
{
    if are_names(&[
        files.plan,
        files.readings,
        files.other,
        files.transcript,
        files.masks,
    ]) {
        Some(Command::Pooled(PooledWords { known, files }))
    } else {
        None
    }
}

// `pooled` by the words behind the verb.
fn pooled_words(words: &[String]) -> Option<Command<'_>>
    ensures command { MatchOption result (pooled_of (map string_bytes words.now) ≡ None) (λ command. pooled_of (map string_bytes words.now) ≡ Some (asked command)) }
    ensures within { IfSome result (λ command. IsWithin command) }
{
    match words {
        [known, plan, readings, other, transcript, masks] => {
            if !names_meters(known) {
                return None;
            }
            let files = TwinFiles {
                plan,
                readings,
                other,
                transcript,
                masks,
            };
            pooled_with(known, files)
        }
        _ => None,
    }
}

// The size that four words spell.
#[tactic(auto, unfolding(crate::specs::Words::size_of))]
fn read_size(seed: &str, groups: &str, meters: &str, rounds: &str) -> Option<Size>
    ensures value { MatchOption result (size_of seed.now groups.now meters.now rounds.now ≡ None) (λ size. size_of seed.now groups.now meters.now rounds.now ≡ Some (size_in size)) }
    ensures within { IfSome result (λ size. IsSize size) }
{
    let seed = read_number(seed.as_bytes())?;
    let groups = read_number(groups.as_bytes())?;
    let meters = read_number(meters.as_bytes())?;
    let rounds = read_number(rounds.as_bytes())?;
    if is_within(groups, meters, rounds) {
        Some(Size {
            seed,
            groups,
            meters,
            rounds,
        })
    } else {
        None
    }
}

// `make` by the words behind the verb.
#[tactic(auto, unfolding(crate::specs::Words::make_with))]
fn make_words(words: &[String]) -> Option<Command<'_>>
    ensures command { MatchOption result (make_of (map string_bytes words.now) ≡ None) (λ command. make_of (map string_bytes words.now) ≡ Some (asked command)) }
    ensures within { IfSome result (λ command. IsWithin command) }
{
    match words {
        [seed, groups, meters, rounds, plan, readings] => {
            let size = read_size(seed, groups, meters, rounds)?;
            if are_names(&[plan, readings]) {
                Some(Command::Make(MakeWords {
                    size,
                    plan,
                    readings,
                }))
            } else {
                None
            }
        }
        _ => None,
    }
}

// `load` with a size, a number of workers, and the name of a transcript where there is one.
#[tactic(auto, unfolding(crate::specs::Words::load_with))]
fn load_with<'a>(size: Size, workers: u32, transcript: Option<&'a str>) -> Option<Command<'a>>
    requires size { IsSize size }
    requires least { 1 ≤ workers }
    requires most { workers ≤ 16 }
    ensures command { MatchOption result (load_with (name_in transcript.entry) (size_in size) workers ≡ None)
        (λ command. load_with (name_in transcript.entry) (size_in size) workers ≡ Some (asked command)) }
    ensures within { IfSome result (λ command. IsWithin command) }
{
    match transcript {
        Some(name) if name.is_empty() => None,
        _ => Some(Command::Load(LoadWords {
            size,
            workers,
            transcript,
        })),
    }
}

// `load` by the words behind the verb.
fn load_words(words: &[String]) -> Option<Command<'_>>
    ensures command { MatchOption result (load_of (map string_bytes words.now) ≡ None) (λ command. load_of (map string_bytes words.now) ≡ Some (asked command)) }
    ensures within { IfSome result (λ command. IsWithin command) }
{
    match words {
        [seed, groups, meters, rounds, number] => {
            let size = read_size(seed, groups, meters, rounds)?;
            let workers = workers(number)?;
            load_with(size, workers, None)
        }
        [seed, groups, meters, rounds, number, transcript] => {
            let size = read_size(seed, groups, meters, rounds)?;
            let workers = workers(number)?;
            load_with(size, workers, Some(transcript))
        }
        _ => None,
    }
}

// `convert` by the words behind the verb.
#[tactic(auto, unfolding(crate::specs::Words::convert_with))]
fn convert_words(words: &[String]) -> Option<Command<'_>>
    ensures command { MatchOption result (convert_of (map string_bytes words.now) ≡ None) (λ command. convert_of (map string_bytes words.now) ≡ Some (asked command)) }
    ensures within { IfSome result (λ command. IsWithin command) }
{
    match words {
        [old, transcript] => {
            if are_names(&[old, transcript]) {
                Some(Command::Convert(ConvertFiles { old, transcript }))
            } else {
                None
            }
        }
        _ => None,
    }
}

// `public` by the words behind the verb.
#[tactic(auto, unfolding(crate::specs::Words::public_with))]
fn public_words(words: &[String]) -> Option<Command<'_>>
    ensures command { MatchOption result (public_of (map string_bytes words.now) ≡ None) (λ command. public_of (map string_bytes words.now) ≡ Some (asked command)) }
    ensures within { IfSome result (λ command. IsWithin command) }
{
    match words {
        [plan, public] => {
            if are_names(&[plan, public]) {
                Some(Command::Public(PublicFiles { plan, public }))
            } else {
                None
            }
        }
        _ => None,
    }
}

// `inspect` with these files, where the words are names.
#[tactic(auto, unfolding(crate::specs::Words::inspect_with))]
fn inspect_with<'a>(public: &'a str, transcript: &'a str, report: &'a str) -> Option<Command<'a>>
    ensures command { MatchOption result (inspect_with public.now transcript.now report.now ≡ None)
        (λ command. inspect_with public.now transcript.now report.now ≡ Some (asked command)) }
    ensures within { IfSome result (λ command. IsWithin command) }
{
    if are_names(&[public, transcript, report]) {
        Some(Command::Inspect(InspectFiles {
            public,
            transcript,
            report,
        }))
    } else {
        None
    }
}

// `inspect` by the words behind the verb.
fn inspect_words(words: &[String]) -> Option<Command<'_>>
    ensures command { MatchOption result (inspect_of (map string_bytes words.now) ≡ None) (λ command. inspect_of (map string_bytes words.now) ≡ Some (asked command)) }
    ensures within { IfSome result (λ command. IsWithin command) }
{
    match words {
        [public, transcript, report] => inspect_with(public, transcript, report),
        _ => None,
    }
}

// The period that two words spell.
#[tactic(auto, unfolding(crate::specs::Words::period_of))]
fn read_period(from: &str, until: &str) -> Option<Period>
    ensures { result ≡ period_of from.now until.now }
{
    let from = read_number_within(from.as_bytes(), 0, MOST_ROUNDS + 1)?;
    let until = read_number_within(until.as_bytes(), 0, MOST_ROUNDS + 1)?;
    if from < until {
        Some(Period {
            from: from as u32,
            until: until as u32,
        })
    } else {
        None
    }
}

// The place that three words spell.
#[tactic(auto, unfolding(crate::specs::Words::place_of))]
fn read_place(group: &str, round: &str, meter: &str) -> Option<PlaceWords>
    ensures { result ≡ place_of group.now round.now meter.now }
{
    let group = read_number_within(group.as_bytes(), 0, MOST_OF_EACH)?;
    let round = read_number_within(round.as_bytes(), 0, MOST_ROUNDS)?;
    let meter = read_number_within(meter.as_bytes(), 0, MOST_OF_EACH)?;
    Some(PlaceWords {
        group: group as u16,
        round: round as u32,
        meter: meter as u8,
    })
}

// `bill` with these files, where the words are names, and a period.
#[tactic(auto, unfolding(crate::specs::Words::bill_with))]
fn bill_with<'a>(
    plan: &'a str,
    readings: &'a str,
    bills: &'a str,
    period: Period,
) -> Option<Command<'a>>
    ensures command { MatchOption result (bill_with plan.now readings.now bills.now period ≡ None)
        (λ command. bill_with plan.now readings.now bills.now period ≡ Some (asked command)) }
    ensures within { IfSome result (λ command. IsWithin command) }
{
    if are_names(&[plan, readings, bills]) {
        let files = BillFiles {
            plan,
            readings,
            bills,
        };
        Some(Command::Bill(BillWords { files, period }))
    } else {
        None
    }
}

// `bill` by the words behind the verb.
fn bill_words(words: &[String]) -> Option<Command<'_>>
    ensures command { MatchOption result (bill_of (map string_bytes words.now) ≡ None) (λ command. bill_of (map string_bytes words.now) ≡ Some (asked command)) }
    ensures within { IfSome result (λ command. IsWithin command) }
{
    match words {
        [plan, readings, from, until, bills] => {
            let period = read_period(from, until)?;
            bill_with(plan, readings, bills, period)
        }
        _ => None,
    }
}

// `hide` with these files, where the words are names, a period and a place.
#[tactic(auto, unfolding(crate::specs::Words::hide_with))]
fn hide_with<'a>(files: HideFiles<'a>, period: Period, place: PlaceWords) -> Option<Command<'a>>
    ensures command { MatchOption result (hide_with (hide_names_of files.entry) period place ≡ None)
        (λ command. hide_with (hide_names_of files.entry) period place ≡ Some (asked command)) }
    ensures within { IfSome result (λ command. IsWithin command) }
{
    if are_names(&[files.plan, files.readings, files.transcript, files.other]) {
        Some(Command::Hide(HideWords {
            files,
            period,
            place,
        }))
    } else {
        None
    }
}

// `hide` by the words behind the verb.
fn hide_words(words: &[String]) -> Option<Command<'_>>
    ensures command { MatchOption result (hide_of (map string_bytes words.now) ≡ None) (λ command. hide_of (map string_bytes words.now) ≡ Some (asked command)) }
    ensures within { IfSome result (λ command. IsWithin command) }
{
    match words {
        [
            plan,
            readings,
            transcript,
            from,
            until,
            group,
            round,
            meter,
            other,
        ] => {
            let period = read_period(from, until)?;
            let place = read_place(group, round, meter)?;
            let files = HideFiles {
                plan,
                readings,
                transcript,
                other,
            };
            hide_with(files, period, place)
        }
        _ => None,
    }
}

// Whether the word asks for the usage.
fn asks_help(verb: &str) -> bool
    ensures { result ≡ asks_help verb.now }
{
    verb == "help" || verb == "--help" || verb == "-h"
}

// Whether the word asks for the version.
fn asks_version(verb: &str) -> bool
    ensures { result ≡ asks_version verb.now }
{
    verb == "version" || verb == "--version" || verb == "-V"
}

// A command that has no words.
fn alone<'a>(command: Command<'a>, words: &'a [String]) -> Option<Command<'a>>
    ensures { MatchOption result (alone (asked command.entry) (map string_bytes words.now) ≡ None) (λ it. alone (asked command.entry) (map string_bytes words.now) ≡ Some (asked it)) }
{
    match words {
        [] => Some(command),
        _ => None,
    }
}

// The command of a verb and the words behind it.
#[tactic(auto, unfolding(crate::specs::Words::command_by))]
fn command_by<'a>(verb: &str, words: &'a [String]) -> Option<Command<'a>>
    ensures command { MatchOption result (command_by verb.now (map string_bytes words.now) ≡ None)
        (λ command. command_by verb.now (map string_bytes words.now) ≡ Some (asked command)) }
    ensures within { IfSome result (λ command. IsWithin command) }
{
    if verb == "run" {
        run_words(words)
    } else if verb == "ring" {
        ring_words(words)
    } else if verb == "resume" {
        resume_words(words)
    } else if verb == "registers" {
        register_words(words)
    } else if verb == "audit" {
        audit_words(words)
    } else if verb == "twin" {
        twin_words(words)
    } else if verb == "ringtwin" {
        ring_twin_words(words)
    } else if verb == "pooled" {
        pooled_words(words)
    } else if verb == "make" {
        make_words(words)
    } else if verb == "load" {
        load_words(words)
    } else if verb == "convert" {
        convert_words(words)
    } else if verb == "public" {
        public_words(words)
    } else if verb == "parts" {
        parts_words(words)
    } else if verb == "collect" {
        collect_words(words)
    } else if verb == "meter" {
        meter_words(words)
    } else if verb == "inspect" {
        inspect_words(words)
    } else if verb == "bill" {
        bill_words(words)
    } else if verb == "hide" {
        hide_words(words)
    } else if asks_help(verb) {
        alone(Command::Help, words)
    } else if asks_version(verb) {
        alone(Command::Version, words)
    } else {
        None
    }
}

/// The command that the words are, if they are one.
pub fn parse(words: &[String]) -> Option<Command<'_>>
    ensures command { MatchOption result (command_of (map string_bytes words.now) ≡ None)
        (λ command. command_of (map string_bytes words.now) ≡ Some (asked command)) }
    ensures within { IfSome result (λ command. IsWithin command) }
{
    match words {
        [] => None,
        [verb, rest @ ..] => command_by(verb, rest),
    }
}
