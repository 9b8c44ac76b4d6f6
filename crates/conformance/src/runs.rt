// The runs of a case.
use crate::calls::{error_of, may_be_silent};
use crate::case::Case;
use crate::item_stage::ItemStage;
use crate::keep::Keep;
use crate::line::Row;
use crate::setting::{Setting, SumName, count_settings, say_setting, setting_of};
use crate::stage::Stage;
use crate::subject::{Tearable, play_all, play_refused, play_refusing};
use crate::words::{bytes_of, out_of_memory, say_error, words};
use crc32c::Crc32c;
use disk::{Call, Error};
use page::{AddSum, ConstSum, Sum};
use scripts::parse_number;
use std::alloc::Global;
use std::io;
use std::io::Write;

/// More requests for memory than most lines make: those after so many aren't refused.
pub const MOST: u32 = 1500;

// What happens in a run. In the first run nothing is made to fail.
#[derive(Clone, Copy)]
struct Plan {
    // Which device call of the tried lines fails, from 1 on and 0 for none.
    fails: u32,
    // Which device call of the lines after the tried ones fails, from 1 on and 0 for none. Those
    // lines are then played once more, and no call fails.
    again: u32,
    // Which request for memory is refused in the tried lines, from 1 on and 0 for none.
    refuses: u32,
    // How it goes on after the tried lines.
    keep: Option<Keep>,
    number: usize,
}

// What a case is run for with one number after the other.
#[derive(Clone, Copy)]
enum Planned {
    Fails,
    Again,
    Refuses,
}

impl Plan {
    fn first() -> Plan {
        Plan {
            fails: 0,
            again: 0,
            refuses: 0,
            keep: None,
            number: 0,
        }
    }

    fn with(mut self, planned: Planned, number: u32) -> Plan {
        match planned {
            Planned::Fails => self.fails = number,
            Planned::Again => self.again = number,
            Planned::Refuses => self.refuses = number,
        }
        self
    }
}

// Writes a difference if the refusal isn't that of the device call which failed.
fn compare_fault(alloc: Global, call: &Call, fault: &[u8], told: &mut Vec<u8>) -> io::Result<()> {
    let mut want = Vec::new(alloc);
    say_error(error_of(call), &mut want)?;
    if want.as_slice() == fault || (fault.is_empty() && may_be_silent(call)) {
        return Ok(());
    }
    write!(told, "  expected ")?;
    told.extend_from_slice(&want)?;
    write!(told, "\n  got ")?;
    told.extend_from_slice(fault)?;
    writeln!(told)
}

fn crash<S: Tearable>(alloc: Global, stage: &mut S, keep: Keep, number: usize) -> io::Result<()> {
    if keep == Keep::AtOnce {
        return Ok(());
    }
    let flags = keep.flags(alloc, number)?;
    match stage.tear(&flags) {
        Ok(()) => Ok(()),
        Err(_) => Err(out_of_memory()),
    }
}

// Plays lines with a device call that fails. Answers whether they reach that call.
fn play_failing<S: Tearable>(
    alloc: Global,
    stage: &mut S,
    rows: &[Row],
    fails: u32,
    told: &mut Vec<u8>,
) -> io::Result<bool> {
    let mark = stage.calls();
    let mut fault = Vec::new(alloc);
    stage.fail_at(u64::from(fails));
    play_refused(alloc, stage, rows, &mut fault)?;
    let at = mark.saturating_add(fails as usize).saturating_sub(1);
    match stage.call_at(at) {
        Some(call) => {
            compare_fault(alloc, call, &fault, told)?;
            Ok(true)
        }
        None => Ok(false),
    }
}

// Plays the tried lines. Answers whether they reach what is planned for them.
fn try_lines<S: Tearable>(
    alloc: Global,
    stage: &mut S,
    case: &Case,
    plan: Plan,
    told: &mut Vec<u8>,
) -> io::Result<bool> {
    if plan.refuses > 0 {
        return play_refusing(alloc, stage, &case.tried, plan.refuses, true, told);
    }
    if plan.fails > 0 {
        return play_failing(alloc, stage, &case.tried, plan.fails, told);
    }
    play_all(alloc, stage, &case.tried, told)?;
    Ok(true)
}

// Crashes, and plays the lines after the crash. If one of their device calls is to fail, they are
// played once more after a further crash. Answers whether that call is reached.
fn go_on<S: Tearable>(
    alloc: Global,
    stage: &mut S,
    case: &Case,
    plan: Plan,
    keep: Keep,
    told: &mut Vec<u8>,
) -> io::Result<bool> {
    crash(alloc, stage, keep, plan.number)?;
    if plan.again > 0 {
        if !play_failing(alloc, stage, &case.after, plan.again, told)? {
            return Ok(false);
        }
        crash(alloc, stage, keep, plan.number)?;
    }
    play_all(alloc, stage, &case.after, told)?;
    Ok(true)
}

// Plays a case on its stage. Answers whether what is planned is reached.
fn run_on<S: Tearable>(
    alloc: Global,
    stage: &mut S,
    case: &Case,
    plan: Plan,
    told: &mut Vec<u8>,
) -> io::Result<bool> {
    if case.plan.is_empty() && plan.refuses > 0 {
        return play_refusing(alloc, stage, &case.before, plan.refuses, true, told);
    }
    play_all(alloc, stage, &case.before, told)?;
    if !try_lines(alloc, stage, case, plan, told)? {
        return Ok(false);
    }
    match plan.keep {
        Some(keep) => go_on(alloc, stage, case, plan, keep, told),
        None => Ok(true),
    }
}

fn run_made<S: Tearable + Drop>(
    alloc: Global,
    made: Result<Box<S>, Error>,
    case: &Case,
    plan: Plan,
    told: &mut Vec<u8>,
) -> io::Result<bool> {
    match made {
        Ok(mut stage) => run_on(alloc, &mut *stage, case, plan, told),
        Err(_) => Err(out_of_memory()),
    }
}

fn run_under<H: Sum>(
    alloc: Global,
    case: &Case,
    setting: Setting,
    plan: Plan,
    told: &mut Vec<u8>,
) -> io::Result<bool> {
    let blob = bytes_of(alloc, &case.blob)?;
    match setting.item_size {
        Some(size) => {
            let made = ItemStage::<H>::new(alloc, setting, size, &blob);
            run_made(alloc, made, case, plan, told)
        }
        None => {
            let made = Stage::<H>::new(alloc, setting, &blob);
            run_made(alloc, made, case, plan, told)
        }
    }
}

fn run(
    alloc: Global,
    case: &Case,
    setting: Setting,
    plan: Plan,
    told: &mut Vec<u8>,
) -> io::Result<bool> {
    match setting.sum {
        SumName::Add => run_under::<AddSum>(alloc, case, setting, plan, told),
        SumName::Const => run_under::<ConstSum>(alloc, case, setting, plan, told),
        SumName::Crc => run_under::<Crc32c>(alloc, case, setting, plan, told),
    }
}

fn say_plan(plan: Plan, told: &mut Vec<u8>) -> io::Result<()> {
    write!(told, ", device call {} failing", plan.fails)?;
    if plan.again > 0 {
        write!(told, ", then {}", plan.again)?;
    }
    let (refuses, number) = (plan.refuses, plan.number);
    writeln!(told, ", request {refuses} refused, crash {number}")
}

// Runs a case, and names the run if differences were written. Answers whether what is planned is
// reached.
fn run_named(
    alloc: Global,
    case: &Case,
    setting: Setting,
    plan: Plan,
    told: &mut Vec<u8>,
) -> io::Result<bool> {
    let before = told.len();
    // (more would hide what is wrong)
    if before > 4000 {
        return Ok(false);
    }
    let reached = run(alloc, case, setting, plan, told)?;
    if told.len() > before {
        say_setting(setting, told)?;
        say_plan(plan, told)?;
    }
    Ok(reached)
}

// Runs a case for each number from 1 on, until what is planned isn't reached. Answers how many runs
// reached it.
fn run_each(
    alloc: Global,
    case: &Case,
    setting: Setting,
    plan: Plan,
    planned: Planned,
    told: &mut Vec<u8>,
) -> io::Result<u64> {
    for number in 1..=MOST {
        if !run_named(alloc, case, setting, plan.with(planned, number), told)? {
            return Ok(u64::from(number).saturating_sub(1));
        }
    }
    Ok(u64::from(MOST))
}

// Each device call of the tried lines fails, and with it each device call of the lines after those.
fn run_twice(
    alloc: Global,
    case: &Case,
    setting: Setting,
    plan: Plan,
    told: &mut Vec<u8>,
) -> io::Result<u64> {
    let mut runs: u64 = 0;
    for number in 1..=MOST {
        let plan = plan.with(Planned::Fails, number);
        let more = run_each(alloc, case, setting, plan, Planned::Again, told)?;
        if more == 0 {
            break;
        }
        runs = runs.saturating_add(more);
    }
    Ok(runs)
}

// What the first word of a `try` line asks for: each device call of the tried lines in turn, each
// with each one after it, or the one of a number.
fn run_which(
    alloc: Global,
    case: &Case,
    setting: Setting,
    which: &[u8],
    mut plan: Plan,
    told: &mut Vec<u8>,
) -> io::Result<u64> {
    if which == b"each".as_slice() {
        return run_each(alloc, case, setting, plan, Planned::Fails, told);
    }
    if which == b"twice".as_slice() {
        return run_twice(alloc, case, setting, plan, told);
    }
    plan.fails = u32::try_from(parse_number(which).unwrap_or(0)).unwrap_or(0);
    Ok(u64::from(run_named(alloc, case, setting, plan, told)?))
}

// Runs a case for each crash of a way to go on. If each device call is to fail, each request for
// memory is refused too.
fn run_way(
    alloc: Global,
    case: &Case,
    setting: Setting,
    which: &[u8],
    keep: Keep,
    told: &mut Vec<u8>,
) -> io::Result<u64> {
    let mut runs: u64 = 0;
    let mut plan = Plan::first();
    plan.keep = Some(keep);
    if which == b"each".as_slice() {
        runs = run_each(alloc, case, setting, plan, Planned::Refuses, told)?;
    }
    for number in 0..keep.count() {
        plan.number = number;
        let more = run_which(alloc, case, setting, which, plan, told)?;
        runs = runs.saturating_add(more);
    }
    Ok(runs)
}

// Each request for memory is refused, and then the case is run as its `try` line asks, if it has
// one.
fn run_plan(alloc: Global, case: &Case, setting: Setting, told: &mut Vec<u8>) -> io::Result<u64> {
    let words = words(alloc, &case.plan)?;
    let mut runs = run_each(alloc, case, setting, Plan::first(), Planned::Refuses, told)?;
    let [which, ways @ ..] = words.as_slice() else {
        return Ok(runs);
    };
    for way in ways {
        if let Some(keep) = Keep::read(way) {
            let more = run_way(alloc, case, setting, which, keep, told)?;
            runs = runs.saturating_add(more);
        }
    }
    Ok(runs)
}

fn run_setting(
    alloc: Global,
    case: &Case,
    setting: Setting,
    told: &mut Vec<u8>,
) -> io::Result<u64> {
    run_named(alloc, case, setting, Plan::first(), told)?;
    let runs = run_plan(alloc, case, setting, told)?;
    Ok(runs.saturating_add(1))
}

/// Plays a case of a session or of items in each of its ways, writes each difference, and answers
/// how many runs that were.
pub fn play_session(
    alloc: Global,
    case: &Case,
    words: &[&[u8]],
    told: &mut Vec<u8>,
) -> io::Result<u64> {
    let mut runs: u64 = 0;
    for number in 0..count_settings(words) {
        match setting_of(words, number) {
            Some(setting) => {
                let more = run_setting(alloc, case, setting, told)?;
                runs = runs.saturating_add(more);
            }
            None => writeln!(told, "  no setting")?,
        }
    }
    Ok(runs)
}
