// What is said at the end of a run, and its status.
ghost use Rattle.std.specs.Prelude.{◌≡◌, ◌≢◌, ◌⊎◌, ◌≤◌, ◌<◌, ◌^◌, ℕ, List, [], true, length, map, take, Err, IfOk, OnOk, OnErr, string_bytes};
ghost use Rattle.std.specs.List.{list_any};
ghost use Rattle.edge_io.specs.Faults.{Rose};
ghost use Rattle.edge_io.specs.Reads.{appended};
ghost use Rattle.folder_reader.specs.Hosts.{Goes};
ghost use Rattle.run_form.specs.Said.{session_line, session_lines, host_fault_line};
ghost use Rattle.run_form.specs.Endings.{SaysFault, SaysAfter, status_of as status_after};
ghost use Rattle.serving.specs.Attended.{ending_of, lacks_memory, is_faulty, status_by};

use edge_io::host::{Host, HostError};
use sessions::desk::Outcome;
use std::alloc::{AllocError, Global};

const HOST_FAULT: &[u8] = b"host fault\n";

/// Why a line wasn't said.
#[derive(Clone, Copy, Drop, Debug, PartialEq, Eq)]
pub enum Mute {
    NoMemory,
    /// The host failed.
    Fault,
}

// Says a line.
fn say<H: Host>(host: &mut H, line: &[u8]) -> Result<(), Mute>
    ensures said { OnOk result (H.said host.new ≡ appended line.now (H.said host.old)) }
    ensures unsaid { OnErr result (H.said host.new ≡ H.said host.old) }
    ensures files { H.files host.new ≡ H.files host.old }
    ensures fault { result ≡ Err Mute.Fault → Rose (H.faults host.old) (H.faults host.new) }
    ensures sure { H.steady host.old ≡ true → result ≡ Err Mute.Fault → ⊥ }
    ensures goes { Goes H.faults H.steady H.source_steady H.sink_steady host.old host.new }
{
    match host.say(line) {
        Ok(()) => Ok(()),
        Err(HostError::Fault) => Err(Mute::Fault),
        Err(_) => Err(Mute::NoMemory),
    }
}

/// Says that a call of the host failed before any session began, where that can be said; the status.
pub fn host_fault<H: Host>(host: &mut H) -> u8
    ensures says { (told : List ℕ) × (H.said host.new ≡ appended told (H.said host.old)) × SaysFault result told }
    ensures sure { H.steady host.old ≡ true → result ≡ 3 → H.said host.new ≡ appended host_fault_line (H.said host.old) }
    ensures files { H.files host.new ≡ H.files host.old }
    ensures goes { Goes H.faults H.steady H.source_steady H.sink_steady host.old host.new }
{
    match say(host, HOST_FAULT) {
        Ok(()) => 3,
        Err(Mute::Fault) => 3,
        Err(Mute::NoMemory) => 1,
    }
}

/// Says a line, and answers its status; 3 where the host failed, 1 for want of memory.
pub fn refuse<H: Host>(host: &mut H, line: &[u8], status: u8) -> u8
    ensures says { (told : List ℕ) × (H.said host.new ≡ appended told (H.said host.old)) × (((result ≡ status) × (told ≡ line.now)) ⊎ SaysFault result told) }
    ensures fault { status ≢ 3 → result ≡ 3 → Rose (H.faults host.old) (H.faults host.new) }
    ensures sure { H.steady host.old ≡ true → (result ≡ status) ⊎ (result ≡ 1) }
    ensures files { H.files host.new ≡ H.files host.old }
    ensures goes { Goes H.faults H.steady H.source_steady H.sink_steady host.old host.new }
{
    match say(host, line) {
        Ok(()) => status,
        Err(Mute::NoMemory) => 1,
        Err(Mute::Fault) => host_fault(host),
    }
}

// The line on a session.
fn summary(alloc: Global, number: u64, outcome: Outcome) -> Result<String, AllocError>
    ensures { IfOk result (λ s. string_bytes s ≡ session_line number (ending_of outcome)) }
{
    match outcome {
        Outcome::Done(n) => format!(in alloc; "session {number} done {n} replies\n"),
        Outcome::ReadFault(n) => {
            format!(in alloc; "session {number} read fault after {n} replies\n")
        }
        Outcome::WriteFault(n) => {
            format!(in alloc; "session {number} write fault after {n} replies\n")
        }
        Outcome::NoMemory(n) => {
            format!(in alloc; "session {number} no memory after {n} replies\n")
        }
    }
}

// Says the line on a session.
fn say_summary<H: Host>(
    alloc: Global,
    host: &mut H,
    number: u64,
    outcome: Outcome,
) -> Result<(), Mute>
    ensures said { OnOk result (H.said host.new ≡ appended (session_line number (ending_of outcome)) (H.said host.old)) }
    ensures unsaid { OnErr result (H.said host.new ≡ H.said host.old) }
    ensures files { H.files host.new ≡ H.files host.old }
    ensures fault { result ≡ Err Mute.Fault → Rose (H.faults host.old) (H.faults host.new) }
    ensures sure { H.steady host.old ≡ true → result ≡ Err Mute.Fault → ⊥ }
    ensures goes { Goes H.faults H.steady H.source_steady H.sink_steady host.old host.new }
{
    match summary(alloc, number, outcome) {
        Ok(line) => say(host, line.as_bytes()),
        Err(_) => Err(Mute::NoMemory),
    }
}

// Says a line on each session, up to the first that can't be said.
fn say_all<H: Host>(alloc: Global, host: &mut H, outcomes: &[Outcome]) -> Result<(), Mute>
    requires { length outcomes.now < 2 ^ 63 }
    ensures said { OnOk result (H.said host.new ≡ appended (session_lines 1 (map ending_of outcomes.now)) (H.said host.old)) }
    ensures some { (n : ℕ) × (H.said host.new ≡ appended (session_lines 1 (take n (map ending_of outcomes.now))) (H.said host.old)) }
    ensures files { H.files host.new ≡ H.files host.old }
    ensures fault { result ≡ Err Mute.Fault → Rose (H.faults host.old) (H.faults host.new) }
    ensures sure { H.steady host.old ≡ true → result ≡ Err Mute.Fault → ⊥ }
    ensures goes { Goes H.faults H.steady H.source_steady H.sink_steady host.old host.new }
{
    let mut number: u64 = 1;
    for outcome in outcomes {
        say_summary(alloc, host, number, *outcome)?;
        number += 1;
    }
    Ok(())
}

fn is_no_memory(outcome: Outcome) -> bool
    ensures { result ≡ lacks_memory outcome }
{
    match outcome {
        Outcome::NoMemory(_) => true,
        _ => false,
    }
}

fn is_fault(outcome: Outcome) -> bool
    ensures { result ≡ is_faulty outcome }
{
    match outcome {
        Outcome::ReadFault(_) => true,
        Outcome::WriteFault(_) => true,
        _ => false,
    }
}

fn has_no_memory(outcomes: &[Outcome]) -> bool
    ensures { result ≡ list_any lacks_memory outcomes.now }
{
    outcomes.iter().any(|outcome| is_no_memory(*outcome))
}

fn has_fault(outcomes: &[Outcome]) -> bool
    ensures { result ≡ list_any is_faulty outcomes.now }
{
    outcomes.iter().any(|outcome| is_fault(*outcome))
}

// The status of a run whose lines were all said, and whose outputs were all closed.
fn status_of(outcomes: &[Outcome]) -> u8
    ensures { result ≡ status_by outcomes.now }
{
    if has_no_memory(outcomes) {
        return 1;
    }
    if has_fault(outcomes) { 5 } else { 0 }
}

// Says that a call of the host failed, where that can be said.
fn say_failed<H: Host>(host: &mut H)
    ensures says { (told : List ℕ) × (H.said host.new ≡ appended told (H.said host.old)) × ((told ≡ []) ⊎ (told ≡ host_fault_line)) }
    ensures files { H.files host.new ≡ H.files host.old }
    ensures goes { Goes H.faults H.steady H.source_steady H.sink_steady host.old host.new }
{
    match say(host, HOST_FAULT) {
        Ok(()) => {}
        Err(_) => {}
    }
}

/// Says a line on each session, and answers the status of the run. A call of the host that failed, at a close or here, comes before
/// want of memory, and that before a session's fault.
pub fn conclude<H: Host>(alloc: Global, host: &mut H, outcomes: &[Outcome], all_closed: bool) -> u8
    requires { length outcomes.now < 2 ^ 63 }
    ensures says { (told : List ℕ) × (H.said host.new ≡ appended told (H.said host.old)) × SaysAfter (map ending_of outcomes.now) result told }
    ensures whole { (result ≢ 1) → (result ≢ 3) → (result ≡ status_after (map ending_of outcomes.now)) × (H.said host.new ≡ appended (session_lines 1 (map ending_of outcomes.now)) (H.said host.old)) }
    ensures closed { result ≢ 3 → all_closed ≡ true }
    ensures fault { result ≡ 3 → all_closed ≡ true → Rose (H.faults host.old) (H.faults host.new) }
    ensures sure { H.steady host.old ≡ true → all_closed ≡ true → result ≢ 3 }
    ensures files { H.files host.new ≡ H.files host.old }
    ensures goes { Goes H.faults H.steady H.source_steady H.sink_steady host.old host.new }
{
    let said = say_all(alloc, host, outcomes);
    if !all_closed {
        say_failed(host);
        return 3;
    }
    match said {
        Ok(()) => status_of(outcomes),
        Err(Mute::NoMemory) => 1,
        Err(Mute::Fault) => {
            say_failed(host);
            3
        }
    }
}
