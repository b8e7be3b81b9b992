//! How each fault is shown: the line that reports it, without its beginning and its end.
use kc_config_text::ConfigTextFault;
use kc_dump_text::DumpFault;
use kc_faults::TextFault;
use kc_trace::TraceFault;
use kc_types::ConfigFault;
use std::alloc::Global;

/// Whether a fault is shown like this.
fn is_shown(alloc: Global, fault: TextFault, words: &str) -> bool {
    match format!(in alloc; "{fault}") {
        Ok(shown) => shown.as_str() == words,
        Err(_) => false,
    }
}

fn is_trace_shown(alloc: Global, fault: TraceFault, words: &str) -> bool {
    is_shown(alloc, TextFault::Trace(fault), words)
}

fn is_config_shown(alloc: Global, fault: ConfigTextFault, words: &str) -> bool {
    is_shown(alloc, TextFault::Config(fault), words)
}

fn is_dump_shown(alloc: Global, fault: DumpFault, words: &str) -> bool {
    is_shown(alloc, TextFault::Dump(fault), words)
}

#[test]
fn shows_faults_of_traces(rt: HostRuntime) {
    for (fault, words) in [
        (TraceFault::NoHeader, "no trace header"),
        (TraceFault::BadLine(2), "bad trace line 2"),
        (TraceFault::BadLine(65537), "bad trace line 65537"),
        (TraceFault::NoNewline, "last trace line has no newline"),
        (TraceFault::TooManyCalls, "too many calls"),
        (TraceFault::Memory, "out of memory"),
    ] {
        assert!(rt; is_trace_shown(rt.alloc(), fault, words), "{words}");
    }
}

#[test]
fn shows_faults_of_configurations(rt: HostRuntime) {
    for (fault, words) in [
        (ConfigTextFault::NotJson, "configuration is not JSON"),
        (ConfigTextFault::BadShape, "configuration has a wrong shape"),
        (
            ConfigTextFault::Config(ConfigFault::Frames),
            "configuration refused: frames",
        ),
        (
            ConfigTextFault::Config(ConfigFault::CoreHost),
            "configuration refused: core and host",
        ),
        (
            ConfigTextFault::Config(ConfigFault::Leaves),
            "configuration refused: leaves",
        ),
        (
            ConfigTextFault::Config(ConfigFault::TooManyDigests),
            "configuration refused: approved",
        ),
        (ConfigTextFault::Memory, "out of memory"),
    ] {
        assert!(rt; is_config_shown(rt.alloc(), fault, words), "{words}");
    }
}

#[test]
fn shows_faults_of_dumps(rt: HostRuntime) {
    for (fault, words) in [
        (DumpFault::NoHeader, "no dump header"),
        (DumpFault::BadLine(3), "bad dump line 3"),
        (DumpFault::Frame(4), "dump frame 4 missing or doubled"),
        (DumpFault::Memory, "out of memory"),
    ] {
        assert!(rt; is_dump_shown(rt.alloc(), fault, words), "{words}");
    }
}

#[test]
fn shows_other_faults(rt: HostRuntime) {
    for (fault, words) in [
        (TextFault::Workers, "bad number of workers"),
        (TextFault::Memory, "out of memory"),
        (TextFault::Start, "a worker could not be started"),
        (TextFault::Unsettled, "history not settled"),
        (TextFault::BadActor(12), "bad actor of program 12"),
        (TextFault::NoSlot(16), "the machine has no slot 16"),
        (TextFault::NoText, "version 3 has no dump and no state"),
        (TextFault::Read, "read failed"),
        (TextFault::Write, "write failed"),
    ] {
        assert!(rt; is_shown(rt.alloc(), fault, words), "{words}");
    }
}
