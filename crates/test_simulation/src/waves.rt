//! The dump of a trace. What comes is in the contracts; that memory suffices is not. What dumps
//! show of circuits stands in `tests/rows/waves.sh`.
use aig_core::{Checked, Keep, MemorySink, MemorySource};
use aig_sim::{Columns, simulate_into};
use aig_text::{Limits, read_ascii};
use aig_wave::{WaveMemory, WaveTaker};
use std::alloc::Global;
use std::test::Fail;

/// A latch that toggles.
const TOGGLE: &str = "aag 1 0 1 0 0\n2 3\nl0 state[4]\n";

/// The dump of two steps of it.
const DUMP: &[u8] = b"$version aiger $end
$timescale 1 ns $end
$scope module aiger $end
$var integer 64 r run $end
$scope module latches $end
$var reg 1 l0 state [4] $end
$upscope $end
$upscope $end
$enddefinitions $end
#0
b0 r
0l0
#1
1l0
#2
0l0
#3
";

fn is_dumped(alloc: Global, circuit: &Checked, dump: &[u8]) -> Option<bool> {
    let mut source = MemorySource::new(Vec::from_slice(alloc, b"\n\n").ok()?, 1, 0);
    let mut sink = MemorySink::new(alloc, 4096, 3, 0).ok()?;
    let room = WaveMemory::new(alloc, circuit).ok()?;
    let mut wave = WaveTaker::new(room, &mut sink);
    let ran = simulate_into(alloc, circuit, Columns::Properties, &mut source, &mut wave);
    let (sent, sink) = wave.finish(ran.is_ok());
    Some(ran.is_ok() && sent.is_ok() && sink.bytes() == dump)
}

#[test]
fn a_trace_is_dumped(rt: HostRuntime) -> Result<(), Fail> {
    let limits = Limits::default();
    let circuit = read_ascii(rt.alloc(), TOGGLE.as_bytes(), limits, Keep::Circuit)?;
    let dumped = is_dumped(rt.alloc(), &circuit, DUMP);
    drop(circuit); // for the proof
    assert!(rt; dumped == Some(true));
    Ok(())
}
