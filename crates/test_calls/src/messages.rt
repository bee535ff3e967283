//! Messages that the program does not print.
use aig_core::{DeviceFault, OutOfMemory};
use aig_fault::{Kind, Place, Stopped, refused};
use std::test::Fail;

/// The messages below, in their order.
const MESSAGES: &str = "\
variable 3 defined twice; literal 9 not defined; out of memory; device failed; cannot write; \
gate 7: bad line; out of memory";

#[test]
fn faults_as_text(rt: HostRuntime) -> Result<(), Fail> {
    let redefined = refused(Kind::Redefined, Place::Whole, 3);
    let undefined = refused(Kind::Undefined, Place::Whole, 9);
    let memory = Stopped::OutOfMemory;
    let gate = refused(Kind::BadLine, Place::Gate(7), 0);
    let written = Stopped::WriteFailed;
    let told = format!(in rt.alloc();
        "{redefined}; {undefined}; {memory}; {DeviceFault}; {written}; {gate}; {OutOfMemory}"
    )?;
    assert!(rt; told.as_str() == MESSAGES, "{told}");
    Ok(())
}
