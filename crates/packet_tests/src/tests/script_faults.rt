use exchange_trace::ScriptFault;
use printed_text::Printed;
use std::alloc::Global;

fn is_printed(alloc: Global, fault: ScriptFault, text: &[u8]) -> bool {
    match fault.text(alloc) {
        Ok(found) => found.as_slice() == text,
        Err(_) => false,
    }
}

const TEXTS: [(ScriptFault, &[u8]); 6] = [
    (ScriptFault::Word(1), b"S1 1"),
    (ScriptFault::Number(4), b"S2 4"),
    (ScriptFault::Hex(1000000), b"S3 1000000"),
    (ScriptFault::Name(2), b"S4 2"),
    (ScriptFault::TooLong, b"S5"),
    (ScriptFault::Unit(3), b"S6 3"),
];

#[test]
fn each_fault_has_its_text(rt: HostRuntime) {
    for &(fault, text) in &TEXTS {
        assert_eq!(rt; is_printed(rt.alloc(), fault, text), true);
    }
}
