//! Compares steps that search for patterns with a plain search and with a plain pass over the same bytes.
use classifier::Burst;
use net_functions::NetFunction;
use patterns::first_occurring;

/// The headers before the payload of a frame.
const HEADERS: usize = 42;

/// The number of times that a pattern of some function is found in a payload, if the functions search this burst again
/// and again.
pub fn search(functions: &[NetFunction], burst: &Burst, rounds: u32) -> u64 {
    let mut found = 0u64;
    for _round in 0..rounds {
        for item in burst.items.as_slice() {
            let payload = payload_of(item.packet.frame.bytes());
            found = found.wrapping_add(finds(functions, payload));
        }
    }
    found
}

// The number of functions that find one of their patterns.
fn finds(functions: &[NetFunction], payload: &[u8]) -> u64 {
    let mut found = 0u64;
    for function in functions {
        if finds_one(function, payload) {
            found = found.wrapping_add(1);
        }
    }
    found
}

fn finds_one(function: &NetFunction, payload: &[u8]) -> bool {
    match function {
        NetFunction::Signature(signature) => {
            first_occurring(&signature.patterns, payload).is_some()
        }
        NetFunction::Redactor(redactor) => {
            first_occurring(&redactor.patterns, payload).is_some()
        }
        _ => false,
    }
}

/// The sum of all bytes of the payloads, read again and again.
pub fn pass(burst: &Burst, rounds: u32) -> u64 {
    let mut sum = 0u64;
    for _round in 0..rounds {
        for item in burst.items.as_slice() {
            for byte in payload_of(item.packet.frame.bytes()) {
                sum = sum.wrapping_add(u64::from(*byte));
            }
        }
    }
    sum
}

fn payload_of(frame: &[u8]) -> &[u8] {
    frame.get(HEADERS..).unwrap_or(&[])
}
