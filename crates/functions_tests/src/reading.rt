//! Values and clauses, and the longest text.

use crate::making::parsed;
use crate::plenty::had;
use policy_text::{Seen, TagSeen, Word, fits, pattern, read_match};
use std::alloc::Global;
use std::process::Abort;

fn word(rt: &impl Abort, alloc: Global, text: &str) -> Word {
    Word::new(had(rt, text.as_bytes().to_vec(alloc)))
}

// Of UDP from 10.1.2.3.
const SEEN: Seen = Seen {
    tag: TagSeen::Bare,
    src: Some(0x0a01_0203),
    dst: None,
    src6: None,
    dst6: None,
    sport: None,
    dport: None,
    proto: Some(17),
    ether_type: Some(0x0800),
    tcp_flags: None,
};

// The same without its source.
const WITHOUT_SOURCE: Seen = Seen { src: None, ..SEEN };

#[test]
fn clauses_are_read_and_met(rt: HostRuntime) {
    let alloc = rt.alloc();
    let words = [word(&rt, alloc, "src"), word(&rt, alloc, "10.1.0.0/16")];
    let fit = had(&rt, read_match(alloc, &words));
    assert!(rt; fits(&fit, &SEEN) && !fits(&fit, &WITHOUT_SOURCE));
}

// The packet that opens a connection, and what answers it: the bits of SYN and ACK are 2 and 16.
const OPENING: Seen = Seen {
    proto: Some(6),
    tcp_flags: Some(2),
    ..SEEN
};

const ANSWER: Seen = Seen {
    tcp_flags: Some(18),
    ..OPENING
};

#[test]
fn flags_and_versions_are_read_and_met(rt: HostRuntime) {
    let alloc = rt.alloc();
    let words = [
        word(&rt, alloc, "flags"),
        word(&rt, alloc, "syn"),
        word(&rt, alloc, "!ack"),
        word(&rt, alloc, "version"),
        word(&rt, alloc, "4"),
    ];
    let fit = had(&rt, read_match(alloc, &words));
    assert!(rt; fits(&fit, &OPENING) && !fits(&fit, &ANSWER));
    assert!(rt;
        !fits(&fit, &SEEN)
            && !fits(
                &fit,
                &Seen {
                    src: None,
                    ..OPENING
                }
            )
    );
}

fn is_get(rt: &impl Abort, alloc: Global, form: &str, word: &str) -> bool {
    match had(rt, pattern(alloc, form.as_bytes(), word.as_bytes())) {
        Some(bytes) => bytes.as_slice() == b"GET".as_slice(),
        None => false,
    }
}

#[test]
fn patterns_are_read_in_both_spellings(rt: HostRuntime) {
    assert!(rt; is_get(&rt, rt.alloc(), "text", "GET") && is_get(&rt, rt.alloc(), "hex", "474554"));
}

#[test]
fn the_longest_text_is_read(rt: HostRuntime) {
    let mut text = had(&rt, vec![in rt.alloc(); b'\n'; 1_048_571]);
    had(&rt, text.extend_from_slice(b"nfp 1"));
    let policy = parsed(&rt, rt.alloc(), &text);
    assert!(rt; policy.chains.as_slice().is_empty());
}
