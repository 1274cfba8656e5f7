//! HMAC-SHA-256 by the vectors of RFC 4231, and the keys that are accepted (`signed_note`).

use crate::keys::key_of;
use signed_note::KeyFault;
use std::alloc::Global;
use std::test::Fail;

// The bytes from 1 to 25.
const COUNTED: [u8; 25] = [
    1, 2, 3, 4, 5, 6, 7, 8, 9, 10, 11, 12, 13, 14, 15, 16, 17, 18, 19, 20, 21, 22, 23, 24, 25,
];

// The MAC of a message under a secret, in hexadecimal.
fn mac_of(alloc: Global, secret: &[u8], message: &[u8]) -> Result<String, Fail> {
    let key = key_of(alloc, "ex", 1, secret)?;
    Ok(hex::encode(alloc, key.mac(message))?)
}

// Secrets, messages and their MACs.
const MACS: [(&[u8], &[u8], &str); 4] = [
    (
        b"Jefe",
        b"what do ya want for nothing?",
        "5bdcc146bf60754e6a042426089575c75a003f089d2739839dec58b964ec3843",
    ),
    (
        &[0x0b; 20],
        b"Hi There",
        "b0344c61d8db38535ca8afceaf0bf12b881dc200c9833da726e9376c2e32cff7",
    ),
    (
        &[0xaa; 20],
        &[0xdd; 50],
        "773ea91e36800e46854db8ebd09181a72959098b3ef8c122d9635514ced565fe",
    ),
    (
        &COUNTED,
        &[0xcd; 50],
        "82558a389a443c0ea4cc819899f2083a85f0faa3e578f8077a2e3ff46729665b",
    ),
];

#[test]
fn hmac_vector(rt: HostRuntime) -> Result<(), Fail> {
    for &(secret, message, mac) in &MACS {
        assert!(rt; mac_of(rt.alloc(), secret, message)?.as_str() == mac);
    }
    let mac = mac_of(rt.alloc(), &[0x0c; 20], b"Test With Truncation")?;
    assert!(rt; mac.as_str().starts_with("a3b6167473100ee06e0c796c2955552b"));
    Ok(())
}

// Names and secrets, and the fault if they are refused.
const KEYS: [(&str, &[u8], Option<KeyFault>); 15] = [
    ("ex", b"", Some(KeyFault::BadSecret)),
    ("ex", &[0; 65], Some(KeyFault::BadSecret)),
    ("ex", &[0; 64], None),
    ("ex", &[0], None),
    ("a+b", b"", Some(KeyFault::BadName)),
    ("", &[0], Some(KeyFault::BadName)),
    ("a b", &[0], Some(KeyFault::BadName)),
    ("a\tb", &[0], Some(KeyFault::BadName)),
    ("a\u{1f}b", &[0], Some(KeyFault::BadName)),
    ("a\u{85}b", &[0], Some(KeyFault::BadName)),
    ("a\u{a0}b", &[0], Some(KeyFault::BadName)),
    ("\u{2003}", &[0], Some(KeyFault::BadName)),
    ("a\u{3000}", &[0], Some(KeyFault::BadName)),
    ("\u{feff}é\u{7f}", &[0], None),
    ("log.example/2026", &[0], None),
];

#[test]
fn key_faults(rt: HostRuntime) {
    for &(name, secret, fault) in &KEYS {
        let found = key_of(rt.alloc(), name, 1, secret).err();
        assert!(rt; found == fault, "{name}");
    }
}
