//! Notes that open or not (`signed_note`).

ghost use Rattle.std.specs.Prelude.{codes, ◌∷◌, []};
ghost use Rattle.std.specs.Str.{bytes_eq};

use crate::keys::note_of;
use signed_note::{OpenFault, Verifier, open_note};
use std::alloc::{AllocError, Global};
use std::process::Abort;
use std::test::Fail;

// A kind of key of the caller, which accepts the signature 05.
#[derive(Drop)]
struct Five;

impl Verifier for Five {
    ghost key = { λ k. record { name = codes "good"; id = 16909060; accepts = λ text signature. bytes_eq signature (5 ∷ []) } };

    fn name(&self) -> &str {
        "good"
    }

    fn id(&self) -> u32 {
        16_909_060
    }

    fn accepts(&self, _text: &[u8], signature: &[u8]) -> bool {
        signature == [5].as_slice()
    }
}

// The fault if the note with that text and these signature lines does not open under the keys.
fn fault_of(
    rt: &impl Abort,
    alloc: Global,
    keys: &[Box<dyn Verifier>],
    text: &str,
    lines: &str,
) -> Result<Option<OpenFault>, Fail> {
    let note = format!(in alloc; "{text}\n{lines}")?;
    let read = note_of(alloc, note.as_bytes())?;
    assert!(rt; read.text() == text);
    Ok(open_note(&read, keys).err())
}

// Signature lines, and whether the text opens with them under the key above. The last ones have its id or its name alone.
const OPENS: [(&str, bool); 6] = [
    ("\u{2014} far /////wA=\n\u{2014} good AQIDBAU=\n", true),
    (
        "\u{2014} far /////wA=\n\u{2014} good AQIDBAY=\n\u{2014} good AQIDBAU=\n",
        true,
    ),
    ("\u{2014} far /////wA=\n\u{2014} good AQIDBAY=\n", false),
    ("\u{2014} far /////wA=\n", false),
    (
        "\u{2014} good AQIDBAU=\n\u{2014} good AQIDBAU=\n\u{2014} good AQIDBAY=\n",
        true,
    ),
    ("\u{2014} far AQIDBAU=\n\u{2014} good AQIDBQU=\n", false),
];

fn keys(alloc: Global) -> Result<Vec<Box<dyn Verifier>>, AllocError> {
    let mut keys: Vec<Box<dyn Verifier>> = Vec::new(alloc);
    keys.push(Box::new(alloc, Five)?)?;
    Ok(keys)
}

#[test]
fn note_opens(rt: HostRuntime) -> Result<(), Fail> {
    let keys = keys(rt.alloc())?;
    for &(lines, opens) in &OPENS {
        let fault = fault_of(&rt, rt.alloc(), &keys, "x\n\n\ny\n", lines)?;
        let want = if opens {
            None
        } else {
            Some(OpenFault::NoTrustedSignature)
        };
        assert!(rt; fault == want, "{lines}");
    }
    Ok(())
}
