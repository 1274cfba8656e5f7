//! Verifiers: they check signatures.

/// A verifier of notes: the name and id of a key, and the test whether it accepts a signature over
/// a text (C2SP signed-note, "Signatures"). The caller makes each verifier a `Box<dyn Verifier>`,
/// so that a list may have different kinds. The calls allocate no memory.
pub trait Verifier: Drop {
    ghost use Rattle.std.specs.Prelude.{◌≡◌};
    ghost use Rattle.signed_note.specs.Keys.{Key};

    /// The model of the verifier in contracts.
    ghost key: { Self → Key };

    /// The name of the key, as in signature lines.
    fn name(&self) -> &str
        ensures { result.now ≡ (key self.now).name };

    /// The key id of 32 bits.
    fn id(&self) -> u32
        ensures { result ≡ (key self.now).id };

    /// Whether the signature is one of this key over the text.
    fn accepts(&self, text: &[u8], signature: &[u8]) -> bool
        ensures { result ≡ (key self.now).accepts text.now signature.now };
}
