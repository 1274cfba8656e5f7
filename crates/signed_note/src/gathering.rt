//! Joins the pins of a key file by name and id.

ghost use Rattle.std.specs.Prelude.{◌≡◌, ◌<◌, ◌∷◌, [], ◌++◌, IfOk, IfSome, OnOk, length, map};
ghost use Rattle.std.specs.List.{HoldsAt};
ghost use Rattle.signed_note.specs.KeyKinds.{pinned_key};
ghost use Rattle.signed_note.specs.Verifiers.{line_cmp, AcceptsAlike, AddsPins, AreGathered, JoinsPins};

use crate::key_line::KeyLine;
use crate::pinned::PinnedTexts;
use std::alloc::{AllocError, Global};
use std::cmp::Ordering;
use std::marker::Model;

// Pinned texts of one name and id, while lines are gathered. The digests have the order of the lines.
#[derive(Drop)]
struct PinLines {
    name: String,
    id: u32,
    digests: Vec<[u8; 32]>,
}

impl Model for PinLines {
    ghost use Rattle.std.specs.Prelude.{string_bytes};
    ghost use Rattle.signed_note.specs.KeyKinds.{Pins};
    ghost use Rattle.signed_note.specs.KeyKinds.{IsOwnName};

    ghost Value = { Pins };

    ghost view = { λ k. record { name = string_bytes k.name; id = k.id; digests = k.digests.items } };

    ghost invariant = { λ k. IsOwnName (string_bytes k.name) };
}

impl PinLines {
    // Appends the digests of pinned texts.
    fn append(&mut self, texts: &PinnedTexts) -> Result<(), AllocError>
        ensures { OnOk result (self.new
            ≡ record self.old { digests = self.old.digests ++ texts.now.digests }) }
    {
        self.digests.extend_from_slice(&texts.digests)
    }
}

// Shared keys come first and are all equal; then come pins by name and id.
fn order(a: &KeyLine, b: &KeyLine) -> Ordering
    ensures { result ≡ line_cmp a.now b.now }
{
    match a {
        KeyLine::Hmac(_) => match b {
            KeyLine::Hmac(_) => Ordering::Equal,
            KeyLine::Pin(_) => Ordering::Less,
        },
        KeyLine::Pin(one) => match b {
            KeyLine::Hmac(_) => Ordering::Greater,
            KeyLine::Pin(other) => one.name.cmp(&other.name).then(one.id.cmp(&other.id)),
        },
    }
}

// The index of the pins with the same name and id. Lines are gathered in order, so only the last pins can have them.
fn find_gathered(gathered: &[PinLines], texts: &PinnedTexts) -> Option<usize>
    ensures within { IfSome result (λ at. at < length gathered.now) }
    ensures found { IfSome result (HoldsAt (λ k. (k.name ≡ texts.now.name) × (k.id ≡ texts.now.id))
        gathered.now) }
{
    let at = gathered.len().checked_sub(1)?;
    let last = &gathered[at];
    if last.id == texts.id && last.name == texts.name {
        return Some(at);
    }
    None
}

// Adds pinned texts to those with the same name and id, or at the end if there are none.
fn gather(gathered: &mut Vec<PinLines>, texts: PinnedTexts) -> Result<(), AllocError>
    ensures { OnOk result (AcceptsAlike (map pinned_key gathered.new.items)
        (map pinned_key gathered.old.items ++ pinned_key texts ∷ [])) }
{
    if let Some(at) = find_gathered(gathered, &texts) {
        return gathered[at].append(&texts);
    }
    let PinnedTexts { name, id, digests } = texts;
    gathered.push(PinLines { name, id, digests })?;
    Ok(())
}

// The shared keys of the lines, and their pins by name and id. Sorting brings lines with one name and id together.
fn gather_all(
    alloc: Global,
    lines: Vec<KeyLine>,
) -> Result<(Vec<KeyLine>, Vec<PinLines>), AllocError>
    ensures { IfOk result (λ both. AreGathered both.0.items both.1.items lines.items) }
{
    let mut lines = lines;
    lines.sort_by(|a, b| order(a, b))?;
    let mut secrets = Vec::new(alloc);
    let mut pins = Vec::new(alloc);
    for line in lines {
        match line {
            KeyLine::Hmac(key) => secrets.push(KeyLine::Hmac(key))?,
            KeyLine::Pin(texts) => gather(&mut pins, texts)?,
        }
    }
    Ok((secrets, pins))
}

// Adds the pins as one key.
fn add_pins(keys: &mut Vec<KeyLine>, pins: PinLines) -> Result<(), AllocError>
    ensures { OnOk result (AddsPins keys.old.items keys.new.items pins) }
{
    let PinLines { name, id, digests } = pins;
    keys.push(KeyLine::Pin(PinnedTexts::of_parts(name, id, digests)))?;
    Ok(())
}

/// The keys of the lines of a key file, with all pinned texts of one name and id in one `Pin`. So a text is hashed only once
/// for any number of pins. A note opens under these keys exactly if it opens under the keys of the lines. The shared keys
/// come first.
///
/// ```text
/// join_pins(alloc, read_keys(alloc, &bytes)?)?   // one key for a thousand lines `pin log 00000001 ..`
/// ```
///
/// # Errors
///
/// `AllocError` if memory was refused.
pub fn join_pins(alloc: Global, lines: Vec<KeyLine>) -> Result<Vec<KeyLine>, AllocError>
    ensures { IfOk result (λ joined. JoinsPins lines.items joined.items) }
{
    let (mut keys, pins) = gather_all(alloc, lines)?;
    for one in pins {
        add_pins(&mut keys, one)?;
    }
    Ok(keys)
}
