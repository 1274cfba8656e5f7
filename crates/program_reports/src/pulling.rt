//! The report on a pull.
ghost use Rattle.std.specs.Prelude.{◌≡◌, IfOk, string_bytes};
ghost use Rattle.program_reports.specs.Pulling.{IsPulledStatus, rounds_text, head_text, pulled_lines};

use mirror_pull::Pulled;
use std::alloc::{AllocError, Global};
use tlog_hash::Hash;
use tlog_text::push_hash;

/// The result of a pull as two lines: `pulled SIZE ROOT rounds N refused N`, and `complete` or `partial`. The root is in
/// standard base64.
///
/// ```text
/// pulled 3 rra8/idLcKFPsGel5VeCZNsPqbUa9eC6FZFY8yngbnc= rounds 1 refused 0
/// complete
/// ```
///
/// # Errors
///
/// Memory was refused.
pub fn pulled_text(alloc: Global, pulled: &Pulled) -> Result<String, AllocError>
    ensures { IfOk result (λ text. string_bytes text ≡ pulled_lines pulled.now) }
{
    let mut text = pulled_point(alloc, pulled.size, &pulled.root)?;
    let counts = counts_of(alloc, pulled.rounds, pulled.refused)?;
    text.push_str(counts.as_str())?;
    text.push_str(if pulled.complete {
        "complete\n"
    } else {
        "partial\n"
    })?;
    Ok(text)
}

// The beginning of the first line.
fn pulled_point(alloc: Global, size: u64, root: &Hash) -> Result<String, AllocError>
    ensures { IfOk result (λ text. string_bytes text ≡ head_text size root.now) }
{
    let mut text = format!(in alloc; "pulled {size} ")?;
    push_hash(&mut text, root)?;
    Ok(text)
}

// The rest of the first line.
fn counts_of(alloc: Global, rounds: u32, refused: u64) -> Result<String, AllocError>
    ensures { IfOk result (λ text. string_bytes text ≡ rounds_text rounds refused) }
{
    format!(in alloc; " rounds {rounds} refused {refused}\n")
}

/// The exit status of a pull: 0 if the tree head is complete, else 3.
///
/// ```text
/// pulled_status(&pulled) // 0
/// ```
pub fn pulled_status(pulled: &Pulled) -> u8
    ensures { IsPulledStatus pulled.now result }
{
    if pulled.complete { 0 } else { 3 }
}
