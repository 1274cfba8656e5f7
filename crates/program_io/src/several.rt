//! Several files, read in order.
ghost use Rattle.std.specs.Prelude.{map};
ghost use Rattle.tlog_text.specs.Answers.{seen};
ghost use Rattle.program_io.specs.Named.{ReadsFiles};

use crate::file_fault::NamedFault;
use crate::named::NamedFiles;
use std::alloc::Global;

/// The bytes of each of the files, in order.
///
/// ```text
/// read_files(&files, alloc, &["a.note", "b.note"])?   // the bytes of both
/// ```
///
/// # Errors
///
/// That of `read` for the first file that it cannot read; the files behind it are not read. `OutOfMemory` if memory was refused.
pub fn read_files<F: NamedFiles>(
    files: &F,
    alloc: Global,
    names: &[&str],
) -> Result<Vec<Vec<u8>>, NamedFault>
    ensures { ReadsFiles (F.puts files.now) (map (λ name. name.now) names.now)
        (seen (λ held. map (λ bytes. bytes.items) held.items) result) }
{
    let mut held = Vec::new(alloc);
    for name in names {
        let bytes = files.read(name)?;
        match held.push(bytes) {
            Ok(()) => {}
            Err(_) => return Err(NamedFault::OutOfMemory),
        }
    }
    Ok(held)
}
