//! The arguments of the command line.
ghost use Rattle.std.specs.Prelude.{◌≡◌, [], ◌∷◌, drop, map, string_bytes, IfOk, IfErr, IsErr, OnOk, OnErr};
ghost use Rattle.std.specs.IoError.{error_kind};
ghost use Rattle.std.specs.declared.io.ErrorKind.TheVariants.{OutOfMemory};
ghost use Rattle.std.specs.Vec.Iter.{into_iter_items};

use std::alloc::{AllocError, Global};
use std::env::Args;
use std::io;
use std::io::ErrorKind;
use std::rt::Env;

/// The arguments of the command line, without the program's name. If one of them isn't text these are three empty words,
/// which are malformed for every program.
pub fn arguments<R: Env + AllocGlobal>(rt: &R) -> Result<Vec<String>, AllocError> {
    words_after_name(rt.alloc(), std::env::args(rt))
}

/// All of these arguments but the first, or what stands for them if one isn't text or memory ran out.
fn words_after_name(alloc: Global, all: io::Result<Args>) -> Result<Vec<String>, AllocError>
    ensures words { IfOk all (λ args. IfOk result (λ words.
        map string_bytes words.items ≡ drop 1 (map string_bytes (into_iter_items args)))) }
    ensures empty { IfErr all (λ _. IfOk result (λ words. map string_bytes words.items ≡ [] ∷ [] ∷ [] ∷ [])) }
    ensures memory { IfErr all (λ error. error_kind error ≡ OutOfMemory → IsErr result) }
{
    match all {
        Ok(all) => {
            let all = all.collect(alloc)?;
            Ok(after_name(all))
        }
        Err(error) => words_at_fault(alloc, error.kind()),
    }
}

/// All arguments but the first, which is the program's name.
fn after_name(mut all: Vec<String>) -> Vec<String>
    ensures { map string_bytes result.items ≡ drop 1 (map string_bytes all.items) }
{
    if !all.is_empty() {
        let _name = all.remove(0);
    }
    all
}

/// Three empty words instead of arguments of which one isn't text; or none if memory ran out, where that was the fault.
/// No command has an empty name, no pair of a gateway is empty, and any other program takes two words at most.
fn words_at_fault(alloc: Global, fault: ErrorKind) -> Result<Vec<String>, AllocError>
    ensures memory { fault ≡ OutOfMemory → IsErr result }
    ensures empty { IfOk result (λ words. map string_bytes words.items ≡ [] ∷ [] ∷ [] ∷ []) }
{
    if fault == ErrorKind::OutOfMemory {
        return Err(AllocError);
    }
    let mut words = Vec::new(alloc);
    words.push(String::new(alloc))?;
    words.push(String::new(alloc))?;
    words.push(String::new(alloc))?;
    Ok(words)
}
