//! The process of the program: its arguments and its exit code.

ghost use Rattle.std.specs.Prelude.{◌≡◌, ◌⊎◌, IfErr, MatchResult};
ghost use Rattle.std.specs.Process.{exit_status};
ghost use Rattle.p3_merkle_core.specs.declared.error.MerkleTreeError.TheVariants.{OutOfMemory};
ghost use Rattle.mmcs_engine.specs.{declared.fault.Fault.TheVariants.Tree, declared.fault.Fault.TheVariants.Usage};
ghost use Rattle.mmcs_engine.specs.Faults.{status_of};

use crate::fault::Fault;
use std::alloc::{Alloc, AllocError, Global};
use std::env;
use std::env::Env;
use std::io::{Eprint, ErrorKind};
use std::process::ExitCode;

/// The arguments after the program's name.
///
/// # Errors
///
/// - `Tree(OutOfMemory)` if memory runs out;
/// - `Usage` if an argument is not UTF-8: no command has such an argument.
pub fn read_args<R: Env + Alloc<A = Global>>(rt: &R) -> Result<Vec<String>, Fault>
    ensures { IfErr result (λ fault. (fault ≡ Usage) ⊎ (fault ≡ Tree OutOfMemory)) }
{
    match env::args(rt) {
        Ok(args) => Ok(args.skip(1).collect(rt.alloc())?),
        Err(error) if error.kind() == ErrorKind::OutOfMemory => Err(Fault::from(AllocError)),
        Err(_) => Err(Fault::Usage),
    }
}

/// The exit code of a result: 0 for Ok, else that of the error, which is printed on standard error. An error whose line
/// cannot be written is reported by the exit code alone.
pub fn exit_code<R: Eprint>(rt: &R, answer: Result<(), Fault>) -> ExitCode
    ensures { MatchResult answer (λ ok. exit_status result ≡ 0) (λ fault. exit_status result ≡ status_of fault) }
{
    match answer {
        Ok(()) => ExitCode::SUCCESS,
        Err(fault) => {
            let _ = eprintln!(rt; "{fault}");
            ExitCode::from(fault.status())
        }
    }
}
