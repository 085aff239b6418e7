//! The commands as they are declared to the parser.

ghost use Rattle.std.specs.Prelude.{◌≡◌, IfOk};
ghost use Rattle.clap.specs.Words.{app_of};
ghost use Rattle.command_words.specs.Apps.{app, check_app, trace_app};

use clap::{Arg, ArgAction, Command};
use std::alloc::{AllocError, Global};

/// `check`, with three names.
fn check<'a>(alloc: Global) -> Result<Command<'a>, AllocError>
    ensures { IfOk result (λ c. app_of c ≡ check_app) }
{
    let sail = Arg::new(alloc, "SAIL").required(true);
    let image = Arg::new(alloc, "IMAGE").required(true);
    let proof = Arg::new(alloc, "PROOF").required(true);
    let check = Command::new(alloc, "check")
        .arg(sail)?
        .arg(image)?
        .arg(proof)?;
    Ok(check)
}

/// `trace`, with a name, an opcode, and what is assumed of registers.
fn trace<'a>(alloc: Global) -> Result<Command<'a>, AllocError>
    ensures { IfOk result (λ c. app_of c ≡ trace_app) }
{
    let sail = Arg::new(alloc, "SAIL").required(true);
    let opcode = Arg::new(alloc, "OPCODE").required(true);
    let given = Arg::new(alloc, "REG=LIT").action(ArgAction::Append);
    let trace = Command::new(alloc, "trace")
        .arg(sail)?
        .arg(opcode)?
        .arg(given)?;
    Ok(trace)
}

/// The program's commands.
pub fn program<'a>(alloc: Global) -> Result<Command<'a>, AllocError>
    ensures { IfOk result (λ c. app_of c ≡ app) }
{
    let check = check(alloc)?;
    let trace = trace(alloc)?;
    let program = Command::new(alloc, "islaris")
        .no_binary_name(true)
        .disable_help_subcommand(true)
        .subcommand_required(true)
        .subcommand(check)?
        .subcommand(trace)?;
    Ok(program)
}
