//! The faults of definitions.

ghost use Rattle.std.specs.Prelude.{◌≡◌, [], OnOk, map};
ghost use Rattle.sail_syntax.specs.Program.{function};
ghost use Rattle.sail_syntax.specs.View.{tree, definition_of};
ghost use Rattle.type_rules.specs.Faults.{first_from};
ghost use Rattle.type_rules.specs.Program.{height_faults, heights_after, types_faults, params_faults, params_scope, definition_faults, definitions_faults};
ghost use Rattle.type_rules.specs.Judge as spec;
ghost use Rattle.type_rules.specs.Rules as rules;
ghost use Rattle.sail_syntax.specs.declared.types.Ty.TheVariants as ty;
ghost use Rattle.type_names.specs.Borrowed.{maybe_type, maybe_fault};
ghost use Rattle.type_programs.specs.Functions.{function_at, function_faults};

use crate::vals::judge_val;
use crate::written::{known, taken, written};
use lex_core::{Name, NoMemory};
use sail_syntax::{Def, Expr, Param, Ty};
use std::alloc::Global;
use type_heights::Heights;
use type_judge::judge;
use type_names::{FaultRef, Globals, Locals, SortRef, TyRef, WhyRef, say};

/// How high calls may be stacked.
pub const MOST_CALLS: usize = 32;

/// Types that are written in a definition.
fn judge_types<'a>(globals: &Globals, at: usize, types: &'a [Ty], best: &mut Option<FaultRef<'a>>)
    ensures { maybe_fault best.new ≡ first_from (maybe_fault best.old) (types_faults globals.now at types.now) }
{
    for ty in types {
        written(globals, at, ty, best);
    }
}

/// Parameters: their types, and their names, which are locals.
fn judge_params<'a>(
    globals: &Globals,
    at: usize,
    params: &'a [Param],
    best: &mut Option<FaultRef<'a>>,
)
    ensures { maybe_fault best.new ≡ first_from (maybe_fault best.old) (params_faults globals.now at params.now) }
{
    for param in params {
        written(globals, at, &param.ty, best);
        taken(globals, &param.name, at, best);
    }
}

/// The parameters enter as the locals of a body.
fn enter_params<'a>(
    globals: &Globals,
    params: &'a [Param],
    locals: &mut Locals<'a>,
) -> Result<(), NoMemory>
    ensures { OnOk result (locals.new ≡ params_scope globals.now params.now locals.old) }
{
    for param in params {
        let sort = SortRef::Holds {
            ty: known(globals, &param.ty),
            assigned: false,
        };
        locals.enter(param.name.bytes(), sort)?;
    }
    Ok(())
}

/// A height that may be too great.
fn judge_height<'a>(name: &'a Name, at: usize, calls: usize, best: &mut Option<FaultRef<'a>>)
    ensures { maybe_fault best.new ≡ first_from (maybe_fault best.old) (height_faults name.now at calls) }
{
    if calls > MOST_CALLS {
        say(at, WhyRef::TooHigh(name.bytes()), best);
    }
}

/// The body of a function, over its parameters and no other locals.
fn judge_body<'a>(
    alloc: Global,
    globals: &'a Globals,
    here: usize,
    params: &'a [Param],
    want: Option<TyRef<'a>>,
    body: &'a Expr,
    best: &mut Option<FaultRef<'a>>,
) -> Result<(), NoMemory>
    ensures { OnOk result (maybe_fault best.new ≡ first_from (maybe_fault best.old)
        (spec.judge globals.now here (tree body.now) (maybe_type want.entry) (params_scope globals.now params.now [])).faults) }
{
    let mut locals = Locals::new(alloc);
    enter_params(globals, params, &mut locals)?;
    judge(globals, here, body, want, &mut locals, best)?;
    Ok(())
}

/// The parts of a function.
#[derive(Clone, Copy)]
struct FunctionRef<'a> {
    name: &'a Name,
    params: &'a [Param],
    gives: &'a Ty,
    body: &'a Expr,
    at: usize,
}

/// A function: its parameters, its result, its height, and its body.
fn judge_function<'a>(
    alloc: Global,
    globals: &'a Globals,
    here: usize,
    f: FunctionRef<'a>,
    above: &mut Heights<'a>,
    best: &mut Option<FaultRef<'a>>,
) -> Result<(), NoMemory>
    ensures first { OnOk result (maybe_fault best.new ≡ first_from (maybe_fault best.old) (function_faults globals.now f.entry above.old here)) }
    ensures heights { OnOk result (above.new ≡ heights_after (function (function_at f.entry)) above.old) }
{
    judge_params(globals, f.at, f.params, best);
    written(globals, f.at, f.gives, best);
    let calls = above.enter(f.name.bytes(), f.body)?;
    judge_height(f.name, f.at, calls, best);
    judge_body(
        alloc,
        globals,
        here,
        f.params,
        known(globals, f.gives),
        f.body,
        best,
    )
}

/// A register's width.
fn judge_register<'a>(globals: &Globals, width: u32, at: usize, best: &mut Option<FaultRef<'a>>)
    ensures { maybe_fault best.new ≡ first_from (maybe_fault best.old)
        (rules.written globals.now at (ty.Bits width)).faults }
{
    if width < 1 || 128 < width {
        let own = TyRef::Bits(width);
        say(
            at,
            WhyRef::Differs {
                want: own,
                got: own,
            },
            best,
        );
    }
}

/// A definition, where those functions stand above it, and those definitions below.
fn judge_definition<'a>(
    alloc: Global,
    globals: &'a Globals,
    here: usize,
    def: &'a Def,
    below: &'a [Def],
    above: &mut Heights<'a>,
    best: &mut Option<FaultRef<'a>>,
) -> Result<(), NoMemory>
    ensures first { OnOk result (maybe_fault best.new ≡ first_from (maybe_fault best.old)
        (definition_faults globals.now (definition_of def.now) above.old here (map definition_of below.now))) }
    ensures heights { OnOk result (above.new ≡ heights_after (definition_of def.now) above.old) }
{
    match def {
        Def::Order => Ok(()),
        Def::Register { width, at, .. } => {
            judge_register(globals, *width, *at, best);
            Ok(())
        }
        Def::Enum { .. } => Ok(()),
        Def::Val {
            name,
            args,
            result: gives,
            at,
        } => {
            judge_types(globals, *at, args.as_slice(), best);
            written(globals, *at, gives, best);
            judge_val(name, args.as_slice(), gives, *at, below, best);
            Ok(())
        }
        Def::Function {
            name,
            params,
            result: gives,
            body,
            at,
        } => {
            let f = FunctionRef {
                name,
                params: params.as_slice(),
                gives,
                body,
                at: *at,
            };
            judge_function(alloc, globals, here, f, above, best)
        }
    }
}

/// Definitions, each as if the faults of the others weren't there.
pub fn judge_definitions<'a>(
    alloc: Global,
    globals: &'a Globals,
    defs: &'a [Def],
    best: &mut Option<FaultRef<'a>>,
) -> Result<(), NoMemory>
    ensures { OnOk result (maybe_fault best.new ≡ first_from (maybe_fault best.old) (definitions_faults globals.now (map definition_of defs.now) [] 0)) }
{
    let mut above = Heights::new(alloc);
    let mut here = 0;
    while here < defs.len() {
        let below = &defs[here + 1..];
        judge_definition(alloc, globals, here, &defs[here], below, &mut above, best)?;
        here += 1;
    }
    Ok(())
}
