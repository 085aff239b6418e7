//! Names: what they stand for, what an assignment changes, what a call binds.

ghost use Rattle.std.specs.Prelude.{◌≡◌, [], IfOk};
ghost use Rattle.eval_rules.specs.Eval.{bound};
ghost use Rattle.eval_rules.specs.Names as spec;
ghost use Rattle.eval_rules.specs.Flow.{gives};
ghost use Rattle.sail_names.specs.Things.{things_of};
ghost use Rattle.sail_syntax.specs.View.{program_of};
ghost use Rattle.sail_values.specs.Slots.{look};
ghost use Rattle.sail_values.specs.declared.value.Value.TheVariants as values;
ghost use Rattle.state_core.specs.State.{widths_of};

use crate::locals::Locals;
use crate::world::World;
use lex_core::NoMemory;
use sail_names::Thing;
use sail_syntax::Param;
use sail_typed::Typed;
use sail_values::{Local, Value, nth};
use std::alloc::Global;

/// The value of a name of the program.
fn value_in(thing: Option<Thing>, world: &World) -> Value
    ensures { result ≡ spec.value_in thing world.now.state }
{
    match thing {
        Some(Thing::Register(reg)) => Value::Bits(world.register(reg)),
        Some(Thing::Member { of, index }) => Value::Member { of, index },
        Some(Thing::Given(_) | Thing::Function(_)) | None => Value::Unit,
    }
}

/// The value of a name: of a local, or of a name of the program.
pub fn read(typed: &Typed, name: &[u8], locals: &Locals<'_>, world: &World) -> Value
    ensures { result ≡ spec.read_of (things_of (program_of typed.now)) (look name.now locals.now) name.now world.now.state }
{
    match locals.look(name) {
        Some(Local::Is(value)) => value,
        Some(Local::Counts(_)) => Value::Unit,
        None => value_in(typed.thing(name), world),
    }
}

/// Writes a value to a name of the program.
fn put(thing: Option<Thing>, value: Value, world: &mut World)
    ensures value { world.new ≡ spec.in_state (spec.assigned thing value world.old.state) world.old }
    ensures widths { widths_of world.new.state ≡ widths_of world.old.state }
{
    match thing {
        Some(Thing::Register(reg)) => world.put(reg, value),
        Some(Thing::Member { .. } | Thing::Given(_) | Thing::Function(_)) | None => (),
    }
}

/// An assignment to a local, or to a register.
pub fn write(typed: &Typed, name: &[u8], value: Value, locals: &mut Locals<'_>, world: &mut World)
    ensures value { spec.write (things_of (program_of typed.now)) name.now value locals.old world.old ≡ gives values.Unit locals.new world.new }
    ensures widths { widths_of world.new.state ≡ widths_of world.old.state }
{
    if !locals.assign(name, value) {
        put(typed.thing(name), value, world);
    }
}

/// The locals of a function that is called with these values.
pub fn bound<'a>(alloc: Global, params: &'a [Param], args: &[Value]) -> Result<Locals<'a>, NoMemory>
    ensures { IfOk result (λ locals. locals ≡ bound params.now args.now 0 []) }
{
    let mut locals = Locals::new(alloc);
    for (at, param) in params.iter().enumerate() {
        locals.enter(param.name.bytes(), Local::Is(nth(at, args)))?;
    }
    Ok(locals)
}
