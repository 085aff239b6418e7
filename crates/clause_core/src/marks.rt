//! Room for the check of a certificate.

ghost use Rattle.std.specs.Prelude.{◌≤◌, IfOk};
ghost use Rattle.clause_core.specs.Derivation.{room_of};

use crate::Cert;
use crate::trail::Trail;
use lex_core::NoMemory;
use std::alloc::Global;
use std::marker::Model;

/// Room for the literals that are true in one step, which contracts see as their number.
#[derive(Drop)]
pub struct Marks {
    pub(crate) trail: Trail,
}

impl Model for Marks {
    ghost use Rattle.std.specs.Prelude.{ℕ};

    ghost Value = { ℕ };

    ghost view = { λ m. m.trail.room };
}

impl Marks {
    /// Room for each step of a certificate: for the literals of its clause, and one for each of its hints. A step with
    /// 2^32 of them or more is want of memory.
    pub fn for_cert(alloc: Global, cert: &Cert) -> Result<Marks, NoMemory>
        ensures { IfOk result (λ m. room_of cert.now.steps ≤ m) }
    {
        let mut room = 0usize;
        for step in cert.steps.as_slice() {
            let literals = step
                .clause
                .len()
                .checked_add(step.hints.len())
                .ok_or(NoMemory)?;
            room = room.max(literals);
        }
        Ok(Marks {
            trail: Trail::with_room(alloc, room)?,
        })
    }
}
