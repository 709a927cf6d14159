// Kinds and replies as they are printed.
ghost use Rattle.std.specs.Prelude.{◌≡◌, IfOk, Some, string_bytes};
ghost use Rattle.join.specs.Texts.{kind_text, reply_text};

use crate::draft::OrderKind;
use faults::Fault;
use jobs::fault::JobFault;
use records::Counts;
use std::alloc::{AllocError, Global};
use std::fmt;

// A kind as sheets spell it: a word, a range in brackets, or `any`.
pub(crate) fn kind_text(heap: Global, kind: OrderKind) -> Result<String, AllocError>
    ensures { IfOk result (λ s. string_bytes s ≡ kind_text kind) }
{
    kind.to_string(heap)
}

// The reply to a step: how many places and slots stand, or why the step was refused.
#[derive(Clone, Copy)]
pub(crate) struct Reply(pub(crate) Result<Counts, JobFault>);

impl fmt::Display for Reply {
    ghost output = { λ reply. Some (reply_text reply.0) };

    fn fmt<W: fmt::Write>(&self, f: &mut fmt::Formatter<W>) -> fmt::Result {
        match self.0 {
            Ok(Counts { places, slots }) => write!(f, "ok {places} {slots}"),
            Err(fault) => write!(f, "no {}", fault.number()),
        }
    }
}
