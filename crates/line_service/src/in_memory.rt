ghost use Rattle.std.specs.Prelude.{IfOk, IfErr};
ghost use Rattle.rows.specs.Kinds.{on_off_same};
ghost use Rattle.ledger.specs.Questions.{questions_by};
ghost use Rattle.line_service.specs.Service.{AnswersAll, AnswersNot};

use crate::service_error::ServiceError;
use crate::serving::serve;
use crate::transcript::Transcript;
use rows::OnOff;
use signatures::Signature;
use std::alloc::Allocator;

/// Answers all lines of an input that is in memory. Where memory runs out, it is left open which lines were played.
pub fn answers_to<P: Signature<OnOff>, A: Allocator>(
    alloc: A,
    slots: usize,
    memory: &mut [OnOff],
    pile: &P,
    input: &[u8],
) -> Result<Vec<u8, A>, ServiceError>
    ensures answered { IfOk result (λ text. AnswersAll (questions_by on_off_same P.Signature.count P.Signature.value) pile.now slots input.now memory.old memory.new text.items) }
    ensures refused { IfErr result (AnswersNot slots memory.old memory.new) }
{
    let mut transcript = Transcript {
        input,
        output: Vec::new(alloc),
    };
    serve(slots, memory, pile, &mut transcript)?;
    Ok(transcript.output)
}
