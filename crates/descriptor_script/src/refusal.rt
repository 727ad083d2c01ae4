//! A script that refuses once.
ghost use Rattle.std.specs.Prelude.{◌≡◌, [], ◌∷◌, ◌++◌, IfOk, replicate};

use crate::answer::Answer;
use std::alloc::{AllocError, Global};
use std::vec::{self, Vec};

/// The script of a device that gives `answer` at one of its calls: `place` words `Ok`, and then
/// `answer`. After it each word is `Ok` again. `place` counts from 0 the calls that create a pool or
/// allocate sets.
///
/// It fails if memory runs out, as for a script that is longer than a vector can be.
pub fn refuse_at(alloc: Global, place: usize, answer: Answer) -> Result<Vec<Answer>, AllocError>
    ensures { IfOk result (λ script. script.items
        ≡ replicate place Answer.Ok ++ answer ∷ []) }
{
    let mut script = vec![in alloc; Answer::Ok; place]?;
    script.push(answer)?;
    Ok(script)
}
