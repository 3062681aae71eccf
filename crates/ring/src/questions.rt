ghost use Rattle.std.specs.Prelude.{List, MatchOption, MatchResult};
ghost use Rattle.ring.specs.Questions.{Question, AllYes, FirstNo, OneNumber, YesOrNo, Granted, RefusedBy};
ghost use Rattle.ring.specs.Refusals.{number_of};

use crate::refusals::Refusal;

// What is put questions before it is granted.
pub trait Questioned {
    ghost questions: { Self → List Question };

    // Puts them in their order, up to the first no.
    fn ask(&self) -> Result<(), Refusal>
        ensures { MatchResult result (λ _. AllYes (questions self.now)) (λ e. FirstNo (questions self.now) (number_of e)) };
}

// Of any questions: no two numbers are that of the first no, and there is none where all say yes.
fn one_answer<Q: Questioned>(asked: &Q)
    ensures number { OneNumber (Q.questions asked.now) }
    ensures either { YesOrNo (Q.questions asked.now) }
{
    let _ = asked;
}

// The refusal, none where it is granted. Whatever the questions are, its number is the only one of a
// first no, and nothing is both granted and refused.
pub fn refused_by<Q: Questioned>(asked: &Q) -> Option<Refusal>
    ensures { MatchOption result (Granted (Q.questions asked.now)) (λ r. RefusedBy (Q.questions asked.now) (number_of r)) }
{
    one_answer(asked);
    asked.ask().err()
}
