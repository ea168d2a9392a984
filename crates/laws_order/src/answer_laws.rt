ghost use Rattle.laws_order.specs.MainAnswers.{AnswersLoseNone};

/// Main's answer ends the run and changes nothing of the core, so no wake is lost in the state that is left.
#[tactic(auto, using(crate::proofs::AnswerLemmas::answers_lose_none))]
pub fn answers_lose_none()
    ensures { AnswersLoseNone }
{}
