//! Laws of questions and answers: each function has an empty body, and its contract is the law.
ghost use Rattle.std.specs.Prelude.{◌≡◌, ◌≢◌, ℕ, ◌<◌, ◌≤◌, ◌^◌, ◌∷◌, List, length};
ghost use Rattle.secured_pdu.specs.Frame.{authenticated_input, IsPayload};
ghost use Rattle.counter_answers.specs.Answering.{answer_input, IsQuestion, AnswersWith, SharesMac, TellsWith};
ghost use Rattle.counter_answers.specs.declared.answering.CounterQuestion.{CounterQuestion};

/// The input of an answer has 88 bytes: that of a PDU has at most 70, and no message of a key update has more than 48.
/// It begins with no zero byte, as that of a boot MAC does.
pub fn an_answer_input_is_no_other()
    ensures length { (q : CounterQuestion) (counter : ℕ) → IsQuestion q → length (answer_input q counter) ≡ 88 }
    ensures pdu { (q : CounterQuestion) (counter id : ℕ) (payload : List ℕ) (freshness : ℕ) → IsQuestion q
        → IsPayload payload → answer_input q counter ≢ authenticated_input id payload freshness }
    ensures update { (q : CounterQuestion) (counter : ℕ) (message : List ℕ) → IsQuestion q → length message ≤ 48
        → answer_input q counter ≢ message }
    ensures boot { (q : CounterQuestion) (counter : ℕ) (rest : List ℕ) → answer_input q counter ≢ 0 ∷ rest }
{}

/// The input is that of one question and one counter.
pub fn an_answer_input_is_one_to_one()
    ensures { (q p : CounterQuestion) (counter other : ℕ) → IsQuestion q → IsQuestion p → counter < 2 ^ 64
        → other < 2 ^ 64 → answer_input q counter ≡ answer_input p other → (q ≡ p) × (counter ≡ other) }
{}

/// An answer tells one counter, whatever its MAC is.
pub fn an_answer_tells_one_counter()
    ensures { (mac mac' : List ℕ) (counter counter' : ℕ) (answer : List ℕ) → TellsWith mac counter answer
        → TellsWith mac' counter' answer → counter ≡ counter' }
{}

/// If one answer does for two questions, two messages have one CMAC. So whoever has no key can take no answer for
/// another's, and no unit its own for that of another unit.
pub fn an_answer_is_to_one_question()
    ensures { (key : List ℕ) (q p : CounterQuestion) (counter other : ℕ) (answer : List ℕ) → IsQuestion q → IsQuestion p
        → AnswersWith key q counter answer → AnswersWith key p other answer → q ≢ p
        → SharesMac key (answer_input q counter) (answer_input p other) }
{}
